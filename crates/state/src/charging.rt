// What a use is charged, and what it makes of the account (use-1 to use-15, half-1 to half-7).
ghost use Rattle.std.specs.Prelude.{◌≡◌, true, false, ◌+◌, ◌-◌, ◌≤◌, ◌<◌};
ghost use Rattle.tariff.specs.Tests.{between};
ghost use Rattle.tariff.specs.Units.{◌⊕◌, AtMost};
ghost use Rattle.presence.specs.Log.{lifetime_most};
ghost use Rattle.state.specs.Use.{charged_as, charged_units, billable, roaming, billed_of, surcharged_of};
ghost use Rattle.state.specs.Use.{surcharged_units, billed_after, newly_surcharged, basis_after, spent, notice_of, charge_of};
ghost use Rattle.state.specs.Sound.{counters_sound};
ghost use Rattle.state.specs.Reasons.{overfills, use_state};
ghost use Rattle.state.specs.Needs.{bears, bill_of, Ready, Steady, Spends};

use super::{Bill, Charge, Meters, Outcome, State, StateApplied};
use presence::{Location, ServiceState, Services};
use tariff::{Allowance, Kind, Place, Plan, Refusal, Units};

// As how many units a record of n units is charged: an outgoing one in the zone as 30 at least.
#[tactic(auto, unfolding(crate::specs::Use::charged_as))]
fn charged_as(w: Location, k: Kind, n: u64) -> u64
    ensures { result ≡ charged_as w k n }
{
    match k {
        Kind::Outgoing if presence::days::zone_at(w) => n.max(30),
        _ => n,
    }
}

// The units that a record of n units is charged for.
#[tactic(auto, unfolding(crate::specs::Use::charged_units))]
fn charged_units(w: Location, k: Kind, n: u64) -> Units
    ensures { result ≡ charged_units w k n }
{
    tariff::amounts::only_of(k, charged_as(w, k, n))
}

// Does the home price bear there?
pub fn bears_home_price(w: Location) -> bool
    ensures { result ≡ bears w }
{
    matches!(w, Some(Place::Home | Place::Zone))
}

#[tactic(auto, unfolding(crate::specs::Use::billable))]
fn billable_of(w: Location, u: Units) -> Units
    ensures { result ≡ billable w u }
{
    if bears_home_price(w) {
        u
    } else {
        Units::default()
    }
}

// kept: beside `billable_of`; one for both would take the test of the place, and be no shorter.
#[tactic(auto, unfolding(crate::specs::Use::roaming))]
fn roaming_of(w: Location, u: Units) -> Units
    ensures { result ≡ roaming w u }
{
    if presence::days::zone_at(w) {
        u
    } else {
        Units::default()
    }
}

#[tactic(auto, unfolding(crate::specs::Use::billed_of))]
fn billed_units(p: Plan, h: u64, u: Units) -> Units
    ensures { result ≡ billed_of p h u }
{
    Units {
        kb: tariff::charges::billed_of(p.form, p.volume, h, u.kb),
        incoming: 0,
        ..u
    }
}

#[tactic(auto, unfolding(crate::specs::Use::surcharged_of))]
fn surcharged_part(s: ServiceState, past: u64, n: u64) -> u64
    ensures { result ≡ surcharged_of s past n }
{
    match s {
        ServiceState::Clear | ServiceState::Warned(_) => past,
        ServiceState::Surcharged => n,
    }
}

#[tactic(auto, unfolding(crate::specs::Use::surcharged_units))]
fn surcharged_of(s: Services, l: Allowance, r: u64, z: Units) -> Units
    ensures { result ≡ surcharged_units s l r z }
{
    let past = tariff::charges::past_allowance(l, r, z.kb);
    Units {
        kb: surcharged_part(s.internet, past, z.kb),
        outgoing: surcharged_part(s.calls, 0, z.outgoing),
        incoming: surcharged_part(s.calls, 0, z.incoming),
        sms: surcharged_part(s.messages, 0, z.sms),
    }
}

// Priced units of the account after a use charged as c, of which so much is billable.
#[tactic(auto, using(crate::proofs::Billing::billed_sum), unfolding(crate::specs::Use::billed_after))]
fn billed_with(a: &State, c: Units, borne: Units) -> Units
    requires ready { Ready a.now c }
    requires borne { borne ≡ billable a.now.place c }
    ensures { result ≡ billed_after a.now c }
{
    tariff::amounts::plus(
        a.meters.billed,
        billed_units(a.plan, a.quota.monthly, borne),
    )
}

// The units of such a use that bear a surcharge, where these of it roam.
#[tactic(auto, unfolding(crate::specs::Use::newly_surcharged))]
fn surcharged_now(a: &State, c: Units, zone: Units) -> Units
    requires { zone ≡ roaming a.now.place c }
    ensures { result ≡ newly_surcharged a.now c }
{
    surcharged_of(a.services, a.quota.allowance, a.quota.roamed, zone)
}

// The sums of cap x units after it, where these bear a surcharge.
#[tactic(auto, using(crate::proofs::Billing::basis_product, crate::proofs::Billing::basis_sum), unfolding(crate::specs::Use::basis_after))]
fn basis_with(a: &State, c: Units, fresh: Units) -> Units
    requires ready { Ready a.now c }
    requires fresh { fresh ≡ newly_surcharged a.now c }
    ensures { result ≡ basis_after a.now c }
{
    let rate = tariff::caps::caps_of(a.day);
    tariff::amounts::plus(a.meters.basis, tariff::amounts::times(rate, fresh))
}

// What a use charged as c makes of the sums.
#[tactic(auto, using(crate::proofs::Billing::price_fits, crate::proofs::Billing::basis_fits), unfolding(crate::specs::Needs::bill_of, crate::specs::Use::home_after, crate::specs::Use::extra_after))]
fn work_out(a: &State, c: Units) -> Bill
    requires { Ready a.now c }
    ensures { result ≡ bill_of a.now c }
{
    let borne = billable_of(a.place, c);
    let zone = roaming_of(a.place, c);
    let billed = billed_with(a, c, borne);
    let fresh = surcharged_now(a, c, zone);
    let basis = basis_with(a, c, fresh);
    Bill {
        billed,
        fresh,
        basis,
        home: tariff::charges::home_of(a.plan, billed),
        extra: tariff::charges::surcharges_from(basis),
        counted: tariff::charges::counted_of(a.plan.form, borne.kb),
        zone: zone.kb,
    }
}

// All but the log after a use of u units, charged as c, whose bill this is.
fn spend(mut a: State, u: Units, c: Units, b: Bill) -> State
    requires { Spends a c b × AtMost (a.meters.lifetime ⊕ u) lifetime_most }
    ensures { result ≡ spent a u c }
{
    a.money.credit -= (b.home - a.money.homecharges) + (b.extra - a.money.surcharges);
    a.money.homecharges = b.home;
    a.money.surcharges = b.extra;
    a.meters = Meters {
        lifetime: tariff::amounts::plus(a.meters.lifetime, u),
        chargedseconds: a.meters.chargedseconds + c.outgoing,
        billed: b.billed,
        surcharged: tariff::amounts::plus(a.meters.surcharged, b.fresh),
        basis: b.basis,
    };
    a.quota.monthly += b.counted;
    a.quota.roamed += b.zone;
    a.today = presence::days::added(a.place, u, presence::days::marked(a.place, a.today));
    a
}

fn notice_at(l: Allowance, before: u64, now: u64) -> bool
    ensures { result ≡ notice_of l before now }
{
    match l {
        None => false,
        Some(m) => (before < m) & (m <= now),
    }
}

// What a use charged as c answers, whose bill this is.
fn charge_on(a: State, k: Kind, c: Units, b: Bill) -> Charge
    requires { Spends a c b }
    ensures { result ≡ charge_of a k c }
{
    Charge {
        home: b.home - a.money.homecharges,
        extra: b.extra - a.money.surcharges,
        surcharged: tariff::amounts::amount(k, b.fresh),
        charged: tariff::amounts::amount(k, c),
        notice: notice_at(a.quota.allowance, a.quota.roamed, a.quota.roamed + b.zone),
    }
}

// Is n from l to h?
pub fn within(l: u64, n: u64, h: u64) -> bool
    ensures { result ≡ between l n h }
{
    (l <= n) & (n <= h)
}

// Refusal 5: would the use pass a limit, that of the lifetime units or that of the charged seconds?
#[tactic(auto, using(crate::proofs::Verdicts::kind_most, crate::proofs::Verdicts::seconds_most), unfolding(crate::specs::Reasons::overfills))]
fn overfills(a: State, k: Kind, n: u64) -> bool
    requires { (counters_sound a ≡ true) × (n ≤ 1000000000) }
    ensures { result ≡ overfills a k n }
{
    let c = charged_units(a.place, k, n);
    (tariff::amounts::amount(k, a.meters.lifetime) + n > 1000000000000)
        | (a.meters.chargedseconds + c.outgoing > 1000000000000)
}

// A use on a sound account: refusals 3, 4, 5, 6, or its charge.
pub fn use_of(a: State, k: Kind, n: u64) -> StateApplied
    requires { Steady a }
    ensures { result ≡ use_state a k n }
{
    if !presence::days::placed(a.place) {
        return super::declined(a, Refusal::Unplaced);
    }
    if !within(1, n, 1000000000) {
        return super::declined(a, Refusal::UnitCount);
    }
    if overfills(a, k, n) {
        return super::declined(a, Refusal::MeterFull);
    }
    let c = charged_units(a.place, k, n);
    let b = work_out(&a, c);
    if (b.home - a.money.homecharges) + (b.extra - a.money.surcharges) > a.money.credit {
        return super::declined(a, Refusal::OverCredit);
    }
    StateApplied {
        answer: Ok(Outcome::Charged(charge_on(a, k, c, b))),
        state: spend(a, tariff::amounts::only_of(k, n), c, b),
    }
}
