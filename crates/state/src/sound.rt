// Soundness of all but the log (sound-1 to sound-6, sound-8 to sound-11, half-6).
ghost use Rattle.std.specs.Prelude.{◌≡◌, true, false, ◌+◌, ◌-◌, ◌*◌, ◌<◌, min, leb};
ghost use Rattle.tariff.specs.Units.{each, ◌⊗◌, fits};
ghost use Rattle.presence.specs.Log.{lifetime_most};
ghost use Rattle.state.specs.Sound.{chargeable, allowance_fits, warning_fits, counters_sound, charges_sound};

use super::State;
use presence::ServiceState;
use tariff::{Allowance, Units};

fn allowance_fits(l: Allowance) -> bool
    ensures { result ≡ allowance_fits l }
{
    match l {
        None => true,
        Some(n) => n <= 2000000000000000,
    }
}

fn warning_fits(s: ServiceState) -> bool
    ensures { result ≡ warning_fits s }
{
    match s {
        ServiceState::Warned(n) => n <= 14,
        ServiceState::Clear | ServiceState::Surcharged => true,
    }
}

// Is c at most 20,000 x n? A product that is past every number is held at the largest, which c is at most, too.
fn sum_fits(c: u64, n: u64) -> bool
    ensures { result ≡ leb c (20000 * n) }
{
    c <= n.saturating_mul(20000)
}

fn basis_fits(c: Units, n: Units) -> bool
    ensures { result ≡ fits c (each 20000 20000 20000 20000 ⊗ n) }
{
    sum_fits(c.kb, n.kb)
        & sum_fits(c.outgoing, n.outgoing)
        & sum_fits(c.incoming, n.incoming)
        & sum_fits(c.sms, n.sms)
}

// How many days have to be logged (sound-10).
fn days_logged(start: u64, day: u64) -> u64
    ensures { result ≡ min 123 (day - start) }
{
    day.saturating_sub(start).min(123)
}

fn lifetime_fits(u: Units) -> bool
    ensures { result ≡ fits u lifetime_most }
{
    let most = Units {
        kb: 1000000000000,
        outgoing: 1000000000000,
        incoming: 1000000000000,
        sms: 1000000000000,
    };
    tariff::amounts::units_fit(u, most)
}

// What priced and surcharged units may come to.
#[tactic(auto, unfolding(crate::specs::Sound::chargeable))]
fn chargeable_of(a: State) -> Units
    ensures { result ≡ chargeable a }
{
    Units {
        outgoing: a.meters.chargedseconds,
        ..a.meters.lifetime
    }
}

// Are the account's counters sound, one by one? Any values will do.
#[tactic(auto, unfolding(crate::specs::Sound::counters_sound, tariff::specs::Tests::all))]
pub fn counters_fit(a: State) -> bool
    ensures { result ≡ counters_sound a }
{
    let chargeable = chargeable_of(a);
    tariff::plans::check_plan(a.plan).is_ok()
        & (a.plan.start <= a.day)
        & (a.day <= 3833)
        & lifetime_fits(a.meters.lifetime)
        & (a.meters.chargedseconds <= 1000000000000)
        & (a.money.paid <= 1000000000)
        & (a.quota.roamed <= a.meters.lifetime.kb)
        & (a.quota.monthly <= a.meters.lifetime.kb)
        & tariff::amounts::units_fit(a.meters.billed, chargeable)
        & tariff::amounts::units_fit(a.meters.surcharged, chargeable)
        & basis_fits(a.meters.basis, a.meters.surcharged)
        & allowance_fits(a.quota.allowance)
        & (a.logged == days_logged(a.plan.start, a.day))
        & warning_fits(a.services.internet)
        & warning_fits(a.services.calls)
        & warning_fits(a.services.messages)
}

// Are the charges as worked out, and does the money balance?
pub fn charges_fit(a: State) -> bool
    requires { counters_sound a ≡ true }
    ensures { result ≡ charges_sound a }
{
    let home = tariff::charges::home_of(a.plan, a.meters.billed);
    let extra = tariff::charges::surcharges_from(a.meters.basis);
    if a.money.homecharges != home {
        return false;
    }
    if a.money.surcharges != extra {
        return false;
    }
    if a.money.credit > a.money.paid {
        return false;
    }
    a.money.paid - a.money.credit == home + extra
}
