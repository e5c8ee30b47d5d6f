// What a use of one kind costs, from that kind's own figures: for Afford, which asks for the cost of many amounts.
#![tactic(auto)]

pub mod claims;

ghost use Rattle.std.specs.Prelude.{◌≡◌, ◌+◌, ◌-◌, ◌*◌, ◌≤◌, ◌<◌, cond};
ghost use Rattle.state.specs.Needs.{Steady};
ghost use Rattle.quotes.specs.Quotes.{points, price_of, least_charged, seconds_left, free_kb, free_of, left_of};
ghost use Rattle.quotes.specs.Quotes.{inside_part, inside_of, spent_so_far, quote_of, within_quote, Quotable};

use presence::{Location, ServiceState, Services};
use state::State;
use tariff::{Allowance, Form, Kind, Plan};

// What a use of one kind costs rests on: the fewest units that a record is charged for, the units that the meters can
// take yet, and the charged seconds; the units before the first that bears the home price, its price and what is priced
// so far; the same of the surcharge, with the cap; and the points for the kind, with those that it took already.
#[derive(Clone, Copy)]
pub struct Quote {
    pub kind: Kind,
    pub least: u64,
    pub room: u64,
    pub seconds: u64,
    pub free: u64,
    pub price: u64,
    pub billed: u64,
    pub inside: u64,
    pub cap: u64,
    pub basis: u64,
    pub funds: u64,
}

// The points that a sum of price x units, or of cap x units, comes to in a kind.
fn points_of(k: Kind, x: u64) -> u64
    ensures { result ≡ points k x }
{
    match k {
        Kind::Data => x / 1048576,
        Kind::Outgoing | Kind::Incoming => x / 60,
        Kind::Sms => x,
    }
}

fn price_of(p: Plan, k: Kind) -> u64
    ensures { result ≡ price_of p k }
{
    match k {
        Kind::Data => p.pergb,
        Kind::Outgoing => p.perminute,
        Kind::Incoming => 0,
        Kind::Sms => p.persms,
    }
}

// The fewest units that a record is charged for.
fn least_charged(w: Location, k: Kind) -> u64
    ensures { result ≡ least_charged w k }
{
    match k {
        Kind::Outgoing if presence::days::zone_at(w) => 30,
        _ => 0,
    }
}

// The charged units that the meter of charged seconds can take yet.
fn seconds_left(a: &State, k: Kind) -> u64
    ensures { result ≡ seconds_left a.now k }
{
    match k {
        Kind::Outgoing => 1000000000000u64.saturating_sub(a.meters.chargedseconds),
        Kind::Data | Kind::Incoming | Kind::Sms => 1000000000000,
    }
}

fn free_kb(f: Form, volume: u64, h: u64) -> u64
    ensures { result ≡ free_kb f volume h }
{
    match f {
        Form::Prepaid => 0,
        Form::Bundle => volume.saturating_sub(h),
        Form::Unlimited => 1000000000,
    }
}

// The units of a kind that come before the first that bears the home price, where it bears.
fn free_of(p: Plan, h: u64, k: Kind) -> u64
    ensures { result ≡ free_of p h k }
{
    match k {
        Kind::Data => free_kb(p.form, p.volume, h),
        Kind::Outgoing | Kind::Sms => 0,
        Kind::Incoming => 1000000000,
    }
}

fn left_of(l: Allowance, r: u64) -> u64
    ensures { result ≡ left_of l r }
{
    match l {
        None => 1000000000,
        Some(m) => m.saturating_sub(r),
    }
}

fn inside_part(s: ServiceState, n: u64) -> u64
    ensures { result ≡ inside_part s n }
{
    match s {
        ServiceState::Clear | ServiceState::Warned(_) => n,
        ServiceState::Surcharged => 0,
    }
}

// The units of a kind that come before the first that bears a surcharge, in the zone.
fn inside_of(s: Services, l: Allowance, r: u64, k: Kind) -> u64
    ensures { result ≡ inside_of s l r k }
{
    match k {
        Kind::Data => inside_part(s.internet, left_of(l, r)),
        Kind::Outgoing | Kind::Incoming => inside_part(s.calls, 1000000000),
        Kind::Sms => inside_part(s.messages, 1000000000),
    }
}

// What the kind has come to so far.
fn spent_so_far(a: &State, k: Kind) -> u64
    requires { Steady a.now }
    ensures { result ≡ spent_so_far a.now k }
{
    let priced = price_of(a.plan, k) * tariff::amounts::amount(k, a.meters.billed);
    points_of(k, priced) + points_of(k, tariff::amounts::amount(k, a.meters.basis))
}

// Of these units where the place counts for the charge, else as many as a use may have.
fn where_it_bears(bears: bool, units: u64) -> u64
    ensures { result ≡ cond bears units 1000000000 }
{
    if bears { units } else { 1000000000 }
}

// A kind's own figures on a sound account.
#[tactic(auto, unfolding(crate::specs::Quotes::quote_of))]
pub fn quote_of(a: State, k: Kind) -> Quote
    requires { Steady a }
    ensures { result ≡ quote_of a k }
{
    let free = free_of(a.plan, a.quota.monthly, k);
    let inside = inside_of(a.services, a.quota.allowance, a.quota.roamed, k);
    Quote {
        kind: k,
        least: least_charged(a.place, k),
        room: 1000000000000u64.saturating_sub(tariff::amounts::amount(k, a.meters.lifetime)),
        seconds: seconds_left(&a, k),
        free: where_it_bears(state::charging::bears_home_price(a.place), free),
        price: price_of(a.plan, k),
        billed: tariff::amounts::amount(k, a.meters.billed),
        inside: where_it_bears(presence::days::zone_at(a.place), inside),
        cap: tariff::amounts::amount(k, tariff::caps::caps_of(a.day)),
        basis: tariff::amounts::amount(k, a.meters.basis),
        funds: a.money.credit + spent_so_far(&a, k),
    }
}

// Are n units within the meters and the funds?
#[tactic(auto, unfolding(crate::specs::Quotes::within_quote, crate::specs::Quotes::quoted))]
pub fn within_quote(q: Quote, n: u64) -> bool
    requires { Quotable q × (n ≤ 1000000000) }
    ensures { result ≡ within_quote q n }
{
    let c = n.max(q.least);
    let home = points_of(q.kind, q.price * (q.billed + c.saturating_sub(q.free)));
    let extra = points_of(q.kind, q.basis + q.cap * c.saturating_sub(q.inside));
    (n <= q.room) & (c <= q.seconds) & (home + extra <= q.funds)
}
