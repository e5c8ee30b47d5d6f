// An account as 1,649 numbers: docs/LIBRARY.md has the layout.
#![tactic(auto)]

pub mod claims;

ghost use Rattle.std.specs.Prelude.{◌≡◌, true, ◌++◌, ◌+◌, ◌≤◌, ◌<◌, length, take, drop};
ghost use Rattle.tariff.specs.Plan.{form_word};
ghost use Rattle.state.specs.Sound.{allowance_fits, warning_fits};
ghost use Rattle.numbers.specs.Numbers.{place_number, place_from, allowance_number, allowance_from};
ghost use Rattle.numbers.specs.Numbers.{service_number, service_from, terms_from, money_from};
ghost use Rattle.numbers.specs.Numbers.{front_numbers, meters_numbers, quota_numbers, end_numbers};
ghost use Rattle.numbers.specs.Numbers.{meters_from, quota_from, services_from, state_numbers, state_from};
ghost use Rattle.numbers.specs.Numbers.{log_part, rest_part, account_from, tags_known, is_account, Writable};

use presence::{Location, ServiceState, Services};
use state::{Meters, Money, Quota, State};
use tariff::{Allowance, Form, Place, Terms};

// Kept: functions for these numbers, since std's `From` may not be implemented here for types of other crates.
fn number_of_location(w: Location) -> u64
    ensures { result ≡ place_number w }
{
    match w {
        None => 0,
        Some(Place::Home) => 1,
        Some(Place::Zone) => 2,
        Some(Place::Elsewhere) => 3,
    }
}

fn location_of(n: u64) -> Location
    ensures { result ≡ place_from n }
{
    match n {
        0 => None,
        1 => Some(Place::Home),
        2 => Some(Place::Zone),
        _ => Some(Place::Elsewhere),
    }
}

// kept: the bound of L is a clause, since an account may have any L, at which `sound` looks.
pub fn number_of_allowance(l: Allowance) -> u64
    requires { allowance_fits l ≡ true }
    ensures { result ≡ allowance_number l }
{
    match l {
        None => 0,
        Some(n) => n + 1,
    }
}

fn allowance_of(n: u64) -> Allowance
    ensures { result ≡ allowance_from n }
{
    n.checked_sub(1)
}

fn number_of_service(s: ServiceState) -> u64
    requires { warning_fits s ≡ true }
    ensures { result ≡ service_number s }
{
    match s {
        ServiceState::Clear => 0,
        ServiceState::Surcharged => 1,
        ServiceState::Warned(n) => n + 2,
    }
}

fn service_of(n: u64) -> ServiceState
    ensures { result ≡ service_from n }
{
    match n {
        0 => ServiceState::Clear,
        1 => ServiceState::Surcharged,
        _ => ServiceState::Warned(n - 2),
    }
}

// Kept: it is public, and promises the number of 64 bits that the box gets.
pub fn number_of_form(f: Form) -> u64
    ensures { result ≡ form_word f }
{
    u32::from(f).into()
}

// Plan, day, place and money as numbers.
fn front_of(a: State) -> [u64; 13]
    ensures { result ≡ front_numbers a }
{
    [
        number_of_form(a.plan.form),
        a.plan.start,
        a.plan.pergb,
        a.plan.perminute,
        a.plan.persms,
        a.plan.fee,
        a.plan.volume,
        a.day,
        number_of_location(a.place),
        a.money.credit,
        a.money.paid,
        a.money.homecharges,
        a.money.surcharges,
    ]
}

// The meters as numbers.
fn meters_numbers(m: Meters) -> [u64; 17]
    ensures { result ≡ meters_numbers m }
{
    [
        m.lifetime.kb,
        m.lifetime.outgoing,
        m.lifetime.incoming,
        m.lifetime.sms,
        m.chargedseconds,
        m.billed.kb,
        m.billed.outgoing,
        m.billed.incoming,
        m.billed.sms,
        m.surcharged.kb,
        m.surcharged.outgoing,
        m.surcharged.incoming,
        m.surcharged.sms,
        m.basis.kb,
        m.basis.outgoing,
        m.basis.incoming,
        m.basis.sms,
    ]
}

// H, R and L as numbers.
fn quota_numbers(q: Quota) -> [u64; 3]
    requires { allowance_fits q.allowance ≡ true }
    ensures { result ≡ quota_numbers q }
{
    [q.monthly, q.roamed, number_of_allowance(q.allowance)]
}

// How many days are logged, and the services, as numbers.
fn end_of(a: State) -> [u64; 4]
    requires { Writable a }
    ensures { result ≡ end_numbers a }
{
    [
        a.logged,
        number_of_service(a.services.internet),
        number_of_service(a.services.calls),
        number_of_service(a.services.messages),
    ]
}

// The terms of seven numbers, the first of a list.
pub fn terms_of(ys: &[u64]) -> Terms
    requires { 7 ≤ length ys.now }
    ensures { result ≡ terms_from ys.now }
{
    Terms {
        form: ys[0],
        start: ys[1],
        pergb: ys[2],
        perminute: ys[3],
        persms: ys[4],
        fee: ys[5],
        volume: ys[6],
    }
}

fn money_of(ys: &[u64; 50]) -> Money
    ensures { result ≡ money_from ys.now }
{
    Money {
        credit: ys[9],
        paid: ys[10],
        homecharges: ys[11],
        surcharges: ys[12],
    }
}

fn meters_of(ys: &[u64; 50]) -> Meters
    ensures { result ≡ meters_from ys.now }
{
    Meters {
        lifetime: presence::log::units_at(ys, 13),
        chargedseconds: ys[17],
        billed: presence::log::units_at(ys, 18),
        surcharged: presence::log::units_at(ys, 22),
        basis: presence::log::units_at(ys, 26),
    }
}

fn quota_of(ys: &[u64; 50]) -> Quota
    ensures { result ≡ quota_from ys.now }
{
    Quota {
        monthly: ys[30],
        roamed: ys[31],
        allowance: allowance_of(ys[32]),
    }
}

fn services_of(ys: &[u64; 50]) -> Services
    ensures { result ≡ services_from ys.now }
{
    Services {
        internet: service_of(ys[47]),
        calls: service_of(ys[48]),
        messages: service_of(ys[49]),
    }
}

// All of an account but its log, from its 50 numbers.
#[tactic(auto, unfolding(crate::specs::Numbers::state_from))]
fn state_of(ys: &[u64; 50]) -> State
    ensures { result ≡ state_from ys.now }
{
    State {
        plan: tariff::plans::plan_with(terms_of(ys)),
        day: ys[7],
        place: location_of(ys[8]),
        money: money_of(ys),
        meters: meters_of(ys),
        quota: quota_of(ys),
        today: presence::log::day_in(ys, 33),
        logged: ys[46],
        services: services_of(ys),
    }
}

// Are form, place and today's marks numbers that stand for one?
#[tactic(auto, unfolding(crate::specs::Numbers::tags_known))]
fn known(ys: &[u64; 50]) -> bool
    ensures { result ≡ tags_known ys.now }
{
    ys[0] <= 2 && ys[8] <= 3 && ys[33] <= 7
}

// The 50 numbers behind the log.
#[tactic(auto, unfolding(crate::specs::Numbers::rest_part))]
fn rest_of(account: &[u64]) -> &[u64; 50]
    requires { length account.now ≡ 1649 }
    ensures { result.now ≡ rest_part account.now }
{
    account.last_chunk::<50>().unwrap()
}

// Do the numbers stand for an account?
#[tactic(auto, unfolding(crate::specs::Numbers::is_account))]
pub fn held(account: &[u64]) -> bool
    ensures { result ≡ is_account account.now }
{
    account.len() == 1649 && known(rest_of(account))
}

// All but the log of the account that the numbers stand for.
// Kept: a slice here and in `put_state`, as the box lends one; as an array each caller would have to cut it once more.
#[tactic(auto, unfolding(crate::specs::Numbers::account_from))]
pub fn state_held(account: &[u64]) -> State
    requires { length account.now ≡ 1649 }
    ensures { result ≡ (account_from account.now).state }
{
    state_of(rest_of(account))
}

// Numbers into a list from a place on; those before and after stay.
pub fn put_numbers(s: &mut [u64], at: usize, xs: &[u64])
    requires { at + length xs.now ≤ length s.old }
    ensures { s.new ≡ take at s.old
        ++ (xs.now ++ drop (at + length xs.now) s.old) }
{
    s[at..at + xs.len()].copy_from_slice(xs);
}

// All but the log over the old numbers, group by group; the log stays.
#[tactic(auto, unfolding(crate::specs::Numbers::log_part, crate::specs::Numbers::state_numbers))]
pub fn put_state(account: &mut [u64], a: State)
    requires { (length account.old ≡ 1649) × Writable a }
    ensures { account.new ≡ log_part account.old ++ state_numbers a }
{
    put_numbers(account, 1599, &front_of(a));
    put_numbers(account, 1612, &meters_numbers(a.meters));
    put_numbers(account, 1629, &quota_numbers(a.quota));
    put_numbers(account, 1632, &presence::log::numbers(a.today));
    put_numbers(account, 1645, &end_of(a));
}
