// What opening, registering, topping up and a day change make of the account (account-3, limit-7, register-1,
// register-2, topup-1, topup-2, day-3).
ghost use Rattle.std.specs.Prelude.{◌≡◌, ◌+◌, ◌-◌, ◌≤◌, ◌<◌, min, length};
ghost use Rattle.tariff.specs.Caps.{built_in, caps_on};
ghost use Rattle.tariff.specs.Plan.{credit_allowance};
ghost use Rattle.presence.specs.Log.{days_of};
ghost use Rattle.state.specs.Moves.{opened_state, registered, topped, renewed_if, turned_if, next_state_of};
ghost use Rattle.state.specs.Needs.{Turns, Payable};

use super::{Meters, Money, Quota, State};
use presence::{Log, ServiceState, Services};
use tariff::{Allowance, Place, Plan};

// The allowance of a prepaid credit on a day.
#[tactic(auto, using(crate::proofs::Caps::credit_fits))]
fn allowance_on(credit: u64, day: u64) -> Allowance
    requires { credit ≤ 1000000000 }
    ensures { result ≡ credit_allowance credit (caps_on built_in day).kb }
{
    tariff::plans::allowance_from(credit, tariff::caps::caps_of(day).kb)
}

// Where `renews` holds, a new L, and R counts anew; H stays.
fn renewed(renews: bool, allowance: Allowance, before: Quota) -> Quota
    ensures { result ≡ renewed_if renews allowance before }
{
    if renews {
        Quota {
            roamed: 0,
            allowance,
            ..before
        }
    } else {
        before
    }
}

// Where `turns` holds, a new L, and H and R count anew.
// kept: beside `renewed`, as the definitions `renewed_if` and `turned_if` are two.
fn turned(turns: bool, allowance: Allowance, before: Quota) -> Quota
    ensures { result ≡ turned_if turns allowance before }
{
    if turns {
        Quota {
            monthly: 0,
            roamed: 0,
            allowance,
        }
    } else {
        before
    }
}

// All but the log after a registration.
#[tactic(auto, unfolding(crate::specs::Moves::registered, crate::specs::Moves::enters))]
pub fn registered_at(a: State, p: Place) -> State
    requires { a.money.credit ≤ 1000000000 }
    ensures { result ≡ registered a p }
{
    let to = Some(p);
    let enters = tariff::plans::prepaid(a.plan.form)
        & (!presence::days::zone_at(a.place) & presence::days::zone_at(to));
    State {
        place: to,
        quota: renewed(enters, allowance_on(a.money.credit, a.day), a.quota),
        today: presence::days::marked(to, a.today),
        ..a
    }
}

// All but the log after a top-up.
#[tactic(auto, unfolding(crate::specs::Moves::topped, crate::specs::Moves::renews))]
pub fn topped_by(mut a: State, n: u64) -> State
    requires { (a.money.credit + n ≤ 1000000000) × (a.money.paid + n ≤ 1000000000) }
    ensures { result ≡ topped a n }
{
    let renews = tariff::plans::prepaid(a.plan.form) & presence::days::zone_at(a.place);
    a.money.credit += n;
    a.money.paid += n;
    a.quota = renewed(renews, allowance_on(a.money.credit, a.day), a.quota);
    a
}

// All but the log on the next day, where the log has today in it.
#[tactic(auto, using(crate::proofs::Caps::state_fits, crate::proofs::Caps::logged_few), unfolding(crate::specs::Moves::next_state_of, crate::specs::Moves::turns_month))]
pub fn next_from(a: State, log: &Log) -> State
    requires { Turns a (days_of log.now) }
    ensures { result ≡ next_state_of a (days_of log.now) }
{
    let day = a.day + 1;
    let logged = (a.logged + 1).min(123);
    let turns = !tariff::plans::prepaid(a.plan.form) & calendar::starts_month(day);
    let allowance = tariff::plans::allowance_of(a.plan, tariff::caps::caps_of(day).kb);
    State {
        day,
        quota: turned(turns, allowance, a.quota),
        today: presence::days::day_empty(),
        logged,
        services: presence::states::services_next(a.services, log, logged as usize),
        ..a
    }
}

// All but the log of a newly opened account.
#[tactic(auto, using(crate::proofs::Caps::bundle_fits), unfolding(crate::specs::Moves::opened_state))]
pub fn opened_with(p: Plan) -> State
    requires { Payable p }
    ensures { result ≡ opened_state p }
{
    State {
        plan: p,
        day: p.start,
        place: None,
        money: Money::default(),
        meters: Meters::default(),
        quota: Quota {
            monthly: 0,
            roamed: 0,
            allowance: tariff::plans::allowance_of(p, tariff::caps::caps_of(p.start).kb),
        },
        today: presence::days::day_empty(),
        logged: 0,
        services: Services {
            internet: ServiceState::Clear,
            calls: ServiceState::Clear,
            messages: ServiceState::Clear,
        },
    }
}
