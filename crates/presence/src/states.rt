// The states of the services after a day change (service-1, service-7 to service-10).
ghost use Rattle.std.specs.Prelude.{◌≡◌, ◌≤◌};
ghost use Rattle.tariff.specs.Units.{AtMost};
ghost use Rattle.presence.specs.Service.{state_step, services_after};
ghost use Rattle.presence.specs.Log.{days_of, units_over, lifetime_most};
ghost use Rattle.presence.specs.Held.{long_asked, short_asked};

use super::{Log, ServiceState, Services, window};

fn step(full: bool, long: bool, short: bool, state: ServiceState) -> ServiceState
    ensures { result ≡ state_step full long short state }
{
    match state {
        ServiceState::Clear if full && long => ServiceState::Warned(0),
        ServiceState::Warned(k) if k < 14 => ServiceState::Warned(k + 1),
        ServiceState::Warned(_) if short => ServiceState::Surcharged,
        ServiceState::Surcharged if long => ServiceState::Surcharged,
        _ => ServiceState::Clear,
    }
}

// Does the state's next step ask for prevalence over 123 days?
fn asks_long(full: bool, state: ServiceState) -> bool
    ensures { result ≡ long_asked full state }
{
    match state {
        ServiceState::Clear => full,
        ServiceState::Warned(_) => false,
        ServiceState::Surcharged => true,
    }
}

// Does it ask for prevalence over 15 days?
fn asks_short(state: ServiceState) -> bool
    ensures { result ≡ short_asked state }
{
    matches!(state, ServiceState::Warned(k) if k >= 14)
}

// The three states after a day change, with n days logged, the one just ended among them. A window of days that no
// state asks for is not looked at.
pub fn services_next(s: Services, log: &Log, n: usize) -> Services
    requires { (n ≤ 123) × AtMost (units_over n (days_of log.now)) lifetime_most }
    ensures { result ≡ services_after n (days_of log.now) s }
{
    let full = n >= 123;
    let asked_long = asks_long(full, s.internet)
        | asks_long(full, s.calls)
        | asks_long(full, s.messages);
    let asked_short = asks_short(s.internet) | asks_short(s.calls) | asks_short(s.messages);
    let long = window::prevalent_where(asked_long, log, 123, n);
    let short = window::prevalent_where(asked_short, log, 15, n);
    Services {
        internet: step(full, long.internet, short.internet, s.internet),
        calls: step(full, long.calls, short.calls, s.calls),
        messages: step(full, long.messages, short.messages, s.messages),
    }
}
