// All of the account but its log, and what each call makes of it (account-2, sound-1 to sound-11, limit-1 to limit-7,
// register-1, register-2, topup-1, topup-2, use-1 to use-15, day-3, refusal-3 to refusal-9).
#![tactic(auto)]

ghost use Rattle.std.specs.Prelude.{◌≡◌, Err};

pub mod charging;
pub mod claims;
pub mod moves;
pub mod sound;

use presence::{Day, Location, Services};
use tariff::{Allowance, Plan, Refusal, Units};

// Points: what is left, what was paid in, and what home charges and surcharges took of it.
#[derive(Clone, Copy, Default)]
pub struct Money {
    pub credit: u64,
    pub paid: u64,
    pub homecharges: u64,
    pub surcharges: u64,
}

// Over the account's life: units used, with seconds as spoken; outgoing seconds as charged; priced units; surcharged
// units; the sums of cap x surcharged units.
#[derive(Clone, Copy, Default)]
pub struct Meters {
    pub lifetime: Units,
    pub chargedseconds: u64,
    pub billed: Units,
    pub surcharged: Units,
    pub basis: Units,
}

// H, R and L (limit-1, limit-2).
#[derive(Clone, Copy)]
pub struct Quota {
    pub monthly: u64,
    pub roamed: u64,
    pub allowance: Allowance,
}

// All of the account but its log.
#[derive(Clone, Copy)]
pub struct State {
    pub plan: Plan,
    pub day: u64,
    pub place: Location,
    pub money: Money,
    pub meters: Meters,
    pub quota: Quota,
    pub today: Day,
    pub logged: u64,
    pub services: Services,
}

// What an accepted use answers: home and surcharge points taken, surcharged units, units charged, notice.
#[derive(Clone, Copy)]
pub struct Charge {
    pub home: u64,
    pub extra: u64,
    pub surcharged: u64,
    pub charged: u64,
    pub notice: bool,
}

// What an accepted call answers: a use its charge, Afford its number, every other call that it is done.
#[derive(Clone, Copy)]
pub enum Outcome {
    Done,
    Charged(Charge),
    UpTo(u64),
}

// What a call answers: that, or why it is refused.
pub type Answer = Result<Outcome, Refusal>;

// What a call answers, with all of the account but its log.
#[derive(Clone, Copy)]
pub struct StateApplied {
    pub answer: Answer,
    pub state: State,
}

// What a use makes of the sums: priced units, newly surcharged units, the sums of cap x surcharged units, home charges
// and surcharges after it; and the kB that it adds to H and to R.
#[derive(Clone, Copy)]
pub struct Bill {
    pub billed: Units,
    pub fresh: Units,
    pub basis: Units,
    pub home: u64,
    pub extra: u64,
    pub counted: u64,
    pub zone: u64,
}

// What a refused call hands back: why, and the account as it was.
pub fn declined(a: State, r: Refusal) -> StateApplied
    ensures { result ≡ record { answer = Err r; state = a } }
{
    StateApplied {
        answer: Err(r),
        state: a,
    }
}
