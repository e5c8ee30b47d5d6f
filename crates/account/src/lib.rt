// The account: each call takes it as a value and returns it beside the answer (account-1, form-3).
#![tactic(auto)]

pub mod afford;
pub mod claims;

ghost use Rattle.std.specs.Prelude.{◌≡◌, true, false, length};
ghost use Rattle.account.specs.Whole.{sound};
ghost use Rattle.account.specs.Calls.{step};
ghost use Rattle.account.specs.Answers.{open_answer, opened_parts, applied, account_of, applied_state};

use presence::Log;
use state::{Answer, Outcome, State, StateApplied};
use tariff::{Form, Kind, Place, Plan, Refusal, Verdict};

// All but the log, and the log of the last 123 days, newest first, 13 numbers to a day; past the logged days it is
// empty.
#[derive(Drop)]
pub struct Account {
    pub state: State,
    pub log: Log,
}

// A call on an account.
#[derive(Clone, Copy)]
pub enum Call {
    Register(Place),
    Use(Kind, u64),
    TopUp(u64),
    NextDay,
    Afford(Kind),
}

// What Open answers, with the account.
#[derive(Drop)]
pub struct Opened {
    pub answer: Verdict,
    pub account: Account,
}

// The same with all of the account but its log.
#[derive(Clone, Copy)]
pub struct StateOpened {
    pub answer: Verdict,
    pub state: State,
}

// What a call answers, with the account.
#[derive(Drop)]
pub struct Applied {
    pub answer: Answer,
    pub account: Account,
}

// What stands in an account where Open was refused: no such plan opens.
pub const NO_PLAN: Plan = Plan {
    form: Form::Prepaid,
    start: 0,
    pergb: 0,
    perminute: 0,
    persms: 0,
    fee: 0,
    volume: 0,
};

// Open, of all but the log, which is empty: refusals 1, 17, 18 and 2. A refused plan leaves an account that is not
// sound.
#[tactic(auto, using(crate::proofs::Parts::opens_payable), unfolding(crate::specs::Answers::open_answer, crate::specs::Whole::opened))]
pub fn open_with(p: Plan) -> StateOpened
    ensures { result ≡ opened_parts (open_answer p) }
{
    match tariff::plans::check_plan(p) {
        Ok(()) => StateOpened {
            answer: Ok(()),
            state: state::moves::opened_with(p),
        },
        Err(r) => StateOpened {
            answer: Err(r),
            state: state::moves::opened_with(NO_PLAN),
        },
    }
}

// Each call on all of an account but its log, with the log lent: the methods and the replay of lists share them, and
// the log stays where it is.

// Is the account sound? Any values will do.
pub fn parts_fit(state: State, log: &Log) -> bool
    ensures { result ≡ sound (account_of state log.now) }
{
    if !state::sound::counters_fit(state) {
        return false;
    }
    if !state::sound::charges_fit(state) {
        return false;
    }
    presence::log::log_fits(log, state.today, state.logged, state.meters.lifetime)
}

// A call that was accepted and answers nothing more.
fn done(state: State) -> StateApplied
    ensures { result ≡ record { answer = Ok Outcome.Done; state = state } }
{
    StateApplied {
        answer: Ok(Outcome::Done),
        state,
    }
}

// kept: that the account is sound is a clause of each of these and of `call_sound`. A type for state and log would have
// to stay true while a day change writes the log, and the promises would name its parts; with the clause they name the
// account.

// A registration on a sound account.
fn register_sound(state: State, log: &Log, p: Place) -> StateApplied
    requires { sound (account_of state log.now) ≡ true }
    ensures { result ≡ applied_state (applied (account_of state log.now) (Call.Register p)) }
{
    done(state::moves::registered_at(state, p))
}

// Refusal 0.
pub fn register_with(state: State, log: &Log, p: Place) -> StateApplied
    ensures { result ≡ applied_state (applied (account_of state log.now) (Call.Register p)) }
{
    if !parts_fit(state, log) {
        return state::declined(state, Refusal::Unsound);
    }
    register_sound(state, log, p)
}

// A use on a sound account: refusals 3, 4, 5, 6.
fn use_sound(state: State, log: &Log, k: Kind, n: u64) -> StateApplied
    requires { sound (account_of state log.now) ≡ true }
    ensures { result ≡ applied_state (applied (account_of state log.now) (Call.Use k n)) }
{
    state::charging::use_of(state, k, n)
}

// Refusals 0, 3, 4, 5, 6.
pub fn use_with(state: State, log: &Log, k: Kind, n: u64) -> StateApplied
    ensures { result ≡ applied_state (applied (account_of state log.now) (Call.Use k n)) }
{
    if !parts_fit(state, log) {
        return state::declined(state, Refusal::Unsound);
    }
    use_sound(state, log, k, n)
}

// A top-up of a sound account: refusals 7, 8.
fn top_up_sound(state: State, log: &Log, n: u64) -> StateApplied
    requires { sound (account_of state log.now) ≡ true }
    ensures { result ≡ applied_state (applied (account_of state log.now) (Call.TopUp n)) }
{
    if !state::charging::within(1, n, 10000000) {
        return state::declined(state, Refusal::TopUpSize);
    }
    if state.money.paid + n > 1000000000 {
        return state::declined(state, Refusal::PaidLimit);
    }
    done(state::moves::topped_by(state, n))
}

// Refusals 0, 7, 8.
pub fn top_up_with(state: State, log: &Log, n: u64) -> StateApplied
    ensures { result ≡ applied_state (applied (account_of state log.now) (Call.TopUp n)) }
{
    if !parts_fit(state, log) {
        return state::declined(state, Refusal::Unsound);
    }
    top_up_sound(state, log, n)
}

// A day change of a sound account: refusal 9.
fn next_day_sound(state: State, log: &mut Log) -> StateApplied
    requires { sound (account_of state log.old) ≡ true }
    ensures answer { result ≡ applied_state (applied (account_of state log.old) Call.NextDay) }
    ensures shifted { log.new ≡ (step (account_of state log.old) Call.NextDay).log }
{
    if state.day >= 3833 {
        return state::declined(state, Refusal::LastDay);
    }
    presence::log::push(log, state.today);
    done(state::moves::next_from(state, log))
}

// Refusals 0, 9.
pub fn next_day_with(state: State, log: &mut Log) -> StateApplied
    ensures answer { result ≡ applied_state (applied (account_of state log.old) Call.NextDay) }
    ensures shifted { log.new ≡ (step (account_of state log.old) Call.NextDay).log }
{
    if !parts_fit(state, log) {
        return state::declined(state, Refusal::Unsound);
    }
    next_day_sound(state, log)
}

// Afford on a sound account: refusal 3.
fn afford_sound(state: State, log: &Log, k: Kind) -> Answer
    requires { sound (account_of state log.now) ≡ true }
    ensures { result ≡ (applied (account_of state log.now) (Call.Afford k)).answer }
{
    if !presence::days::placed(state.place) {
        return Err(Refusal::Unplaced);
    }
    Ok(Outcome::UpTo(afford::most_of(state, k)))
}

// Refusals 0, 3.
pub fn afford_with(state: State, log: &Log, k: Kind) -> Answer
    ensures { result ≡ (applied (account_of state log.now) (Call.Afford k)).answer }
{
    if !parts_fit(state, log) {
        return Err(Refusal::Unsound);
    }
    afford_sound(state, log, k)
}

// One call of any kind on an account that is known to be sound, so that it need not be looked at again: every call
// leaves it sound.
pub fn call_sound(state: State, log: &mut Log, c: Call) -> StateApplied
    requires { sound (account_of state log.old) ≡ true }
    ensures answer { result ≡ applied_state (applied (account_of state log.old) c) }
    ensures shifted { log.new ≡ (step (account_of state log.old) c).log }
{
    match c {
        Call::Register(p) => register_sound(state, log, p),
        Call::Use(k, n) => use_sound(state, log, k, n),
        Call::TopUp(n) => top_up_sound(state, log, n),
        Call::NextDay => next_day_sound(state, log),
        Call::Afford(k) => StateApplied {
            answer: afford_sound(state, log, k),
            state,
        },
    }
}

// One call of any kind: refusal 0, then its own.
pub fn call_with(state: State, log: &mut Log, c: Call) -> StateApplied
    ensures answer { result ≡ applied_state (applied (account_of state log.old) c) }
    ensures shifted { log.new ≡ (step (account_of state log.old) c).log }
{
    if !parts_fit(state, log) {
        return state::declined(state, Refusal::Unsound);
    }
    call_sound(state, log, c)
}

// One call of any kind on a whole account.
pub fn apply(mut a: Account, c: Call) -> Applied
    ensures { result ≡ applied a c }
{
    let answer = a.make(c);
    Applied { answer, account: a }
}

impl Account {
    // A new account under the plan: refusals 1, 17, 18 and 2. A refused plan leaves an account that is not sound.
    pub fn open(p: Plan) -> Opened
        ensures { result ≡ open_answer p }
    {
        let opened = open_with(p);
        Opened {
            answer: opened.answer,
            account: Account {
                state: opened.state,
                log: presence::log::log_empty(),
            },
        }
    }

    // Is the account sound? Any values will do.
    pub fn is_sound(self) -> bool
        ensures { result ≡ sound self }
    {
        parts_fit(self.state, &self.log)
    }

    // One call of any kind, made where the account lies, so that it is not copied.
    fn make(&mut self, c: Call) -> Answer
        ensures answer { result ≡ (applied self.old c).answer }
        ensures after { self.new ≡ (applied self.old c).account }
    {
        let done = call_with(self.state, &mut self.log, c);
        self.state = done.state;
        done.answer
    }

    // kept: each of the five is over the function of its call, to which the log is lent (`register_with` and so on), and
    // not over `make`. By `test_cost` a registration took 8,534 instructions so and takes 6,092, a top-up 8,557 and
    // 6,129, Afford 9,829 and 6,562.

    // Refusal 0.
    pub fn register(mut self, p: Place) -> Applied
        ensures { result ≡ applied self (Call.Register p) }
    {
        let done = register_with(self.state, &self.log, p);
        self.state = done.state;
        Applied {
            answer: done.answer,
            account: self,
        }
    }

    // Refusals 0, 3, 4, 5, 6.
    pub fn use_units(mut self, k: Kind, n: u64) -> Applied
        ensures { result ≡ applied self (Call.Use k n) }
    {
        let done = use_with(self.state, &self.log, k, n);
        self.state = done.state;
        Applied {
            answer: done.answer,
            account: self,
        }
    }

    // Refusals 0, 7, 8.
    pub fn top_up(mut self, n: u64) -> Applied
        ensures { result ≡ applied self (Call.TopUp n) }
    {
        let done = top_up_with(self.state, &self.log, n);
        self.state = done.state;
        Applied {
            answer: done.answer,
            account: self,
        }
    }

    // Refusals 0, 9.
    pub fn next_day(mut self) -> Applied
        ensures { result ≡ applied self Call.NextDay }
    {
        let done = next_day_with(self.state, &mut self.log);
        self.state = done.state;
        Applied {
            answer: done.answer,
            account: self,
        }
    }

    // Refusals 0, 3.
    pub fn afford(mut self, k: Kind) -> Applied
        ensures { result ≡ applied self (Call.Afford k) }
    {
        let answer = afford_with(self.state, &self.log, k);
        Applied {
            answer,
            account: self,
        }
    }
}
