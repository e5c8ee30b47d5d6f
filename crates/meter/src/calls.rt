// Calls on an account in the caller's memory.
ghost use Rattle.std.specs.Prelude.{◌≡◌, cond};
ghost use Rattle.meter.specs.Answers.{answer_code, answer_laid, bad_argument, accepted};
ghost use Rattle.meter.specs.Calls.{call_answer, call_numbers, sound_numbers, kind_from, is_place};
ghost use Rattle.meter.specs.Calls.{place_named, kind_with_room};

use super::{answer_code, kind_of, place_of, put_answer, settle, sound_held};
use account::Call;
use state::Answer;
use tariff::{Kind, Refusal};

// A call of any kind, with the log where it stands.
fn call_on(account: &mut [u64], c: Call) -> Answer
    ensures answer { result ≡ call_answer account.old c }
    ensures numbers { account.new ≡ call_numbers account.old c }
{
    if !numbers::held(account) {
        return Err(Refusal::Unsound);
    }
    let state = numbers::state_held(account);
    let done = account::call_with(state, account.first_chunk_mut::<1599>().unwrap(), c);
    settle(account, done);
    done.answer
}

// A registration at a place: 0 home, 1 zone, 2 elsewhere. Refusal 0.
pub fn meter_register(account: &mut [u64], place: u64) -> u64
    ensures code { result ≡ cond (is_place place)
        (answer_code (call_answer account.old (Call.Register (place_named place)))) bad_argument }
    ensures numbers { account.new ≡ cond (is_place place)
        (call_numbers account.old (Call.Register (place_named place))) account.old }
{
    if place > 2 {
        return 1001;
    }
    answer_code(call_on(account, Call::Register(place_of(place))))
}

// A top-up by so many points. Refusals 0, 7, 8.
pub fn meter_top_up(account: &mut [u64], points: u64) -> u64
    ensures code { result ≡ answer_code (call_answer account.old (Call.TopUp points)) }
    ensures numbers { account.new ≡ call_numbers account.old (Call.TopUp points) }
{
    answer_code(call_on(account, Call::TopUp(points)))
}

// A day change. Refusals 0, 9.
pub fn meter_next_day(account: &mut [u64]) -> u64
    ensures code { result ≡ answer_code (call_answer account.old Call.NextDay) }
    ensures numbers { account.new ≡ call_numbers account.old Call.NextDay }
{
    answer_code(call_on(account, Call::NextDay))
}

// A use of n units of a kind: 0 data, 1 outgoing, 2 incoming, 3 SMS. Refusals 0, 3, 4, 5, 6.
#[tactic(auto, unfolding(crate::specs::Calls::kind_with_room), using(crate::proofs::Held::few_numbers))]
pub fn meter_use(account: &mut [u64], kind: u64, n: u64, answer: &mut [u64]) -> u64
    ensures code { result ≡ cond (kind_with_room kind 5 answer.old)
        (answer_code (call_answer account.old (Call.Use (kind_from kind) n))) bad_argument }
    ensures numbers { account.new ≡ cond (kind_with_room kind 5 answer.old)
        (call_numbers account.old (Call.Use (kind_from kind) n)) account.old }
    ensures answered { answer.new ≡ cond (kind_with_room kind 5 answer.old)
        (answer_laid (call_answer account.old (Call.Use (kind_from kind) n)) answer.old)
        answer.old }
{
    if kind > 3 || answer.len() < 5 {
        return 1001;
    }
    let x = call_on(account, Call::Use(kind_of(kind), n));
    put_answer(answer, x);
    answer_code(x)
}

// What the account affords of a kind. Refusals 0, 3.
fn afford_on(account: &[u64], k: Kind) -> Answer
    ensures { result ≡ call_answer account.now (Call.Afford k) }
{
    if !numbers::held(account) {
        return Err(Refusal::Unsound);
    }
    let state = numbers::state_held(account);
    account::afford_with(state, account.first_chunk::<1599>().unwrap(), k)
}

// The largest n that a use of the kind is accepted for, 0 if there is none, into the first number of a list.
#[tactic(auto, unfolding(crate::specs::Calls::kind_with_room))]
pub fn meter_afford(account: &[u64], kind: u64, answer: &mut [u64]) -> u64
    ensures code { result ≡ cond (kind_with_room kind 1 answer.old)
        (answer_code (call_answer account.now (Call.Afford (kind_from kind)))) bad_argument }
    ensures answered { answer.new ≡ cond (kind_with_room kind 1 answer.old)
        (answer_laid (call_answer account.now (Call.Afford (kind_from kind))) answer.old)
        answer.old }
{
    if kind > 3 || answer.len() < 1 {
        return 1001;
    }
    let x = afford_on(account, kind_of(kind));
    put_answer(answer, x);
    answer_code(x)
}

// 1000 for the numbers of a sound account, else 0.
pub fn meter_is_sound(account: &[u64]) -> u64
    ensures { result ≡ cond (sound_numbers account.now) accepted 0 }
{
    if sound_held(account) { 1000 } else { 0 }
}
