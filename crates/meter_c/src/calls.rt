// Calls on an account in the caller's memory.
ghost use Rattle.std.specs.Prelude.{◌≡◌, cond};
ghost use Rattle.meter.specs.Answers.{answer_code, answer_laid, bad_argument, accepted};
ghost use Rattle.meter.specs.Calls.{call_answer, call_numbers, sound_numbers, kind_from, is_place};
ghost use Rattle.meter.specs.Calls.{place_named, kind_with_room};

use account::Call;

// A registration at a place: 0 home, 1 zone, 2 elsewhere. Refusal 0.
#[unsafe(no_mangle)]
pub extern "C" fn meter_register(account: &mut [u64], place: u64) -> u64
    ensures code { result ≡ cond (is_place place)
        (answer_code (call_answer account.old (Call.Register (place_named place)))) bad_argument }
    ensures numbers { account.new ≡ cond (is_place place)
        (call_numbers account.old (Call.Register (place_named place))) account.old }
{
    meter::calls::meter_register(account, place)
}

// A top-up by so many points. Refusals 0, 7, 8.
#[unsafe(no_mangle)]
pub extern "C" fn meter_top_up(account: &mut [u64], points: u64) -> u64
    ensures code { result ≡ answer_code (call_answer account.old (Call.TopUp points)) }
    ensures numbers { account.new ≡ call_numbers account.old (Call.TopUp points) }
{
    meter::calls::meter_top_up(account, points)
}

// A day change. Refusals 0, 9.
#[unsafe(no_mangle)]
pub extern "C" fn meter_next_day(account: &mut [u64]) -> u64
    ensures code { result ≡ answer_code (call_answer account.old Call.NextDay) }
    ensures numbers { account.new ≡ call_numbers account.old Call.NextDay }
{
    meter::calls::meter_next_day(account)
}

// A use of n units of a kind: 0 data, 1 outgoing, 2 incoming, 3 SMS. Refusals 0, 3, 4, 5, 6.
#[unsafe(no_mangle)]
pub extern "C" fn meter_use(account: &mut [u64], kind: u64, n: u64, answer: &mut [u64]) -> u64
    ensures code { result ≡ cond (kind_with_room kind 5 answer.old)
        (answer_code (call_answer account.old (Call.Use (kind_from kind) n))) bad_argument }
    ensures numbers { account.new ≡ cond (kind_with_room kind 5 answer.old)
        (call_numbers account.old (Call.Use (kind_from kind) n)) account.old }
    ensures answered { answer.new ≡ cond (kind_with_room kind 5 answer.old)
        (answer_laid (call_answer account.old (Call.Use (kind_from kind) n)) answer.old)
        answer.old }
{
    meter::calls::meter_use(account, kind, n, answer)
}

// The largest n that a use of the kind is accepted for, 0 if there is none, into the first number of a list.
#[unsafe(no_mangle)]
pub extern "C" fn meter_afford(account: &[u64], kind: u64, answer: &mut [u64]) -> u64
    ensures code { result ≡ cond (kind_with_room kind 1 answer.old)
        (answer_code (call_answer account.now (Call.Afford (kind_from kind)))) bad_argument }
    ensures answered { answer.new ≡ cond (kind_with_room kind 1 answer.old)
        (answer_laid (call_answer account.now (Call.Afford (kind_from kind))) answer.old)
        answer.old }
{
    meter::calls::meter_afford(account, kind, answer)
}

// 1000 for the numbers of a sound account, else 0.
#[unsafe(no_mangle)]
pub extern "C" fn meter_is_sound(account: &[u64]) -> u64
    ensures { result ≡ cond (sound_numbers account.now) accepted 0 }
{
    meter::calls::meter_is_sound(account)
}
