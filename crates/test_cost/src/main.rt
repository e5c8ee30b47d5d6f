// A program to count instructions with. Standard input asks for calls: a letter for the call (u use of 1 kB, r register
// in the zone, t top-up of 1,000 points, n next day, a Afford of data) and how many hundreds of it, as a digit; then
// further pairs. Each pair starts from an account that is opened, topped up and has its log filled anew. It prints a
// line for each: the letter, how many of the calls were accepted, and the credit then left (for n the day, for a what
// Afford answers).
//
// The stored output comes from the second implementation (reference/src/stored.rs), and its figures were worked out by
// hand: 100 kB at 1,000,000 points a GB cost 95 of the 100,000 points; 100 top-ups add 100,000; 100 days after day 181
// + 130; and 104,858 kB cost 100,000 points, one more 100,001.
#![tactic(auto)]

ghost use Rattle.std.specs.Prelude.{◌≡◌, ◌<◌, ◌≤◌, length};

use account::{Account, Applied};
use state::{Answer, Outcome, State};
use std::io;
use tariff::{Form, Kind, Place, Plan};

// How many calls were accepted, and a figure that shows what they did.
#[derive(Clone, Copy)]
struct Tally {
    accepted: u64,
    shown: u64,
}

// What a call shows of the account and of the last answer.
fn figure(letter: u8, last: Answer, state: State) -> u64 {
    match (letter, last) {
        (b'u' | b'r' | b't', _) => state.money.credit,
        (b'n', _) => state.day,
        (_, Ok(Outcome::UpTo(n))) => n,
        _ => 0,
    }
}

// The same call so many times, from the account where the calls begin.
fn counted<F: Fn(Account) -> Applied>(letter: u8, mut a: Account, times: u64, call: F) -> Tally
    requires { F.IsAlwaysCallable call }
{
    let mut accepted = 0;
    let mut last = Ok(Outcome::Done);
    for _ in 0..times {
        let done = call(a);
        a = done.account;
        last = done.answer;
        if last.is_ok() {
            accepted += 1;
        }
    }
    Tally {
        accepted,
        shown: figure(letter, last, a.state),
    }
}

// The account where the calls begin: in the zone, paid for, with 123 logged days.
fn filled(a: Account) -> Account {
    let mut log = a.log;
    let mut state = account::register_with(a.state, &log, Place::Zone).state;
    for _ in 0..100 {
        state = account::top_up_with(state, &log, 1000).state;
    }
    for _ in 0..130 {
        state = account::next_day_with(state, &mut log).state;
    }
    Account { state, log }
}

// As `counted`, of a use of 1 kB.
// kept: a loop of its own. Through `counted` a use took 12,702 instructions and not 8,567: the account was copied three
// times more.
fn uses(mut a: Account, times: u64) -> Tally {
    let mut accepted = 0;
    for _ in 0..times {
        let done = a.use_units(Kind::Data, 1);
        a = done.account;
        if done.answer.is_ok() {
            accepted += 1;
        }
    }
    Tally {
        accepted,
        shown: a.state.money.credit,
    }
}

// The calls that a letter asks for, by the account's methods.
fn calls(a: Account, letter: u8, times: u64) -> Tally {
    match letter {
        b'u' => uses(a, times),
        b'r' => counted(letter, a, times, |x: Account| x.register(Place::Zone)),
        b't' => counted(letter, a, times, |x: Account| x.top_up(1000)),
        b'n' => counted(letter, a, times, |x: Account| x.next_day()),
        _ => counted(letter, a, times, |x: Account| x.afford(Kind::Data)),
    }
}

// The number of a digit, 0 of any other byte.
fn digit(x: u8) -> u64
    ensures { result < 10 }
{
    match x {
        b'0'..=b'9' => u64::from(x - b'0'),
        _ => 0,
    }
}

fn show(rt: &impl Print, letter: u8, t: Tally) -> io::Result<()> {
    rt.write_all(&[letter])?;
    println!(rt; " {} {}", t.accepted, t.shown)
}

// The calls of one pair, on an account of their own.
fn run_pair(rt: &impl Print, letter: u8, hundreds: u8) -> io::Result<()> {
    let plan = Plan {
        form: Form::Prepaid,
        start: 181,
        pergb: 1000000,
        perminute: 600,
        persms: 500,
        fee: 0,
        volume: 0,
    };
    let full = filled(Account::open(plan).account);
    show(rt, letter, calls(full, letter, 100 * digit(hundreds)))
}

// Each whole pair.
fn run_pairs(rt: &impl Print, asked: &[u8]) -> io::Result<()> {
    for pair in asked.chunks_exact(2) {
        run_pair(rt, pair[0], pair[1])?;
    }
    Ok(())
}

fn main(rt: HostRuntime) -> io::Result<()> {
    let mut asked = [0u8; 64];
    let n = intake::read_start(&mut rt.stdin(), &mut asked)?;
    run_pairs(&rt, &asked[..n])
}
