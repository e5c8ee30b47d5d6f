// Calls as the trip file codes them, run one after the other on an account (file-8, list-2).
#![tactic(auto)]

ghost use Rattle.std.specs.Prelude.{◌≡◌, ◌+◌, ◌*◌, ◌≤◌, ◌<◌, length};
ghost use Rattle.account.specs.Calls.{step};
ghost use Rattle.account.specs.Answers.{account_of, applied, applied_state};
ghost use Rattle.replay.specs.Replay.{coded, replay_step, run_first, run_section, replayed_of, progress_of};
ghost use Rattle.replay.specs.Replay.{SaidSound, Going, Starting};

use account::{Account, Call};
use presence::Log;
use reader::Reader;
use state::{State, StateApplied};
use tariff::{Kind, Place};

// An account after some calls, and how many of them were refused.
#[derive(Drop)]
pub struct Replayed {
    pub account: Account,
    pub refused: usize,
}

// The same, of the account all but its log; and whether the account is known to be sound, so that no further call has
// to look.
// kept: a flag, since `run_section` promises the account for both of its values; and a type beside `Replayed`, since
// the log is lent and not a part of it.
#[derive(Clone, Copy)]
pub struct Progress {
    pub state: State,
    pub refused: usize,
    pub sound: bool,
}

// The call that a code and a number stand for, if they stand for one.
#[tactic(auto, unfolding(crate::specs::Replay::coded, crate::specs::Replay::register_code, crate::specs::Replay::other_code))]
pub fn decode(code: u32, n: u32) -> Option<Call>
    ensures { result ≡ coded code n }
{
    let units = u64::from(n);
    match (code, n) {
        (1, 0) => Some(Call::Register(Place::Home)),
        (1, 1) => Some(Call::Register(Place::Zone)),
        (1, 2) => Some(Call::Register(Place::Elsewhere)),
        (2, _) => Some(Call::Use(Kind::Data, units)),
        (3, _) => Some(Call::Use(Kind::Outgoing, units)),
        (4, _) => Some(Call::Use(Kind::Incoming, units)),
        (5, _) => Some(Call::Use(Kind::Sms, units)),
        (6, _) => Some(Call::TopUp(units)),
        (7, 0) => Some(Call::NextDay),
        _ => None,
    }
}

// One call, with the log lent: looked at for soundness first, unless it is known.
fn make_call(state: State, log: &mut Log, known: bool, c: Call) -> StateApplied
    requires { SaidSound known (account_of state log.old) }
    ensures answer { result ≡ applied_state (applied (account_of state log.old) c) }
    ensures shifted { log.new ≡ (step (account_of state log.old) c).log }
{
    if known {
        account::call_sound(state, log, c)
    } else {
        account::call_with(state, log, c)
    }
}

// One more coded call, with the log lent.
#[tactic(auto, unfolding(crate::specs::Replay::replay_step))]
pub fn replay_with(t: Progress, log: &mut Log, x: Option<Call>) -> Progress
    requires { Going t log.old }
    ensures progress { result ≡ progress_of t.sound (replay_step (replayed_of t log.old) x) }
    ensures shifted { log.new ≡ (replay_step (replayed_of t log.old) x).account.log }
{
    match x {
        Some(c) => {
            let done = make_call(t.state, log, t.sound, c);
            Progress {
                state: done.state,
                refused: t.refused + usize::from(done.answer.is_err()),
                ..t
            }
        }
        None => Progress {
            refused: t.refused + 1,
            ..t
        },
    }
}

// The first n calls of a calls section, with the log lent: one reader over the section.
fn run_calls(section: &[u8], n: usize, from: Progress, log: &mut Log) -> Progress
    requires { (8 * n ≤ length section.now) × Starting from log.old }
    ensures { replayed_of result log.new ≡ run_first (account_of from.state log.old) section.now n }
{
    let mut t = from;
    for c in Reader::new(section).take(n) {
        t = replay_with(t, log, decode(c.code, c.number));
    }
    t
}

// All calls of a calls section, with the log lent. Where `known` is true no call looks whether the account is sound, so
// this asks that it is; every call leaves it so. Where it is false each call looks, and the account may be any.
pub fn run_section(section: &[u8], state: State, log: &mut Log, known: bool) -> Progress
    requires { SaidSound known (account_of state log.old) }
    ensures { replayed_of result log.new ≡ run_section (account_of state log.old) section.now }
{
    let from = Progress {
        state,
        refused: 0,
        sound: known,
    };
    run_calls(section, section.len() / 8, from, log)
}

// All calls of a calls section, with the log lent: one for each whole eight bytes. The account is looked at once: if it
// is sound it stays so. If not, each call looks, and is refused.
pub fn section_with(section: &[u8], state: State, log: &mut Log) -> Progress
    ensures { replayed_of result log.new ≡ run_section (account_of state log.old) section.now }
{
    let known = account::parts_fit(state, log);
    run_section(section, state, log, known)
}

// The same on a whole account.
pub fn replay(section: &[u8], mut a: Account) -> Replayed
    ensures { result ≡ run_section a section.now }
{
    let t = section_with(section, a.state, &mut a.log);
    a.state = t.state;
    Replayed {
        account: a,
        refused: t.refused,
    }
}
