// The meter as a library for the box. An account lies in the caller's memory as numbers, and nothing is kept between two
// calls. Crate `meter_c` has these functions for programs in C, whose header is include/meter.h.
#![tactic(auto)]

pub mod boxes;
pub mod calls;
pub mod caps;
pub mod claims;
pub mod files;
pub mod opening;
pub mod texts;

ghost use Rattle.std.specs.Prelude.{◌≡◌, true, cond, ◌∷◌, [], ◌≤◌, length};
ghost use Rattle.tariff.specs.Tests.{is_accepted};
ghost use Rattle.tariff.specs.Plan.{plan_verdict};
ghost use Rattle.account.specs.Answers.{open_answer};
ghost use Rattle.numbers.specs.Numbers.{account_numbers};
ghost use Rattle.meter.specs.Answers.{laid, answer_code, charge_numbers, answer_laid};
ghost use Rattle.meter.specs.Calls.{sound_numbers, kind_from, place_named, answer_size, settled, Settles};

use state::{Answer, Charge, Outcome, StateApplied};
use tariff::{Kind, Place, Plan};

// Numbers into the first places of a list; those after them stay.
#[tactic(auto, unfolding(crate::specs::Answers::laid))]
fn put_first(out: &mut [u64], ns: &[u64])
    requires { length ns.now ≤ length out.old }
    ensures { out.new ≡ laid ns.now out.old }
{
    numbers::put_numbers(out, 0, ns);
}

// kept: room in a lent list, here and in `files` and `texts`, and 1,649 numbers in `settle`, `open_on` and
// `open_granted` are clauses, since the C interface lends memory and its length.

// One number into the first place.
fn put_number(out: &mut [u64], n: u64)
    requires { 1 ≤ length out.old }
    ensures { out.new ≡ laid (n ∷ []) out.old }
{
    put_first(out, &[n]);
}

// What a call's answer is returned as.
fn answer_code(x: Answer) -> u64
    ensures { result ≡ answer_code x }
{
    match x {
        Ok(_) => 1000,
        Err(refusal) => refusal.into(),
    }
}

// Is it the numbers of a sound account?
#[tactic(auto, unfolding(crate::specs::Calls::sound_numbers))]
fn sound_held(account: &[u64]) -> bool
    ensures { result ≡ sound_numbers account.now }
{
    if !numbers::held(account) {
        return false;
    }
    let state = numbers::state_held(account);
    account::parts_fit(state, account.first_chunk::<1599>().unwrap())
}

// Kept: kinds, places and calls come as numbers, and 1000, 1001 and 1002 are returned beside the refusals, as the C
// interface has them (include/meter.h).
#[tactic(auto, unfolding(crate::specs::Calls::kind_from))]
fn kind_of(n: u64) -> Kind
    ensures { result ≡ kind_from n }
{
    match n {
        0 => Kind::Data,
        1 => Kind::Outgoing,
        2 => Kind::Incoming,
        _ => Kind::Sms,
    }
}

#[tactic(auto, unfolding(crate::specs::Calls::place_named))]
fn place_of(n: u64) -> Place
    ensures { result ≡ place_named n }
{
    match n {
        0 => Place::Home,
        1 => Place::Zone,
        _ => Place::Elsewhere,
    }
}

// What an accepted call makes of all but the log, over the old numbers.
#[tactic(auto, unfolding(crate::specs::Calls::settled))]
fn settle(account: &mut [u64], done: StateApplied)
    requires { (length account.old ≡ 1649) × Settles done }
    ensures { account.new ≡ settled done account.old }
{
    if done.answer.is_ok() {
        numbers::put_state(account, done.state);
    }
}

// A use's charge into the first five numbers of a list.
fn put_charge(out: &mut [u64], c: Charge)
    requires { 5 ≤ length out.old }
    ensures { out.new ≡ laid (charge_numbers c) out.old }
{
    let notice = u64::from(c.notice);
    put_first(out, &[c.home, c.extra, c.surcharged, c.charged, notice]);
}

// What a call answers, beyond its code, into a list with room for it.
fn put_answer(out: &mut [u64], x: Answer)
    requires { answer_size x ≤ length out.old }
    ensures { out.new ≡ answer_laid x out.old }
{
    match x {
        Ok(Outcome::Charged(c)) => put_charge(out, c),
        Ok(Outcome::UpTo(n)) => put_number(out, n),
        Ok(Outcome::Done) | Err(_) => {}
    }
}

// The account of an accepted plan, over any numbers.
fn open_on(account: &mut [u64], p: Plan)
    requires { (length account.old ≡ 1649) × (is_accepted (plan_verdict p) ≡ true) }
    ensures { account.new ≡ account_numbers (open_answer p).account }
{
    account[..1599].fill(0);
    numbers::put_state(account, state::moves::opened_with(p));
}
