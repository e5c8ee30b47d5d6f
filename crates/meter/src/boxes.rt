// A family box in the caller's memory: its account as numbers, its cards as records. The two functions of the library
// lend the cards to `cards` alone; all else they do by what one pass over the cards found.
ghost use Rattle.std.specs.Prelude.{◌≡◌, true, cond, length};
ghost use Rattle.tariff.specs.Tests.{is_accepted};
ghost use Rattle.tariff.specs.Plan.{plan_with, plan_verdict};
ghost use Rattle.account.specs.Whole.{opened};
ghost use Rattle.numbers.specs.Numbers.{account_numbers, terms_from};
ghost use Rattle.cards.specs.Survey.{start};
ghost use Rattle.family.specs.Seen.{card_place, no_change, seen_verdict, opening_change};
ghost use Rattle.meter.specs.Answers.{verdict_code, answer_laid};
ghost use Rattle.meter.specs.Boxes.{box_call, is_box_call, found_answer, found_numbers, found_change};
ghost use Rattle.meter.specs.Boxes.{box_code, box_numbers, box_cards, box_laid};
ghost use Rattle.meter.specs.Boxes.{box_open_code, box_open_numbers, box_open_cards};
ghost use Rattle.meter.specs.Boxes.{found_returned, found_opens, found_opened};

use super::{answer_code, kind_of, open_on, place_of, put_answer, settle};
use cards::{Card, Change, Survey};
use family::BoxCall;
use state::Answer;
use tariff::{Plan, Refusal};

// What a call on a box answers, and what becomes of the cards.
#[derive(Clone, Copy)]
pub struct BoxAnswered {
    pub answer: Answer,
    pub change: Change,
}

// What a function returns, and what becomes of the cards.
#[derive(Clone, Copy)]
pub struct BoxReturned {
    pub code: u64,
    pub change: Change,
}

// The call that is meant: 0 register, 1 use, 2 top-up, 3 next day, 4 Afford.
// Kept: the C interface gives the call as a number.
#[tactic(auto, unfolding(crate::specs::Boxes::box_call))]
fn call_meant(call: u64, card: usize, which: u64, n: u64) -> BoxCall
    ensures { result ≡ box_call call card which n }
{
    match call {
        0 => BoxCall::Register(place_of(which)),
        1 => BoxCall::Use(card, kind_of(which), n),
        2 => BoxCall::TopUp(n),
        3 => BoxCall::NextDay,
        _ => BoxCall::Afford(card, kind_of(which)),
    }
}

// A pass that looks for the card that the call names.
fn start_meant(call: u64, card: usize, which: u64, n: u64) -> Survey
    ensures { result ≡ start (card_place (box_call call card which n)) }
{
    family::seen::start_for(call_meant(call, card, which, n))
}

// Are the arguments those of a call, with room for its answer of so many numbers?
#[tactic(auto, unfolding(crate::specs::Boxes::is_box_call, crate::specs::Calls::kind_with_room))]
fn is_call(call: u64, which: u64, answer: &[u64]) -> bool
    ensures { result ≡ is_box_call call which answer.now }
{
    match call {
        0 => which <= 2,
        1 => which <= 3 && 5 <= answer.len(),
        2 | 3 => true,
        4 => which <= 3 && 1 <= answer.len(),
        _ => false,
    }
}

// A call on the account that the numbers stand for, with the log where it stands.
// kept: beside `calls::call_on`, whose call has no card: what both do beyond the call itself is `held`, `state_held`
// and `settle`, three lines.
fn call_found(account: &mut [u64], s: Survey, c: BoxCall) -> BoxAnswered
    ensures answer { result ≡ record {
      answer = found_answer account.old s c;
      change = found_change account.old s c;
    } }
    ensures numbers { account.new ≡ found_numbers account.old s c }
{
    if !numbers::held(account) {
        return BoxAnswered {
            answer: Err(Refusal::Unsound),
            change: family::seen::unchanged(family::seen::place_of(c), s),
        };
    }
    let state = numbers::state_held(account);
    let done = family::seen::call_seen(state, account.first_chunk_mut::<1599>().unwrap(), s, c);
    settle(account, done);
    BoxAnswered {
        answer: done.answer,
        change: family::seen::change_of(done, s, c),
    }
}

// What a call on a box returns and answers, by what a pass over the cards found.
fn return_found(
    account: &mut [u64],
    s: Survey,
    call: u64,
    card: usize,
    which: u64,
    n: u64,
    answer: &mut [u64],
) -> BoxReturned
    ensures returned { result ≡ found_returned
        account.old s (box_call call card which n) (is_box_call call which answer.old) }
    ensures numbers { account.new ≡ cond (is_box_call call which answer.old)
        (found_numbers account.old s (box_call call card which n)) account.old }
    ensures answered { answer.new ≡ cond (is_box_call call which answer.old)
        (answer_laid (found_answer account.old s (box_call call card which n)) answer.old)
        answer.old }
{
    let c = call_meant(call, card, which, n);
    if !is_call(call, which, answer) {
        return BoxReturned {
            code: 1001,
            change: family::seen::unchanged(family::seen::place_of(c), s),
        };
    }
    let x = call_found(account, s, c);
    put_answer(answer, x.answer);
    BoxReturned {
        code: answer_code(x.answer),
        change: x.change,
    }
}

// Opening under a plan that is granted, by what a pass over the cards found.
fn open_granted(account: &mut [u64], s: Survey, p: Plan) -> BoxReturned
    requires { (length account.old ≡ 1649) × (is_accepted (plan_verdict p) ≡ true) }
    ensures returned { result ≡ record {
      code = verdict_code (seen_verdict p s);
      change = opening_change (seen_verdict p s) s;
    } }
    ensures numbers { account.new ≡ cond (is_accepted (seen_verdict p s))
        (account_numbers (opened p)) account.old }
{
    let opened = family::seen::open_seen(p, s);
    let change = family::seen::opening_of(opened, s);
    match opened.answer {
        Ok(()) => {
            open_on(account, p);
            BoxReturned { code: 1000, change }
        }
        Err(refusal) => BoxReturned {
            code: refusal.into(),
            change,
        },
    }
}

fn left_with(code: u64, s: Survey) -> BoxReturned
    ensures { result ≡ record { code = code; change = no_change 0 s } }
{
    BoxReturned {
        code,
        change: family::seen::unchanged(0, s),
    }
}

// Opening, by what a pass over the cards found.
fn open_found(account: &mut [u64], s: Survey, plan: &[u64]) -> BoxReturned
    ensures returned { result ≡ found_opened account.old s plan.now }
    ensures numbers { account.new ≡ cond (found_opens account.old s plan.now)
        (account_numbers (opened (plan_with (terms_from plan.now)))) account.old }
{
    if plan.len() != 7 {
        return left_with(1001, s);
    }
    if account.len() != 1649 {
        return left_with(Refusal::Unsound.into(), s);
    }
    match tariff::plans::plan_from(numbers::terms_of(plan)) {
        Ok(p) => open_granted(account, s, p),
        Err(refusal) => left_with(refusal.into(), s),
    }
}

// Opens a box under a plan of seven numbers for the cards with their allowances. Refusals 0, for another count of
// numbers of the account, 1, 17, 18, 2, 19 and 20.
pub fn meter_box_open(account: &mut [u64], cards: &mut [Card], plan: &[u64]) -> u64
    ensures { (result ≡ box_open_code account.old cards.old plan.now)
        × (account.new ≡ box_open_numbers account.old cards.old plan.now)
        × (cards.new ≡ box_open_cards account.old cards.old plan.now) }
{
    let found = cards::survey_all(cards, cards::start_at(0));
    let done = open_found(account, found, plan);
    cards::settle(cards, done.change);
    done.code
}

// A call on a box: 0 register at a place, 1 use of n units of a kind by a card, 2 top-up of n points, 3 next day, 4
// Afford of a kind by a card. Refusals 0, 19, those of the account's call and, before 6, 20.
pub fn meter_box_call(
    account: &mut [u64],
    cards: &mut [Card],
    call: u64,
    card: usize,
    which: u64,
    n: u64,
    answer: &mut [u64],
) -> u64
    ensures { (result ≡ box_code account.old cards.old (box_call call card which n)
        (is_box_call call which answer.old))
        × (account.new ≡ box_numbers account.old cards.old (box_call call card which n)
        (is_box_call call which answer.old))
        × (cards.new ≡ box_cards account.old cards.old (box_call call card which n)
        (is_box_call call which answer.old))
        × (answer.new ≡ box_laid account.old cards.old (box_call call card which n)
        (is_box_call call which answer.old) answer.old) }
{
    let found = cards::survey_all(cards, start_meant(call, card, which, n));
    let done = return_found(account, found, call, card, which, n, answer);
    cards::settle(cards, done.change);
    done.code
}
