// The calls of a box, by what one pass over its cards found. These functions lend no card, so the library uses them,
// too, with an account that lies in the caller's memory.
ghost use Rattle.std.specs.Prelude.{◌≡◌};
ghost use Rattle.cards.specs.Survey.{start};
ghost use Rattle.account.specs.Answers.{account_of, applied_state};
ghost use Rattle.family.specs.Box.{plain, beyond};
ghost use Rattle.family.specs.Seen.{card_place, cards_fit, card_read, card_missing, beyond_refusal, room_of};
ghost use Rattle.family.specs.Seen.{answer_within, within_card, seen_applied, seen_change};
ghost use Rattle.family.specs.Seen.{card_after, month_turns, unopened_with, seen_opened, opening_change};
ghost use Rattle.family.specs.Seen.{no_change};

use super::BoxCall;
use account::{Call, StateOpened};
use cards::{Card, Change, Renewal, Survey};
use presence::Log;
use state::{Answer, Outcome, State, StateApplied};
use tariff::{Kind, Plan, Refusal};

// The account's call that a call on the box comes to.
#[tactic(auto, unfolding(crate::specs::Box::plain))]
fn plain_of(c: BoxCall) -> Call
    ensures { result ≡ plain c }
{
    match c {
        BoxCall::Register(p) => Call::Register(p),
        BoxCall::Use(_, k, n) => Call::Use(k, n),
        BoxCall::TopUp(n) => Call::TopUp(n),
        BoxCall::NextDay => Call::NextDay,
        BoxCall::Afford(_, k) => Call::Afford(k),
    }
}

// The place of the card that a call names; where it names none, the first.
pub fn place_of(c: BoxCall) -> usize
    ensures { result ≡ card_place c }
{
    match c {
        BoxCall::Use(i, _, _) | BoxCall::Afford(i, _) => i,
        _ => 0,
    }
}

// A pass that looks for the card that a call names.
pub fn start_for(c: BoxCall) -> Survey
    ensures { result ≡ start (card_place c) }
{
    cards::start_at(place_of(c))
}

// Do the cards add up to the account, and is each sound?
fn cards_fit(state: State, s: Survey) -> bool
    ensures { result ≡ cards_fit state s }
{
    s.total == state.meters.lifetime && s.ordered
}

// The card that was found; where there is none, one with nothing.
fn card_of(s: Survey) -> Card
    ensures { result ≡ card_read s }
{
    s.card.unwrap_or_default()
}

// Is there no card at the place that the call names, or are there over 16?
fn is_missing(s: Survey, c: BoxCall) -> bool
    ensures { result ≡ card_missing s c }
{
    match c {
        BoxCall::Use(_, _, _) | BoxCall::Afford(_, _) => s.card.is_none() || s.count > 16,
        _ => s.count > 16,
    }
}

// Are these kB beyond the card's monthly allowance? Any values will do.
#[tactic(auto, unfolding(crate::specs::Box::beyond))]
fn is_beyond(c: Card, k: Kind, n: u64) -> bool
    ensures { result ≡ beyond c k n }
{
    matches!(k, Kind::Data) && (c.allowance < n || c.allowance - n < c.monthly)
}

// What a use beyond the card's allowance is refused with, by what the account answers: 0, 3, 4 and 5 come before 20.
fn beyond_refusal(x: Answer) -> Refusal
    ensures { result ≡ beyond_refusal x }
{
    match x {
        Err(r) if u64::from(r) < 6 => r,
        _ => Refusal::CardAllowance,
    }
}

// How much of a kind the card may use: of data what its allowance has left, of others as much as any use.
fn room(c: Card, k: Kind) -> u64
    ensures { result ≡ room_of c k }
{
    match k {
        Kind::Data => c.allowance.saturating_sub(c.monthly),
        _ => 1000000000,
    }
}

// What Afford answers, but no more than r.
fn at_most(x: Answer, r: u64) -> Answer
    ensures { result ≡ answer_within x r }
{
    match x {
        Ok(Outcome::UpTo(n)) => Ok(Outcome::UpTo(n.min(r))),
        _ => x,
    }
}

// What the account made of a call, as the card that the call names allows: a use beyond the card's allowance is
// refused, and Afford is cut to it. A larger use than a refused one is refused, by the account and by the card, so the
// largest that both accept is the lesser of what each does.
fn within(before: State, done: StateApplied, card: Card, c: BoxCall) -> StateApplied
    ensures { result ≡ within_card before done card c }
{
    match c {
        BoxCall::Use(_, k, n) if is_beyond(card, k, n) => state::declined(
            before,
            beyond_refusal(done.answer),
        ),
        BoxCall::Afford(_, k) => StateApplied {
            answer: at_most(done.answer, room(card, k)),
            ..done
        },
        _ => done,
    }
}

// A call on all of the account but its log, which is lent.
#[tactic(auto, unfolding(crate::specs::Seen::seen_applied, account::specs::Answers::applied))]
pub fn call_seen(state: State, log: &mut Log, s: Survey, c: BoxCall) -> StateApplied
    ensures answer { result ≡ applied_state (seen_applied (account_of state log.old) s c) }
    ensures shifted { log.new ≡ (seen_applied (account_of state log.old) s c).account.log }
{
    if !cards_fit(state, s) {
        return state::declined(state, Refusal::Unsound);
    }
    if is_missing(s, c) {
        if !account::parts_fit(state, log) {
            return state::declined(state, Refusal::Unsound);
        }
        return state::declined(state, Refusal::CardPlace);
    }
    let done = account::call_with(state, log, plain_of(c));
    within(state, done, card_of(s), c)
}

// The card after a call that named it and was accepted.
fn card_used(card: Card, c: BoxCall) -> Card
    ensures { result ≡ card_after card c }
{
    match c {
        BoxCall::Use(_, k, n) => cards::used_by(card, tariff::amounts::only_of(k, n)),
        _ => card,
    }
}

// Does a call that led to the day begin a month?
fn turns_month(c: BoxCall, day: u64) -> bool
    ensures { result ≡ month_turns c day }
{
    matches!(c, BoxCall::NextDay) && calendar::starts_month(day)
}

// Nothing becomes of the cards, of which the one at place i was found.
pub fn unchanged(i: usize, s: Survey) -> Change
    ensures { result ≡ no_change i s }
{
    Change {
        place: i,
        card: card_of(s),
        renewal: None,
    }
}

// What a call makes of the cards, by what it answered and the account that it left.
pub fn change_of(done: StateApplied, s: Survey, c: BoxCall) -> Change
    ensures { result ≡ seen_change done s c }
{
    let place = place_of(c);
    if done.answer.is_err() {
        return unchanged(place, s);
    }
    Change {
        place,
        card: card_used(card_of(s), c),
        renewal: turns_month(c, done.state.day).then_some(Renewal::Month),
    }
}

// What opening hands out where it is refused: an account that is not sound.
#[tactic(auto, using(crate::proofs::Openings::no_plan_state))]
fn unopened(r: Refusal) -> StateOpened
    ensures { result ≡ unopened_with r }
{
    StateOpened {
        answer: Err(r),
        state: account::open_with(account::NO_PLAN).state,
    }
}

// Opening, by the count of the cards and their allowances.
#[tactic(auto, using(crate::proofs::Openings::open_no, crate::proofs::Openings::open_yes, crate::proofs::Openings::open_19, crate::proofs::Openings::open_20))]
pub fn open_seen(p: Plan, s: Survey) -> StateOpened
    ensures { result ≡ seen_opened p s }
{
    let opened = account::open_with(p);
    if opened.answer.is_err() {
        return opened;
    }
    if s.count == 0 || s.count > 16 {
        return unopened(Refusal::CardPlace);
    }
    if !s.allowed {
        return unopened(Refusal::CardAllowance);
    }
    opened
}

// What opening makes of the cards, by what it answered.
pub fn opening_of(opened: StateOpened, s: Survey) -> Change
    ensures { result ≡ opening_change opened.answer s }
{
    match opened.answer {
        Ok(()) => Change {
            place: 0,
            card: card_of(s),
            renewal: Some(Renewal::Life),
        },
        Err(_) => unchanged(0, s),
    }
}
