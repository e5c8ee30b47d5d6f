// A family box: one account, and up to 16 cards that share it, a lent list of records (family-1 to family-14).
#![tactic(auto)]

pub mod seen;

ghost use Rattle.std.specs.Prelude.{◌≡◌};
ghost use Rattle.account.specs.Answers.{applied_state};
ghost use Rattle.family.specs.Box.{box_with, box_step};
ghost use Rattle.family.specs.Answers.{box_applied, open_box, box_parts};

use account::StateOpened;
use cards::Card;
use presence::Log;
use state::{State, StateApplied};
use tariff::{Kind, Place, Plan};

// A call on a box. The place of a card in the list, which counts from 0, tells whose use or Afford it is.
#[derive(Clone, Copy)]
pub enum BoxCall {
    Register(Place),
    Use(usize, Kind, u64),
    TopUp(u64),
    NextDay,
    Afford(usize, Kind),
}

// Opens a box under the plan for the cards with their allowances: refusals 1, 17, 18, 2, 19 and 20. The account's log
// is empty. A refusal leaves the cards as they were, and an account that is not sound.
#[tactic(auto, using(crate::proofs::Ties::opened_is, crate::proofs::Ties::opened_cards))]
pub fn open_with(cards: &mut [Card], p: Plan) -> StateOpened
    ensures { (result ≡ box_parts (open_box p cards.old))
        × (cards.new ≡ (open_box p cards.old).box.cards) }
{
    let found = cards::survey_all(cards, cards::start_at(0));
    let opened = seen::open_seen(p, found);
    cards::settle(cards, seen::opening_of(opened, found));
    opened
}

// A call on all of the account but its log, which is lent, and on the cards: refusals 0, 19, those of the account's
// call and, before 6, 20. A refusal changes neither log nor card.
#[tactic(auto, unfolding(crate::specs::Answers::box_applied), using(crate::proofs::Ties::called_is, crate::proofs::Ties::cards_are))]
pub fn call_with(state: State, log: &mut Log, cards: &mut [Card], c: BoxCall) -> StateApplied
    ensures { (result ≡ applied_state (box_applied (box_with state log.old cards.old) c))
        × (log.new ≡ (box_step (box_with state log.old cards.old) c).account.log)
        × (cards.new ≡ (box_step (box_with state log.old cards.old) c).cards) }
{
    let found = cards::survey_all(cards, seen::start_for(c));
    let done = seen::call_seen(state, log, found, c);
    cards::settle(cards, seen::change_of(done, found, c));
    done
}
