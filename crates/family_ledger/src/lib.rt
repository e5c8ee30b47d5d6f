// Lists of calls on a family box: claims about every box and list, stated in specs/Demand3.antt and specs/Claims.antt.
#![tactic(auto)]

ghost use Rattle.family_ledger.specs.Demand3.{FamilyDemand3, FamilyFromSound, FamilyOneMoreThanCuts};
ghost use Rattle.family_ledger.specs.Demand3.{FamilyEndIsCompared};
ghost use Rattle.family_ledger.specs.Claims.{OtherCardsStay, AllowancesStay, CardAffordIsLargest, OneCardIsPlain};

// Demand 3 of family boxes: two boxes opened alike are equal, account and cards, just where all their stretches are, by
// card and in charged seconds; the cards add up to the account; the book shows the account's money.
pub fn family_demand_3()
    ensures { FamilyDemand3 }
{}

// The same from any sound box.
pub fn family_from_sound()
    ensures { FamilyFromSound }
{}

// A list has one stretch more than it has cuts, and as many boxes to compare.
pub fn family_one_more_than_cuts()
    ensures { FamilyOneMoreThanCuts }
{}

// The last box that a match compares is the one that the list leads to.
#[tactic(auto, using(crate::proofs::Claims::family_end_is_compared))]
pub fn family_end_is_compared()
    ensures { FamilyEndIsCompared }
{}

// A use changes no card but its own, and a refused call changes nothing.
#[tactic(auto, using(crate::proofs::Others::other_cards_stay))]
pub fn other_cards_stay()
    ensures { OtherCardsStay }
{}

// No list of calls changes how many cards there are, or an allowance.
#[tactic(auto, using(crate::proofs::Others::allowances_stay))]
pub fn allowances_stay()
    ensures { AllowancesStay }
{}

// What Afford of a card answers is accepted, and no larger use is; it changes nothing.
#[tactic(auto, using(crate::proofs::Others::card_afford_is_largest))]
pub fn card_afford_is_largest()
    ensures { CardAffordIsLargest }
{}

// A box with one card of the largest allowance opens, answers and charges as the account alone.
#[tactic(auto, using(crate::proofs::OneCard::one_card_is_plain))]
pub fn one_card_is_plain()
    ensures { OneCardIsPlain }
{}
