// Lists of calls and the book: claims about whole lists of calls, stated in specs/Demand3.antt.
#![tactic(auto)]

ghost use Rattle.ledger.specs.Demand3.{Demand3, Demand3FromSound, SoundStaysSound, OneMoreThanCuts};
ghost use Rattle.ledger.specs.Demand3.{EndIsCompared};
ghost use Rattle.ledger.specs.Example.{EndIsNotEnough, UnitsAreNotEnough};

// Demand 3: two accounts opened alike match exactly when their stretches do, and the book shows each account's money.
pub fn demand_3()
    ensures { Demand3 }
{}

// The same from any sound account: match, money and soundness.
pub fn demand_3_from_sound()
    ensures { Demand3FromSound }
{}

// A sound account stays sound through every list of calls.
#[tactic(auto, using(crate::proofs::Claims::sound_stays_sound))]
pub fn sound_stays_sound()
    ensures { SoundStaysSound }
{}

// A list has one stretch more than it has cuts, and as many accounts to compare.
pub fn one_more_than_cuts()
    ensures { OneMoreThanCuts }
{}

// The last account that a match compares is the one that the list leads to.
#[tactic(auto, using(crate::proofs::Claims::end_is_compared))]
pub fn end_is_compared()
    ensures { EndIsCompared }
{}

// Equal accounts at the end say nothing of the stretches: two lists that show it.
#[tactic(auto, using(crate::proofs::Example::end_is_not_enough))]
pub fn end_is_not_enough()
    ensures { EndIsNotEnough }
{}

// Equal units in every stretch say nothing of the charged seconds, by which accounts differ: two lists that show it.
#[tactic(auto, using(crate::proofs::Example::units_are_not_enough))]
pub fn units_are_not_enough()
    ensures { UnitsAreNotEnough }
{}
