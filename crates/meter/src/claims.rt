// What the library's calls have to do with the account's and the box's, each as the promise of a function.
ghost use Rattle.meter.specs.Claims.{CallsFollowTheAccount, RefusedChangesNoNumber};
ghost use Rattle.meter.specs.Claims.{BoxCallsFollowTheBox, RefusedChangesNoCard};

// A call on the numbers of an account is the call on the account.
pub fn calls_follow_the_account()
    ensures { CallsFollowTheAccount }
{}

// A refused call leaves every number as it was.
#[tactic(auto, using(crate::proofs::Held::refused_changes_no_number))]
pub fn refused_changes_no_number()
    ensures { RefusedChangesNoNumber }
{}

// A call on the numbers of an account and on cards is the call on the box.
pub fn box_calls_follow_the_box()
    ensures { BoxCallsFollowTheBox }
{}

// A refused call on a box leaves every number and every card as it was.
pub fn refused_changes_no_card()
    ensures { RefusedChangesNoCard }
{}
