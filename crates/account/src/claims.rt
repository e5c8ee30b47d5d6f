// Claims about every account and call, stated in specs/Claims.antt.
ghost use Rattle.account.specs.Claims.{AffordIsLargest, AffordChangesNothing, RefusedChangesNothing};
ghost use Rattle.account.specs.Claims.{OpenTellsSound};

// What Afford answers is accepted, and nothing larger is.
#[tactic(auto, using(crate::proofs::Claimed::afford_is_largest))]
pub fn afford_is_largest()
    ensures { AffordIsLargest }
{}

// Afford leaves the account as it is.
#[tactic(auto, using(crate::proofs::Claimed::afford_changes_nothing))]
pub fn afford_changes_nothing()
    ensures { AffordChangesNothing }
{}

// A refused call leaves the account as it is.
#[tactic(auto, using(crate::proofs::Claimed::refused_changes_nothing))]
pub fn refused_changes_nothing()
    ensures { RefusedChangesNothing }
{}

// Open hands out a sound account where it accepts, and an unsound one where it refuses.
#[tactic(auto, using(crate::proofs::Claimed::open_tells_sound))]
pub fn open_tells_sound()
    ensures { OpenTellsSound }
{}
