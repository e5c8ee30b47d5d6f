// Claims about uses, stated in specs/Claims.antt, and about what the other calls make of H, R and L, in
// specs/Moves.antt.
ghost use Rattle.state.specs.Claims.{UsesAddUp, CostGrows, FirstHalfMinute, FreeUse};
ghost use Rattle.state.specs.Moves.{LimitsKept};

// Two uses, one after the other, come to one use of their sum.
#[tactic(auto, using(crate::proofs::Claimed::uses_add_up))]
pub fn uses_add_up()
    ensures { UsesAddUp }
{}

// A use of more units costs no less.
#[tactic(auto, using(crate::proofs::Growth::cost_grows))]
pub fn cost_grows()
    ensures { CostGrows }
{}

// Which records are charged for more than was used, and for how much.
#[tactic(auto, using(crate::proofs::Claimed::first_half_minute))]
pub fn first_half_minute()
    ensures { FirstHalfMinute }
{}

// A use elsewhere costs nothing, and of a use outside the zone no unit bears a surcharge.
#[tactic(auto, using(crate::proofs::Claimed::free_use))]
pub fn free_use()
    ensures { FreeUse }
{}

// H, R and L stay as they are: registering in the zone again, topping up a bundle, a day change of a prepaid account.
#[tactic(auto, using(crate::proofs::Claimed::limits_kept))]
pub fn limits_kept()
    ensures { LimitsKept }
{}
