// A claim about what units of one kind cost, stated in specs/Claims.antt.
ghost use Rattle.quotes.specs.Claims.{OneKindsCost};

// What units of one kind cost depends on that kind's figures alone.
#[tactic(auto, using(crate::proofs::Quoting::one_kinds_cost))]
pub fn one_kinds_cost()
    ensures { OneKindsCost }
{}
