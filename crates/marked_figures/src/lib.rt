// The marked figures of document 01 and those of 02, 1/13, 2/13 and 4/13: one table of tests over the definitions, and
// the claim that all of them hold.
#![tactic(auto)]

ghost use Rattle.marked_figures.specs.Figures.{FiguresHold};

// The eleven marked figures of 01, six of 02, 1/13, six of 02, 2/13, and seven of 02, 4/13, hold of the definitions.
#[tactic(auto, using(crate::proofs::Hold::figures_hold))]
pub fn figures_hold()
    ensures { FiguresHold }
{}
