// The refusal numbers: which ones each operation can answer, and in what order their reasons are looked at, as a claim
// stated in specs/Order.antt.
#![tactic(auto)]

ghost use Rattle.refusals.specs.Order.{ReasonsInOrder, TextReasonsInOrder};

// The reasons of each operation have these numbers, in this order.
#[tactic(auto, using(crate::proofs::Order::reasons_in_order))]
pub fn reasons_in_order()
    ensures { ReasonsInOrder }
{}

// And so have those of reading a text of calls and of exporting one.
#[tactic(auto, using(crate::proofs::Order::text_reasons_in_order))]
pub fn text_reasons_in_order()
    ensures { TextReasonsInOrder }
{}
