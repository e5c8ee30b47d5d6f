// One call of the calls section.
ghost use Rattle.std.specs.Prelude.{◌≡◌};
ghost use Rattle.tripfile.specs.Bodies.{call, call_right};

// 15: a code of 1 to 7, a register number up to 2, a next-day number of 0?
// Kept: code and number, as a file and the lent lists hold them, before it is known that they are a call.
#[tactic(auto, unfolding(crate::specs::Bodies::call_right))]
pub fn call_right(code: u32, number: u32) -> bool
    ensures { result ≡ call_right (call code number) }
{
    match code {
        1 => number <= 2,
        2..=6 => true,
        7 => number == 0,
        _ => false,
    }
}
