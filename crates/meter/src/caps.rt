// The caps of a day.
ghost use Rattle.std.specs.Prelude.{◌≡◌, cond, length, leb};
ghost use Rattle.tariff.specs.Caps.{built_in, search_of};
ghost use Rattle.meter.specs.Answers.{laid, accepted, bad_argument};
ghost use Rattle.meter.specs.Files.{caps_numbers};

use super::put_first;
use tariff::Found;

// The caps of a day into the first four numbers of a list, and how many rows were read into the fifth.
pub fn meter_caps(day: u64, answer: &mut [u64]) -> u64
    ensures code { result ≡ cond (leb 5 (length answer.old)) accepted bad_argument }
    ensures answered { answer.new ≡ cond (leb 5 (length answer.old))
        (laid (caps_numbers (search_of built_in day)) answer.old) answer.old }
{
    if answer.len() < 5 {
        return 1001;
    }
    let Found { caps, read } = tariff::caps::find_caps(day);
    put_first(
        answer,
        &[caps.kb, caps.outgoing, caps.incoming, caps.sms, read],
    );
    1000
}
