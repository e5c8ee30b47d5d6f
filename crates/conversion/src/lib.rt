// Between trip files and text: the calls of a trip file as text, and the trip file of a plan and a text (lines-11,
// lines-12).
#![tactic(auto)]

ghost use Rattle.std.specs.Prelude.{◌≡◌};
ghost use Rattle.conversion.specs.Errors.{declined_text};

pub mod claims;
pub mod exporting;
pub mod importing;

use tariff::Refusal;
use textlines::TextError;

// Why the calls of a file are not exported: the file is bad, or their text is declined.
#[derive(Clone, Copy, PartialEq, Eq)]
pub enum ExportError {
    File(Refusal),
    Text(Refusal),
}

// Why a text is not imported: the number, from 1, of the first line that is not of the form (22), another refusal of
// the text, or one of the writing.
#[derive(Clone, Copy, PartialEq, Eq)]
pub enum ImportError {
    BadLine(usize),
    Text(Refusal),
    Writing(Refusal),
}

impl From<TextError> for ImportError {
    ghost from_gives = { λ e r. r ≡ declined_text e };

    fn from(e: TextError) -> ImportError {
        match e {
            TextError::BadLine(k) => ImportError::BadLine(k),
            TextError::Refused(r) => ImportError::Text(r),
        }
    }
}
