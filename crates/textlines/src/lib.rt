// The calls of a calls section as lines of text: reading such a text, and exporting calls as one (02, 6/13).
#![tactic(auto)]

pub mod claims;
pub mod export;
mod line;
pub mod reading;

use tariff::Refusal;

// Why a text is not read: the number, from 1, of the first line that is not of the form (22), or another refusal.
#[derive(Clone, Copy, PartialEq, Eq)]
pub enum TextError {
    BadLine(usize),
    Refused(Refusal),
}
