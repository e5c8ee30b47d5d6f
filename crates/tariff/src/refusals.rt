// The number of each refusal (order-1).
ghost use Rattle.std.specs.Prelude.{◌≡◌};
ghost use Rattle.tariff.specs.Refusal.{refusal_number};

use super::Refusal;
use std::fmt;

impl From<Refusal> for u64 {
    ghost from_gives = { λ r n. n ≡ refusal_number r };

    fn from(r: Refusal) -> u64 {
        match r {
            Refusal::Unsound => 0,
            Refusal::UnusedField => 1,
            Refusal::StartDay => 2,
            Refusal::Unplaced => 3,
            Refusal::UnitCount => 4,
            Refusal::MeterFull => 5,
            Refusal::OverCredit => 6,
            Refusal::TopUpSize => 7,
            Refusal::PaidLimit => 8,
            Refusal::LastDay => 9,
            Refusal::FileLength => 10,
            Refusal::FileSum => 11,
            Refusal::FileTable => 12,
            Refusal::NotOnce => 13,
            Refusal::BodyLength => 14,
            Refusal::CallForm => 15,
            Refusal::NoRoom => 16,
            Refusal::PriceRange => 17,
            Refusal::FeeRange => 18,
            Refusal::CardPlace => 19,
            Refusal::CardAllowance => 20,
            Refusal::TextLength => 21,
            Refusal::LineForm => 22,
        }
    }
}

// A refusal is printed as its number.
impl fmt::Display for Refusal {
    fn fmt<W: fmt::Write>(&self, f: &mut fmt::Formatter<W>) -> fmt::Result {
        write!(f, "{}", u64::from(*self))
    }
}
