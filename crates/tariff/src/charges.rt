// Which units bear a home price or lie past the limit, and what units come to in points (use-3, use-4, use-7, use-11,
// use-12, limit-2).
ghost use Rattle.std.specs.Prelude.{◌≡◌, ◌+◌, ◌-◌, ◌*◌, ◌/◌, ◌<◌};
ghost use Rattle.tariff.specs.Charges.{after_first, billed_kb, counted_kb, after_allowance, home_charges_of};
ghost use Rattle.tariff.specs.Charges.{surcharges_of, PriceFits, BasisFits};

use super::{Allowance, Form, Plan, Units};

// Of n units that follow `before` others, those after the first `limit`.
#[tactic(auto, unfolding(crate::specs::Charges::after_first))]
pub fn after_the_first(limit: u64, before: u64, n: u64) -> u64
    ensures { result ≡ after_first limit before n }
{
    n.saturating_sub(limit.saturating_sub(before))
}

// The kB of n that bear the home price, after h others of the month.
#[tactic(auto, unfolding(crate::specs::Charges::billed_kb))]
pub fn billed_of(f: Form, volume: u64, h: u64, n: u64) -> u64
    ensures { result ≡ billed_kb f volume h n }
{
    match f {
        Form::Prepaid => n,
        Form::Bundle => after_the_first(volume, h, n),
        Form::Unlimited => 0,
    }
}

// The kB of n that count towards a bundle's month.
#[tactic(auto, unfolding(crate::specs::Charges::counted_kb))]
pub fn counted_of(f: Form, n: u64) -> u64
    ensures { result ≡ counted_kb f n }
{
    match f {
        Form::Prepaid => 0,
        Form::Bundle => n,
        Form::Unlimited => n,
    }
}

// The kB of n that lie past the allowance, after r others.
#[tactic(auto, unfolding(crate::specs::Charges::after_allowance))]
pub fn past_allowance(l: Allowance, r: u64, n: u64) -> u64
    ensures { result ≡ after_allowance l r n }
{
    match l {
        None => 0,
        Some(m) => after_the_first(m, r, n),
    }
}

// Home charges of all the billed units of an account's life: one rounding per kind.
#[tactic(auto, unfolding(crate::specs::Charges::home_charges_of))]
pub fn home_of(p: Plan, u: Units) -> u64
    requires { PriceFits p u }
    ensures { result ≡ home_charges_of p u }
{
    p.pergb * u.kb / 1048576 + p.perminute * u.outgoing / 60 + p.persms * u.sms
}

// Surcharges of the sums of cap x units of an account's life: one rounding per kind.
#[tactic(auto, unfolding(crate::specs::Charges::surcharges_of))]
pub fn surcharges_from(basis: Units) -> u64
    requires { BasisFits basis }
    ensures { result ≡ surcharges_of basis }
{
    basis.kb / 1048576 + basis.outgoing / 60 + basis.incoming / 60 + basis.sms
}
