// Opening an account in the caller's memory.
ghost use Rattle.std.specs.Prelude.{◌≡◌};
ghost use Rattle.meter.specs.Calls.{open_code, open_numbers};

use super::open_on;
use tariff::Refusal;

// A new account under a plan of seven numbers: form, start day, three prices, fee, volume. Refusals 0, for another
// count of numbers, 1, 17, 18 and 2.
#[tactic(auto, using(crate::proofs::Open::open_done, crate::proofs::Open::open_declined), unfolding(crate::specs::Calls::open_code, crate::specs::Calls::open_numbers, crate::specs::Calls::open_verdict))]
pub fn meter_open(account: &mut [u64], plan: &[u64]) -> u64
    ensures code { result ≡ open_code account.old plan.now }
    ensures numbers { account.new ≡ open_numbers account.old plan.now }
{
    if plan.len() != 7 {
        return 1001;
    }
    if account.len() != 1649 {
        return Refusal::Unsound.into();
    }
    match tariff::plans::plan_from(numbers::terms_of(plan)) {
        Ok(p) => {
            open_on(account, p);
            1000
        }
        Err(refusal) => refusal.into(),
    }
}
