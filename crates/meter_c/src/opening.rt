// Opening an account in the caller's memory.
ghost use Rattle.std.specs.Prelude.{◌≡◌};
ghost use Rattle.meter.specs.Calls.{open_code, open_numbers};

// A new account under a plan of seven numbers: form, start day, three prices, fee, volume. Refusals 0, for another
// count of numbers, 1, 17, 18 and 2.
#[unsafe(no_mangle)]
pub extern "C" fn meter_open(account: &mut [u64], plan: &[u64]) -> u64
    ensures code { result ≡ open_code account.old plan.now }
    ensures numbers { account.new ≡ open_numbers account.old plan.now }
{
    meter::opening::meter_open(account, plan)
}
