// The largest use that the account affords (afford-1).
ghost use Rattle.std.specs.Prelude.{◌≡◌, true};
ghost use Rattle.presence.specs.Day.{is_placed};
ghost use Rattle.state.specs.Needs.{Steady};
ghost use Rattle.account.specs.Largest.{most_units};

use state::State;
use tariff::Kind;

// The largest use that a sound account, somewhere, may make: by halving, in some 30 steps, over the kind's own figures.
pub fn most_of(a: State, k: Kind) -> u64
    requires { Steady a × (is_placed a.place ≡ true) }
    ensures { result ≡ most_units a k }
{
    let q = quotes::quote_of(a, k);
    let mut lo: u64 = 0;
    let mut hi: u64 = 1000000000;
    // kept: no index is counted; what lies between is halved
    while lo < hi {
        let mid = lo + (hi - lo + 1) / 2;
        if quotes::within_quote(q, mid) {
            lo = mid;
        } else {
            hi = mid - 1;
        }
    }
    lo
}
