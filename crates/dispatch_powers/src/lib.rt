// The powers that meet a target: from the floors and the least powers on, the sets are raised offer by offer.
#![tactic(auto)]

ghost use Rattle.dispatch_powers.specs.Powers.{Startable, Dispatches};

use offers::Offer;
use raising::Rise;

// The powers by place, of offers in the order of merit and bounds that allow the target.
pub fn powers_by(
    all: [Offer; 256],
    n: usize,
    lo: [u64; 64],
    hi: [u64; 64],
    target: u64,
) -> [u64; 64]
    requires { Startable all n lo hi target }
    ensures { Dispatches all n lo hi target result }
{
    let start = Rise {
        heights: dispatch_arrays::floors_of(all, n),
        powers: lo,
        total: place_totals::total_of(lo),
    };
    raising::raised(all, n, lo, hi, start, target)
}
