// The lent offers in the order of merit, and whether they are exactly the case's own.
#![tactic(auto)]

ghost use Rattle.std.specs.Prelude.{◌<◌, ◌≤◌, length};
ghost use Rattle.numbers.specs.Sum.{All};
ghost use Rattle.offers.specs.Merit.{room};
ghost use Rattle.records.specs.Views.{case_in, CaseRows};
ghost use Rattle.lent_offers.specs.Lent.{Matches, Sorts};

use merit_sort::sorted;
use offer_tests::same_offers;
use offers::Offer;
use row_places::{CellRow, DeviceRow, Front, MinimaRow, ZoneRow};

// Whether the offers are those of the case, and the array in the order of merit.
#[derive(Clone, Copy)]
pub struct Lent {
    pub own: bool,
    pub all: [Offer; 256],
}

// The first `count` offers of one array against the first n of another: each in the order of merit, then place by place.
fn matched(found: [Offer; 256], n: usize, all: [Offer; 256], count: usize) -> Lent
    requires { (n ≤ room) × (count ≤ room) }
    ensures { Matches found n all count result.own result.all }
{
    let lent = sorted(all, count);
    if n == count {
        let ours = sorted(found, count);
        let own = same_offers(lent, ours, count);
        return Lent { own, all: lent };
    }
    Lent {
        own: false,
        all: lent,
    }
}

// The first `count` offers of an array, against the blocks of the named sets in interval t.
pub fn sorted_offers(
    front: Front,
    halves: &[u32],
    zones: &[ZoneRow],
    minima: &[MinimaRow],
    devices: &[DeviceRow],
    cells: &[CellRow],
    t: usize,
    sets: &[u64],
    all: [Offer; 256],
    count: usize,
) -> Lent
    requires { CaseRows front halves.now zones.now minima.now devices.now cells.now × (t < length halves.now)
        × All (λ s. (1 ≤ s) × (s ≤ length devices.now)) sets.now × (length sets.now ≤ 64) × (count ≤ room) }
    ensures { Sorts (case_in front halves.now zones.now minima.now devices.now
        cells.now) t sets.now all count result.own result.all }
{
    let listed = own_offers::own_offers(front, halves, zones, minima, devices, cells, t, sets);
    matched(listed.all, listed.n, all, count)
}
