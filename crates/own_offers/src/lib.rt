// The blocks of the named sets in an interval, as offers.
#![tactic(auto)]

ghost use Rattle.std.specs.Prelude.{◌≡◌, ◌≤◌, ◌<◌, length, take};
ghost use Rattle.numbers.specs.Sum.{All};
ghost use Rattle.records.specs.Views.{CaseRows, case_in, less, price_offset};
ghost use Rattle.offers.specs.Merit.{room};
ghost use Rattle.dispatching.specs.Dispatch.{offers_of};
ghost use Rattle.own_offers.specs.Own.{block_offer};

use cell_rows::cell_at;
use offer_tests::no_offers;
use offers::Offer;
use row_places::{Cell, CellRow, DeviceRow, Front, MinimaRow, ZoneRow};

// Offers in an array, and how many there are.
#[derive(Clone, Copy)]
pub struct Listed {
    pub all: [Offer; 256],
    pub n: usize,
}

// A price kept from 0.
fn price_of(kept: u32) -> i64
    ensures { result ≡ less price_offset kept }
{
    i64::from(kept) - 10_000
}

// Block b of a cell as an offer of set s.
fn offer_of(c: Cell, s: u64, b: usize) -> Offer
    requires { b < 4 }
    ensures { result ≡ block_offer c s b }
{
    Offer {
        set: s,
        block: b as u64 + 1,
        cap: u64::from(c.caps[b].0),
        floor: u64::from(c.floors[b].0),
        price: price_of(c.prices[b]),
    }
}

// The offers of the named sets in interval t, set by set. One function, so that the array is not copied for each set.
pub fn own_offers(
    front: Front,
    halves: &[u32],
    zones: &[ZoneRow],
    minima: &[MinimaRow],
    devices: &[DeviceRow],
    cells: &[CellRow],
    t: usize,
    sets: &[u64],
) -> Listed
    requires { CaseRows front halves.now zones.now minima.now devices.now cells.now × (t < length halves.now)
        × All (λ s. (1 ≤ s) × (s ≤ length devices.now)) sets.now × (length sets.now ≤ 64) }
    ensures { (result.n ≤ room)
        × (take result.n result.all ≡ offers_of (case_in front halves.now zones.now minima.now devices.now cells.now) t sets.now) }
{
    let mut all = no_offers();
    let mut n = 0;
    for s in sets {
        let c = cell_at(cells, (*s - 1) as usize * halves.len() + t);
        for b in 0..c.blocks as usize {
            all[n] = offer_of(c, *s, b);
            n += 1;
        }
    }
    Listed { all, n }
}
