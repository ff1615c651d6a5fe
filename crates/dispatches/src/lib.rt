// The cheapest dispatch of one interval against a decoded case. One body for owners of tables of any size.
#![tactic(auto)]

ghost use Rattle.decoded_cases.specs.Decoded.{Decoded};
ghost use Rattle.dispatches.specs.Cases.{Ready, Given, DispatchesCase};

use dispatching::Dispatch;
use offers::Offer;
use row_places::{CellRow, DeviceRow, Front, MinimaRow, ZoneRow};

// The answer, and the offers as they are found again.
#[derive(Clone, Copy)]
pub struct Held {
    pub answer: Dispatch,
    pub offers: [Offer; 256],
}

// Sets that fit the case: 8 where the offers do not, else 9 where no such powers exist, else the powers, and the offers in the order of merit.
fn dispatch_sets(
    front: Front,
    halves: &[u32],
    zones: &[ZoneRow],
    minima: &[MinimaRow],
    devices: &[DeviceRow],
    cells: &[CellRow],
    t: usize,
    sets: &[u64],
    powers: &mut [u64],
    all: [Offer; 256],
    count: usize,
    target: u64,
) -> Held
    requires { Ready front halves.now zones.now minima.now devices.now cells.now t sets.now powers.old count }
    ensures { Given front halves.now zones.now minima.now devices.now cells.now t sets.now
        powers.old powers.new all count target result }
{
    let lent = lent_offers::sorted_offers(
        front, halves, zones, minima, devices, cells, t, sets, all, count,
    );
    let own = lent.own;
    // Taken out first: no proof is generated where a field that is an array is made part of a literal straight.
    let list = lent.all;
    if own {
        let met = settled_powers::settle_powers(
            front, halves, zones, minima, devices, cells, t, sets, powers, list, count, target,
        );
        if met {
            return Held {
                answer: Dispatch::Dispatched,
                offers: list,
            };
        }
        return Held {
            answer: Dispatch::Unmet(target),
            offers: all,
        };
    }
    Held {
        answer: Dispatch::Unfit,
        offers: all,
    }
}

// A dispatch against a decoded case. `count` offers are lent, of which the array holds the first 256: no case has more blocks in an interval.
pub fn dispatch_case(
    front: Front,
    halves: &[u32],
    zones: &[ZoneRow],
    minima: &[MinimaRow],
    devices: &[DeviceRow],
    cells: &[CellRow],
    interval: u64,
    sets: &[u64],
    powers: &mut [u64],
    all: [Offer; 256],
    count: usize,
    target: u64,
) -> Held
    requires { Decoded front halves.now zones.now minima.now devices.now cells.now }
    ensures { DispatchesCase front halves.now zones.now minima.now devices.now cells.now interval sets.now
        powers.old powers.new all count target result }
{
    let lent = powers.len();
    let fit = named_sets::sets_fit(
        front, halves, zones, minima, devices, cells, interval, sets, lent,
    );
    if fit {
        if count <= 256 {
            let t = (interval - 1) as usize;
            return dispatch_sets(
                front, halves, zones, minima, devices, cells, t, sets, powers, all, count, target,
            );
        }
    }
    Held {
        answer: Dispatch::Unfit,
        offers: all,
    }
}
