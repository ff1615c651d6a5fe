// The cheapest dispatch of one interval, from a case's bytes; the lent offers in an array. Nothing is required of the caller; every dispatch ends.
#![tactic(auto)]

ghost use Rattle.std.specs.Prelude.{◌≡◌, ◌*◌, ◌≤◌};
ghost use Rattle.model.specs.Editions.{host, most_devices, most_intervals, most_zones};
ghost use Rattle.dispatch_core.specs.Holds.{Holds};

use case_inspection::{CELLS, DEVICES, INTERVALS, MINIMA, SMALL_CELLS, SMALL_MINIMA, ZONES};
use case_sizes::{SMALL_DEVICES, SMALL_INTERVALS, Size};
use dispatches::Held;
use dispatching::Dispatch;
use offers::Offer;

// In tables for the largest counts of a reader, with room for that much alone: a small case needs no more stack than its own tables take.
#[inline(never)]
fn dispatch_in_tables<
    const MOST_DEVICES: usize,
    const MOST_INTERVALS: usize,
    const MOST_CELLS: usize,
    const MOST_MINIMA: usize,
>(
    case: &[u8],
    interval: u64,
    sets: &[u64],
    powers: &mut [u64],
    all: [Offer; 256],
    count: usize,
    target: u64,
) -> Held
    requires few { (MOST_DEVICES ≤ most_devices) × (MOST_INTERVALS ≤ most_intervals) }
    requires fit { (MOST_CELLS ≡ MOST_DEVICES * MOST_INTERVALS) × (MOST_MINIMA ≡ most_zones * MOST_INTERVALS) }
    ensures { Holds (record { devices = MOST_DEVICES; intervals = MOST_INTERVALS }) case.now interval sets.now powers.old powers.new all count target result }
{
    let mut halves = [0u32; MOST_INTERVALS];
    let zone = row_places::blank_zone();
    let mut zones = [zone; ZONES];
    let least = row_places::blank_minima();
    let mut minima = [least; MOST_MINIMA];
    let device = row_places::blank_device();
    let mut devices = [device; MOST_DEVICES];
    let cell = row_places::blank_cell();
    let mut cells = [cell; MOST_CELLS];
    let read = case_reader::read_case(
        case,
        MOST_DEVICES as u32,
        MOST_INTERVALS as u32,
        &mut halves,
        &mut zones,
        &mut minima,
        &mut devices,
        &mut cells,
    );
    match read {
        Err(f) => Held {
            answer: Dispatch::Refused(f),
            offers: all,
        },
        Ok(head) => {
            let n = head.counts.devices;
            let m = head.counts.intervals;
            let z = head.counts.zones;
            let k = n * m;
            let j = z * m;
            dispatches::dispatch_case(
                head.front,
                &halves[..m],
                &zones[..z],
                &minima[..j],
                &devices[..n],
                &cells[..k],
                interval,
                sets,
                powers,
                all,
                count,
                target,
            )
        }
    }
}

// `count` offers are lent, of which the array holds the first 256. Reading comes first, then 8, then 9.
pub fn dispatch_held(
    case: &[u8],
    interval: u64,
    sets: &[u64],
    powers: &mut [u64],
    all: [Offer; 256],
    count: usize,
    target: u64,
) -> Held
    ensures { Holds host case.now interval sets.now powers.old powers.new all count target result }
{
    match case_sizes::size_of(case) {
        Size::Unstated | Size::Small => {
            dispatch_in_tables::<SMALL_DEVICES, SMALL_INTERVALS, SMALL_CELLS, SMALL_MINIMA>(
                case, interval, sets, powers, all, count, target,
            )
        }
        Size::ManyDevices | Size::ManyIntervals => {
            dispatch_in_tables::<DEVICES, INTERVALS, CELLS, MINIMA>(
                case, interval, sets, powers, all, count, target,
            )
        }
    }
}
