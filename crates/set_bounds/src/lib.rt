// Between what powers a set may stand in an interval: "within pmin, pmax, floors, caps and the ramps of rules 5 and 6".
#![tactic(auto)]

ghost use Rattle.std.specs.Prelude.{◌≡◌, ◌≤◌, ◌<◌, length};
ghost use Rattle.records.specs.Views.{system_in, CaseRows};
ghost use Rattle.dispatching.specs.Dispatch.{lowest, highest};
ghost use Rattle.set_bounds.specs.Bounds.{Small, low_of, high_of};

use cell_bounds::sum_of;
use cell_rows::cell_at;
use grains::product;
use row_places::{
    Cell, CellRow, DEVICE_RAMP_DOWN, DEVICE_RAMP_UP, DeviceRow, Front, MinimaRow, ZoneRow,
};

// The least power and the most.
#[derive(Clone, Copy)]
pub struct Bounds {
    pub lo: u64,
    pub hi: u64,
}

// A set's bounds from its cell, how far it may rise and fall, and its earlier power.
fn bounds_of(c: Cell, rise: u64, fall: u64, earlier: u64) -> Bounds
    requires { (rise ≤ 36000000) × Small c }
    ensures { (result.lo ≡ low_of fall c earlier) × (result.hi ≡ high_of rise c earlier) }
{
    let floors = c.pmin.most(sum_of(c.floors));
    let caps = c.pmax.least(sum_of(c.caps));
    Bounds {
        lo: u64::from(floors.0).max(earlier.saturating_sub(fall)),
        hi: u64::from(caps.0).min(earlier.saturating_add(rise)),
    }
}

// The bounds of device i in interval t, on in this interval and the one before, from its earlier power.
pub fn bounds_at(
    front: Front,
    halves: &[u32],
    zones: &[ZoneRow],
    minima: &[MinimaRow],
    devices: &[DeviceRow],
    cells: &[CellRow],
    t: usize,
    i: usize,
    earlier: u64,
) -> Bounds
    requires { CaseRows front halves.now zones.now minima.now devices.now cells.now × (t < length halves.now) × (i < length devices.now) }
    ensures { (result.lo ≡ lowest (system_in halves.now zones.now minima.now devices.now cells.now) t i earlier)
        × (result.hi ≡ highest (system_in halves.now zones.now minima.now devices.now cells.now) t i earlier) }
{
    let c = cell_at(cells, i * halves.len() + t);
    let minutes = 2 * halves[t];
    let rise = product(minutes, devices[i][DEVICE_RAMP_UP]);
    let fall = product(minutes, devices[i][DEVICE_RAMP_DOWN]);
    bounds_of(c, rise, fall, earlier)
}
