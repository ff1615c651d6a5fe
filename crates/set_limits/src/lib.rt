// The bounds of all named sets, by place.
#![tactic(auto)]

ghost use Rattle.std.specs.Prelude.{◌≡◌, ◌<◌, ◌≤◌, length};
ghost use Rattle.numbers.specs.Sum.{All};
ghost use Rattle.records.specs.Views.{system_in, CaseRows};
ghost use Rattle.set_limits.specs.Limits.{Limited, NamedIn};

use row_places::{CellRow, DeviceRow, Front, MinimaRow, ZoneRow};

// The least powers and the most, 0 where no set is named.
#[derive(Clone, Copy)]
pub struct Limits {
    pub lo: [u64; 64],
    pub hi: [u64; 64],
}

// The bounds of the named sets in interval t, from their earlier powers; from the last named on, as the definition has it.
pub fn limits_of(
    front: Front,
    halves: &[u32],
    zones: &[ZoneRow],
    minima: &[MinimaRow],
    devices: &[DeviceRow],
    cells: &[CellRow],
    t: usize,
    sets: &[u64],
    powers: &[u64],
) -> Limits
    requires { CaseRows front halves.now zones.now minima.now devices.now cells.now × (t < length halves.now) × NamedIn (length devices.now) sets.now powers.now }
    ensures { Limited (system_in halves.now zones.now minima.now devices.now cells.now) t sets.now
        powers.now result.lo result.hi }
{
    let mut lo = [0u64; 64];
    let mut hi = [0u64; 64];
    for k in (0..sets.len()).rev() {
        let i = (sets[k] - 1) as usize;
        let earlier = powers[k];
        let b = set_bounds::bounds_at(front, halves, zones, minima, devices, cells, t, i, earlier);
        lo[i] = b.lo;
        hi[i] = b.hi;
    }
    Limits { lo, hi }
}
