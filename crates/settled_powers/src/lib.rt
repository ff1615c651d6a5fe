// The powers of the named sets, written over the earlier ones where they can meet the target.
#![tactic(auto)]

ghost use Rattle.settled_powers.specs.Settled.{Dispatchable, Settles};

use offers::Offer;
use row_places::{CellRow, DeviceRow, Front, MinimaRow, ZoneRow};

// Whether there are such powers; where there are they are written, else nothing is touched. The offers are the case's own, in the order of merit.
pub fn settle_powers(
    front: Front,
    halves: &[u32],
    zones: &[ZoneRow],
    minima: &[MinimaRow],
    devices: &[DeviceRow],
    cells: &[CellRow],
    t: usize,
    sets: &[u64],
    powers: &mut [u64],
    ours: [Offer; 256],
    n: usize,
    target: u64,
) -> bool
    requires { Dispatchable front halves.now zones.now minima.now devices.now cells.now t sets.now powers.old ours n }
    ensures { Settles front halves.now zones.now minima.now devices.now cells.now t sets.now
        powers.old powers.new target result }
{
    let limits = set_limits::limits_of(
        front, halves, zones, minima, devices, cells, t, sets, powers,
    );
    let lo = limits.lo;
    let hi = limits.hi;
    if place_totals::can_meet(lo, hi, target) {
        let figures = dispatch_powers::powers_by(ours, n, lo, hi, target);
        dispatch_arrays::write_powers(figures, sets, powers);
        return true;
    }
    false
}
