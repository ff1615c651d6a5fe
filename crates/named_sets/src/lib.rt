// The sets that are named: each in the case, producing, and named once; the interval in the case; as many earlier powers as sets.
#![tactic(auto)]

ghost use Rattle.std.specs.Prelude.{◌≡◌, ◌≤◌, length};
ghost use Rattle.model.specs.Editions.{most_devices};
ghost use Rattle.records.specs.Views.{system_in, CaseRows};
ghost use Rattle.dispatching.specs.Dispatch.{sets_fit};
ghost use Rattle.named_sets.specs.Named.{produces, named};

use device_rows::side_at;
use row_places::{CellRow, DeviceRow, Front, MinimaRow, ZoneRow};

// Whether a set is in the case and produces.
fn produces(devices: &[DeviceRow], s: u64) -> bool
    requires { length devices.now ≤ most_devices }
    ensures { result ≡ produces devices.now s }
{
    s >= 1 && s <= devices.len() as u64 && side_at(devices, (s - 1) as usize) != 1
}

// Whether every set is in the case, produces, and is named once.
fn all_named(devices: &[DeviceRow], sets: &[u64]) -> bool
    requires { length devices.now ≤ most_devices }
    ensures { result ≡ named devices.now sets.now }
{
    for (k, s) in sets.iter().enumerate() {
        if !produces(devices, *s) || sets[k + 1..].contains(s) {
            return false;
        }
    }
    true
}

// Whether the interval, the sets and the number of earlier powers fit the case: else 8.
pub fn sets_fit(
    front: Front,
    halves: &[u32],
    zones: &[ZoneRow],
    minima: &[MinimaRow],
    devices: &[DeviceRow],
    cells: &[CellRow],
    interval: u64,
    sets: &[u64],
    lent: usize,
) -> bool
    requires { CaseRows front halves.now zones.now minima.now devices.now cells.now }
    ensures { result ≡ sets_fit (system_in halves.now zones.now minima.now devices.now cells.now) interval sets.now lent }
{
    interval >= 1
        && interval <= halves.len() as u64
        && all_named(devices, sets)
        && lent == sets.len()
}
