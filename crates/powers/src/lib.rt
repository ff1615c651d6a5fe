// The forced figures: S of each interval, and the power p of each device in each interval.
#![tactic(auto)]

ghost use Rattle.std.specs.Prelude.{◌≡◌, [], ◌+◌, ◌-◌, ◌*◌, ◌<◌, length, get_or};
ghost use Rattle.row_places.specs.Figures.{device_of};
ghost use Rattle.records.specs.Views.{PlanRows};
ghost use Rattle.clock.specs.Times.{Times};
ghost use Rattle.ramped_powers.specs.Changes.{ramping_of};
ghost use Rattle.powers.specs.Fleet.{CaseOf, Forced, ForcedPowers};

use clock::start_times;
use device_rows::device_at;
use ramped_powers::{Ramping, device_powers, ramping_of};
use row_places::{CellRow, DeviceRow, SettingRow};

fn ramping_at(devices: &[DeviceRow], i: usize) -> Ramping
    requires { i < length devices.now }
    ensures { result ≡ ramping_of (device_of (get_or devices.now i [])) }
{
    ramping_of(device_at(devices, i))
}

// The powers of every device.
fn put_powers(
    halves: &[u32],
    devices: &[DeviceRow],
    cells: &[CellRow],
    settings: &[SettingRow],
    starts: &[u32],
    powers: &mut [u32],
)
    requires case_of { CaseOf halves.now devices.now cells.now × PlanRows (length devices.now) (length halves.now) settings.now × Times halves.now starts.now }
    requires powers_len { length powers.old ≡ length devices.now * length halves.now }
    ensures { ForcedPowers halves.now devices.now cells.now settings.now powers.new }
{
    let m = halves.len();
    let mut a = 0;
    for i in 0..devices.len() {
        let r = ramping_at(devices, i);
        let e = a + m;
        device_powers(r, &cells[a..e], &settings[a..e], starts, &mut powers[a..e]);
        a = e;
    }
}

// Times and powers of a decoded case and plan, whatever its zones and prices.
pub fn force(
    halves: &[u32],
    devices: &[DeviceRow],
    cells: &[CellRow],
    settings: &[SettingRow],
    starts: &mut [u32],
    powers: &mut [u32],
)
    requires case_of { CaseOf halves.now devices.now cells.now × PlanRows (length devices.now) (length halves.now) settings.now }
    requires starts_len { (length starts.old ≡ length halves.now + 1) × (length powers.old ≡ length devices.now * length halves.now) }
    ensures { Forced halves.now devices.now cells.now settings.now starts.new powers.new }
{
    start_times(halves, starts);
    put_powers(halves, devices, cells, settings, starts, powers);
}
