// The power p of a device in each interval, in its part of the powers.
#![tactic(auto)]

ghost use Rattle.std.specs.Prelude.{◌≡◌, ◌+◌, ◌<◌, length};
ghost use Rattle.clock.specs.Times.{Clock};
ghost use Rattle.ramped_powers.specs.Changes.{ramping_of, Rampable, Settled, Low, Changed, added_by, Online, Powers};

use cell_rows::pmin_at;
use kilowatts::Kw;
use row_places::{CellRow, Device, SettingRow};
use setting_rows::{on_at, online_at};
use trajectories::{add_after, add_before, leaves_at};

// What a device's trajectories are computed from: its initial state and power, its starting and stopping ramps in kW/min.
#[derive(Clone, Copy)]
pub struct Ramping {
    pub on0: u32,
    pub power0: Kw,
    pub starting: u32,
    pub stopping: u32,
}

pub fn ramping_of(d: Device) -> Ramping
    ensures { result ≡ ramping_of d }
{
    Ramping {
        on0: d.on0,
        power0: d.power0,
        starting: d.ramps[2],
        stopping: d.ramps[3],
    }
}

// Adds to a device's powers what interval e gives the others: a start to those before it, a stop to itself and those after it.
fn add_change(
    r: Ramping,
    cells: &[CellRow],
    starts: &[u32],
    before: u32,
    on: u32,
    e: usize,
    row: &mut [u32],
)
    requires { Rampable r cells.now × (e < length cells.now) × Clock (length cells.now) starts.now × (length row.old ≡ length cells.now) × Low row.old }
    ensures { Changed (added_by r cells.now starts.now before on e) row.old row.new }
{
    if before < on {
        let power = pmin_at(cells, e);
        add_before(power, r.starting, starts, e, row);
    } else if on < before {
        let power = leaves_at(r.power0, cells, e);
        add_after(power, r.stopping, starts, e, row);
    }
}

fn add_changes(
    r: Ramping,
    cells: &[CellRow],
    settings: &[SettingRow],
    starts: &[u32],
    row: &mut [u32],
)
    requires { Rampable r cells.now × Settled cells.now settings.now × Clock (length cells.now) starts.now × Online settings.now row.old }
    ensures { Powers r cells.now settings.now starts.now row.new }
{
    let mut before = r.on0;
    for e in 0..cells.len() {
        let on = on_at(settings, e);
        add_change(r, cells, starts, before, on, e, row);
        before = on;
    }
}

fn online_powers(settings: &[SettingRow], row: &mut [u32])
    requires { length row.old ≡ length settings.now }
    ensures { Online settings.now row.new }
{
    for (t, power) in row.iter_mut().enumerate() {
        *power = online_at(settings, t).0;
    }
}

// The powers of a device.
pub fn device_powers(
    r: Ramping,
    cells: &[CellRow],
    settings: &[SettingRow],
    starts: &[u32],
    row: &mut [u32],
)
    requires { Rampable r cells.now × Settled cells.now settings.now × Clock (length cells.now) starts.now × (length row.old ≡ length cells.now) }
    ensures { Powers r cells.now settings.now starts.now row.new }
{
    online_powers(settings, row);
    add_changes(r, cells, settings, starts, row);
}
