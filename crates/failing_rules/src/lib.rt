// Which rules of an interval and device fail, and the breach of a rule at its place: what the first breach and the list of all read.
#![tactic(auto)]

ghost use Rattle.std.specs.Prelude.{◌≡◌, ◌*◌, ◌<◌, length};
ghost use Rattle.model.specs.Rules.{cell_breach, link_breach, window_breach};
ghost use Rattle.model.specs.Breaches.{failing, cell_tests};
ghost use Rattle.records.specs.Views.{system_in, plan_in, most_windows, most_devices, most_intervals, Ready};
ghost use Rattle.cell_bounds.specs.Word.{numbers_in};

use cell_bounds::bounds_of;
use device_rows::device_at;
use device_rules::failing_at;
use model::Breach;
use reactive_rules::{failing_reactive, reactive_bounds_of};
use row_places::{CellRow, DeviceRow, Front, MinimaRow, SettingRow, ZoneRow};

// "A place is interval, device, window from 1, else 0."
pub fn cell_breach(rule: u64, t: usize, i: usize) -> Breach
    requires { (t < most_intervals) × (i < most_devices) }
    ensures { result ≡ cell_breach t i rule }
{
    let interval = t as u64 + 1;
    let device = i as u64 + 1;
    Breach {
        rule,
        interval,
        device,
        window: 0,
    }
}

// Rule 27 of an interval, "with device 0 in its place".
pub fn link_breach(t: usize) -> Breach
    requires { t < most_intervals }
    ensures { result ≡ link_breach t 27 }
{
    Breach {
        rule: 27,
        interval: t as u64 + 1,
        device: 0,
        window: 0,
    }
}

// Rule 20 of a window.
pub fn window_breach(i: usize, w: usize) -> Breach
    requires { (i < most_devices) × (w < most_windows) }
    ensures { result ≡ window_breach i w 20 }
{
    let device = i as u64 + 1;
    let window = w as u64 + 1;
    Breach {
        rule: 20,
        interval: 0,
        device,
        window,
    }
}

// The rules of device i, whose parts begin at a, that fail in interval t: bit n for rule n.
pub fn failing_in(
    front: Front,
    halves: &[u32],
    zones: &[ZoneRow],
    minima: &[MinimaRow],
    devices: &[DeviceRow],
    cells: &[CellRow],
    settings: &[SettingRow],
    starts: &[u32],
    powers: &[u32],
    i: usize,
    a: usize,
    t: usize,
) -> u32
    requires { Ready front halves.now zones.now minima.now devices.now cells.now settings.now starts.now powers.now
        × (i < length devices.now) × (a ≡ i * length halves.now) × (t < length halves.now) }
    ensures { numbers_in result ≡ failing (cell_tests (system_in halves.now zones.now minima.now devices.now
        cells.now) (plan_in (length devices.now) (length halves.now) settings.now) t i) }
{
    let d = device_at(devices, i);
    let b = bounds_of(d);
    let r = reactive_bounds_of(d);
    let e = a + halves.len();
    let own_cells = &cells[a..e];
    let own = &settings[a..e];
    let own_powers = &powers[a..e];
    let real = failing_at(b, d.power0, halves, own_cells, own, starts, own_powers, t);
    let reactive = failing_reactive(r, own_cells, own, starts, own_powers, t);
    real + reactive
}
