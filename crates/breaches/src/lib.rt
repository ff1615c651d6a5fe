// The numbered rules of a day: whether a plan breaks none, and the first that it breaks.
#![tactic(auto)]

ghost use Rattle.std.specs.Prelude.{◌≡◌, true, ◌↔◌, [], ◌≤◌, ◌<◌, length};
ghost use Rattle.model.specs.Breaches.{cell_breaches, window_breaches, breaches};
ghost use Rattle.records.specs.Views.{system_in, plan_in, most_windows, most_devices, most_intervals, Ready};
ghost use Rattle.cell_bounds.specs.Word.{numbers_in};
ghost use Rattle.breaches.specs.First.{first};
ghost use Rattle.breaches.specs.Bits.{first_of};
ghost use Rattle.start_windows.specs.Windows.{Timed};
ghost use Rattle.failing_rules.specs.Parts.{windows_here};
ghost use Rattle.failing_rules.specs.Day.{interval_cells, interval_breaches, day_breaches, day_windows};
ghost use Rattle.breaches.specs.Day.{DeviceHolds, HoldTo};
ghost use Rattle.link_rules.specs.Link.{link_here, LinkRow};

use cell_bounds::bounds_of;
use device_rows::device_at;
use device_rules::held_all;
use failing_rules::{cell_breach, failing_in, link_breach, window_breach};
use link_rules::{link_held, link_kept};
use model::Breach;
use reactive_rules::{reactive_bounds_of, reactive_held};
use row_places::{CellRow, Device, DeviceRow, Front, MinimaRow, SettingRow, ZoneRow};
use start_windows::{all_starts, window_kept};

// The first of the rules that a word names, bit n for rule n.
fn first_in(word: u32, t: usize, i: usize) -> Option<Breach>
    requires { (t < most_intervals) × (i < most_devices) }
    ensures { result ≡ first_of t i (numbers_in word) }
{
    let mut rest = word;
    for rule in 0..32 {
        if rest % 2 == 1 {
            return Some(cell_breach(rule, t, i));
        }
        rest /= 2;
    }
    None
}

// Rules 1 to 19 and 21 to 26 of device i in interval t.
fn cell_check(
    front: Front,
    halves: &[u32],
    zones: &[ZoneRow],
    minima: &[MinimaRow],
    devices: &[DeviceRow],
    cells: &[CellRow],
    settings: &[SettingRow],
    starts: &[u32],
    powers: &[u32],
    i: usize,
    t: usize,
) -> Option<Breach>
    requires { Ready front halves.now zones.now minima.now devices.now cells.now settings.now starts.now powers.now
        × (i < length devices.now) × (t < length halves.now) }
    ensures { result ≡ first (cell_breaches (system_in halves.now zones.now minima.now devices.now
        cells.now) (plan_in (length devices.now) (length halves.now) settings.now) t i) }
{
    let a = i * halves.len();
    let word = failing_in(
        front, halves, zones, minima, devices, cells, settings, starts, powers, i, a, t,
    );
    first_in(word, t, i)
}

// Rules 1 to 19 and 21 to 26 of the devices in an interval.
fn interval_cells(
    front: Front,
    halves: &[u32],
    zones: &[ZoneRow],
    minima: &[MinimaRow],
    devices: &[DeviceRow],
    cells: &[CellRow],
    settings: &[SettingRow],
    starts: &[u32],
    powers: &[u32],
    t: usize,
) -> Option<Breach>
    requires { Ready front halves.now zones.now minima.now devices.now cells.now settings.now starts.now powers.now × (t < length halves.now) }
    ensures { result ≡ first (interval_cells (system_in halves.now zones.now minima.now devices.now
        cells.now) (plan_in (length devices.now) (length halves.now) settings.now) t) }
{
    for i in 0..devices.len() {
        let r = cell_check(
            front, halves, zones, minima, devices, cells, settings, starts, powers, i, t,
        );
        let None = r else {
            return r;
        };
    }
    None
}

// Rule 27 of an interval.
fn link_check(devices: &[DeviceRow], settings: &[SettingRow], t: usize) -> Option<Breach>
    requires { LinkRow devices.now settings.now t × (t < most_intervals) }
    ensures { result ≡ first (link_here devices.now settings.now t) }
{
    if !link_kept(devices, settings, t) {
        return Some(link_breach(t));
    }
    None
}

// Rules 1 to 19 and 21 to 26 of the devices in an interval, then rule 27.
fn interval_rules(
    front: Front,
    halves: &[u32],
    zones: &[ZoneRow],
    minima: &[MinimaRow],
    devices: &[DeviceRow],
    cells: &[CellRow],
    settings: &[SettingRow],
    starts: &[u32],
    powers: &[u32],
    t: usize,
) -> Option<Breach>
    requires { Ready front halves.now zones.now minima.now devices.now cells.now settings.now starts.now powers.now × (t < length halves.now) }
    ensures { result ≡ first (interval_breaches (system_in halves.now zones.now minima.now devices.now
        cells.now) (plan_in (length devices.now) (length halves.now) settings.now) t) }
{
    let cells_first = interval_cells(
        front, halves, zones, minima, devices, cells, settings, starts, powers, t,
    );
    let link_first = link_check(devices, settings, t);
    cells_first.or(link_first)
}

// Rules 1 to 19 and 21 to 27 of the day.
fn day_rules(
    front: Front,
    halves: &[u32],
    zones: &[ZoneRow],
    minima: &[MinimaRow],
    devices: &[DeviceRow],
    cells: &[CellRow],
    settings: &[SettingRow],
    starts: &[u32],
    powers: &[u32],
) -> Option<Breach>
    requires { Ready front halves.now zones.now minima.now devices.now cells.now settings.now starts.now powers.now }
    ensures { result ≡ first (day_breaches (system_in halves.now zones.now minima.now devices.now
        cells.now) (plan_in (length devices.now) (length halves.now) settings.now)) }
{
    for t in 0..halves.len() {
        let r = interval_rules(
            front, halves, zones, minima, devices, cells, settings, starts, powers, t,
        );
        let None = r else {
            return r;
        };
    }
    None
}

// Rule 20 of a device's windows, from its part of the settings.
fn device_windows(d: Device, settings: &[SettingRow], starts: &[u32], i: usize) -> Option<Breach>
    requires { (d.nstarts ≤ most_windows) × (i < most_devices) × Timed settings.now starts.now }
    ensures { result ≡ first (windows_here d settings.now starts.now i) }
{
    let all = all_starts(d.on0, settings);
    for (w, window) in d.starts[..d.nstarts].iter().enumerate() {
        if !window_kept(*window, all, d.on0, settings, starts) {
            return Some(window_breach(i, w));
        }
    }
    None
}

// Rule 20 of device i.
fn window_check(
    front: Front,
    halves: &[u32],
    zones: &[ZoneRow],
    minima: &[MinimaRow],
    devices: &[DeviceRow],
    cells: &[CellRow],
    settings: &[SettingRow],
    starts: &[u32],
    powers: &[u32],
    i: usize,
) -> Option<Breach>
    requires { Ready front halves.now zones.now minima.now devices.now cells.now settings.now starts.now powers.now × (i < length devices.now) }
    ensures { result ≡ first (window_breaches (system_in halves.now zones.now minima.now devices.now
        cells.now) (plan_in (length devices.now) (length halves.now) settings.now) i) }
{
    let d = device_at(devices, i);
    let a = i * halves.len();
    let e = a + halves.len();
    device_windows(d, &settings[a..e], starts, i)
}

// Rule 20.
fn window_rules(
    front: Front,
    halves: &[u32],
    zones: &[ZoneRow],
    minima: &[MinimaRow],
    devices: &[DeviceRow],
    cells: &[CellRow],
    settings: &[SettingRow],
    starts: &[u32],
    powers: &[u32],
) -> Option<Breach>
    requires { Ready front halves.now zones.now minima.now devices.now cells.now settings.now starts.now powers.now }
    ensures { result ≡ first (day_windows (system_in halves.now zones.now minima.now devices.now
        cells.now) (plan_in (length devices.now) (length halves.now) settings.now)) }
{
    for i in 0..devices.len() {
        let r = window_check(
            front, halves, zones, minima, devices, cells, settings, starts, powers, i,
        );
        let None = r else {
            return r;
        };
    }
    None
}

// Whether device i breaks no rule.
fn device_held(
    front: Front,
    halves: &[u32],
    zones: &[ZoneRow],
    minima: &[MinimaRow],
    devices: &[DeviceRow],
    cells: &[CellRow],
    settings: &[SettingRow],
    starts: &[u32],
    powers: &[u32],
    i: usize,
) -> bool
    requires { Ready front halves.now zones.now minima.now devices.now cells.now settings.now starts.now powers.now × (i < length devices.now) }
    ensures { (result ≡ true) ↔ DeviceHolds (system_in halves.now zones.now minima.now devices.now
        cells.now) (plan_in (length devices.now) (length halves.now) settings.now) (length halves.now) i }
{
    let d = device_at(devices, i);
    let b = bounds_of(d);
    let a = i * halves.len();
    let e = a + halves.len();
    let own_cells = &cells[a..e];
    let own = &settings[a..e];
    let own_powers = &powers[a..e];
    if !held_all(b, d.power0, halves, own_cells, own, starts, own_powers) {
        return false;
    }
    let reactive = reactive_bounds_of(d);
    if !reactive_held(reactive, own_cells, own, starts, own_powers) {
        return false;
    }
    let r = device_windows(d, own, starts, i);
    let None = r else {
        return false;
    };
    true
}

// Whether no device breaks a rule.
fn devices_held(
    front: Front,
    halves: &[u32],
    zones: &[ZoneRow],
    minima: &[MinimaRow],
    devices: &[DeviceRow],
    cells: &[CellRow],
    settings: &[SettingRow],
    starts: &[u32],
    powers: &[u32],
) -> bool
    requires { Ready front halves.now zones.now minima.now devices.now cells.now settings.now starts.now powers.now }
    ensures { (result ≡ true) ↔ HoldTo (system_in halves.now zones.now minima.now devices.now
        cells.now) (plan_in (length devices.now) (length halves.now) settings.now) (length halves.now) (length devices.now) }
{
    for i in 0..devices.len() {
        if !device_held(
            front, halves, zones, minima, devices, cells, settings, starts, powers, i,
        ) {
            return false;
        }
    }
    true
}

// Whether a plan breaks no rule, by the link and device by device.
pub fn no_breach(
    front: Front,
    halves: &[u32],
    zones: &[ZoneRow],
    minima: &[MinimaRow],
    devices: &[DeviceRow],
    cells: &[CellRow],
    settings: &[SettingRow],
    starts: &[u32],
    powers: &[u32],
) -> bool
    requires { Ready front halves.now zones.now minima.now devices.now cells.now settings.now starts.now powers.now }
    ensures { (result ≡ true) ↔ (breaches (system_in halves.now zones.now minima.now devices.now
        cells.now) (plan_in (length devices.now) (length halves.now) settings.now) ≡ []) }
{
    if !link_held(halves, devices, settings) {
        return false;
    }
    devices_held(
        front, halves, zones, minima, devices, cells, settings, starts, powers,
    )
}

// Interval by interval, its devices, then its link; then the windows by device.
fn exact_breach(
    front: Front,
    halves: &[u32],
    zones: &[ZoneRow],
    minima: &[MinimaRow],
    devices: &[DeviceRow],
    cells: &[CellRow],
    settings: &[SettingRow],
    starts: &[u32],
    powers: &[u32],
) -> Option<Breach>
    requires { Ready front halves.now zones.now minima.now devices.now cells.now settings.now starts.now powers.now }
    ensures { result ≡ first (breaches (system_in halves.now zones.now minima.now devices.now cells.now)
        (plan_in (length devices.now) (length halves.now) settings.now)) }
{
    let r = day_rules(
        front, halves, zones, minima, devices, cells, settings, starts, powers,
    );
    let None = r else {
        return r;
    };
    window_rules(
        front, halves, zones, minima, devices, cells, settings, starts, powers,
    )
}

// The first broken rule: "Checked by interval, then device, then number. Rule 20 comes after all intervals, by device, then window"; rule 27 "stands after an
// interval's devices".
pub fn first_breach(
    front: Front,
    halves: &[u32],
    zones: &[ZoneRow],
    minima: &[MinimaRow],
    devices: &[DeviceRow],
    cells: &[CellRow],
    settings: &[SettingRow],
    starts: &[u32],
    powers: &[u32],
) -> Option<Breach>
    requires { Ready front halves.now zones.now minima.now devices.now cells.now settings.now starts.now powers.now }
    ensures { result ≡ first (breaches (system_in halves.now zones.now minima.now devices.now cells.now)
        (plan_in (length devices.now) (length halves.now) settings.now)) }
{
    if no_breach(
        front, halves, zones, minima, devices, cells, settings, starts, powers,
    ) {
        return None;
    }
    exact_breach(
        front, halves, zones, minima, devices, cells, settings, starts, powers,
    )
}
