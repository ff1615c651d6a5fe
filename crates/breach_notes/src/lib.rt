// Every broken rule of a day noted in a lent list, in the order of the rules.
#![tactic(auto)]

ghost use Rattle.std.specs.Prelude.{◌+◌, ◌≤◌, ◌<◌, length};
ghost use Rattle.model.specs.Breaches.{cell_breaches, window_breaches};
ghost use Rattle.records.specs.Views.{system_in, plan_in, most_windows, most_devices, most_intervals, Ready};
ghost use Rattle.breach_entries.specs.Noted.{Notes, most_entries};
ghost use Rattle.start_windows.specs.Windows.{Timed};
ghost use Rattle.failing_rules.specs.Parts.{windows_here};
ghost use Rattle.breach_notes.specs.Bits.{word_breaches};
ghost use Rattle.breach_notes.specs.Day.{NotesAll};
ghost use Rattle.failing_rules.specs.Day.{interval_cells, interval_breaches, day_breaches, day_windows};

use breach_entries::note_if;
use device_rows::device_at;
use failing_rules::{cell_breach, failing_in, link_breach, window_breach};
use link_rules::link_kept;
use row_places::{CellRow, Device, DeviceRow, Front, MinimaRow, SettingRow, ZoneRow};
use start_windows::{all_starts, window_kept};

// The breaches that a word names, bit n for rule n.
fn note_word(word: u32, t: usize, i: usize, k: usize, list: &mut [u8]) -> usize
    requires { (t < most_intervals) × (i < most_devices) × (k + length (word_breaches t i word) ≤ most_entries) }
    ensures { Notes k (word_breaches t i word) list.old list.new result }
{
    let mut rest = word;
    let mut n = k;
    for rule in 0..32 {
        let b = cell_breach(rule, t, i);
        n = note_if(rest % 2 == 1, b, n, list);
        rest /= 2;
    }
    n
}

// Rules 1 to 19 and 21 to 26 of device i in interval t.
fn note_cell(
    front: Front,
    halves: &[u32],
    zones: &[ZoneRow],
    minima: &[MinimaRow],
    devices: &[DeviceRow],
    cells: &[CellRow],
    settings: &[SettingRow],
    starts: &[u32],
    powers: &[u32],
    i: usize,
    t: usize,
    k: usize,
    list: &mut [u8],
) -> usize
    requires ready { Ready front halves.now zones.now minima.now devices.now cells.now settings.now starts.now powers.now × (i < length devices.now) ×
        (t < length halves.now) }
    requires i_bound { k + length (cell_breaches (system_in halves.now zones.now minima.now devices.now cells.now) (plan_in (length devices.now) (length halves.now)
        settings.now) t i) ≤ most_entries }
    ensures { Notes k (cell_breaches (system_in halves.now zones.now minima.now devices.now cells.now) (plan_in (length
        devices.now) (length halves.now) settings.now) t i) list.old list.new result }
{
    let a = i * halves.len();
    let word = failing_in(
        front, halves, zones, minima, devices, cells, settings, starts, powers, i, a, t,
    );
    note_word(word, t, i, k, list)
}

// Rules 1 to 19 and 21 to 26 of the devices in an interval.
fn note_interval_cells(
    front: Front,
    halves: &[u32],
    zones: &[ZoneRow],
    minima: &[MinimaRow],
    devices: &[DeviceRow],
    cells: &[CellRow],
    settings: &[SettingRow],
    starts: &[u32],
    powers: &[u32],
    t: usize,
    k: usize,
    list: &mut [u8],
) -> usize
    requires ready { Ready front halves.now zones.now minima.now devices.now cells.now settings.now starts.now powers.now × (t < length halves.now) }
    requires t_bound { k + length (interval_cells (system_in halves.now zones.now minima.now devices.now cells.now) (plan_in (length devices.now) (length halves.now)
        settings.now) t) ≤ most_entries }
    ensures { Notes k (interval_cells (system_in halves.now zones.now minima.now devices.now cells.now) (plan_in
        (length devices.now) (length halves.now) settings.now) t) list.old list.new result }
{
    let mut n = k;
    for i in 0..devices.len() {
        n = note_cell(
            front, halves, zones, minima, devices, cells, settings, starts, powers, i, t, n, list,
        );
    }
    n
}

// Rules 1 to 19 and 21 to 26 of the devices in an interval, then rule 27.
fn note_interval(
    front: Front,
    halves: &[u32],
    zones: &[ZoneRow],
    minima: &[MinimaRow],
    devices: &[DeviceRow],
    cells: &[CellRow],
    settings: &[SettingRow],
    starts: &[u32],
    powers: &[u32],
    t: usize,
    k: usize,
    list: &mut [u8],
) -> usize
    requires ready { Ready front halves.now zones.now minima.now devices.now cells.now settings.now starts.now powers.now × (t < length halves.now) }
    requires t_bound { k + length (interval_breaches (system_in halves.now zones.now minima.now devices.now cells.now) (plan_in (length devices.now) (length halves.now)
        settings.now) t) ≤ most_entries }
    ensures { Notes k (interval_breaches (system_in halves.now zones.now minima.now devices.now cells.now) (plan_in
        (length devices.now) (length halves.now) settings.now) t) list.old list.new result }
{
    let n = note_interval_cells(
        front, halves, zones, minima, devices, cells, settings, starts, powers, t, k, list,
    );
    let kept = link_kept(devices, settings, t);
    let b = link_breach(t);
    note_if(!kept, b, n, list)
}

// Rules 1 to 19 and 21 to 27 of the day.
fn note_cells(
    front: Front,
    halves: &[u32],
    zones: &[ZoneRow],
    minima: &[MinimaRow],
    devices: &[DeviceRow],
    cells: &[CellRow],
    settings: &[SettingRow],
    starts: &[u32],
    powers: &[u32],
    k: usize,
    list: &mut [u8],
) -> usize
    requires ready { Ready front halves.now zones.now minima.now devices.now cells.now settings.now starts.now powers.now }
    requires settings_bound { k + length (day_breaches (system_in halves.now zones.now minima.now devices.now cells.now) (plan_in (length devices.now) (length halves.now)
        settings.now)) ≤ most_entries }
    ensures { Notes k (day_breaches (system_in halves.now zones.now minima.now devices.now cells.now) (plan_in (length
        devices.now) (length halves.now) settings.now)) list.old list.new result }
{
    let mut n = k;
    for t in 0..halves.len() {
        n = note_interval(
            front, halves, zones, minima, devices, cells, settings, starts, powers, t, n, list,
        );
    }
    n
}

// Rule 20 of a device's windows, from its part of the settings.
fn note_windows(
    d: Device,
    settings: &[SettingRow],
    starts: &[u32],
    i: usize,
    k: usize,
    list: &mut [u8],
) -> usize
    requires nstarts_le_most_windows { (d.nstarts ≤ most_windows) × (i < most_devices) × Timed settings.now starts.now }
    requires i_bound { k + length (windows_here d settings.now starts.now i) ≤ most_entries }
    ensures { Notes k (windows_here d settings.now starts.now i) list.old list.new result }
{
    let all = all_starts(d.on0, settings);
    let mut n = k;
    for (w, window) in d.starts[..d.nstarts].iter().enumerate() {
        let kept = window_kept(*window, all, d.on0, settings, starts);
        let b = window_breach(i, w);
        n = note_if(!kept, b, n, list);
    }
    n
}

// Rule 20 of device i.
fn note_device(
    front: Front,
    halves: &[u32],
    zones: &[ZoneRow],
    minima: &[MinimaRow],
    devices: &[DeviceRow],
    cells: &[CellRow],
    settings: &[SettingRow],
    starts: &[u32],
    powers: &[u32],
    i: usize,
    k: usize,
    list: &mut [u8],
) -> usize
    requires ready { Ready front halves.now zones.now minima.now devices.now cells.now settings.now starts.now powers.now × (i < length devices.now) }
    requires i_bound { k + length (window_breaches (system_in halves.now zones.now minima.now devices.now cells.now) (plan_in (length devices.now) (length halves.now)
        settings.now) i) ≤ most_entries }
    ensures { Notes k (window_breaches (system_in halves.now zones.now minima.now devices.now cells.now) (plan_in
        (length devices.now) (length halves.now) settings.now) i) list.old list.new result }
{
    let d = device_at(devices, i);
    let a = i * halves.len();
    let e = a + halves.len();
    note_windows(d, &settings[a..e], starts, i, k, list)
}

// Rule 20.
fn note_devices(
    front: Front,
    halves: &[u32],
    zones: &[ZoneRow],
    minima: &[MinimaRow],
    devices: &[DeviceRow],
    cells: &[CellRow],
    settings: &[SettingRow],
    starts: &[u32],
    powers: &[u32],
    k: usize,
    list: &mut [u8],
) -> usize
    requires ready { Ready front halves.now zones.now minima.now devices.now cells.now settings.now starts.now powers.now }
    requires settings_bound { k + length (day_windows (system_in halves.now zones.now minima.now devices.now cells.now) (plan_in (length devices.now) (length halves.now)
        settings.now)) ≤ most_entries }
    ensures { Notes k (day_windows (system_in halves.now zones.now minima.now devices.now cells.now) (plan_in (length
        devices.now) (length halves.now) settings.now)) list.old list.new result }
{
    let mut n = k;
    for i in 0..devices.len() {
        n = note_device(
            front, halves, zones, minima, devices, cells, settings, starts, powers, i, n, list,
        );
    }
    n
}

// Every broken rule: "by interval, then device, then number. Rule 20 comes after all intervals, by device, then window"; rule 27 "stands after an interval's
// devices". Answers how many there are.
pub fn note_all(
    front: Front,
    halves: &[u32],
    zones: &[ZoneRow],
    minima: &[MinimaRow],
    devices: &[DeviceRow],
    cells: &[CellRow],
    settings: &[SettingRow],
    starts: &[u32],
    powers: &[u32],
    list: &mut [u8],
) -> usize
    requires { Ready front halves.now zones.now minima.now devices.now cells.now settings.now starts.now powers.now }
    ensures { NotesAll halves.now zones.now minima.now devices.now cells.now settings.now list.old list.new result }
{
    let n = note_cells(
        front, halves, zones, minima, devices, cells, settings, starts, powers, 0, list,
    );
    note_devices(
        front, halves, zones, minima, devices, cells, settings, starts, powers, n, list,
    )
}
