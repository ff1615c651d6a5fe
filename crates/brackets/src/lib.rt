// The bracket n of the reactive limits, of a device in one interval out of its parts of the tables: on, and each trajectory above 0.
#![tactic(auto)]

ghost use Rattle.std.specs.Prelude.{◌≡◌, ◌+◌, ◌-◌, ◌*◌, ◌<◌, ◌≤◌, length};
ghost use Rattle.records.specs.Views.{most_intervals};
ghost use Rattle.brackets.specs.Counts.{start_count, stop_count, starts_above, stops_above, bracket_at, power_at, Countable};

use cell_rows::pmin_at;
use kilowatts::Kw;
use ramped_powers::Ramping;
use row_places::{CellRow, SettingRow};
use setting_rows::{on_at, online_at, started_at, stopped_at};
use trajectories::{leaves_at, left_after};

// 1 where a start in e gives an earlier t a power above 0.
fn start_count(
    r: Ramping,
    cells: &[CellRow],
    settings: &[SettingRow],
    starts: &[u32],
    t: usize,
    e: usize,
) -> u32
    requires { Countable r cells.now settings.now starts.now × (t < e) × (e < length cells.now) }
    ensures { (result ≡ start_count r cells.now settings.now starts.now t e) × (result ≤ 1) }
{
    let started = started_at(r.on0, settings, e);
    if started == 0 {
        return 0;
    }
    let power = pmin_at(cells, e);
    let left = left_after(power.0, r.starting, starts[e + 1] - starts[t + 1]);
    u32::from(left != 0)
}

// 1 where a stop in e gives t, from e on, a power above 0.
fn stop_count(
    r: Ramping,
    cells: &[CellRow],
    settings: &[SettingRow],
    starts: &[u32],
    t: usize,
    e: usize,
) -> u32
    requires { Countable r cells.now settings.now starts.now × (e ≤ t) × (t < length cells.now) }
    ensures { (result ≡ stop_count r cells.now settings.now starts.now t e) × (result ≤ 1) }
{
    let stopped = stopped_at(r.on0, settings, e);
    if stopped == 0 {
        return 0;
    }
    let power = leaves_at(r.power0, cells, e);
    let left = left_after(power.0, r.stopping, starts[t + 1] - starts[e]);
    u32::from(left != 0)
}

// The later starts whose trajectory is above 0 in t.
fn starts_above(
    r: Ramping,
    cells: &[CellRow],
    settings: &[SettingRow],
    starts: &[u32],
    t: usize,
) -> u32
    requires { Countable r cells.now settings.now starts.now × (t < length cells.now) }
    ensures { (result ≡ starts_above r cells.now settings.now starts.now t) × (result ≤ most_intervals) }
{
    let mut n = 0;
    for e in t + 1..cells.len() {
        n += start_count(r, cells, settings, starts, t, e);
    }
    n
}

// The stops up to t whose trajectory is above 0 in t.
fn stops_above(
    r: Ramping,
    cells: &[CellRow],
    settings: &[SettingRow],
    starts: &[u32],
    t: usize,
) -> u32
    requires { Countable r cells.now settings.now starts.now × (t < length cells.now) }
    ensures { (result ≡ stops_above r cells.now settings.now starts.now t) × (result ≤ most_intervals) }
{
    let mut n = 0;
    for e in 0..=t {
        n += stop_count(r, cells, settings, starts, t, e);
    }
    n
}

// n, counted: on, and each trajectory above 0. Overlapping curves count each.
fn bracket_at(
    r: Ramping,
    cells: &[CellRow],
    settings: &[SettingRow],
    starts: &[u32],
    t: usize,
) -> u32
    requires { Countable r cells.now settings.now starts.now × (t < length cells.now) }
    ensures { (result ≡ bracket_at r cells.now settings.now starts.now t) × (result ≤ 1 + 2 * most_intervals) }
{
    let on = on_at(settings, t);
    let rising = starts_above(r, cells, settings, starts, t);
    let falling = stops_above(r, cells, settings, starts, t);
    on + rising + falling
}

// n, by the device's power in t: u where that is its online power, for no trajectory reaches t then.
pub fn bracket_given(
    r: Ramping,
    cells: &[CellRow],
    settings: &[SettingRow],
    starts: &[u32],
    t: usize,
    power: Kw,
) -> u32
    requires { Countable r cells.now settings.now starts.now × (t < length cells.now) × (power.0 ≡ power_at r cells.now settings.now starts.now t) }
    ensures { (result ≡ bracket_at r cells.now settings.now starts.now t) × (result ≤ 1 + 2 * most_intervals) }
{
    let online = online_at(settings, t);
    if power.0 == online.0 {
        return on_at(settings, t);
    }
    bracket_at(r, cells, settings, starts, t)
}
