// What a start gives the intervals before it, and a stop itself and those after it, in a device's part of the powers.
#![tactic(auto)]

ghost use Rattle.std.specs.Prelude.{◌≡◌, ◌+◌, ◌-◌, ◌*◌, ◌<◌, ◌≤◌, length};
ghost use Rattle.records.specs.Views.{last_minute};
ghost use Rattle.trajectories.specs.Trajectories.{leaves_at, rise_in, fall_in, Raised, Ramped};

use cell_rows::pmin_at;
use kilowatts::Kw;
use row_places::CellRow;

// "pmin(t'−1) ..; for t' = 1 the initial power replaces pmin"
pub fn leaves_at(power0: Kw, cells: &[CellRow], t: usize) -> Kw
    requires { t < length cells.now }
    ensures { result.0 ≡ leaves_at power0.0 cells.now t }
{
    if t == 0 {
        power0
    } else {
        pmin_at(cells, t - 1)
    }
}

// What a ramp leaves of a power after some minutes.
pub fn left_after(power: u32, ramp: u32, minutes: u32) -> u32
    requires { (power ≤ 100000) × (ramp ≤ 100000) × (minutes ≤ last_minute) }
    ensures { (result ≡ power - ramp * minutes) × (result ≤ 100000) }
{
    power.saturating_sub(ramp * minutes)
}

// Adds what a start in interval e gives those before it, back to where nothing is left.
pub fn add_before(power: Kw, ramp: u32, starts: &[u32], e: usize, row: &mut [u32])
    requires { Ramped power.0 ramp starts.now e row.old }
    ensures { Raised (rise_in power.0 ramp starts.now e) 0 e row.old row.new }
{
    let until = starts[e + 1];
    for t in (0..e).rev() {
        let minutes = until - starts[t + 1];
        let left = left_after(power.0, ramp, minutes);
        if left == 0 {
            return;
        }
        row[t] += left;
    }
}

// Adds what a stop in interval e gives itself and those after it, up to where nothing is left.
pub fn add_after(power: Kw, ramp: u32, starts: &[u32], e: usize, row: &mut [u32])
    requires { Ramped power.0 ramp starts.now e row.old }
    ensures { Raised (fall_in power.0 ramp starts.now e) e (length row.old) row.old row.new }
{
    let from = starts[e];
    for t in e..row.len() {
        let minutes = starts[t + 1] - from;
        let left = left_after(power.0, ramp, minutes);
        if left == 0 {
            return;
        }
        row[t] += left;
    }
}
