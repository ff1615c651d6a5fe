// What the clock and the other intervals say of a device in one interval, out of its parts of the tables, which t alone indexes.
#![tactic(auto)]

ghost use Rattle.std.specs.Prelude.{◌≡◌, true, ◌*◌, ◌<◌, length};
ghost use Rattle.kilowatts.specs.Power.{kw};
ghost use Rattle.row_places.specs.Figures.{previous_at};
ghost use Rattle.moments.specs.Moments.{moment_at, Fits};

use cell_bounds::{Bounds, Moment};
use kilowatts::Kw;
use rests::{Rest, rest_kept};
use row_places::{CellRow, SettingRow};
use setting_rows::{started_at, stopped_at};

// "Previous p in interval 1 is initial power."
fn previous_power(power0: Kw, powers: &[u32], t: usize) -> Kw
    requires { t < length powers.now }
    ensures { result ≡ kw (previous_at power0.0 powers.now t) }
{
    if t == 0 { power0 } else { Kw(powers[t - 1]) }
}

// What the clock and the other intervals say of interval t.
pub fn moment_at(
    d: Bounds,
    power0: Kw,
    halves: &[u32],
    cells: &[CellRow],
    settings: &[SettingRow],
    starts: &[u32],
    powers: &[u32],
    t: usize,
) -> Moment
    requires { Fits d power0.0 halves.now cells.now settings.now starts.now powers.now t }
    ensures { result ≡ moment_at d power0.0 halves.now cells.now settings.now starts.now powers.now t }
{
    let before_start = Rest {
        starts: false,
        least: d.mindown,
        on0: d.on0,
    };
    let before_stop = Rest {
        starts: true,
        least: d.minup,
        on0: d.on0,
    };
    let started = started_at(d.on0, settings, t);
    let stopped = stopped_at(d.on0, settings, t);
    let rested = rest_kept(started, before_start, settings, starts, t);
    let ran = rest_kept(stopped, before_stop, settings, starts, t);
    let previous = previous_power(power0, powers, t);
    Moment {
        started,
        rested,
        ran,
        start: starts[t],
        minutes: 2 * halves[t],
        power: Kw(powers[t]),
        previous,
    }
}
