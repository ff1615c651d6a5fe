// Rules 1 to 19 of a device in one interval, out of its parts of the tables, which t alone indexes.
#![tactic(auto)]

ghost use Rattle.std.specs.Prelude.{◌≡◌, true, ◌↔◌, [], ◌<◌, length};
ghost use Rattle.model.specs.Breaches.{failing};
ghost use Rattle.cell_bounds.specs.Word.{failing_word};
ghost use Rattle.moments.specs.Moments.{tests_at, Fits};
ghost use Rattle.device_rules.specs.Whole.{AllFit, HeldTo};

use cell_bounds::Bounds;
use cell_held::{amounts_held, ramps_held, state_held};
use cell_rows::cell_at;
use kilowatts::Kw;
use moments::moment_at;
use row_places::{CellRow, SettingRow};
use setting_rows::setting_at;

// The rules of interval t that fail: bit n for rule n.
pub fn failing_at(
    d: Bounds,
    power0: Kw,
    halves: &[u32],
    cells: &[CellRow],
    settings: &[SettingRow],
    starts: &[u32],
    powers: &[u32],
    t: usize,
) -> u32
    requires { Fits d power0.0 halves.now cells.now settings.now starts.now powers.now t }
    ensures { result ≡ failing_word (tests_at d power0.0 halves.now cells.now settings.now starts.now powers.now t) }
{
    let w = moment_at(d, power0, halves, cells, settings, starts, powers, t);
    let c = cell_at(cells, t);
    let s = setting_at(settings, t);
    cell_rules::failing_rules(d, c, s, w)
}

// Whether none fails, in one go. Each group of rules reads the interval again, so that a figure is loaded where it is used.
fn held_at(
    d: Bounds,
    power0: Kw,
    halves: &[u32],
    cells: &[CellRow],
    settings: &[SettingRow],
    starts: &[u32],
    powers: &[u32],
    t: usize,
) -> bool
    requires { Fits d power0.0 halves.now cells.now settings.now starts.now powers.now t }
    ensures { (result ≡ true) ↔ (failing (tests_at d power0.0 halves.now cells.now settings.now starts.now powers.now t) ≡ []) }
{
    let w = moment_at(d, power0, halves, cells, settings, starts, powers, t);
    let c1 = cell_at(cells, t);
    let s1 = setting_at(settings, t);
    if !state_held(d, c1, s1, w) {
        return false;
    }
    let c2 = cell_at(cells, t);
    let s2 = setting_at(settings, t);
    if !ramps_held(d, c2, s2, w) {
        return false;
    }
    let c3 = cell_at(cells, t);
    let s3 = setting_at(settings, t);
    amounts_held(d, c3, s3, w)
}

// Whether no rule of a device's intervals fails.
pub fn held_all(
    d: Bounds,
    power0: Kw,
    halves: &[u32],
    cells: &[CellRow],
    settings: &[SettingRow],
    starts: &[u32],
    powers: &[u32],
) -> bool
    requires { AllFit d power0.0 halves.now cells.now settings.now starts.now powers.now }
    ensures { (result ≡ true) ↔ HeldTo d power0.0 halves.now cells.now settings.now starts.now powers.now (length halves.now) }
{
    for t in 0..halves.len() {
        if !held_at(d, power0, halves, cells, settings, starts, powers, t) {
            return false;
        }
    }
    true
}
