// The smallest power change that mends a plan, against a decoded case: of a decoded plan, and of a plan's bytes for a stack of plans and owners of any size.
#![tactic(auto)]

ghost use Rattle.std.specs.Prelude.{◌≡◌, ◌≤◌, length};
ghost use Rattle.records.specs.Views.{plan_in};
ghost use Rattle.decoded_cases.specs.Decoded.{Decoded, Planned, Work, stated_rows};
ghost use Rattle.market_copies.specs.Steps.{most_bytes};
ghost use Rattle.mending.specs.Mendings.{mending_of};
ghost use Rattle.mended_plans.specs.Steps.{MendsPlan};

use mending::Mending;
use model::Subject;
use row_places::{CellRow, DeviceRow, Front, MinimaRow, SettingRow, ZoneRow};

// A decoded plan: its surplus where it breaks no rule, by its completion in a buffer with room for any; else the smallest change.
fn mend_settings(
    front: Front,
    halves: &[u32],
    zones: &[ZoneRow],
    minima: &[MinimaRow],
    devices: &[DeviceRow],
    cells: &[CellRow],
    settings: &mut [SettingRow],
    starts: &mut [u32],
    powers: &mut [u32],
    whole: &mut [u8],
) -> Mending
    requires { Planned front halves.now zones.now minima.now devices.now cells.now settings.old starts.old powers.old × (most_bytes ≤ length whole.old) }
    ensures { result ≡ mending_of (stated_rows front halves.now zones.now minima.now devices.now cells.now)
        (plan_in (length devices.now) (length halves.now) settings.old) }
{
    powers::force(halves, devices, cells, settings, starts, powers);
    let first = breaches::first_breach(
        front, halves, zones, minima, devices, cells, settings, starts, powers,
    );
    match first {
        Some(b) => mend_plans::mend_broken(
            front, halves, zones, minima, devices, cells, settings, starts, powers, b,
        ),
        None => {
            let z = completions::complete(
                front, halves, zones, minima, devices, cells, settings, starts, powers, whole,
            );
            Mending::Accepted(z)
        }
    }
}

// A plan's bytes against a decoded case, with tables lent to work in and a buffer for its completion; what these hold afterwards is left free.
pub fn mend_plan(
    front: Front,
    halves: &[u32],
    zones: &[ZoneRow],
    minima: &[MinimaRow],
    devices: &[DeviceRow],
    cells: &[CellRow],
    plan: &[u8],
    settings: &mut [SettingRow],
    starts: &mut [u32],
    powers: &mut [u32],
    whole: &mut [u8],
) -> Mending
    requires { Decoded front halves.now zones.now minima.now devices.now cells.now
        × Work halves.now devices.now settings.old starts.old powers.old × (most_bytes ≤ length whole.old) }
    ensures { MendsPlan front halves.now zones.now minima.now devices.now cells.now plan.now result }
{
    let n = devices.len();
    let m = halves.len();
    match plan_reader::read_plan(plan, front.edition, n, m, settings) {
        Err(f) => Mending::Refused(Subject::Plan, f),
        Ok(()) => mend_settings(
            front, halves, zones, minima, devices, cells, settings, starts, powers, whole,
        ),
    }
}
