// Judging a plan's bytes against a decoded case.
#![tactic(auto)]

ghost use Rattle.decoded_cases.specs.Decoded.{Decoded, Planned, Work};
ghost use Rattle.acceptance.specs.Decided.{Decides};
ghost use Rattle.plan_judgement.specs.JudgesPlan.{JudgesPlan};

use model::{Subject, Verdict};
use row_places::{CellRow, DeviceRow, Front, MinimaRow, SettingRow, ZoneRow};

// A decoded plan: the first broken rule, or its completion.
fn judge_settings(
    front: Front,
    halves: &[u32],
    zones: &[ZoneRow],
    minima: &[MinimaRow],
    devices: &[DeviceRow],
    cells: &[CellRow],
    settings: &[SettingRow],
    starts: &mut [u32],
    powers: &mut [u32],
    res: &mut [u8],
) -> Verdict
    requires { Planned front halves.now zones.now minima.now devices.now cells.now settings.now starts.old powers.old }
    ensures { Decides front halves.now zones.now minima.now devices.now cells.now
        settings.now res.old res.new result }
{
    powers::force(halves, devices, cells, settings, starts, powers);
    let first = breaches::first_breach(
        front, halves, zones, minima, devices, cells, settings, starts, powers,
    );
    match first {
        Some(b) => Verdict::Broken(b),
        None => acceptance::accept(
            front, halves, zones, minima, devices, cells, settings, starts, powers, res,
        ),
    }
}

// A plan's bytes against a decoded case, with tables lent to work in: for a stack of plans the case is decoded once. Of `settings`, `starts` and `powers`
// only the room counts: they may hold anything as they come, and what they hold afterwards is left free, the plan's figures where it passed reading.
pub fn judge_plan(
    front: Front,
    halves: &[u32],
    zones: &[ZoneRow],
    minima: &[MinimaRow],
    devices: &[DeviceRow],
    cells: &[CellRow],
    plan: &[u8],
    settings: &mut [SettingRow],
    starts: &mut [u32],
    powers: &mut [u32],
    res: &mut [u8],
) -> Verdict
    requires { Decoded front halves.now zones.now minima.now devices.now cells.now × Work halves.now devices.now settings.old starts.old powers.old }
    ensures { JudgesPlan front halves.now zones.now minima.now devices.now cells.now
        plan.now res.old res.new result }
{
    let n = devices.len();
    let m = halves.len();
    match plan_reader::read_plan(plan, front.edition, n, m, settings) {
        Err(f) => Verdict::Refused(Subject::Plan, f),
        Ok(()) => judge_settings(
            front, halves, zones, minima, devices, cells, settings, starts, powers, res,
        ),
    }
}
