// One plan of a batch: judged against a decoded case with what is left of the result buffer, and its six numbers at the front of what is left of the table.
#![tactic(auto)]

ghost use Rattle.std.specs.Prelude.{◌≡◌, ◌≤◌, length};
ghost use Rattle.completions.specs.Windows.{Few};
ghost use Rattle.completions.specs.Whole.{needed_for};
ghost use Rattle.decoded_cases.specs.Decoded.{Decoded, Work, stated_rows};
ghost use Rattle.stacks.specs.Stack.{row_numbers};
ghost use Rattle.stacks.specs.Turns.{TakesTurn, written_by};

use model::Verdict;
use row_places::{CellRow, DeviceRow, Front, MinimaRow, SettingRow, ZoneRow};

// The bytes that judging wrote.
fn bytes_written(
    v: Verdict,
    edition: u32,
    halves: &[u32],
    zones: &[ZoneRow],
    devices: &[DeviceRow],
) -> u64
    requires { Few halves.now zones.now devices.now }
    ensures { result ≡ written_by (needed_for edition halves.now zones.now devices.now) v }
{
    match v {
        Verdict::Accepted(_) => completions::completion_bytes(edition, halves, zones, devices),
        Verdict::Broken(_) => 0,
        Verdict::Refused(_, _) => 0,
    }
}

// Answers the bytes of its completion. Of `settings`, `starts` and `powers` only the room counts.
pub fn take_turn(
    front: Front,
    halves: &[u32],
    zones: &[ZoneRow],
    minima: &[MinimaRow],
    devices: &[DeviceRow],
    cells: &[CellRow],
    plan: &[u8],
    settings: &mut [SettingRow],
    starts: &mut [u32],
    powers: &mut [u32],
    res: &mut [u8],
    table: &mut [u64],
) -> usize
    requires { Decoded front halves.now zones.now minima.now devices.now cells.now × Work halves.now devices.now settings.old starts.old powers.old
        × (row_numbers ≤ length table.old) }
    ensures { TakesTurn (stated_rows front halves.now zones.now minima.now devices.now cells.now)
        plan.now res.old res.new table.old table.new result }
{
    let v = plan_judgement::judge_plan(
        front, halves, zones, minima, devices, cells, plan, settings, starts, powers, res,
    );
    let bytes = bytes_written(v, front.edition, halves, zones, devices);
    let t = tellings::tell(v);
    stack_rows::put_row(table, t, bytes);
    bytes as usize
}
