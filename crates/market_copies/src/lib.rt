// The market's copy of a plan's completion, from the plan's bytes against a decoded case. One body for owners of tables of any size.
#![tactic(auto)]

ghost use Rattle.std.specs.Prelude.{◌≡◌, ◌≤◌, length};
ghost use Rattle.completions.specs.Windows.{Few};
ghost use Rattle.completions.specs.Whole.{needed_for};
ghost use Rattle.decoded_cases.specs.Decoded.{Decoded, Work};
ghost use Rattle.market_copies.specs.Steps.{fitting, most_bytes, Shows, CopiesPlan};

use layouts::Fault;
use market::Copying;
use model::{Subject, Verdict};
use row_places::{CellRow, DeviceRow, Front, MinimaRow, SettingRow, ZoneRow};

// So many bytes copied, or 7 where the buffer has fewer.
fn answer(needed: u64, room: usize) -> Copying
    ensures { result ≡ fitting needed room }
{
    if (room as u64) < needed {
        return Copying::Refused(Subject::Result, Fault::TooShort(needed));
    }
    Copying::Copied(needed)
}

// The copy of a completion that stands at the front of a buffer.
fn copy_written(
    edition: u32,
    halves: &[u32],
    zones: &[ZoneRow],
    devices: &[DeviceRow],
    whole: &[u8],
    res: &mut [u8],
) -> Copying
    requires { Few halves.now zones.now devices.now × (needed_for edition halves.now zones.now devices.now ≤ length whole.now) }
    ensures { Shows edition halves.now zones.now devices.now whole.now res.old res.new result }
{
    let room = res.len();
    let end = completions::completion_bytes(edition, halves, zones, devices) as usize;
    let windows = completions::count_windows(devices);
    let n = devices.len() as u64;
    let m = halves.len() as u64;
    let z = zones.len() as u64;
    let needed = market_copier::copy_for_market(&whole[..end], res, edition, n, m, z, windows);
    answer(needed, room)
}

// The most bytes that a completion takes: room for it is lent, and no plan is refused for want of it.
pub const COMPLETION_BYTES: usize = 70_876;

// A plan's bytes against a decoded case, with tables lent to work in and a buffer for its completion; what these hold afterwards is left free. The surplus is
// not answered.
pub fn copy_plan(
    front: Front,
    halves: &[u32],
    zones: &[ZoneRow],
    minima: &[MinimaRow],
    devices: &[DeviceRow],
    cells: &[CellRow],
    plan: &[u8],
    settings: &mut [SettingRow],
    starts: &mut [u32],
    powers: &mut [u32],
    whole: &mut [u8],
    res: &mut [u8],
) -> Copying
    requires { Decoded front halves.now zones.now minima.now devices.now cells.now
        × Work halves.now devices.now settings.old starts.old powers.old × (most_bytes ≤ length whole.old) }
    ensures { CopiesPlan front halves.now zones.now minima.now devices.now cells.now
        plan.now res.old res.new result }
{
    let verdict = plan_judgement::judge_plan(
        front, halves, zones, minima, devices, cells, plan, settings, starts, powers, whole,
    );
    match verdict {
        Verdict::Refused(s, f) => Copying::Refused(s, f),
        Verdict::Broken(b) => Copying::Broken(b),
        Verdict::Accepted(_) => { copy_written(front.edition, halves, zones, devices, whole, res) }
    }
}
