// A plan that breaks no rule is accepted: its completion is written, or the bytes needed are told.
#![tactic(auto)]

ghost use Rattle.acceptance.specs.Decided.{Decides, Kept};

use layouts::Fault;
use model::{Subject, Verdict};
use row_places::{CellRow, DeviceRow, Front, MinimaRow, SettingRow, ZoneRow};

// The verdict on it, and the buffer: measured first, so that only acceptance touches it.
pub fn accept(
    front: Front,
    halves: &[u32],
    zones: &[ZoneRow],
    minima: &[MinimaRow],
    devices: &[DeviceRow],
    cells: &[CellRow],
    settings: &[SettingRow],
    starts: &[u32],
    powers: &[u32],
    res: &mut [u8],
) -> Verdict
    requires { Kept front halves.now zones.now minima.now devices.now cells.now settings.now starts.now powers.now }
    ensures { Decides front halves.now zones.now minima.now devices.now cells.now
        settings.now res.old res.new result }
{
    let needed = completions::completion_bytes(front.edition, halves, zones, devices);
    if (res.len() as u64) < needed {
        return Verdict::Refused(Subject::Result, Fault::TooShort(needed));
    }
    let z = completions::complete(
        front, halves, zones, minima, devices, cells, settings, starts, powers, res,
    );
    Verdict::Accepted(z)
}
