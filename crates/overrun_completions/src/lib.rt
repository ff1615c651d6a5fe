// The overruns of our completion: each is computed once, its money entered in a ledger and its bits written behind those before it.
#![tactic(auto)]

ghost use Rattle.std.specs.Prelude.{◌*◌, ◌<◌, length};
ghost use Rattle.model.specs.Judgement.{energy_windows};
ghost use Rattle.pen.specs.Pens.{Ready};
ghost use Rattle.pen.specs.Runs.{Room};
ghost use Rattle.records.specs.Views.{most_devices, system_in};
ghost use Rattle.money.specs.Bounds.{windows_cost_most};
ghost use Rattle.money.specs.Entries.{Spare};
ghost use Rattle.money.specs.Unbroken.{Unbroken};
ghost use Rattle.completion_size.specs.Size.{overrun_width};
ghost use Rattle.completion_writer.specs.Whole.{windows_of};
ghost use Rattle.overrun_completions.specs.Advances.{WindowsAdvance, OverrunsAdvance};

use completion_writer::put_overrun;
use device_rows::{energies_at, energy_at};
use overruns::overrun;
use progress::Progress;
use row_places::{CellRow, DeviceRow, Front, MinimaRow, SettingRow, ZoneRow};
use slack_money::overrun_money;

// The energy windows of device i.
fn complete_windows(
    front: Front,
    halves: &[u32],
    zones: &[ZoneRow],
    minima: &[MinimaRow],
    devices: &[DeviceRow],
    cells: &[CellRow],
    settings: &[SettingRow],
    starts: &[u32],
    powers: &[u32],
    i: usize,
    buf: &mut [u8],
    p: Progress,
) -> Progress
    requires unbroken { Unbroken front halves.now zones.now minima.now devices.now cells.now settings.now starts.now powers.now × (i < length devices.now) }
    requires ready { Ready p.pen × Room buf.old p.pen (windows_of (system_in halves.now zones.now minima.now devices.now cells.now) i * overrun_width)
        × Spare windows_cost_most p.money }
    ensures { WindowsAdvance front halves.now zones.now minima.now devices.now cells.now settings.now i
        buf.old buf.new p result }
{
    let a = i * halves.len();
    let e = a + halves.len();
    let n = energies_at(devices, i);
    let mut money = p.money;
    let mut pen = p.pen;
    for w in 0..n {
        let over = overrun(energy_at(devices, i, w), starts, &powers[a..e]);
        money = overrun_money(money, over, front.overrun);
        pen = put_overrun(buf, pen, over);
    }
    Progress { money, pen }
}

// "Then each energy window's overrun, in case order".
pub fn complete_overruns(
    front: Front,
    halves: &[u32],
    zones: &[ZoneRow],
    minima: &[MinimaRow],
    devices: &[DeviceRow],
    cells: &[CellRow],
    settings: &[SettingRow],
    starts: &[u32],
    powers: &[u32],
    buf: &mut [u8],
    p: Progress,
) -> Progress
    requires unbroken { Unbroken front halves.now zones.now minima.now devices.now cells.now settings.now starts.now powers.now }
    requires ready { Ready p.pen × Room buf.old p.pen (energy_windows (system_in halves.now zones.now minima.now devices.now cells.now) * overrun_width)
        × Spare (most_devices * windows_cost_most) p.money }
    ensures { OverrunsAdvance front halves.now zones.now minima.now devices.now cells.now settings.now
        (length devices.now) buf.old buf.new p result }
{
    let mut q = p;
    for i in 0..devices.len() {
        q = complete_windows(
            front, halves, zones, minima, devices, cells, settings, starts, powers, i, buf, q,
        );
    }
    q
}
