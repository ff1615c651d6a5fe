// Our completion of a plan that breaks no rule, as its message: the intervals, the overruns, and the surplus behind them.
#![tactic(auto)]

ghost use Rattle.std.specs.Prelude.{◌≡◌, ◌≤◌, length};
ghost use Rattle.model.specs.Judgement.{counts_of};
ghost use Rattle.theorems.specs.Back.{Countable};
ghost use Rattle.records.specs.Views.{system_in};
ghost use Rattle.money.specs.Unbroken.{Unbroken};
ghost use Rattle.completions.specs.Windows.{Few, FewWindows, CountedTo};
ghost use Rattle.completions.specs.Whole.{needed_for, Completes};

use completion_size::bytes_needed;
use completion_writer::put_surplus;
use device_rows::energies_at;
use front_writer::put_front;
use grains::empty_ledger;
use interval_completions::complete_intervals;
use overrun_completions::complete_overruns;
use pen::{Pen, finish};
use progress::Progress;
use row_places::{CellRow, DeviceRow, Front, MinimaRow, SettingRow, ZoneRow};

// The energy windows of all devices.
pub fn count_windows(devices: &[DeviceRow]) -> u64
    requires { FewWindows devices.now }
    ensures { CountedTo devices.now (length devices.now) result }
{
    let mut n: u64 = 0;
    for i in 0..devices.len() {
        n += energies_at(devices, i) as u64;
    }
    n
}

// The bytes that the completions of a case's plans take.
pub fn completion_bytes(
    edition: u32,
    halves: &[u32],
    zones: &[ZoneRow],
    devices: &[DeviceRow],
) -> u64
    requires { Few halves.now zones.now devices.now }
    ensures { result ≡ needed_for edition halves.now zones.now devices.now }
{
    let windows = count_windows(devices);
    bytes_needed(
        edition,
        devices.len() as u64,
        halves.len() as u64,
        zones.len() as u64,
        windows,
    )
}

// Writes our completion with its surplus, as its message, and answers the surplus; the rest of the buffer stays.
pub fn complete(
    front: Front,
    halves: &[u32],
    zones: &[ZoneRow],
    minima: &[MinimaRow],
    devices: &[DeviceRow],
    cells: &[CellRow],
    settings: &[SettingRow],
    starts: &[u32],
    powers: &[u32],
    buf: &mut [u8],
) -> i64
    requires { Unbroken front halves.now zones.now minima.now devices.now cells.now settings.now starts.now powers.now
        × Countable front.edition (counts_of (system_in halves.now zones.now minima.now devices.now cells.now))
        × (needed_for front.edition halves.now zones.now devices.now ≤ length buf.old) }
    ensures { Completes front halves.now zones.now minima.now devices.now cells.now settings.now
        buf.old buf.new result }
{
    let blank = Pen {
        acc: 0,
        n: 0,
        at: 0,
    };
    let n = devices.len() as u32;
    let m = halves.len() as u32;
    let pen = put_front(buf, blank, front.edition, n, m, zones.len() as u32);
    let money = empty_ledger();
    let begun = Progress { money, pen };
    let day = complete_intervals(
        front, halves, zones, minima, devices, cells, settings, starts, powers, buf, begun,
    );
    let all = complete_overruns(
        front, halves, zones, minima, devices, cells, settings, starts, powers, buf, day,
    );
    let z = all.money.balance();
    let end = put_surplus(buf, all.pen, z);
    finish(buf, end);
    z
}
