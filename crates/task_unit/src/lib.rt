// A task on bytes. Nothing is required of the caller; every task ends.
#![tactic(auto)]

ghost use Rattle.std.specs.Prelude.{◌≡◌, ◌+◌, ◌*◌, ◌≤◌};
ghost use Rattle.model.specs.Editions.{host, most_devices, most_intervals, most_zones};
ghost use Rattle.model.specs.ByEdition.{stated_in};
ghost use Rattle.tasks.specs.Served.{served};

use case_inspection::{
    CELLS, DEVICES, INTERVALS, MINIMA, SMALL_CELLS, SMALL_MINIMA, SMALL_TIMES, TIMES, ZONES,
};
use case_sizes::{SMALL_DEVICES, SMALL_INTERVALS, Size};
use model::Inspected;
use task_work::serve_in;
use tasks::Task;
use tellings::{Told, tell_case};

// In tables for the largest counts of a reader, with room for that much alone: a small case needs no more stack than its own tables take.
#[inline(never)]
fn serve_in_tables<
    const MOST_DEVICES: usize,
    const MOST_INTERVALS: usize,
    const MOST_CELLS: usize,
    const MOST_MINIMA: usize,
    const MOST_TIMES: usize,
>(task: Task, case: &[u8], message: &[u8], res: &mut [u8], table: &mut [u64]) -> Told
    requires few { (MOST_DEVICES ≤ most_devices) × (MOST_INTERVALS ≤ most_intervals) }
    requires fit { (MOST_CELLS ≡ MOST_DEVICES * MOST_INTERVALS) × (MOST_MINIMA ≡ most_zones * MOST_INTERVALS) × (MOST_TIMES ≡ MOST_INTERVALS + 1) }
    ensures { record { told = result; result = res.new; rows = table.new }
        ≡ served task message.now res.old table.old (stated_in (record { devices = MOST_DEVICES; intervals = MOST_INTERVALS }) case.now) }
{
    let mut halves = [0u32; MOST_INTERVALS];
    let zone = row_places::blank_zone();
    let mut zones = [zone; ZONES];
    let least = row_places::blank_minima();
    let mut minima = [least; MOST_MINIMA];
    let device = row_places::blank_device();
    let mut devices = [device; MOST_DEVICES];
    let cell = row_places::blank_cell();
    let mut cells = [cell; MOST_CELLS];
    let read = case_reader::read_case(
        case,
        MOST_DEVICES as u32,
        MOST_INTERVALS as u32,
        &mut halves,
        &mut zones,
        &mut minima,
        &mut devices,
        &mut cells,
    );
    match read {
        Err(f) => tell_case(Inspected::Refused(f)),
        Ok(head) => {
            let n = head.counts.devices;
            let m = head.counts.intervals;
            let z = head.counts.zones;
            let setting = row_places::blank_setting();
            let mut settings = [setting; MOST_CELLS];
            let mut starts = [0u32; MOST_TIMES];
            let mut powers = [0u32; MOST_CELLS];
            let k = n * m;
            let j = z * m;
            let e = m + 1;
            serve_in(
                task,
                case,
                head.front,
                &halves[..m],
                &zones[..z],
                &minima[..j],
                &devices[..n],
                &cells[..k],
                message,
                &mut settings[..k],
                &mut starts[..e],
                &mut powers[..k],
                res,
                table,
            )
        }
    }
}

// A case's bytes, and a message's where the task has one, with a result buffer and a table of numbers to write: a case that states a small one's counts, or none,
// needs no larger tables.
pub fn serve(task: Task, case: &[u8], message: &[u8], res: &mut [u8], table: &mut [u64]) -> Told
    ensures { record { told = result; result = res.new; rows = table.new }
        ≡ served task message.now res.old table.old (stated_in host case.now) }
{
    match case_sizes::size_of(case) {
        Size::Unstated | Size::Small => serve_in_tables::<
            SMALL_DEVICES,
            SMALL_INTERVALS,
            SMALL_CELLS,
            SMALL_MINIMA,
            SMALL_TIMES,
        >(task, case, message, res, table),
        Size::ManyDevices | Size::ManyIntervals => {
            serve_in_tables::<DEVICES, INTERVALS, CELLS, MINIMA, TIMES>(
                task, case, message, res, table,
            )
        }
    }
}
