// A task done for a case that was decoded before, and told. One body for owners of tables of any size.
#![tactic(auto)]

ghost use Rattle.std.specs.Prelude.{◌≡◌};
ghost use Rattle.layouts.specs.Layout.{passes};
ghost use Rattle.decoded_cases.specs.Decoded.{Decoded, Work, stated_rows};
ghost use Rattle.tasks.specs.Served.{served};
ghost use Rattle.task_work.specs.Steps.{ReadAs, ReadsBack, Completes};

use completion_body::Form;
use market_copies::COMPLETION_BYTES;
use model::Inspected;
use row_places::{CellRow, DeviceRow, Front, MinimaRow, SettingRow, ZoneRow};
use stack_tellings::tell_stack;
use tasks::Task;
use tellings::{
    Told, tell, tell_case, tell_copy, tell_list, tell_mending, tell_reading, tell_writing,
};

// A completion or a market copy read back, by the desk's reader or the market's.
fn read_back(
    desk: bool,
    front: Front,
    halves: &[u32],
    zones: &[ZoneRow],
    minima: &[MinimaRow],
    devices: &[DeviceRow],
    cells: &[CellRow],
    message: &[u8],
    table: &mut [u64],
) -> Told
    requires { Decoded front halves.now zones.now minima.now devices.now cells.now }
    ensures { ReadsBack (stated_rows front halves.now zones.now minima.now devices.now cells.now) desk
        message.now table.old table.new result }
{
    let windows = completions::count_windows(devices);
    let n = devices.len();
    let m = halves.len();
    let z = zones.len();
    let form = Form {
        desk,
        edition: front.edition,
        devices: n as u32,
        intervals: m as u32,
        zones: z as u32,
        windows,
    };
    let x = completion_reader::read_message(message, form, table);
    tell_reading(x)
}

// A plan mended, or its completion copied for the market: what needs room for a whole completion.
fn complete_in(
    mending: bool,
    front: Front,
    halves: &[u32],
    zones: &[ZoneRow],
    minima: &[MinimaRow],
    devices: &[DeviceRow],
    cells: &[CellRow],
    message: &[u8],
    settings: &mut [SettingRow],
    starts: &mut [u32],
    powers: &mut [u32],
    res: &mut [u8],
) -> Told
    requires { Decoded front halves.now zones.now minima.now devices.now cells.now × Work halves.now devices.now settings.old starts.old powers.old }
    ensures { Completes (stated_rows front halves.now zones.now minima.now devices.now cells.now) mending
        message.now res.old res.new result }
{
    let mut whole = [0u8; COMPLETION_BYTES];
    if mending {
        let x = mended_plans::mend_plan(
            front, halves, zones, minima, devices, cells, message, settings, starts, powers,
            &mut whole,
        );
        return tell_mending(x);
    }
    let x = market_copies::copy_plan(
        front, halves, zones, minima, devices, cells, message, settings, starts, powers,
        &mut whole, res,
    );
    tell_copy(x)
}

// A task against the rows of a case, with its bytes, and tables to work in.
pub fn serve_in(
    task: Task,
    case: &[u8],
    front: Front,
    halves: &[u32],
    zones: &[ZoneRow],
    minima: &[MinimaRow],
    devices: &[DeviceRow],
    cells: &[CellRow],
    message: &[u8],
    settings: &mut [SettingRow],
    starts: &mut [u32],
    powers: &mut [u32],
    res: &mut [u8],
    table: &mut [u64],
) -> Told
    requires { ReadAs case.now (stated_rows front halves.now zones.now minima.now devices.now cells.now)
        × Decoded front halves.now zones.now minima.now devices.now cells.now × Work halves.now devices.now settings.old starts.old powers.old }
    ensures { record { told = result; result = res.new; rows = table.new } ≡ served task message.now res.old table.old
        (passes (stated_rows front halves.now zones.now minima.now devices.now cells.now)) }
{
    let n = devices.len();
    let m = halves.len();
    match task {
        Task::Inspect => {
            let z = zones.len();
            tell_case(Inspected::Counts(n as u64, m as u64, z as u64))
        }
        Task::Judge => {
            let x = plan_judgement::judge_plan(
                front, halves, zones, minima, devices, cells, message, settings, starts, powers,
                res,
            );
            tell(x)
        }
        Task::Breaches => {
            let x = breach_lists::breaches_of_plan(
                front, halves, zones, minima, devices, cells, message, settings, starts, powers,
                res,
            );
            tell_list(x)
        }
        Task::WriteCase => {
            let x = rewrites::rewrite_read_case(case, front.edition, res);
            tell_writing(x)
        }
        Task::WritePlan => {
            let x = rewrites::rewrite_plan_by(message, front.edition, n, m, settings, res);
            tell_writing(x)
        }
        Task::Copy => complete_in(
            false, front, halves, zones, minima, devices, cells, message, settings, starts, powers,
            res,
        ),
        Task::ReadCompletion => read_back(
            true, front, halves, zones, minima, devices, cells, message, table,
        ),
        Task::ReadMarket => read_back(
            false, front, halves, zones, minima, devices, cells, message, table,
        ),
        Task::Mend => complete_in(
            true, front, halves, zones, minima, devices, cells, message, settings, starts, powers,
            res,
        ),
        Task::Batch => {
            let x = stack_judgement::judge_batch_in(
                front, halves, zones, minima, devices, cells, message, settings, starts, powers,
                res, table,
            );
            tell_stack(x)
        }
    }
}
