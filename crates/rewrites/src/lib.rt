// A case and a plan in the newest edition, from their bytes, with rows lent to read them into. One body for owners of tables of any size.
#![tactic(auto)]

ghost use Rattle.std.specs.Prelude.{◌≡◌, ◌≤◌};
ghost use Rattle.bits.specs.Bits.{reach};
ghost use Rattle.case_reader.specs.Whole.{CaseRoom};
ghost use Rattle.front_reader.specs.Fronts.{largest};
ghost use Rattle.plan_header.specs.Plans.{PlanRoom};
ghost use Rattle.writing.specs.Anew.{writing};
ghost use Rattle.rewrites.specs.Steps.{RenewsCase, RewritesCase, RewritesRows};

use layouts::Fault;
use model::Subject;
use row_places::{CellRow, DeviceRow, MinimaRow, SettingRow, ZoneRow};
use writing::Writing;

// So many bytes written, or 7 where the buffer has fewer.
fn answer(needed: u64, room: usize) -> Writing
    ensures { result ≡ writing needed room }
{
    if (room as u64) < needed {
        return Writing::Refused(Subject::Result, Fault::TooShort(needed));
    }
    Writing::Written(needed)
}

// The bytes of a case of this edition that passed reading.
pub fn rewrite_read_case(case: &[u8], edition: u32, res: &mut [u8]) -> Writing
    requires { 1 ≤ reach case.now }
    ensures { RenewsCase edition case.now res.old res.new result }
{
    let room = res.len();
    let needed = case_copier::renew_case(case, res, edition);
    answer(needed, room)
}

// A case's bytes, by a reader that takes counts up to these.
pub fn rewrite_case_by(
    case: &[u8],
    most_devices: u32,
    most_intervals: u32,
    halves: &mut [u32],
    zones: &mut [ZoneRow],
    minima: &mut [MinimaRow],
    devices: &mut [DeviceRow],
    cells: &mut [CellRow],
    res: &mut [u8],
) -> Writing
    requires { CaseRoom most_devices most_intervals halves.old zones.old minima.old devices.old cells.old }
    ensures { RewritesCase (largest most_devices most_intervals) case.now res.old res.new result }
{
    let read = case_reader::read_case(
        case,
        most_devices,
        most_intervals,
        halves,
        zones,
        minima,
        devices,
        cells,
    );
    match read {
        Err(f) => Writing::Refused(Subject::Case, f),
        Ok(head) => rewrite_read_case(case, head.front.edition, res),
    }
}

// A plan's bytes, of a case of this edition and these counts.
pub fn rewrite_plan_by(
    plan: &[u8],
    edition: u32,
    devices: usize,
    intervals: usize,
    settings: &mut [SettingRow],
    res: &mut [u8],
) -> Writing
    requires { PlanRoom devices intervals settings.old }
    ensures { RewritesRows edition devices intervals plan.now res.old res.new result }
{
    let room = res.len();
    match plan_reader::read_plan(plan, edition, devices, intervals, settings) {
        Err(f) => Writing::Refused(Subject::Plan, f),
        Ok(()) => {
            let n = devices as u64;
            let m = intervals as u64;
            let bytes = plan_copier::renew_plan(plan, res, edition, n, m);
            answer(bytes, room)
        }
    }
}
