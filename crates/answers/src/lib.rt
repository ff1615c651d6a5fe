// The batch program's answers on slices: to a frame, which is a message behind its length as far as the batch goes, its lines as text and how the batch goes on.
#![tactic(auto)]

ghost use Rattle.std.specs.Prelude.{◌≡◌, ◌≤◌, length};
ghost use Rattle.model.specs.Editions.{batch};
ghost use Rattle.case_reader.specs.Whole.{CaseRoom};
ghost use Rattle.decoded_cases.specs.Decoded.{Decoded, Work, stated_rows};
ghost use Rattle.wording.specs.Writes.{line_room};
ghost use Rattle.answers.specs.Answers.{accepts, AnswersCase, AnswersPlan};
ghost use Rattle.answers.specs.Room.{result_room};

use case_inspection::ZONES;
use case_reader::CaseHead;
use frames::LIMIT;
use layouts::Framed;
use model::Verdict;
use row_places::{CellRow, DeviceRow, Front, MinimaRow, SettingRow, ZoneRow};

// The largest counts that the batch program takes, and the rows that its tables need.
pub const DEVICES: usize = 16;

pub const INTERVALS: usize = 48;

pub const CELLS: usize = DEVICES * INTERVALS;

pub const MINIMA: usize = ZONES * INTERVALS;

pub const TIMES: usize = INTERVALS + 1;

// The line's bytes; where plans may follow, the front and counts of the case that they are for.
#[derive(Clone, Copy)]
pub struct CaseAnswer {
    pub bytes: usize,
    pub next: Option<CaseHead>,
}

// To a batch's first frame, of the case.
pub fn answer_case(
    frame: &[u8],
    halves: &mut [u32],
    zones: &mut [ZoneRow],
    minima: &mut [MinimaRow],
    devices: &mut [DeviceRow],
    cells: &mut [CellRow],
    out: &mut [u8],
) -> CaseAnswer
    requires { CaseRoom batch.devices batch.intervals halves.old zones.old minima.old devices.old cells.old × (line_room ≤ length out.old) }
    ensures { AnswersCase frame.now halves.new zones.new minima.new devices.new cells.new out.old out.new result }
{
    let message = layouts::message_at(frame, 0, LIMIT);
    let read = case_reader::read_case(
        message,
        DEVICES as u32,
        INTERVALS as u32,
        halves,
        zones,
        minima,
        devices,
        cells,
    );
    let line = case_lines::case_line(frame, read, out);
    let next = if line.more { read.ok() } else { None };
    CaseAnswer {
        bytes: line.bytes,
        next,
    }
}

// Whether a verdict is acceptance.
fn accepted(v: Verdict) -> bool
    ensures { result ≡ accepts v }
{
    match v {
        Verdict::Accepted(_) => true,
        Verdict::Broken(_) => false,
        Verdict::Refused(_, _) => false,
    }
}

// The line's bytes; whether others may follow; whether a completion was written.
#[derive(Clone, Copy)]
pub struct PlanAnswer {
    pub bytes: usize,
    pub more: bool,
    pub accepted: bool,
}

// To each further frame, of a plan, with tables lent to work in.
pub fn answer_plan(
    front: Front,
    halves: &[u32],
    zones: &[ZoneRow],
    minima: &[MinimaRow],
    devices: &[DeviceRow],
    cells: &[CellRow],
    settings: &mut [SettingRow],
    starts: &mut [u32],
    powers: &mut [u32],
    frame: &[u8],
    index: u64,
    res: &mut [u8],
    out: &mut [u8],
) -> PlanAnswer
    requires decoded { Decoded front halves.now zones.now minima.now devices.now cells.now × Work halves.now devices.now settings.old starts.old powers.old }
    requires devices_len_bound { (length devices.now ≤ batch.devices) × (length halves.now ≤ batch.intervals) × (result_room ≤ length res.old) × (line_room ≤ length out.old) }
    ensures { AnswersPlan (stated_rows front halves.now zones.now minima.now devices.now cells.now)
        index frame.now res.old res.new out.old out.new result }
{
    match layouts::frame_at(frame, 0, LIMIT) {
        Framed::End => PlanAnswer {
            bytes: 0,
            more: false,
            accepted: false,
        },
        Framed::Refused(f) => {
            let bytes = lines::put_framing(out, f);
            PlanAnswer {
                bytes,
                more: false,
                accepted: false,
            }
        }
        Framed::Message(_, _) => {
            let message = layouts::message_at(frame, 0, LIMIT);
            let v = plan_judgement::judge_plan(
                front, halves, zones, minima, devices, cells, message, settings, starts, powers,
                res,
            );
            let bytes = verdict_lines::put_answer(out, index, v);
            PlanAnswer {
                bytes,
                more: true,
                accepted: accepted(v),
            }
        }
    }
}
