// The line to a batch's first frame, which is of the case, as text at the front of a lent buffer.
#![tactic(auto)]

ghost use Rattle.std.specs.Prelude.{◌≤◌, length};
ghost use Rattle.wording.specs.Writes.{line_room};
ghost use Rattle.frames.specs.Frames.{framed};
ghost use Rattle.case_lines.specs.Lines.{WritesCase};

use case_reader::CaseHead;
use frames::LIMIT;
use layouts::{Fault, Framed};
use model::{Subject, Verdict};

// The line's bytes; whether plans may follow.
#[derive(Clone, Copy)]
pub struct CaseLine {
    pub bytes: usize,
    pub more: bool,
}

// By what the splitter finds, and by what reading the case gave.
pub fn case_line(frame: &[u8], read: Result<CaseHead, Fault>, out: &mut [u8]) -> CaseLine
    requires { line_room ≤ length out.old }
    ensures { WritesCase (framed frame.now) read out.old out.new result }
{
    let more = false;
    match layouts::frame_at(frame, 0, LIMIT) {
        Framed::End => CaseLine { bytes: 0, more },
        Framed::Refused(f) => {
            let bytes = lines::put_framing(out, f);
            CaseLine { bytes, more }
        }
        Framed::Message(_, _) => match read {
            Err(f) => {
                let bytes = verdict_lines::put_answer(out, 0, Verdict::Refused(Subject::Case, f));
                CaseLine { bytes, more }
            }
            Ok(head) => {
                let intervals = head.counts.intervals as u64;
                let zones = head.counts.zones as u64;
                let bytes = lines::put_case(out, head.counts.devices as u64, intervals, zones);
                let more = true;
                CaseLine { bytes, more }
            }
        },
    }
}
