// Reads a batch frame by frame and writes the answers. Bytes are only copied here: `answers` says what they mean.
#![tactic(auto)]

ghost use Rattle.std.specs.Prelude.{◌≡◌, true, ℕ, List, ◌+◌, ◌≤◌, ◌<◌, length, take, IfOk, OnOk, IfErr, OnErr, IfSome};
ghost use Rattle.std.specs.Io.KnownBytes.{Keeps, Appends, Consumes};
ghost use Rattle.model.specs.Editions.{batch};
ghost use Rattle.case_reader.specs.Whole.{CaseRoom};
ghost use Rattle.decoded_cases.specs.Decoded.{Decoded, DecodedFirst, Work, stated_rows};
ghost use Rattle.wording.specs.Text.{texts, failure_text};
ghost use Rattle.frames.specs.Frames.{frame_room, frame_of, framed};
ghost use Rattle.answers.specs.Answers.{after_of, case_lines, case_after, plan_answers, more_of, accepted_of, result_of};
ghost use Rattle.answers.specs.Room.{result_room};
ghost use Rattle.runner.specs.Failures.{error_number, WritesFront, Fails};
ghost use Rattle.runner.specs.Reading.{frame_read, ReadsFrame};

use case_reader::CaseHead;
use row_places::{CellRow, DeviceRow, Front, MinimaRow, SettingRow, ZoneRow};
use std::io::{self, Eprint, Error, ErrorKind, Read, Write};
use std::time::Clock;

// A loop has to end: no run uses up so many tries.
const TRIES: u64 = u64::MAX;

// The system's numbers of an input or output error, and of one where what is asked for is not ready.
const EIO: u64 = 5;

const EAGAIN: i32 = 11;

// Room for a frame and the longest completion.
pub fn frame_buffer() -> [u8; 65539]
    ensures { length result ≡ frame_room }
{
    [0u8; 65539]
}

pub fn result_buffer() -> [u8; 14336]
    ensures { length result ≡ result_room }
{
    [0u8; 14336]
}

// Whether a call that failed is tried again: at once where it was interrupted, after a pause where what it asks for is not ready.
fn again(clock: &impl Clock, error: &Error) -> bool {
    match error.kind() {
        ErrorKind::WouldBlock => {
            pauses::pause(clock);
            true
        }
        ErrorKind::Interrupted => true,
        _ => false,
    }
}

// The system's number of an error, EIO where it gives none.
fn number(error: &Error) -> u64
    ensures positive { 0 < result }
    ensures number { result ≡ error_number error.now }
{
    match error.raw_os_error() {
        Some(code) if 0 < code => code as u64,
        _ => EIO,
    }
}

// How many bytes were read, or why reading ended before.
pub type Got = io::Result<usize>;

// Reads until the buffer is full, the input ends or reading fails.
pub fn read_full<R: Read>(clock: &impl Clock, input: &mut R, buf: &mut [u8]) -> Got
    ensures within { IfOk result (λ n. n ≤ length buf.new) }
    ensures bytes { IfOk result (λ n. Consumes (R.remaining input.old) (R.remaining input.new) (take n buf.new)) }
    ensures all { IfOk result (λ n. IfSome (R.remaining input.old) (λ s. take n buf.new ≡ take (length buf.new) s)) }
    ensures err { OnErr result ((bs : List ℕ) × Consumes (R.remaining input.old) (R.remaining input.new) bs) }
{
    let mut done: usize = 0;
    for _ in 0..TRIES {
        if done == buf.len() {
            return Ok(done);
        }
        match input.read(&mut buf[done..]) {
            Ok(0) => return Ok(done),
            Ok(n) => done += n,
            Err(error) => {
                if !again(clock, &error) {
                    return Err(error);
                }
            }
        }
    }
    Err(Error::from_raw_os_error(EAGAIN))
}

// The next frame of a batch of which `left` bytes are not read yet: its bytes stand at the buffer's front.
fn read_frame<R: Read>(clock: &impl Clock, input: &mut R, frame: &mut [u8], left: u64) -> Got
    requires { length frame.old ≡ frame_room }
    ensures within { IfOk result (λ n. (n ≤ frame_room) × (n ≤ left)) }
    ensures frame { IfOk result (λ n. ReadsFrame (R.remaining input.old) (R.remaining input.new) left (take n frame.new)) }
{
    let head = left.min(3) as usize;
    let here = read_full(clock, input, &mut frame[..head])?;
    let end = (frames::frame_bytes(&frame[..here]) as u64).min(left) as usize;
    if end <= here {
        return Ok(here);
    }
    let more = read_full(clock, input, &mut frame[here..end])?;
    Ok(here + more)
}

// Writes a text, and tells whether all of it was taken. Where that fails a line on standard error says so, and the text's front may have been taken.
pub fn tell<S: Clock + Eprint, W: Write>(system: &S, output: &mut W, text: &[u8]) -> io::Result<()>
    ensures ok { OnOk result (Appends (W.contents output.old) (W.contents output.new) text.now) }
    ensures err { OnErr result (WritesFront (W.contents output.old) (W.contents output.new) text.now) }
{
    let mut done: usize = 0;
    let mut failure = Error::from(ErrorKind::WriteZero);
    for _ in 0..TRIES {
        if done == text.len() {
            return Ok(());
        }
        match output.write(&text[done..]) {
            Ok(0) => break,
            Ok(n) => done += n,
            Err(error) => {
                if !again(system, &error) {
                    failure = error;
                    break;
                }
            }
        }
    }
    // Where standard error takes nothing either, there is nobody to tell.
    let _ = system.eprintln("output failed");
    Err(failure)
}

// The bytes of a frame that was read whole. Of one that was not none counts, and a line tells the error.
fn told<S: Clock + Eprint, W: Write>(system: &S, output: &mut W, got: Got) -> Got
    ensures same { result ≡ got }
    ensures ok { OnOk result (Keeps (W.contents output.old) (W.contents output.new)) }
    ensures err { IfErr result (λ e. WritesFront (W.contents output.old) (W.contents output.new) (failure_text (error_number e))) }
{
    if let Err(error) = got {
        let mut line = lines::line_buffer();
        let bytes = lines::put_failure(&mut line, number(&error));
        let _ = tell(system, output, &line[..bytes]);
    }
    got
}

// A batch that has begun: where plans may follow, the front and counts of its case; and how many of its bytes are not read yet.
#[derive(Clone, Copy)]
pub struct Started {
    pub head: Option<CaseHead>,
    pub rest: u64,
}

// Reads a batch's first frame and tells the answer; the case is left in the tables. An error has been told.
pub fn start<S: Clock + Eprint, R: Read, W: Write>(
    system: &S,
    input: &mut R,
    output: &mut W,
    frame: &mut [u8],
    halves: &mut [u32],
    zones: &mut [ZoneRow],
    minima: &mut [MinimaRow],
    devices: &mut [DeviceRow],
    cells: &mut [CellRow],
    left: u64,
) -> io::Result<Started>
    requires { (length frame.old ≡ frame_room) × CaseRoom batch.devices batch.intervals halves.old zones.old minima.old devices.old cells.old }
    ensures rest { IfOk result (λ r. r.rest ≤ left) }
    ensures size { IfOk result (λ r. length (frame_read left r.rest frame.new) + r.rest ≡ left) }
    ensures read { IfOk result (λ r. ReadsFrame (R.remaining input.old) (R.remaining input.new) left (frame_read left r.rest frame.new)) }
    ensures told { IfOk result (λ r. let f = frame_read left r.rest frame.new in
        Appends (W.contents output.old) (W.contents output.new) (texts (case_lines f (framed f)))) }
    ensures after { IfOk result (λ r. let f = frame_read left r.rest frame.new in
        after_of r.head halves.new zones.new minima.new devices.new cells.new ≡ case_after f (framed f)) }
    ensures decoded { IfOk result (λ r. IfSome r.head (λ h. DecodedFirst h.front h.counts halves.new zones.new minima.new devices.new cells.new batch)) }
    ensures failed { IfErr result (λ e. Fails (R.remaining input.old) left (W.contents output.old) (W.contents output.new) e
        (λ f. texts (case_lines f (framed f)))) }
{
    let n = told(system, output, read_frame(system, input, frame, left))?;
    let mut line = lines::line_buffer();
    let answer = answers::answer_case(
        &frame[..n],
        halves,
        zones,
        minima,
        devices,
        cells,
        &mut line,
    );
    tell(system, output, &line[..answer.bytes])?;
    Ok(Started {
        head: answer.next,
        rest: left - n as u64,
    })
}

// A batch that goes on: whether others may follow, whether the result is a completion, and how many bytes are not read yet.
#[derive(Clone, Copy)]
pub struct Turn {
    pub more: bool,
    pub accepted: bool,
    pub rest: u64,
}

// Reads a further frame and tells the answer. An error has been told.
pub fn next<S: Clock + Eprint, R: Read, W: Write>(
    system: &S,
    input: &mut R,
    output: &mut W,
    front: Front,
    halves: &[u32],
    zones: &[ZoneRow],
    minima: &[MinimaRow],
    devices: &[DeviceRow],
    cells: &[CellRow],
    settings: &mut [SettingRow],
    starts: &mut [u32],
    powers: &mut [u32],
    frame: &mut [u8],
    res: &mut [u8],
    left: u64,
    index: u64,
) -> io::Result<Turn>
    requires decoded { Decoded front halves.now zones.now minima.now devices.now cells.now × Work halves.now devices.now settings.old starts.old powers.old }
    requires devices_len_bound { (length devices.now ≤ batch.devices) × (length halves.now ≤ batch.intervals) × (length frame.old ≡ frame_room) × (result_room ≤ length res.old) }
    ensures rest { IfOk result (λ r. (r.rest ≤ left) × (r.more ≡ true → r.rest < left)) }
    ensures size { IfOk result (λ r. length (frame_read left r.rest frame.new) + r.rest ≡ left) }
    ensures read { IfOk result (λ r. ReadsFrame (R.remaining input.old) (R.remaining input.new) left (frame_read left r.rest frame.new)) }
    ensures told { let x = stated_rows front halves.now zones.now minima.now devices.now cells.now in
        IfOk result (λ r. let f = frame_read left r.rest frame.new in
        Appends (W.contents output.old) (W.contents output.new) (texts (plan_answers x index f (framed f)))) }
    ensures answer { let x = stated_rows front halves.now zones.now minima.now devices.now cells.now in
        IfOk result (λ r. let f = frame_read left r.rest frame.new in
        (r.more ≡ more_of (framed f)) × (r.accepted ≡ accepted_of x f (framed f)) × (res.new ≡ result_of x f res.old (framed f))) }
    ensures failed { let x = stated_rows front halves.now zones.now minima.now devices.now cells.now in
        IfErr result (λ e. Fails (R.remaining input.old) left (W.contents output.old) (W.contents output.new) e
        (λ f. texts (plan_answers x index f (framed f)))) }
{
    let n = told(system, output, read_frame(system, input, frame, left))?;
    let mut line = lines::line_buffer();
    let answer = answers::answer_plan(
        front,
        halves,
        zones,
        minima,
        devices,
        cells,
        settings,
        starts,
        powers,
        &frame[..n],
        index,
        res,
        &mut line,
    );
    tell(system, output, &line[..answer.bytes])?;
    Ok(Turn {
        more: answer.more,
        accepted: answer.accepted,
        rest: left - n as u64,
    })
}
