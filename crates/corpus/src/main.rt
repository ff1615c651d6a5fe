// Runs the batches of a corpus, each behind a 32-bit byte length, with a line on each completion's bytes, on each list of breaches and on each message in the
// newest edition.
#![tactic(auto)]

ghost use Rattle.std.specs.Prelude.{◌≡◌, ◌^◌, ◌≤◌, ◌<◌, ◌++◌, length, decimal, OnOk, IfOk};
ghost use Rattle.std.specs.Io.KnownBytes.{Appends};
ghost use Rattle.model.specs.Editions.{batch};
ghost use Rattle.decoded_cases.specs.Decoded.{Decoded, Work};
ghost use Rattle.frames.specs.Frames.{frame_room};
ghost use Rattle.plan_header.specs.Plans.{PlanRoom};

use answers::{CELLS, DEVICES, INTERVALS, MINIMA, TIMES};
use case_inspection::ZONES;
use frames::LIMIT;
use model::Listing;
use row_places::{CellRow, DeviceRow, Front, MinimaRow, SettingRow, ZoneRow};
use std::io::{self, Eprint, Read, Write};
use std::time::Clock;
use writing::Writing;

// One byte more of a CRC-32 (IEEE 802.3, reflected).
fn crc_byte(crc: u32, b: u8) -> u32 {
    let mut c = crc ^ u32::from(b);
    for _ in 0..8 {
        let low = c % 2;
        c /= 2;
        if low == 1 {
            c ^= 0xedb8_8320;
        }
    }
    c
}

fn crc(bytes: &[u8]) -> u32 {
    let mut c: u32 = 0xffff_ffff;
    for b in bytes {
        c = crc_byte(c, *b);
    }
    c ^ 0xffff_ffff
}

// A word, a number and a line's end or a space.
fn print<W: Write>(output: &mut W, word: &str, n: u64, end: &str) -> io::Result<()>
    ensures { OnOk result (Appends (W.contents output.old) (W.contents output.new) (word.now ++ decimal n ++ end.now)) }
{
    write!(output, "{word}{n}{end}")
}

// The length and the checksum of the message at the front of a buffer.
fn print_message<W: Write>(
    output: &mut W,
    word: &str,
    length: u64,
    buffer: &[u8],
) -> io::Result<()> {
    let n = length.min(buffer.len() as u64) as usize;
    let bytes = &buffer[..n];
    print(output, word, n as u64, " ")?;
    print(output, "", u64::from(crc(bytes)), "\n")
}

// The completion that the result holds.
fn print_completion<W: Write>(output: &mut W, needed: u64, res: &[u8]) -> io::Result<()> {
    print_message(output, "completion ", needed, res)
}

// A message written in the newest edition; nothing of one that is refused.
fn print_writing<W: Write>(output: &mut W, x: Writing, buffer: &[u8]) -> io::Result<()> {
    match x {
        Writing::Written(n) => print_message(output, "rewritten ", n, buffer),
        Writing::Refused(_, _) => Ok(()),
    }
}

// The most bytes that a case takes in the newest edition, at 16 devices and 48 intervals.
const WRITTEN: usize = 43743;

fn written_buffer() -> [u8; WRITTEN] {
    [0u8; WRITTEN]
}

// The case of a frame in the newest edition, with tables of its own to read it into.
fn print_case<W: Write>(output: &mut W, frame: &[u8]) -> io::Result<()> {
    let message = layouts::message_at(frame, 0, LIMIT);
    let mut halves = [0u32; INTERVALS];
    let zone = row_places::blank_zone();
    let mut zones = [zone; ZONES];
    let least = row_places::blank_minima();
    let mut minima = [least; MINIMA];
    let device = row_places::blank_device();
    let mut devices = [device; DEVICES];
    let cell = row_places::blank_cell();
    let mut cells = [cell; CELLS];
    let mut buffer = written_buffer();
    let x = rewrites::rewrite_case_by(
        message,
        DEVICES as u32,
        INTERVALS as u32,
        &mut halves,
        &mut zones,
        &mut minima,
        &mut devices,
        &mut cells,
        &mut buffer,
    );
    print_writing(output, x, &buffer)
}

// The most bytes that a list of breaches takes at 16 devices and 48 intervals.
const LIST: usize = 77248;

// The bytes of a breach in the list.
const ENTRY: usize = 4;

fn list_buffer() -> [u8; LIST] {
    [0u8; LIST]
}

// How many rules a plan breaks and the checksum of their list; nothing where it breaks none.
fn print_list<W: Write>(output: &mut W, n: u64, list: &[u8]) -> io::Result<()> {
    if n == 0 {
        return Ok(());
    }
    let entries = n.min((list.len() / ENTRY) as u64) as usize;
    let e = ENTRY * entries;
    let bytes = &list[..e];
    print(output, "breaches ", n, " ")?;
    print(output, "", u64::from(crc(bytes)), "\n")
}

// The rules that a frame's plan breaks, where it is not accepted; nothing of a plan that is refused.
fn print_breaches<W: Write>(
    output: &mut W,
    accepted: bool,
    front: Front,
    halves: &[u32],
    zones: &[ZoneRow],
    minima: &[MinimaRow],
    devices: &[DeviceRow],
    cells: &[CellRow],
    settings: &mut [SettingRow],
    starts: &mut [u32],
    powers: &mut [u32],
    frame: &[u8],
) -> io::Result<()>
    requires { Decoded front halves.now zones.now minima.now devices.now cells.now
        × Work halves.now devices.now settings.old starts.old powers.old }
{
    if accepted {
        return Ok(());
    }
    let message = layouts::message_at(frame, 0, LIMIT);
    let mut list = list_buffer();
    match breach_lists::breaches_of_plan(
        front, halves, zones, minima, devices, cells, message, settings, starts, powers, &mut list,
    ) {
        Listing::Listed(n) => print_list(output, n, &list),
        Listing::Refused(_, _) => Ok(()),
    }
}

// A frame's plan in the newest edition; nothing of one that is refused.
fn print_plan<W: Write>(
    output: &mut W,
    edition: u32,
    devices: usize,
    intervals: usize,
    settings: &mut [SettingRow],
    frame: &[u8],
) -> io::Result<()>
    requires { PlanRoom devices intervals settings.old }
{
    let message = layouts::message_at(frame, 0, LIMIT);
    let mut buffer = written_buffer();
    let x = rewrites::rewrite_plan_by(message, edition, devices, intervals, settings, &mut buffer);
    print_writing(output, x, &buffer)
}

// What stands behind the line of a frame's plan and its completion.
fn print_further<W: Write>(
    output: &mut W,
    accepted: bool,
    front: Front,
    halves: &[u32],
    zones: &[ZoneRow],
    minima: &[MinimaRow],
    devices: &[DeviceRow],
    cells: &[CellRow],
    settings: &mut [SettingRow],
    starts: &mut [u32],
    powers: &mut [u32],
    frame: &[u8],
) -> io::Result<()>
    requires { Decoded front halves.now zones.now minima.now devices.now cells.now
        × Work halves.now devices.now settings.old starts.old powers.old }
{
    print_breaches(
        output, accepted, front, halves, zones, minima, devices, cells, settings, starts, powers,
        frame,
    )?;
    print_plan(
        output,
        front.edition,
        devices.len(),
        halves.len(),
        settings,
        frame,
    )
}

// The plans of a batch of which `left` bytes are not read yet; answers how many were not read.
fn run_plans<S: Clock + Eprint, R: Read, W: Write>(
    system: &S,
    input: &mut R,
    output: &mut W,
    front: Front,
    halves: &[u32],
    zones: &[ZoneRow],
    minima: &[MinimaRow],
    devices: &[DeviceRow],
    cells: &[CellRow],
    settings: &mut [SettingRow],
    starts: &mut [u32],
    powers: &mut [u32],
    frame: &mut [u8],
    left: u64,
) -> io::Result<u64>
    requires decoded { Decoded front halves.now zones.now minima.now devices.now cells.now
        × Work halves.now devices.now settings.old starts.old powers.old × (length devices.now ≤ batch.devices) × (length halves.now ≤ batch.intervals) }
    requires frame_len { (length frame.old ≡ frame_room) × (left < 2 ^ 32) }
    ensures { IfOk result (λ n. n < 2 ^ 32) }
{
    let needed = completions::completion_bytes(front.edition, halves, zones, devices);
    let mut result = runner::result_buffer();
    let mut rest = left;
    let mut index: u64 = 1;
    while 0 < rest {
        let turn = runner::next(
            system,
            input,
            output,
            front,
            halves,
            zones,
            minima,
            devices,
            cells,
            settings,
            starts,
            powers,
            frame,
            &mut result,
            rest,
            index,
        )?;
        if turn.accepted {
            print_completion(output, needed, &result)?;
        }
        if !turn.more {
            return Ok(turn.rest);
        }
        print_further(
            output,
            turn.accepted,
            front,
            halves,
            zones,
            minima,
            devices,
            cells,
            settings,
            starts,
            powers,
            frame,
        )?;
        rest = turn.rest;
        index += 1;
    }
    Ok(rest)
}

// A batch behind its case's line: the case in the newest edition, then its plans.
fn run_rest<S: Clock + Eprint, R: Read, W: Write>(
    system: &S,
    input: &mut R,
    output: &mut W,
    front: Front,
    halves: &[u32],
    zones: &[ZoneRow],
    minima: &[MinimaRow],
    devices: &[DeviceRow],
    cells: &[CellRow],
    settings: &mut [SettingRow],
    starts: &mut [u32],
    powers: &mut [u32],
    frame: &mut [u8],
    left: u64,
) -> io::Result<u64>
    requires decoded { Decoded front halves.now zones.now minima.now devices.now cells.now
        × Work halves.now devices.now settings.old starts.old powers.old × (length devices.now ≤ batch.devices) × (length halves.now ≤ batch.intervals) }
    requires frame_len { (length frame.old ≡ frame_room) × (left < 2 ^ 32) }
    ensures { IfOk result (λ n. n < 2 ^ 32) }
{
    print_case(output, frame)?;
    run_plans(
        system, input, output, front, halves, zones, minima, devices, cells, settings, starts,
        powers, frame, left,
    )
}

// A batch of `left` bytes; answers how many were not read. It owns the tables of a case of up to 16 devices and 48 intervals.
fn run_batch<S: Clock + Eprint, R: Read, W: Write>(
    system: &S,
    input: &mut R,
    output: &mut W,
    left: u64,
) -> io::Result<u64>
    requires { left < 2 ^ 32 }
    ensures { IfOk result (λ n. n < 2 ^ 32) }
{
    let mut frame = runner::frame_buffer();
    let mut halves = [0u32; INTERVALS];
    let zone = row_places::blank_zone();
    let mut zones = [zone; ZONES];
    let least = row_places::blank_minima();
    let mut minima = [least; MINIMA];
    let device = row_places::blank_device();
    let mut devices = [device; DEVICES];
    let cell = row_places::blank_cell();
    let mut cells = [cell; CELLS];
    let started = runner::start(
        system,
        input,
        output,
        &mut frame,
        &mut halves,
        &mut zones,
        &mut minima,
        &mut devices,
        &mut cells,
        left,
    )?;
    let Some(head) = started.head else {
        return Ok(started.rest);
    };
    let n = head.counts.devices;
    let m = head.counts.intervals;
    let z = head.counts.zones;
    let setting = row_places::blank_setting();
    let mut settings = [setting; CELLS];
    let mut starts = [0u32; TIMES];
    let mut powers = [0u32; CELLS];
    let k = n * m;
    let j = z * m;
    let e = m + 1;
    run_rest(
        system,
        input,
        output,
        head.front,
        &halves[..m],
        &zones[..z],
        &minima[..j],
        &devices[..n],
        &cells[..k],
        &mut settings[..k],
        &mut starts[..e],
        &mut powers[..k],
        &mut frame,
        started.rest,
    )
}

// Reads and drops some of the next bytes; answers how many, 0 where none is left.
fn skip_some<R: Read>(clock: &impl Clock, input: &mut R, left: u64) -> io::Result<u64>
    ensures { IfOk result (λ n. n ≤ left) }
{
    let mut space = [0u8; 4096];
    let n = left.min(4096) as usize;
    let got = runner::read_full(clock, input, &mut space[..n])?;
    Ok(got as u64)
}

// Reads and drops the rest of a batch.
fn skip<R: Read>(clock: &impl Clock, input: &mut R, count: u64) -> io::Result<()> {
    let mut left = count;
    while 0 < left {
        let got = skip_some(clock, input, left)?;
        if got == 0 {
            break;
        }
        left -= got;
    }
    Ok(())
}

// Runs the next batch; answers false where none is left.
fn next_batch<S: Clock + Eprint, R: Read, W: Write>(
    system: &S,
    input: &mut R,
    output: &mut W,
    index: u64,
) -> io::Result<bool> {
    let mut head = [0u8; 4];
    let got = runner::read_full(system, input, &mut head)?;
    if got < 4 {
        return Ok(false);
    }
    let length = u64::from(u32::from_be_bytes(head));
    print(output, "batch ", index, "\n")?;
    let left = run_batch(system, input, output, length)?;
    skip(system, input, left)?;
    Ok(true)
}

// A loop has to end, and nothing says that the input does: it counts up to a number that no run reaches.
fn main(rt: HostRuntime) -> io::Result<()> {
    let mut input = rt.stdin();
    let mut output = rt.stdout();
    for index in 0..u64::MAX {
        if !next_batch(&rt, &mut input, &mut output, index)? {
            break;
        }
    }
    Ok(())
}
