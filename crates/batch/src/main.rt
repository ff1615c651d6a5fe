// The batch program: a batch by standard input, case first; a line for each message. It owns the tables of a case of up to 16 devices and 48 intervals.
#![tactic(auto)]

ghost use Rattle.std.specs.Prelude.{◌≡◌, ◌^◌, ◌≤◌, ◌<◌, length, take, OnOk, IfErr, IfSome};
ghost use Rattle.std.specs.Io.KnownBytes.{Appends};
ghost use Rattle.model.specs.Editions.{batch};
ghost use Rattle.decoded_cases.specs.Decoded.{Decoded, Work, stated_rows};
ghost use Rattle.frames.specs.Frames.{frame_room};
ghost use Rattle.wording.specs.Text.{batch_text};
ghost use Rattle.batch.specs.Told.{plans_told, FailsIn};

use answers::{CELLS, DEVICES, INTERVALS, MINIMA, TIMES};
use case_inspection::ZONES;
use row_places::{CellRow, DeviceRow, Front, MinimaRow, SettingRow, ZoneRow};
use std::io::{self, Eprint, Read, Write};
use std::time::Clock;

// The most bytes of a batch: no machine holds more.
const REACH: u64 = 0x1fff_ffff_ffff_ffff;

// The plans of a batch of which `left` bytes are not read yet. Each takes a byte at least, so their count fits.
fn run_plans<S: Clock + Eprint, R: Read, W: Write>(
    system: &S,
    input: &mut R,
    output: &mut W,
    front: Front,
    halves: &[u32],
    zones: &[ZoneRow],
    minima: &[MinimaRow],
    devices: &[DeviceRow],
    cells: &[CellRow],
    settings: &mut [SettingRow],
    starts: &mut [u32],
    powers: &mut [u32],
    frame: &mut [u8],
    left: u64,
) -> io::Result<()>
    requires decoded { Decoded front halves.now zones.now minima.now devices.now cells.now
        × Work halves.now devices.now settings.old starts.old powers.old × (length devices.now ≤ batch.devices) × (length halves.now ≤ batch.intervals) }
    requires frame_len { (length frame.old ≡ frame_room) × (left < 2 ^ 61) }
    ensures told { let x = stated_rows front halves.now zones.now minima.now devices.now cells.now in
        OnOk result (IfSome (R.remaining input.old) (λ s.
        Appends (W.contents output.old) (W.contents output.new) (plans_told x 1 (take left s)))) }
    ensures failed { let x = stated_rows front halves.now zones.now minima.now devices.now cells.now in
        IfErr result (λ e. IfSome (R.remaining input.old) (λ s.
        FailsIn (W.contents output.old) (W.contents output.new) e (plans_told x 1 (take left s)))) }
{
    let mut result = runner::result_buffer();
    let mut rest = left;
    let mut index: u64 = 1;
    while 0 < rest {
        let turn = runner::next(
            system,
            input,
            output,
            front,
            halves,
            zones,
            minima,
            devices,
            cells,
            settings,
            starts,
            powers,
            frame,
            &mut result,
            rest,
            index,
        )?;
        if !turn.more {
            return Ok(());
        }
        rest = turn.rest;
        index += 1;
    }
    Ok(())
}

// A batch from an input, with its answers to an output. Of a batch that is read and answered to its end the output has the text behind what it held before. Else an
// error says why, and has been told; the output has a front of the text, and behind it what was written of the line that tells a failed read.
pub fn run<S: Clock + Eprint, R: Read, W: Write>(
    system: &S,
    input: &mut R,
    output: &mut W,
) -> io::Result<()>
    ensures told { OnOk result (IfSome (R.remaining input.old) (λ s. length s < 2 ^ 61 →
        Appends (W.contents output.old) (W.contents output.new) (batch_text s))) }
    ensures failed { IfErr result (λ e. IfSome (R.remaining input.old) (λ s. length s < 2 ^ 61 →
        FailsIn (W.contents output.old) (W.contents output.new) e (batch_text s))) }
{
    let mut frame = runner::frame_buffer();
    let mut halves = [0u32; INTERVALS];
    let zone = row_places::blank_zone();
    let mut zones = [zone; ZONES];
    let least = row_places::blank_minima();
    let mut minima = [least; MINIMA];
    let device = row_places::blank_device();
    let mut devices = [device; DEVICES];
    let cell = row_places::blank_cell();
    let mut cells = [cell; CELLS];
    let started = runner::start(
        system,
        input,
        output,
        &mut frame,
        &mut halves,
        &mut zones,
        &mut minima,
        &mut devices,
        &mut cells,
        REACH,
    )?;
    let Some(head) = started.head else {
        return Ok(());
    };
    let n = head.counts.devices;
    let m = head.counts.intervals;
    let z = head.counts.zones;
    let setting = row_places::blank_setting();
    let mut settings = [setting; CELLS];
    let mut starts = [0u32; TIMES];
    let mut powers = [0u32; CELLS];
    let k = n * m;
    let j = z * m;
    let e = m + 1;
    run_plans(
        system,
        input,
        output,
        head.front,
        &halves[..m],
        &zones[..z],
        &minima[..j],
        &devices[..n],
        &cells[..k],
        &mut settings[..k],
        &mut starts[..e],
        &mut powers[..k],
        &mut frame,
        started.rest,
    )
}

// What went wrong has been told, so the program ends in the same way.
fn main(rt: HostRuntime) {
    let mut input = rt.stdin();
    let mut output = rt.stdout();
    let _ = run(&rt, &mut input, &mut output);
}
