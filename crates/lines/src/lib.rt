// The lines of the batch program besides those of verdicts, as text. Each function writes a line's bytes to the front of a lent buffer and answers how many they are.
#![tactic(auto)]

ghost use Rattle.std.specs.Prelude.{◌≡◌, ◌≤◌, length};
ghost use Rattle.layouts.specs.Faults.{number_of};
ghost use Rattle.model.specs.Batch.{case_line, framing};
ghost use Rattle.wording.specs.Text.{text as text_of, failure_text};
ghost use Rattle.wording.specs.Writes.{line_room, Writes};

use layouts::Fault;
use wording::{put_indexed, put_word};

// Room for a line.
pub fn line_buffer() -> [u8; 112]
    ensures { length result ≡ line_room }
{
    [0u8; 112]
}

// The case's line: its counts.
pub fn put_case(out: &mut [u8], devices: u64, intervals: u64, zones: u64) -> usize
    requires { line_room ≤ length out.old }
    ensures { Writes (text_of (case_line 0 devices intervals zones)) out.old out.new result }
{
    let figures = [devices, intervals, zones];
    put_indexed(out, 0, b" case", &figures)
}

// A splitter's refusal.
pub fn put_framing(out: &mut [u8], f: Fault) -> usize
    requires { line_room ≤ length out.old }
    ensures { Writes (text_of (framing (number_of f))) out.old out.new result }
{
    let figures = [layouts::number_of(f)];
    put_word(out, 0, b"framing", &figures)
}

// An error of standard input.
pub fn put_failure(out: &mut [u8], error: u64) -> usize
    requires { line_room ≤ length out.old }
    ensures { Writes (failure_text error) out.old out.new result }
{
    let figures = [error];
    put_word(out, 0, b"input failed", &figures)
}
