// The line of a verdict as text. Each function writes the line's bytes to the front of a lent buffer and answers how many they are.
#![tactic(auto)]

ghost use Rattle.std.specs.Prelude.{◌≤◌, length};
ghost use Rattle.model.specs.Batch.{answer};
ghost use Rattle.wording.specs.Text.{answer_text, text as text_of};
ghost use Rattle.wording.specs.Writes.{line_room, Writes};

use layouts::Fault;
use model::{Breach, Subject, Verdict};
use wording::{put_indexed, put_surplus};

fn put_accepted(out: &mut [u8], index: u64, surplus: i64) -> usize
    requires { line_room ≤ length out.old }
    ensures { Writes (answer_text index (Verdict.Accepted surplus)) out.old out.new result }
{
    let v = bits::twos(surplus);
    if v < 0x8000_0000_0000_0000 {
        put_surplus(out, index, b" accepted ", v)
    } else {
        put_surplus(out, index, b" accepted -", 0xffff_ffff_ffff_ffff - v + 1)
    }
}

fn put_broken(out: &mut [u8], index: u64, b: Breach) -> usize
    requires { line_room ≤ length out.old }
    ensures { Writes (answer_text index (Verdict.Broken b)) out.old out.new result }
{
    let figures = [b.rule, b.interval, b.device, b.window];
    put_indexed(out, index, b" broken", &figures)
}

fn put_refused(out: &mut [u8], index: u64, s: Subject, f: Fault) -> usize
    requires { line_room ≤ length out.old }
    ensures { Writes (answer_text index (Verdict.Refused s f)) out.old out.new result }
{
    let figures = [layouts::number_of(f), layouts::returned_by(f)];
    put_indexed(out, index, b" refused", &figures)
}

// A verdict on the message of an index.
pub fn put_answer(out: &mut [u8], index: u64, v: Verdict) -> usize
    requires { line_room ≤ length out.old }
    ensures { Writes (text_of (answer index v)) out.old out.new result }
{
    match v {
        Verdict::Accepted(z) => put_accepted(out, index, z),
        Verdict::Broken(b) => put_broken(out, index, b),
        Verdict::Refused(s, f) => put_refused(out, index, s, f),
    }
}
