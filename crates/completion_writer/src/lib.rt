// A completion's shortfalls, mismatches, overruns and surplus, written through a pen.
#![tactic(auto)]

ghost use Rattle.std.specs.Prelude.{◌++◌, ◌+◌, ◌^◌, ◌<◌};
ghost use Rattle.layouts.specs.Layout.{bits_of, any, int};
ghost use Rattle.model.specs.Messages.{six};
ghost use Rattle.model.specs.ByEdition.{bars_choice};
ghost use Rattle.theorems.specs.Back.{FitsSix};
ghost use Rattle.pen.specs.Pens.{Ready, Pushes};
ghost use Rattle.pen.specs.Runs.{Room};
ghost use Rattle.field_groups.specs.Fields.{six_of};
ghost use Rattle.completion_size.specs.Size.{six_width, bars_width, overrun_width, surplus_width};
ghost use Rattle.completion_writer.specs.Bars.{bars_of};

use completion_size::{BARS_EDITION, MISMATCH_BITS, OVERRUN_BITS, SHORTFALL_BITS};
use energy::{KwMin, Watts};
use field_groups::{field, put_both};
use kilowatts::Kw;
use pen::{Pen, push};

// Half a surplus.
const HALF_BITS: u64 = 32;

// Three shortfalls, one behind the other.
fn put_three(buf: &mut [u8], p: Pen, x: Watts, y: Watts, z: Watts) -> Pen
    requires { Ready p × Room buf.old p 99 × (x.0 < 2 ^ 33) × (y.0 < 2 ^ 33) × (z.0 < 2 ^ 33) }
    ensures { Pushes 99 (bits_of 33 x.0 ++ (bits_of 33 y.0 ++ bits_of 33 z.0)) buf.old buf.new p result }
{
    let p = push(buf, p, SHORTFALL_BITS, x.0);
    let p = push(buf, p, SHORTFALL_BITS, y.0);
    push(buf, p, SHORTFALL_BITS, z.0)
}

// A zone's six shortfalls in an interval, in the order of their prices.
pub fn put_shortfalls(buf: &mut [u8], p: Pen, shortfalls: [Watts; 6]) -> Pen
    requires { Ready p × Room buf.old p six_width × FitsSix (six_of shortfalls) }
    ensures { Pushes six_width ((six (any 33)).write (six_of shortfalls)) buf.old buf.new p result }
{
    let p = put_three(buf, p, shortfalls[0], shortfalls[1], shortfalls[2]);
    put_three(buf, p, shortfalls[3], shortfalls[4], shortfalls[5])
}

// A mismatch for each bar, "bar 0 first": bar 1's since edition 5.
pub fn put_bars(buf: &mut [u8], p: Pen, edition: u32, first: u64, second: u64) -> Pen
    requires { Ready p × Room buf.old p (bars_width edition) × (first < 2 ^ 23) × (second < 2 ^ 23) }
    ensures { Pushes (bars_width edition) ((bars_choice edition).write (bars_of first second)) buf.old buf.new p result }
{
    let p = push(buf, p, MISMATCH_BITS, first);
    if edition < BARS_EDITION {
        return p;
    }
    push(buf, p, MISMATCH_BITS, second)
}

// An interval's mismatches.
pub fn put_mismatches(buf: &mut [u8], p: Pen, edition: u32, first: Kw, second: Kw) -> Pen
    requires { Ready p × Room buf.old p (bars_width edition) × (first.0 < 2 ^ 23) × (second.0 < 2 ^ 23) }
    ensures { Pushes (bars_width edition) ((bars_choice edition).write (bars_of first.0 second.0)) buf.old buf.new p result }
{
    put_bars(buf, p, edition, first.0 as u64, second.0 as u64)
}

pub fn put_overrun(buf: &mut [u8], p: Pen, e: KwMin) -> Pen
    requires { Ready p × Room buf.old p overrun_width × (e.0 < 2 ^ 32) }
    ensures { Pushes overrun_width ((any 32).write e.0) buf.old buf.new p result }
{
    push(buf, p, OVERRUN_BITS, e.0)
}

// "surplus 64 signed", in two halves.
pub fn put_surplus(buf: &mut [u8], p: Pen, z: i64) -> Pen
    requires { Ready p × Room buf.old p surplus_width }
    ensures { Pushes surplus_width ((int 64 (2 ^ 63)).write z) buf.old buf.new p result }
{
    let v = bits::twos(z);
    let high = field(HALF_BITS, v >> HALF_BITS);
    let low = field(HALF_BITS, v % (1 << HALF_BITS));
    put_both(buf, p, high, low)
}
