// A completion's reactive shortfalls and mismatches, written through a pen: nothing in an edition that lacks them.
#![tactic(auto)]

ghost use Rattle.std.specs.Prelude.{◌^◌, ◌<◌};
ghost use Rattle.layouts.specs.Since.{since};
ghost use Rattle.model.specs.Case.{no_reactive_reserves};
ghost use Rattle.model.specs.Messages.{no_bars};
ghost use Rattle.model.specs.ByEdition.{reactive_choice, bars_choice};
ghost use Rattle.pen.specs.Pens.{Ready, Pushes};
ghost use Rattle.pen.specs.Runs.{Room};
ghost use Rattle.completion_size.specs.Size.{two_width, reactive_bars_width};
ghost use Rattle.completion_writer.specs.Bars.{bars_of};
ghost use Rattle.reactive_writer.specs.Reactive.{two_of};

use completion_size::{REACTIVE_EDITION, SHORTFALL_BITS};
use completion_writer::put_bars;
use kilovars::{Kvar, Var};
use pen::{Pen, push};

// A zone's two reactive shortfalls in an interval: "after the zone's six", "up before down".
pub fn put_reactive_shortfalls(buf: &mut [u8], p: Pen, edition: u32, qru: Var, qrd: Var) -> Pen
    requires { Ready p × Room buf.old p (two_width edition) × (qru.0 < 2 ^ 33) × (qrd.0 < 2 ^ 33) }
    ensures { Pushes (two_width edition) ((since edition 2 no_reactive_reserves reactive_choice).write (two_of qru qrd)) buf.old buf.new p result }
{
    if edition < REACTIVE_EDITION {
        return p;
    }
    let p = push(buf, p, SHORTFALL_BITS, qru.0);
    push(buf, p, SHORTFALL_BITS, qrd.0)
}

// An interval's reactive mismatches: after the real ones.
pub fn put_reactive_mismatches(
    buf: &mut [u8],
    p: Pen,
    edition: u32,
    first: Kvar,
    second: Kvar,
) -> Pen
    requires { Ready p × Room buf.old p (reactive_bars_width edition) × (first.0 < 2 ^ 23) × (second.0 < 2 ^ 23) }
    ensures { Pushes (reactive_bars_width edition) ((since edition 2 no_bars (bars_choice edition)).write (bars_of first.0 second.0)) buf.old buf.new p result }
{
    if edition < REACTIVE_EDITION {
        return p;
    }
    put_bars(buf, p, edition, first.0 as u64, second.0 as u64)
}
