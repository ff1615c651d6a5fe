// The choices for a device in an interval, written through a pen.
#![tactic(auto)]

ghost use Rattle.std.specs.Prelude.{◌++◌, ◌+◌, ◌^◌, ◌≤◌, ◌<◌};
ghost use Rattle.layouts.specs.Layout.{bits_of};
ghost use Rattle.model.specs.ByEdition.{device_choice};
ghost use Rattle.theorems.specs.Back.{FitsDevice};
ghost use Rattle.pen.specs.Pens.{Ready, Pushes};
ghost use Rattle.pen.specs.Runs.{Room};
ghost use Rattle.field_groups.specs.Groups.{Holds};
ghost use Rattle.field_groups.specs.Fields.{choice_in};
ghost use Rattle.completion_size.specs.Size.{device_width};

use completion_size::{FLAG_BITS, POWER_BITS, STATE_BITS};
use field_groups::{Group, field, put_both};
use kilowatts::Kw;
use pen::Pen;

// "started 1, stopped 1, startup state 3 (0 none)", and the first two block powers.
fn choice_front(started: u32, stopped: u32, state: u32, first: Kw, second: Kw) -> Group
    requires { (started ≤ 1) × (stopped ≤ 1) × (state ≤ 7) × (first.0 < 2 ^ 17) × (second.0 < 2 ^ 17) }
    ensures { Holds 39 (bits_of 1 started ++ (bits_of 1 stopped ++ (bits_of 3 state ++ (bits_of 17 first.0 ++ bits_of 17 second.0)))) result }
{
    let flags = field(FLAG_BITS, started as u64).and(FLAG_BITS, stopped as u64);
    let with_state = flags.and(STATE_BITS, state as u64);
    with_state
        .and(POWER_BITS, first.0 as u64)
        .and(POWER_BITS, second.0 as u64)
}

// The last two.
fn choice_back(third: Kw, fourth: Kw) -> Group
    requires { (third.0 < 2 ^ 17) × (fourth.0 < 2 ^ 17) }
    ensures { Holds 34 (bits_of 17 third.0 ++ bits_of 17 fourth.0) result }
{
    field(POWER_BITS, third.0 as u64).and(POWER_BITS, fourth.0 as u64)
}

// What a device does in an interval: 73 bits, in two groups.
pub fn put_choice(
    buf: &mut [u8],
    p: Pen,
    started: u32,
    stopped: u32,
    state: u32,
    blocks: [Kw; 4],
) -> Pen
    requires { Ready p × Room buf.old p device_width × FitsDevice (choice_in started stopped state blocks) }
    ensures { Pushes device_width (device_choice.write (choice_in started stopped state blocks)) buf.old buf.new p result }
{
    let front = choice_front(started, stopped, state, blocks[0], blocks[1]);
    let back = choice_back(blocks[2], blocks[3]);
    put_both(buf, p, front, back)
}
