// What the rules of one device in one interval read: the bounds of the device, what the clock and the other intervals say.
#![tactic(auto)]

ghost use Rattle.std.specs.Prelude.{◌≡◌, ◌+◌, ◌-◌, ◌^◌, ◌<◌, ◌≤◌};
ghost use Rattle.cell_bounds.specs.Tests.{limits_of, bounds_of, of_block, sum_of};
ghost use Rattle.cell_bounds.specs.Word.{bit_unless};

use kilowatts::Kw;
use row_places::{Device, Reserves};

// What the rules of a device's intervals read of it; the ramps are in kW/min.
#[derive(Clone, Copy)]
pub struct Bounds {
    pub side: u32,
    pub on0: u32,
    pub minutes0: u32,
    pub minup: u32,
    pub mindown: u32,
    pub up: u32,
    pub down: u32,
    pub starting: u32,
    pub stopping: u32,
    pub limits: Reserves,
}

// The limits of a device, by the names of the eight.
fn limits_of(l: [Kw; 8]) -> Reserves
    ensures { result ≡ limits_of l }
{
    Reserves {
        rgu: l[0],
        rgd: l[1],
        scr: l[2],
        nsc: l[3],
        rruon: l[4],
        rruoff: l[5],
        rrdon: l[6],
        rrdoff: l[7],
    }
}

pub fn bounds_of(d: Device) -> Bounds
    ensures { result ≡ bounds_of d }
{
    let l = d.limits;
    let limits = limits_of(l);
    Bounds {
        side: d.side,
        on0: d.on0,
        minutes0: d.minutes0,
        minup: d.minup,
        mindown: d.mindown,
        up: d.ramps[0],
        down: d.ramps[1],
        starting: d.ramps[2],
        stopping: d.ramps[3],
        limits,
    }
}

// What the clock and the other intervals say of a device in one interval: su; whether rules 3 and 4 hold; S and d; p and previous p.
#[derive(Clone, Copy)]
pub struct Moment {
    pub started: u32,
    pub rested: bool,
    pub ran: bool,
    pub start: u32,
    pub minutes: u32,
    pub power: Kw,
    pub previous: Kw,
}

// The sum of the blocks' caps, or of their floors.
pub fn sum_of(powers: [Kw; 4]) -> Kw
    requires { (of_block powers 0 ≤ 100000) × (of_block powers 1 ≤ 100000) × (of_block powers 2 ≤ 100000) × (of_block powers 3 ≤ 100000) }
    ensures { (result.0 ≡ sum_of powers) × (result.0 ≤ 400000) }
{
    let [a, b, c, d] = powers;
    Kw(a.0 + b.0 + c.0 + d.0)
}

// The bit of a rule, where it is broken.
pub fn bit_unless(kept: bool, rule: u32) -> u32
    requires { rule < 32 }
    ensures { (result ≡ bit_unless kept rule) × (result ≤ 2 ^ rule) }
{
    if kept { 0 } else { 1 << rule }
}
