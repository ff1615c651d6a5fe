// Rules 1 to 19 of one device in one interval, from its records: the word of those that fail.
#![tactic(auto)]

ghost use Rattle.std.specs.Prelude.{◌≡◌, ◌+◌, ◌-◌, ◌^◌, ◌<◌};
ghost use Rattle.cell_bounds.specs.Word.{failing_word};
ghost use Rattle.cell_bounds.specs.Tests.{Sized, Small, state_tests, ramp_tests, on_tests, off_tests, power_tests, tests};

use cell_bounds::{Bounds, Moment, bit_unless};
use cell_tests::{
    at_most, blocks_kept, fall_kept, floor_kept, initial_kept, none_held, rise_kept, roof_kept,
    status_kept,
};
use kilowatts::Kw;
use row_places::{Cell, Setting};

// Rules 1 to 4.
fn state_rules(d: Bounds, c: Cell, s: Setting, w: Moment) -> u32
    requires { Sized c s w × Small d }
    ensures { (result ≡ failing_word (state_tests d c s w)) × (result < 2 ^ 20) }
{
    let fixed = status_kept(c.status, s.on);
    let held = initial_kept(d, w.start, s.on);
    bit_unless(fixed, 1) + bit_unless(held, 2) + bit_unless(w.rested, 3) + bit_unless(w.ran, 4)
}

// Rules 5 and 6.
fn ramp_rules(d: Bounds, c: Cell, s: Setting, w: Moment) -> u32
    requires { Sized c s w × Small d }
    ensures { (result ≡ failing_word (ramp_tests d c s w)) × (result < 2 ^ 20) }
{
    let rise = rise_kept(
        w.power, w.previous, w.minutes, d.up, d.starting, s.on, w.started,
    );
    let fall = fall_kept(w.power, w.previous, w.minutes, d.down, d.stopping, s.on);
    bit_unless(rise, 5) + bit_unless(fall, 6)
}

// Rules 7 to 11.
fn on_rules(d: Bounds, c: Cell, s: Setting, w: Moment) -> u32
    requires { Sized c s w }
    ensures { (result ≡ failing_word (on_tests d c s w)) × (result < 2 ^ 20) }
{
    let e = s.reserves;
    let two = e.rgu.0 + e.scr.0;
    let ups = two + e.rruon.0;
    let downs = e.rgd.0 + e.rrdon.0;
    bit_unless(at_most(e.rgu, d.limits.rgu, s.on), 7)
        + bit_unless(at_most(e.rgd, d.limits.rgd, s.on), 8)
        + bit_unless(at_most(Kw(two), d.limits.scr, s.on), 9)
        + bit_unless(at_most(Kw(ups), d.limits.rruon, s.on), 10)
        + bit_unless(at_most(Kw(downs), d.limits.rrdon, s.on), 11)
}

// Rules 12 to 15.
fn off_rules(d: Bounds, c: Cell, s: Setting, w: Moment) -> u32
    requires { Sized c s w }
    ensures { (result ≡ failing_word (off_tests d c s w)) × (result < 2 ^ 20) }
{
    let e = s.reserves;
    let off = 1 - s.on;
    let ups = Kw(e.nsc.0 + e.rruoff.0);
    bit_unless(at_most(e.nsc, d.limits.nsc, off), 12)
        + bit_unless(at_most(ups, d.limits.rruoff, off), 13)
        + bit_unless(at_most(e.rrdoff, d.limits.rrdoff, off), 14)
        + bit_unless(none_held(d.side, ups, e.rrdoff), 15)
}

// Rules 16 to 19.
fn power_rules(d: Bounds, c: Cell, s: Setting, w: Moment) -> u32
    requires { Sized c s w }
    ensures { (result ≡ failing_word (power_tests d c s w)) × (result < 2 ^ 20) }
{
    let e = s.reserves;
    let ups = Kw(e.rgu.0 + e.scr.0 + e.rruon.0);
    let downs = Kw(e.rgd.0 + e.rrdon.0);
    let standing = Kw(e.nsc.0 + e.rruoff.0);
    let forced = w.power.less(s.online);
    let roof = roof_kept(d.side, downs, ups, s.online, c.pmax, s.on);
    let floor = floor_kept(d.side, ups, downs, c.pmin, s.on, s.online);
    let lid = roof_kept(d.side, e.rrdoff, standing, forced, c.pmax, 1 - s.on);
    let caps = c.caps;
    let floors = c.floors;
    let carried = blocks_kept(w.power, floors, caps, s.on);
    bit_unless(roof, 16) + bit_unless(floor, 17) + bit_unless(lid, 18) + bit_unless(carried, 19)
}

// The rules of one device in one interval that fail: bit n for rule n.
pub fn failing_rules(d: Bounds, c: Cell, s: Setting, w: Moment) -> u32
    requires { Sized c s w × Small d }
    ensures { result ≡ failing_word (tests d c s w) }
{
    state_rules(d, c, s, w)
        + ramp_rules(d, c, s, w)
        + on_rules(d, c, s, w)
        + off_rules(d, c, s, w)
        + power_rules(d, c, s, w)
}
