// Rules 1 to 19 of one device in one interval, one by one, from single figures.
#![tactic(auto)]

ghost use Rattle.std.specs.Prelude.{◌≡◌, ◌&&◌, ◌+◌, ◌-◌, ◌*◌, ◌<◌, ◌≤◌, leb, eqb, ltb, pos, ◌-ℤ◌};
ghost use Rattle.std.specs.Int.Signed.{le_z};
ghost use Rattle.bits.specs.Pick.{pick};
ghost use Rattle.numbers.specs.Base.{implies};
ghost use Rattle.records.specs.Views.{most_power, last_minute};
ghost use Rattle.cell_bounds.specs.Sign.{may_rise, may_fall};
ghost use Rattle.cell_bounds.specs.Tests.{of_block, sum_of};

use cell_bounds::{Bounds, sum_of};
use kilowatts::Kw;

// Rule 1.
pub fn status_kept(status: u32, on: u32) -> bool
    ensures { result ≡ (implies (eqb status 1) (eqb on 1) && implies (eqb status 2) (eqb on 0)) }
{
    match status {
        1 => on == 1,
        2 => on == 0,
        _ => true,
    }
}

// The minimum of the initial state.
fn initial_minimum(on0: u32, minup: u32, mindown: u32) -> u32
    ensures { result ≡ pick (eqb on0 1) minup mindown }
{
    if on0 == 1 { minup } else { mindown }
}

// Rule 2: the state for so many minutes, of at least so many.
fn state_kept(so: u32, least: u32, on: u32, on0: u32) -> bool
    ensures { result ≡ implies (ltb so least) (eqb on on0) }
{
    if so < least { on == on0 } else { true }
}

pub fn initial_kept(d: Bounds, start: u32, on: u32) -> bool
    requires { (start ≤ last_minute) × (d.minutes0 ≤ 60000) }
    ensures { result ≡ implies (ltb (start + d.minutes0) (pick (eqb d.on0 1) d.minup d.mindown)) (eqb on d.on0) }
{
    let least = initial_minimum(d.on0, d.minup, d.mindown);
    state_kept(start + d.minutes0, least, on, d.on0)
}

// Rule 5.
pub fn rise_kept(
    power: Kw,
    previous: Kw,
    minutes: u32,
    up: u32,
    starting: u32,
    on: u32,
    started: u32,
) -> bool
    requires { (previous.0 ≤ most_power) × (minutes ≤ 360) × (up ≤ 100000) × (starting ≤ 100000) × (on ≤ 1) × (started ≤ on) }
    ensures { result ≡ le_z (pos power.0 -ℤ pos previous.0) (may_rise minutes up starting on started) }
{
    if on == 0 {
        power.0 <= previous.0 + minutes * starting
    } else if started == 0 {
        power.0 <= previous.0 + minutes * up
    } else {
        power.0 <= previous.0 + minutes * starting
    }
}

// Rule 6.
pub fn fall_kept(power: Kw, previous: Kw, minutes: u32, down: u32, stopping: u32, on: u32) -> bool
    requires { (power.0 ≤ most_power) × (minutes ≤ 360) × (down ≤ 100000) × (stopping ≤ 100000) × (on ≤ 1) }
    ensures { result ≡ le_z (pos previous.0 -ℤ pos power.0) (may_fall minutes down stopping on) }
{
    if on == 0 {
        previous.0 <= power.0 + minutes * stopping
    } else {
        previous.0 <= power.0 + minutes * down
    }
}

// Rules 7 to 14: at most a limit while on (or off).
pub fn at_most(x: Kw, limit: Kw, on: u32) -> bool
    requires { on ≤ 1 }
    ensures { result ≡ leb x.0 (limit.0 * on) }
{
    if on == 0 { x.0 == 0 } else { x.0 <= limit.0 }
}

// The one for a consuming device, the other for a producing one.
pub fn by_side(side: u32, consuming: Kw, producing: Kw) -> Kw
    requires { (consuming.0 ≤ 300000) × (producing.0 ≤ 300000) }
    ensures { (result.0 ≡ pick (eqb side 1) consuming.0 producing.0) × (result.0 ≤ 300000) }
{
    if side == 1 { consuming } else { producing }
}

// Rule 15.
pub fn none_held(side: u32, consuming: Kw, producing: Kw) -> bool
    requires { (consuming.0 ≤ 300000) × (producing.0 ≤ 300000) }
    ensures { result ≡ eqb (pick (eqb side 1) consuming.0 producing.0) 0 }
{
    let held = by_side(side, consuming, producing);
    held.0 == 0
}

// Rules 16 and 18: a power and the side's reserves, at most pmax while on (or off).
pub fn roof_kept(side: u32, consuming: Kw, producing: Kw, power: Kw, pmax: Kw, on: u32) -> bool
    requires { (consuming.0 ≤ 300000) × (producing.0 ≤ 300000) × (power.0 ≤ most_power) × (on ≤ 1) }
    ensures { result ≡ leb (power.0 + pick (eqb side 1) consuming.0 producing.0) (pmax.0 * on) }
{
    let held = by_side(side, consuming, producing);
    at_most(Kw(power.0 + held.0), pmax, on)
}

// Rule 17: the online power less the lowering reserves, at least pmin while on.
fn above_floor(pmin: Kw, on: u32, online: Kw, low: Kw) -> bool
    requires { (on ≤ 1) × (pmin.0 ≤ 100000) × (low.0 ≤ 300000) }
    ensures { result ≡ le_z (pos (pmin.0 * on)) (pos online.0 -ℤ pos low.0) }
{
    if on == 0 {
        low.0 <= online.0
    } else {
        pmin.0 + low.0 <= online.0
    }
}

pub fn floor_kept(side: u32, consuming: Kw, producing: Kw, pmin: Kw, on: u32, online: Kw) -> bool
    requires { (consuming.0 ≤ 300000) × (producing.0 ≤ 300000) × (on ≤ 1) × (pmin.0 ≤ 100000) }
    ensures { result ≡ le_z (pos (pmin.0 * on)) (pos online.0 -ℤ pos (pick (eqb side 1) consuming.0 producing.0)) }
{
    let low = by_side(side, consuming, producing);
    above_floor(pmin, on, online, low)
}

// Rule 19's upper bound.
pub fn room_kept(power: Kw, caps: [Kw; 4]) -> bool
    requires { (of_block caps 0 ≤ 100000) × (of_block caps 1 ≤ 100000) × (of_block caps 2 ≤ 100000) × (of_block caps 3 ≤ 100000) }
    ensures { result ≡ leb power.0 (sum_of caps) }
{
    let room = sum_of(caps);
    power.0 <= room.0
}

// Rule 19's lower bound, while on.
pub fn floors_kept(power: Kw, floors: [Kw; 4]) -> bool
    requires { (of_block floors 0 ≤ 100000) × (of_block floors 1 ≤ 100000) × (of_block floors 2 ≤ 100000) × (of_block floors 3 ≤ 100000) }
    ensures { result ≡ leb (sum_of floors) power.0 }
{
    let least = sum_of(floors);
    least.0 <= power.0
}

// Rule 19: while off the floors don't bind.
pub fn blocks_kept(power: Kw, floors: [Kw; 4], caps: [Kw; 4], on: u32) -> bool
    requires floors_bound { (of_block floors 0 ≤ 100000) × (of_block floors 1 ≤ 100000) × (of_block floors 2 ≤ 100000) × (of_block floors 3 ≤ 100000) × (on ≤ 1) }
    requires caps_bound { (of_block caps 0 ≤ 100000) × (of_block caps 1 ≤ 100000) × (of_block caps 2 ≤ 100000) × (of_block caps 3 ≤ 100000) }
    ensures { result ≡ (leb (on * sum_of floors) power.0 && leb power.0 (sum_of caps)) }
{
    if on == 0 {
        return room_kept(power, caps);
    }
    if !floors_kept(power, floors) {
        return false;
    }
    room_kept(power, caps)
}
