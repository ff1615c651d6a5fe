// Whether no rule of one device in one interval fails, in one go and by whether it is on.
#![tactic(auto)]

ghost use Rattle.std.specs.Prelude.{◌≡◌, true, ◌↔◌, [], ◌+◌, ◌≤◌};
ghost use Rattle.model.specs.Breaches.{failing};
ghost use Rattle.cell_bounds.specs.Tests.{Sized, Small, state_tests, ramp_tests, on_tests, off_tests, power_tests, tests, ups, downs, off_ups};
ghost use Rattle.cell_held.specs.Held.{OnLimits, OffLimits};

use cell_bounds::{Bounds, Moment};
use cell_tests::{
    by_side, fall_kept, floors_kept, initial_kept, rise_kept, room_kept, status_kept,
};
use kilowatts::Kw;
use row_places::{Cell, Setting};

// Rules 1 to 4.
pub fn state_held(d: Bounds, c: Cell, s: Setting, w: Moment) -> bool
    requires { Sized c s w × Small d }
    ensures { (result ≡ true) ↔ (failing (state_tests d c s w) ≡ []) }
{
    if !status_kept(c.status, s.on) {
        return false;
    }
    if !initial_kept(d, w.start, s.on) {
        return false;
    }
    if !w.rested {
        return false;
    }
    w.ran
}

// Rules 5 and 6.
pub fn ramps_held(d: Bounds, c: Cell, s: Setting, w: Moment) -> bool
    requires { Sized c s w × Small d }
    ensures { (result ≡ true) ↔ (failing (ramp_tests d c s w) ≡ []) }
{
    if !rise_kept(
        w.power, w.previous, w.minutes, d.up, d.starting, s.on, w.started,
    ) {
        return false;
    }
    fall_kept(w.power, w.previous, w.minutes, d.down, d.stopping, s.on)
}

// Rules 7 to 15 of a device that is on.
fn on_limits_held(d: Bounds, c: Cell, s: Setting, w: Moment) -> bool
    requires { Sized c s w × (s.on ≡ 1) }
    ensures { (result ≡ true) ↔ OnLimits d c s w }
{
    let e = s.reserves;
    let two = e.rgu.0 + e.scr.0;
    let ups = two + e.rruon.0;
    let downs = e.rgd.0 + e.rrdon.0;
    if 0 < e.nsc.0 + e.rruoff.0 + e.rrdoff.0 {
        return false;
    }
    if !e.rgu.at_most(d.limits.rgu) {
        return false;
    }
    if !e.rgd.at_most(d.limits.rgd) {
        return false;
    }
    if !Kw(two).at_most(d.limits.scr) {
        return false;
    }
    if !Kw(ups).at_most(d.limits.rruon) {
        return false;
    }
    Kw(downs).at_most(d.limits.rrdon)
}

// The same of a device that is off.
fn off_limits_held(d: Bounds, c: Cell, s: Setting, w: Moment) -> bool
    requires { Sized c s w × (s.on ≡ 0) }
    ensures { (result ≡ true) ↔ OffLimits d c s w }
{
    let e = s.reserves;
    let ups = e.rgu.0 + e.scr.0 + e.rruon.0;
    let downs = e.rgd.0 + e.rrdon.0;
    let standing = Kw(e.nsc.0 + e.rruoff.0);
    let forbidden = by_side(d.side, standing, e.rrdoff);
    if 0 < ups + downs + forbidden.0 {
        return false;
    }
    if !e.nsc.at_most(d.limits.nsc) {
        return false;
    }
    if !standing.at_most(d.limits.rruoff) {
        return false;
    }
    e.rrdoff.at_most(d.limits.rrdoff)
}

// Rules 16 to 19 of a device that is on and holds no reserves of the other state.
fn on_powers_held(d: Bounds, c: Cell, s: Setting, w: Moment) -> bool
    requires { Sized c s w × (s.on ≡ 1) × (off_ups s + s.reserves.rrdoff.0 ≤ 0) }
    ensures { (result ≡ true) ↔ (failing (power_tests d c s w) ≡ []) }
{
    let e = s.reserves;
    let ups = Kw(e.rgu.0 + e.scr.0 + e.rruon.0);
    let downs = Kw(e.rgd.0 + e.rrdon.0);
    let raising = by_side(d.side, downs, ups);
    let lowering = by_side(d.side, ups, downs);
    let roof = s.online.0 + raising.0;
    let floor = c.pmin.0 + lowering.0;
    if c.pmax.0 < roof {
        return false;
    }
    if s.online.0 < floor {
        return false;
    }
    if s.online.0 < w.power.0 {
        return false;
    }
    let floors = c.floors;
    if !floors_kept(w.power, floors) {
        return false;
    }
    let caps = c.caps;
    room_kept(w.power, caps)
}

// The same of a device that is off, where floors don't bind.
fn off_powers_held(d: Bounds, c: Cell, s: Setting, w: Moment) -> bool
    requires { Sized c s w × (s.on ≡ 0) × (ups s + downs s ≤ 0) }
    ensures { (result ≡ true) ↔ (failing (power_tests d c s w) ≡ []) }
{
    let e = s.reserves;
    let standing = Kw(e.nsc.0 + e.rruoff.0);
    let offline = by_side(d.side, e.rrdoff, standing);
    let roof = w.power.0 + offline.0;
    if 0 < s.online.0 {
        return false;
    }
    if c.pmax.0 < roof {
        return false;
    }
    let caps = c.caps;
    room_kept(w.power, caps)
}

// Rules 7 to 19, by whether the device is on.
pub fn amounts_held(d: Bounds, c: Cell, s: Setting, w: Moment) -> bool
    requires { Sized c s w }
    ensures { (result ≡ true) ↔ ((failing (on_tests d c s w) ≡ []) × (failing (off_tests d c s w) ≡ []) × (failing (power_tests d c s w) ≡ [])) }
{
    if s.on == 1 {
        if !on_limits_held(d, c, s, w) {
            return false;
        }
        return on_powers_held(d, c, s, w);
    }
    if !off_limits_held(d, c, s, w) {
        return false;
    }
    off_powers_held(d, c, s, w)
}

// Rules 1 to 19.
pub fn held(d: Bounds, c: Cell, s: Setting, w: Moment) -> bool
    requires { Sized c s w × Small d }
    ensures { (result ≡ true) ↔ (failing (tests d c s w) ≡ []) }
{
    if !state_held(d, c, s, w) {
        return false;
    }
    if !ramps_held(d, c, s, w) {
        return false;
    }
    amounts_held(d, c, s, w)
}
