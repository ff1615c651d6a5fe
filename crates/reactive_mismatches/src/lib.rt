// The reactive mismatches of an interval, one for each bar, each at its need.
#![tactic(auto)]

ghost use Rattle.std.specs.Prelude.{◌≡◌, true, ◌+◌, ◌<◌, ◌^◌, length};
ghost use Rattle.kilovars.specs.Reactive.{kvar_offset};
ghost use Rattle.reactive_mismatches.specs.Settled.{Settled};
ghost use Rattle.reactive_mismatches.specs.Sides.{BarsSo, with_side, bars_to, mismatches_of, NoneTo};

use device_rows::{bar_at, side_at};
use kilovars::{Kvar, NO_KVAR, SignedKvar};
use row_places::{DeviceRow, SettingRow};
use setting_rows::reactive_at;

// Two sums that are as far apart as the q of a bar's consuming and producing devices: a device's q, as it is kept, on its side, and what it is kept from
// on the other.
#[derive(Clone, Copy)]
pub struct ReactiveSides {
    pub consuming: Kvar,
    pub producing: Kvar,
}

// Those of bar 0, and of bar 1.
#[derive(Clone, Copy)]
pub struct ReactiveBarSides {
    pub first: ReactiveSides,
    pub second: ReactiveSides,
}

// The reactive mismatch of bar 0, and of bar 1.
#[derive(Clone, Copy)]
pub struct ReactiveMismatches {
    pub first: Kvar,
    pub second: Kvar,
}

// A device's q more.
fn with_side(s: ReactiveSides, side: u32, q: SignedKvar) -> ReactiveSides
    requires { s.consuming.0 + s.producing.0 + (q.0 + kvar_offset) < 2 ^ 32 }
    ensures { result ≡ with_side s side q.0 }
{
    let kept = Kvar(q.0);
    let offset = Kvar(NO_KVAR.0);
    if side == 1 {
        ReactiveSides {
            consuming: s.consuming.plus(kept),
            producing: s.producing.plus(offset),
        }
    } else {
        ReactiveSides {
            consuming: s.consuming.plus(offset),
            producing: s.producing.plus(kept),
        }
    }
}

// The q by bar and side in interval t of m.
fn bar_sides(devices: &[DeviceRow], settings: &[SettingRow], m: usize, t: usize) -> ReactiveBarSides
    requires { Settled (length devices.now) m t settings.now }
    ensures { BarsSo devices.now settings.now m t (length devices.now) result }
{
    let none = ReactiveSides {
        consuming: Kvar(0),
        producing: Kvar(0),
    };
    let mut s = ReactiveBarSides {
        first: none,
        second: none,
    };
    for i in 0..devices.len() {
        let x = reactive_at(settings, i * m + t);
        let side = side_at(devices, i);
        if bar_at(devices, i) == 0 {
            s.first = with_side(s.first, side, x.q);
        } else {
            s.second = with_side(s.second, side, x.q);
        }
    }
    s
}

// No device has a q in interval t of m; says nothing where one has.
fn none_reactive(devices: usize, settings: &[SettingRow], m: usize, t: usize) -> bool
    requires { Settled devices m t settings.now }
    ensures { result ≡ true → NoneTo settings.now m t devices }
{
    for i in 0..devices {
        let x = reactive_at(settings, i * m + t);
        if x.q.0 != NO_KVAR.0 {
            return false;
        }
    }
    true
}

// "A reactive mismatch": |consuming − producing q| of each bar, at its need, in interval t of m; "the link carries no reactive power".
pub fn reactive_mismatches(
    devices: &[DeviceRow],
    settings: &[SettingRow],
    m: usize,
    t: usize,
) -> ReactiveMismatches
    requires { Settled (length devices.now) m t settings.now }
    ensures { result ≡ mismatches_of (bars_to devices.now settings.now m t (length devices.now)) }
{
    if none_reactive(devices.len(), settings, m, t) {
        return ReactiveMismatches {
            first: Kvar(0),
            second: Kvar(0),
        };
    }
    let s = bar_sides(devices, settings, m, t);
    let first = s.first.consuming.apart(s.first.producing);
    let second = s.second.consuming.apart(s.second.producing);
    ReactiveMismatches { first, second }
}
