// An interval's mismatches, one for each bar, at their needs.
#![tactic(auto)]

ghost use Rattle.std.specs.Prelude.{◌≡◌, ◌+◌, ◌-◌, ◌<◌, ◌^◌, length};
ghost use Rattle.row_places.specs.Figures.{flow_at};
ghost use Rattle.mismatches.specs.Sides.{Powered, Linked, BarsSo, with_side, bars_to, apart_of, mismatches_of};

use device_rows::{bar_at, side_at};
use kilowatts::{Kw, NO_KW};
use row_places::{DeviceRow, SettingRow};
use setting_rows::flow_at;

// The powers of a bar's consuming and producing devices.
#[derive(Clone, Copy)]
pub struct Sides {
    pub consuming: Kw,
    pub producing: Kw,
}

// Those of bar 0, and of bar 1.
#[derive(Clone, Copy)]
pub struct BarSides {
    pub first: Sides,
    pub second: Sides,
}

// The mismatch of bar 0, and of bar 1.
#[derive(Clone, Copy)]
pub struct BarMismatches {
    pub first: Kw,
    pub second: Kw,
}

// A power more on a side.
fn with_side(s: Sides, side: u32, p: Kw) -> Sides
    requires { s.consuming.0 + s.producing.0 + p.0 < 2 ^ 32 }
    ensures { result ≡ with_side s side p.0 }
{
    if side == 1 {
        Sides {
            consuming: s.consuming.plus(p),
            ..s
        }
    } else {
        Sides {
            producing: s.producing.plus(p),
            ..s
        }
    }
}

// The powers by bar and side in interval t of m.
fn bar_sides(devices: &[DeviceRow], powers: &[u32], m: usize, t: usize) -> BarSides
    requires { Powered (length devices.now) m t powers.now }
    ensures { BarsSo devices.now powers.now m t (length devices.now) result }
{
    let none = Sides {
        consuming: Kw(0),
        producing: Kw(0),
    };
    let mut s = BarSides {
        first: none,
        second: none,
    };
    for i in 0..devices.len() {
        let p = Kw(powers[i * m + t]);
        let side = side_at(devices, i);
        if bar_at(devices, i) == 0 {
            s.first = with_side(s.first, side, p);
        } else {
            s.second = with_side(s.second, side, p);
        }
    }
    s
}

// How far a bar's load is from its production, with what the link adds to each.
fn apart_with(s: Sides, load: Kw, production: Kw) -> Kw
    requires { s.consuming.0 + s.producing.0 + load.0 + production.0 < 2 ^ 32 }
    ensures { result.0 ≡ apart_of (s.consuming.0 + load.0) (s.producing.0 + production.0) }
{
    let consuming = s.consuming.plus(load);
    let producing = s.producing.plus(production);
    consuming.apart(producing)
}

// "Mismatch ≥ |consuming − producing p|" of each bar, at its need, in interval t of m: "Flow counts as load on bar 0 and as production on bar 1". The flow is
// added as it is kept, and what it is kept from stands on the other side.
pub fn mismatches(
    devices: &[DeviceRow],
    settings: &[SettingRow],
    powers: &[u32],
    m: usize,
    t: usize,
) -> BarMismatches
    requires { Powered (length devices.now) m t powers.now × Linked t settings.now }
    ensures { result ≡ mismatches_of (bars_to devices.now powers.now m t (length devices.now)) (flow_at settings.now t) }
{
    let s = bar_sides(devices, powers, m, t);
    let flow = flow_at(settings, t);
    let kept = Kw(flow.0);
    let offset = Kw(NO_KW.0);
    let first = apart_with(s.first, kept, offset);
    let second = apart_with(s.second, offset, kept);
    BarMismatches { first, second }
}
