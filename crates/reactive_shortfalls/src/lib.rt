// A zone's two reactive shortfalls in an interval, each at its need.
#![tactic(auto)]

ghost use Rattle.std.specs.Prelude.{◌≡◌, ◌-◌, ◌*◌, ◌<◌, length};
ghost use Rattle.records.specs.Views.{most_zones};
ghost use Rattle.reactive_mismatches.specs.Settled.{Settled};
ghost use Rattle.reactive_shortfalls.specs.Held.{HeldSo, held_to, short_of};

use device_rows::zonebits_at;
use kilovars::{Kvar, Var};
use row_places::{DeviceRow, Minima, SettingRow};
use setting_rows::reactive_at;
use zone_totals::in_zone;

// What a zone's members hold of the two reactive reserves.
#[derive(Clone, Copy)]
pub struct ReactiveHeld {
    pub qru: Kvar,
    pub qrd: Kvar,
}

// What the members of zone z hold in interval t of m.
fn reactive_held(
    devices: &[DeviceRow],
    settings: &[SettingRow],
    m: usize,
    t: usize,
    z: usize,
) -> ReactiveHeld
    requires { Settled (length devices.now) m t settings.now × (z < most_zones) }
    ensures { HeldSo devices.now settings.now m t z (length devices.now) result }
{
    let mut qru = Kvar(0);
    let mut qrd = Kvar(0);
    for i in 0..devices.len() {
        if in_zone(zonebits_at(devices, i), z) {
            let x = reactive_at(settings, i * m + t);
            qru = qru.plus(x.qru);
            qrd = qrd.plus(x.qrd);
        }
    }
    ReactiveHeld { qru, qrd }
}

// A zone's two reactive shortfalls.
#[derive(Clone, Copy)]
pub struct ReactiveShortfalls {
    pub qru: Var,
    pub qrd: Var,
}

// What is required above what is held.
fn short_of(least: Kvar, held: Kvar) -> Var
    ensures { result.0 ≡ 1000 * least.0 - 1000 * held.0 }
{
    least.in_var().less(held.in_var())
}

// The two reactive shortfalls of zone z in interval t of m, each at its need: none where nothing is required.
pub fn reactive_shortfalls(
    least: Minima,
    devices: &[DeviceRow],
    settings: &[SettingRow],
    m: usize,
    t: usize,
    z: usize,
) -> ReactiveShortfalls
    requires { Settled (length devices.now) m t settings.now × (z < most_zones) }
    ensures { result ≡ short_of least (held_to devices.now settings.now m t z (length devices.now)) }
{
    let up = least.qru;
    let down = least.qrd;
    if up.0 == 0 && down.0 == 0 {
        return ReactiveShortfalls {
            qru: Var(0),
            qrd: Var(0),
        };
    }
    let held = reactive_held(devices, settings, m, t, z);
    let qru = short_of(up, held.qru);
    let qrd = short_of(down, held.qrd);
    ReactiveShortfalls { qru, qrd }
}
