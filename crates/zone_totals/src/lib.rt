// What a zone's members draw and hold in an interval.
#![tactic(auto)]

ghost use Rattle.std.specs.Prelude.{◌≡◌, ◌+◌, ◌-◌, ◌<◌, ◌≤◌, length};
ghost use Rattle.ranges.specs.Ranges.{Eight};
ghost use Rattle.row_places.specs.Figures.{in_zone};
ghost use Rattle.records.specs.Views.{most_devices, most_zones, most_power, eight_in};
ghost use Rattle.zone_totals.specs.Sums.{SumsOf, with_member, Stood, DeviceAdded, Zoned, SumsSo};

use device_rows::{side_at, zonebits_at};
use kilowatts::Kw;
use row_places::{DeviceRow, Reserves, SettingRow};
use setting_rows::setting_at;

// Over a zone's members: the consuming power, the largest producing power, and what each kind of reserve holds; rru and rrd are on and off.
#[derive(Clone, Copy)]
pub struct ZoneSums {
    pub load: Kw,
    pub unit: Kw,
    pub rgu: Kw,
    pub rgd: Kw,
    pub scr: Kw,
    pub nsc: Kw,
    pub rru: Kw,
    pub rrd: Kw,
}

// One member more.
fn with_member(s: ZoneSums, side: u32, p: Kw, r: Reserves) -> ZoneSums
    requires { SumsOf most_devices s × (p.0 ≤ most_power) × Eight (λ x. x ≤ 100000) (eight_in r) }
    ensures { result ≡ with_member s side p.0 r }
{
    let rgu = s.rgu.plus(r.rgu);
    let rgd = s.rgd.plus(r.rgd);
    let scr = s.scr.plus(r.scr);
    let nsc = s.nsc.plus(r.nsc);
    let rru = s.rru.plus(r.rruon.plus(r.rruoff));
    let rrd = s.rrd.plus(r.rrdon.plus(r.rrdoff));
    let mut load = s.load;
    let mut unit = s.unit;
    if side == 1 {
        load = load.plus(p);
    } else {
        unit = unit.most(p);
    }
    ZoneSums {
        load,
        unit,
        rgu,
        rgd,
        scr,
        nsc,
        rru,
        rrd,
    }
}

// "zone bits 4, zone 1 first"
pub fn in_zone(zonebits: u32, z: usize) -> bool
    requires { z < most_zones }
    ensures { result ≡ in_zone zonebits z }
{
    (zonebits >> (3 - z)) % 2 == 1
}

// One device more, where it is a member; its setting and its power stand at place k.
fn with_device(
    s: ZoneSums,
    devices: &[DeviceRow],
    settings: &[SettingRow],
    powers: &[u32],
    i: usize,
    k: usize,
    z: usize,
) -> ZoneSums
    requires { (z < most_zones) × SumsOf most_devices s × (i < length devices.now) × Stood settings.now powers.now k }
    ensures { DeviceAdded s devices.now settings.now powers.now i k z result }
{
    if !in_zone(zonebits_at(devices, i), z) {
        return s;
    }
    let held = setting_at(settings, k);
    with_member(s, side_at(devices, i), Kw(powers[k]), held.reserves)
}

// The sums over the members of zone z in interval t of m.
pub fn zone_sums(
    devices: &[DeviceRow],
    settings: &[SettingRow],
    powers: &[u32],
    m: usize,
    t: usize,
    z: usize,
) -> ZoneSums
    requires { Zoned (length devices.now) m t settings.now powers.now × (z < most_zones) }
    ensures { SumsSo devices.now settings.now powers.now m t z (length devices.now) result }
{
    let mut s = ZoneSums {
        load: Kw(0),
        unit: Kw(0),
        rgu: Kw(0),
        rgd: Kw(0),
        scr: Kw(0),
        nsc: Kw(0),
        rru: Kw(0),
        rrd: Kw(0),
    };
    for i in 0..devices.len() {
        s = with_device(s, devices, settings, powers, i, i * m + t, z);
    }
    s
}
