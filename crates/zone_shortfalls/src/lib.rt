// A zone's shortfalls in an interval, each at its need.
#![tactic(auto)]

ghost use Rattle.std.specs.Prelude.{◌≡◌, ◌-◌, ◌*◌, ◌<◌, ◌≤◌, length};
ghost use Rattle.records.specs.Views.{most_devices, most_zones, most_power};
ghost use Rattle.zone_shortfalls.specs.Needs.{Thousandths, required_of, needs_of, zone_needs};
ghost use Rattle.zone_totals.specs.Sums.{sums_to, SumsOf, Zoned};

use energy::Watts;
use kilowatts::Kw;
use row_places::{DeviceRow, Minima, SettingRow, Zone};
use zone_totals::{ZoneSums, zone_sums};

// What a zone requires against its load and its largest unit: rgu; rgd; scr, which includes rgu; nsc, which includes both.
fn required(zone: Zone, load: Kw, unit: Kw) -> [Watts; 4]
    requires { Thousandths zone × (load.0 ≤ most_devices * most_power) × (unit.0 ≤ most_power) }
    ensures { result ≡ required_of zone load.0 unit.0 }
{
    let up = load.share(zone.rgu);
    let down = load.share(zone.rgd);
    let spinning = up.plus(unit.share(zone.scr));
    let standing = spinning.plus(unit.share(zone.nsc));
    [up, down, spinning, standing]
}

// What is required above what is held.
fn short_of(required: Watts, held: Kw) -> Watts
    ensures { result.0 ≡ required.0 - 1000 * held.0 }
{
    required.less(held.in_watts())
}

// The six needs: "rgu+scr required − 1000·(rgu+scr); rgu+scr+nsc likewise".
fn zone_needs(required: [Watts; 4], s: ZoneSums, least: Minima) -> [Watts; 6]
    requires { SumsOf most_devices s }
    ensures { result ≡ needs_of required s least }
{
    let spinning = s.rgu.plus(s.scr);
    let standing = spinning.plus(s.nsc);
    [
        short_of(required[0], s.rgu),
        short_of(required[1], s.rgd),
        short_of(required[2], spinning),
        short_of(required[3], standing),
        short_of(least.rru.in_watts(), s.rru),
        short_of(least.rrd.in_watts(), s.rrd),
    ]
}

// The shortfalls of zone z in interval t of m, each at its need, in the order of their prices.
pub fn shortfalls(
    zone: Zone,
    least: Minima,
    devices: &[DeviceRow],
    settings: &[SettingRow],
    powers: &[u32],
    m: usize,
    t: usize,
    z: usize,
) -> [Watts; 6]
    requires { Thousandths zone × Zoned (length devices.now) m t settings.now powers.now × (z < most_zones) }
    ensures { result ≡ zone_needs zone least (sums_to devices.now settings.now powers.now m t z (length devices.now)) }
{
    let s = zone_sums(devices, settings, powers, m, t, z);
    let needed = required(zone, s.load, s.unit);
    zone_needs(needed, s, least)
}
