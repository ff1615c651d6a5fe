// A zone and its minima from their rows, and into them.
#![tactic(auto)]

ghost use Rattle.std.specs.Prelude.{◌≡◌, [], ◌<◌, get_or, length, set};
ghost use Rattle.row_places.specs.Figures.{zone_row, minima_row, zone_of, minima_of};

use kilovars::{Kvar, VarPrice};
use kilowatts::Kw;
use row_places::{
    MINIMA_QRD, MINIMA_QRU, MINIMA_RRD, MINIMA_RRU, Minima, MinimaRow, ZONE_NSC, ZONE_NSC_PRICE,
    ZONE_QRD_PRICE, ZONE_QRU_PRICE, ZONE_RGD, ZONE_RGD_PRICE, ZONE_RGU, ZONE_RGU_PRICE,
    ZONE_RRD_PRICE, ZONE_RRU_PRICE, ZONE_SCR, ZONE_SCR_PRICE, Zone, ZoneRow,
};

pub fn zone_at(zones: &[ZoneRow], z: usize) -> Zone
    requires { z < length zones.now }
    ensures { result ≡ zone_of (get_or zones.now z []) }
{
    let r = zones[z];
    Zone {
        rgu: r[ZONE_RGU],
        rgd: r[ZONE_RGD],
        scr: r[ZONE_SCR],
        nsc: r[ZONE_NSC],
        prices: [
            r[ZONE_RGU_PRICE],
            r[ZONE_RGD_PRICE],
            r[ZONE_SCR_PRICE],
            r[ZONE_NSC_PRICE],
            r[ZONE_RRU_PRICE],
            r[ZONE_RRD_PRICE],
        ],
        qru: VarPrice(r[ZONE_QRU_PRICE]),
        qrd: VarPrice(r[ZONE_QRD_PRICE]),
    }
}

pub fn minima_at(minima: &[MinimaRow], k: usize) -> Minima
    requires { k < length minima.now }
    ensures { result ≡ minima_of (get_or minima.now k []) }
{
    let r = minima[k];
    Minima {
        rru: Kw(r[MINIMA_RRU]),
        rrd: Kw(r[MINIMA_RRD]),
        qru: Kvar(r[MINIMA_QRU]),
        qrd: Kvar(r[MINIMA_QRD]),
    }
}

fn zone_row(z: Zone) -> ZoneRow
    ensures { result ≡ zone_row z }
{
    let prices = z.prices;
    [
        z.rgu, z.rgd, z.scr, z.nsc, prices[0], prices[1], prices[2], prices[3], prices[4],
        prices[5], z.qru.0, z.qrd.0,
    ]
}

// A zone into row z.
pub fn put_zone(zones: &mut [ZoneRow], z: usize, x: Zone)
    requires { z < length zones.old }
    ensures { zones.new ≡ set zones.old z (zone_row x) }
{
    zones[z] = zone_row(x);
}

// A zone's minima into row k.
pub fn put_minima(minima: &mut [MinimaRow], k: usize, x: Minima)
    requires { k < length minima.old }
    ensures { minima.new ≡ set minima.old k (minima_row x) }
{
    minima[k] = [x.rru.0, x.rrd.0, x.qru.0, x.qrd.0];
}
