// A zone of a case: its shares and prices by value, its minima in its part of the table. What edition 2 added to it is read by `reactive_zones`.
#![tactic(auto)]

ghost use Rattle.std.specs.Prelude.{◌≡◌, map, ◌≤◌, length};
ghost use Rattle.layouts.specs.Layout.{list};
ghost use Rattle.model.specs.Messages as M;
ghost use Rattle.model.specs.ByEdition as B;
ghost use Rattle.records.specs.Views.{minima_in, most_intervals};
ghost use Rattle.fields.specs.Got.{got, seen, told};
ghost use Rattle.zone_reader.specs.Zones.{zone_from, terms, terms_in, ahead, ahead_in, pair_in, interval_in, ZoneDone};

use field_rows::read_list;
use fields::Read;
use kilovars::VarPrice;
use kilowatts::Kw;
use layouts::{Fault, Place};
use reactive_zones::NEUTRAL_PRICE;
use row_places::{Minima, MinimaRow, Zone};

// "shares for rgu, rgd, scr, nsc 10 each (0..1,000 thousandths)"
const SHARE_BITS: u64 = 10;

const MOST_SHARE: u32 = 1000;

// "shortfall prices .. 7 each (1..100 per W·min)"
const PRICE_BITS: u64 = 7;

const LEAST_PRICE: u32 = 1;

const MOST_PRICE: u32 = 100;

// "rru and rrd minima 23 each (0..6,400,000)"
const MINIMUM_BITS: u64 = 23;

const MOST_MINIMUM: u32 = 6400000;

// A zone of what every edition has.
fn zone_of(shares: [u32; 4], prices: [u32; 6]) -> Zone
    ensures { result ≡ zone_from shares prices }
{
    Zone {
        rgu: shares[0],
        rgd: shares[1],
        scr: shares[2],
        nsc: shares[3],
        prices,
        qru: VarPrice(NEUTRAL_PRICE),
        qrd: VarPrice(NEUTRAL_PRICE),
    }
}

// Shares and the six prices.
fn read_terms(s: &[u8], p: Place) -> Read<Zone>
    ensures { seen terms_in result ≡ got terms s.now p }
{
    let mut shares = [0u32; 4];
    let mut prices = [0u32; 6];
    let at_prices = read_list(s, p, 4, SHARE_BITS, 0, MOST_SHARE, &mut shares)?;
    let past = read_list(
        s,
        at_prices,
        6,
        PRICE_BITS,
        LEAST_PRICE,
        MOST_PRICE,
        &mut prices,
    )?;
    Ok((zone_of(shares, prices), past))
}

// Shares and all prices: what stands ahead of the intervals.
fn read_ahead(s: &[u8], p: Place, edition: u32) -> Read<Zone>
    ensures { seen ahead_in result ≡ got (ahead edition) s.now p }
{
    let (terms, at_reactive) = read_terms(s, p)?;
    let (prices, past) = reactive_zones::read_prices(s, at_reactive, edition)?;
    let zone = Zone {
        qru: VarPrice(prices.qru),
        qrd: VarPrice(prices.qrd),
        ..terms
    };
    Ok((zone, past))
}

// The minima of rru and rrd in one interval.
fn read_pair(s: &[u8], p: Place) -> Read<[u32; 2]>
    ensures { seen pair_in result ≡ got M.minima s.now p }
{
    let mut v = [0u32; 2];
    let past = read_list(s, p, 2, MINIMUM_BITS, 0, MOST_MINIMUM, &mut v)?;
    Ok((v, past))
}

// All minima of one interval.
fn read_interval(s: &[u8], p: Place, edition: u32) -> Read<Minima>
    ensures { seen interval_in result ≡ got (B.minima edition) s.now p }
{
    let ([rru, rrd], at_reactive) = read_pair(s, p)?;
    let (reactive, past) = reactive_zones::read_minima(s, at_reactive, edition)?;
    let minima = Minima {
        rru: Kw(rru),
        rrd: Kw(rrd),
        qru: reactive.qru,
        qrd: reactive.qrd,
    };
    Ok((minima, past))
}

// The minima of every interval.
fn read_minima(s: &[u8], p: Place, edition: u32, minima: &mut [MinimaRow]) -> Result<Place, Fault>
    ensures { told result (map minima_in minima.new) ≡ got (list (length minima.new) (B.minima edition)) s.now p }
{
    let mut q = p;
    for k in 0..minima.len() {
        let (x, next) = read_interval(s, q, edition)?;
        zone_rows::put_minima(minima, k, x);
        q = next;
    }
    Ok(q)
}

// A zone; its minima for each interval into its part of the table.
pub fn read_zone(s: &[u8], p: Place, edition: u32, minima: &mut [MinimaRow]) -> Read<Zone>
    requires { length minima.old ≤ most_intervals }
    ensures { ZoneDone edition s.now p result minima.new }
{
    let (zone, at_minima) = read_ahead(s, p, edition)?;
    let past = read_minima(s, at_minima, edition, minima)?;
    Ok((zone, past))
}
