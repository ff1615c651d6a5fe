// A case's zones copied bit by bit into a message of the newest edition.
#![tactic(auto)]

ghost use Rattle.writing.specs.Splice.{times};
ghost use Rattle.writing.specs.CaseSplices.{minima_splice, zone_splice};
ghost use Rattle.bit_copier.specs.Moves.{Set, Moves};

use bit_copier::{Copier, copy_each, keep_field, keep_since};

// The widths of a zone's fields: four shares, six prices, two reactive prices; in each interval two minima, and two reactive ones.
const SHARES_BITS: u64 = 4 * 10;

const PRICE_BITS: u64 = 7;

const PRICES_BITS: u64 = 6 * PRICE_BITS;

const REACTIVE_PRICES_BITS: u64 = 2 * PRICE_BITS;

const MINIMA_BITS: u64 = 2 * 23;

// Two neutral prices side by side, 1 each: 0 is out of range.
const UNIT_PRICES: u64 = (1 << PRICE_BITS) + 1;

// The edition with which reactive power came.
const REACTIVE_EDITION: u32 = 2;

// A zone's minima in an interval; since edition 2 the reactive ones.
fn copy_minima(s: &[u8], buf: &mut [u8], q: Copier, edition: u32) -> Copier
    requires { Set s.now q }
    ensures { Moves (minima_splice edition) s.now buf.old buf.new q result }
{
    let q = keep_field(s, buf, q, MINIMA_BITS);
    keep_since(s, buf, q, edition, REACTIVE_EDITION, MINIMA_BITS, 0)
}

// A zone: shares and prices, since edition 2 two prices more, neutrally 1 each; then its minima.
fn copy_zone(s: &[u8], buf: &mut [u8], q: Copier, edition: u32, intervals: u64) -> Copier
    requires { Set s.now q }
    ensures { Moves (zone_splice edition intervals) s.now buf.old buf.new q result }
{
    let q = keep_field(s, buf, q, SHARES_BITS);
    let q = keep_field(s, buf, q, PRICES_BITS);
    let q = keep_since(
        s,
        buf,
        q,
        edition,
        REACTIVE_EDITION,
        REACTIVE_PRICES_BITS,
        UNIT_PRICES,
    );
    copy_each(buf, q, intervals, move |buf, q| {
        copy_minima(s, buf, q, edition)
    })
}

// So many zones.
pub fn copy_zones(
    s: &[u8],
    buf: &mut [u8],
    q: Copier,
    edition: u32,
    intervals: u64,
    zones: u64,
) -> Copier
    requires { Set s.now q }
    ensures { Moves (times zones (zone_splice edition intervals)) s.now buf.old buf.new q result }
{
    copy_each(buf, q, zones, move |buf, q| {
        copy_zone(s, buf, q, edition, intervals)
    })
}
