// The eight reserve prices of a cell: by two words where the message has them and each is in its range, else field by field.
#![tactic(auto)]

ghost use Rattle.std.specs.Prelude.{◌≡◌, ◌+◌, ◌*◌, ◌^◌, ◌≤◌, ◌<◌, IfSome};
ghost use Rattle.bits.specs.Bits.{reach};
ghost use Rattle.records.specs.Views.{eight_prices_in};
ghost use Rattle.fields.specs.Got.{got, seen};
ghost use Rattle.cell_groups.specs.Groups.{reserve_prices, prices_of};
ghost use Rattle.price_words.specs.Prices.{four_bits, eight_bits, eight_in, Fourfold, Low, Unborrowed, Found};

use bits::bits_at;
use fields::Read;
use layouts::Place;
use row_places::ReservePrices;
use word_fields::{field_in, has_bits};

// "eight reserve prices 14 each (0..10,000)"
const PRICE_BITS: u64 = 14;

const MOST_PRICE: u32 = 10000;

// Four prices are a word; the bit ahead of each.
const FOUR_BITS: u64 = 4 * PRICE_BITS;

const AHEAD: u64 = (1 << FOUR_BITS)
    + (1 << (3 * PRICE_BITS))
    + (1 << (2 * PRICE_BITS))
    + (1 << PRICE_BITS);

// The greatest four, with a bit further ahead from which the first may borrow.
const MOST_FOUR: u64 = (2 << FOUR_BITS)
    + MOST_PRICE as u64
        * ((1 << (3 * PRICE_BITS)) + (1 << (2 * PRICE_BITS)) + (1 << PRICE_BITS) + 1);

const EIGHT_BITS: u64 = 2 * FOUR_BITS;

// Four prices in a row.
#[derive(Clone, Copy)]
pub struct Four {
    pub a: u32,
    pub b: u32,
    pub c: u32,
    pub d: u32,
}

// The eight by name.
pub fn prices_of(v: [u32; 8]) -> ReservePrices
    ensures { result ≡ prices_of v }
{
    ReservePrices {
        rgu: v[0],
        rgd: v[1],
        scr: v[2],
        nsc: v[3],
        rruon: v[4],
        rruoff: v[5],
        rrdon: v[6],
        rrdoff: v[7],
    }
}

// The four prices of a word.
fn four_in(word: u64) -> Four
    ensures { Fourfold word result }
{
    let a = field_in(word, 3 * PRICE_BITS, PRICE_BITS);
    let b = field_in(word, 2 * PRICE_BITS, PRICE_BITS);
    let c = field_in(word, PRICE_BITS, PRICE_BITS);
    let d = field_in(word, 0, PRICE_BITS);
    Four { a, b, c, d }
}

// The four prices of a word, taken from the greatest four: one that is above its range borrows, which changes the bit ahead of it.
fn borrows(word: u64) -> u64
    requires { word < 2 ^ four_bits }
    ensures { Unborrowed result → Low word }
{
    (MOST_FOUR - word) ^ word
}

fn eight_of(x: Four, y: Four) -> ReservePrices
    ensures { eight_prices_in result ≡ eight_in x y }
{
    ReservePrices {
        rgu: x.a,
        rgd: x.b,
        scr: x.c,
        nsc: x.d,
        rruon: y.a,
        rruoff: y.b,
        rrdon: y.c,
        rrdoff: y.d,
    }
}

// Eight prices in two words, where each is within its range.
fn price_words(s: &[u8], at: u64) -> Option<ReservePrices>
    requires { at + eight_bits ≤ 8 * reach s.now }
    ensures { IfSome result (Found s.now at) }
{
    let first = bits_at(s, at, FOUR_BITS);
    let second = bits_at(s, at + FOUR_BITS, FOUR_BITS);
    if (borrows(first) | borrows(second)) & AHEAD != 0 {
        return None;
    }
    Some(eight_of(four_in(first), four_in(second)))
}

// By words, where the message has them. The contract leaves free where it declines: the prices are then read field by field.
fn quick_prices(s: &[u8], at: u64) -> Option<ReservePrices>
    ensures { IfSome result (Found s.now at) }
{
    if !has_bits(s, at, EIGHT_BITS) {
        return None;
    }
    price_words(s, at)
}

// Field by field: from here comes every refusal.
fn exact_prices(s: &[u8], p: Place) -> Read<ReservePrices>
    ensures { seen eight_prices_in result ≡ got reserve_prices s.now p }
{
    let (values, past) = field_rows::read_eight(s, p, PRICE_BITS, MOST_PRICE)?;
    Ok((prices_of(values), past))
}

pub fn read_prices(s: &[u8], p: Place) -> Read<ReservePrices>
    ensures { seen eight_prices_in result ≡ got reserve_prices s.now p }
{
    if let Some(prices) = quick_prices(s, p.at) {
        let past = Place {
            at: p.at + EIGHT_BITS,
            ..p
        };
        return Ok((prices, past));
    }
    exact_prices(s, p)
}
