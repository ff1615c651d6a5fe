// What a cell has of reactive power, from edition 2 on: qmin and qmax, then the prices of the two reactive reserves. An edition that lacks it has 0 for each.
#![tactic(auto)]

ghost use Rattle.std.specs.Prelude.{◌≡◌, true, ◌+◌, ◌*◌, ◌≤◌, Ok, IfSome};
ghost use Rattle.bits.specs.Bits.{reach};
ghost use Rattle.layouts.specs.Since.{since};
ghost use Rattle.model.specs.ByEdition.{reactive_limits, reactive_prices, reactive_cell, no_reactive_cell};
ghost use Rattle.fields.specs.Got.{got, seen};
ghost use Rattle.reactive_cells.specs.Reactive.{limits_in, prices_in, reactive_pair, reactive_bits, ReactiveFits};

use bits::bits_at;
use fields::Read;
use kilovars::{KVAR_BITS, KVAR_HALF, KvarPrice, MOST_KVAR, NO_KVAR, SignedKvar};
use layouts::Place;
use row_places::ReactiveCell;
use word_fields::{field_in, has_bits, offset_in};

// "Edition 2 adds the rules .."
const REACTIVE_EDITION: u32 = 2;

// "prices of 14 bits (0..10,000)"
const PRICE_BITS: u64 = 14;

const MOST_PRICE: u32 = 10000;

// The greatest qmax, as it is kept.
const MOST_KEPT: u32 = 2 * MOST_KVAR as u32;

// The limits are a word, the two prices another.
const LIMITS_BITS: u64 = 2 * KVAR_BITS;

const PRICES_BITS: u64 = 2 * PRICE_BITS;

const REACTIVE_BITS: u64 = LIMITS_BITS + PRICES_BITS;

pub const NEUTRAL: ReactiveCell = ReactiveCell {
    qmin: NO_KVAR,
    qmax: NO_KVAR,
    qru: KvarPrice(0),
    qrd: KvarPrice(0),
};

#[derive(Clone, Copy)]
struct Limits {
    qmin: SignedKvar,
    qmax: SignedKvar,
}

// "qmin and qmax in kvar (18 bits, ±100,000)"; "A qmin above qmax is a contradiction at qmax". Both are kept from −100,000.
fn read_limits(s: &[u8], p: Place) -> Read<Limits>
    ensures { seen limits_in result ≡ got reactive_limits s.now p }
{
    let (qmin, at_qmax) = fields::read_offset(s, p, KVAR_BITS, KVAR_HALF, MOST_KVAR)?;
    let (qmax, past) = fields::read_offset(s, at_qmax, KVAR_BITS, KVAR_HALF, MOST_KVAR)?;
    let limits = Limits {
        qmin: SignedKvar(qmin),
        qmax: SignedKvar(qmax),
    };
    Ok((limits, fields::noted(qmin <= qmax, past, at_qmax.at)))
}

#[derive(Clone, Copy)]
struct Prices {
    qru: KvarPrice,
    qrd: KvarPrice,
}

// "up before down"
fn read_prices(s: &[u8], p: Place) -> Read<Prices>
    ensures { seen prices_in result ≡ got reactive_prices s.now p }
{
    let (qru, at_qrd) = fields::read_figure(s, p, PRICE_BITS, 0, MOST_PRICE)?;
    let (qrd, past) = fields::read_figure(s, at_qrd, PRICE_BITS, 0, MOST_PRICE)?;
    let prices = Prices {
        qru: KvarPrice(qru),
        qrd: KvarPrice(qrd),
    };
    Ok((prices, past))
}

// Whether each is in its range, and qmin is not above qmax.
fn reactive_fits(qmin: u32, qmax: u32, qru: u32, qrd: u32) -> bool
    ensures { result ≡ true → ReactiveFits qmin qmax qru qrd }
{
    qmin <= qmax && qmax <= MOST_KEPT && qru <= MOST_PRICE && qrd <= MOST_PRICE
}

// The limits by one word, the prices by another, where they fit.
fn reactive_words(s: &[u8], p: Place) -> Option<(ReactiveCell, Place)>
    requires { p.at + reactive_bits ≤ 8 * reach s.now }
    ensures { IfSome result (λ x. seen reactive_pair (Ok x) ≡ got reactive_cell s.now p) }
{
    let limits = bits_at(s, p.at, LIMITS_BITS);
    let prices = bits_at(s, p.at + LIMITS_BITS, PRICES_BITS);
    let qmin = offset_in(limits, KVAR_BITS, KVAR_BITS, MOST_KVAR);
    let qmax = offset_in(limits, 0, KVAR_BITS, MOST_KVAR);
    let qru = field_in(prices, PRICE_BITS, PRICE_BITS);
    let qrd = field_in(prices, 0, PRICE_BITS);
    if !reactive_fits(qmin, qmax, qru, qrd) {
        return None;
    }
    let figures = ReactiveCell {
        qmin: SignedKvar(qmin),
        qmax: SignedKvar(qmax),
        qru: KvarPrice(qru),
        qrd: KvarPrice(qrd),
    };
    let past = Place {
        at: p.at + REACTIVE_BITS,
        ..p
    };
    Some((figures, past))
}

// By words, where the message has them. The contract leaves free where it declines: the figures are then read field by field.
fn quick_reactive(s: &[u8], p: Place) -> Option<(ReactiveCell, Place)>
    ensures { IfSome result (λ x. seen reactive_pair (Ok x) ≡ got reactive_cell s.now p) }
{
    if !has_bits(s, p.at, REACTIVE_BITS) {
        return None;
    }
    reactive_words(s, p)
}

// Field by field: from here comes every refusal.
fn exact_reactive(s: &[u8], p: Place) -> Read<ReactiveCell>
    ensures { seen reactive_pair result ≡ got reactive_cell s.now p }
{
    let (limits, at_prices) = read_limits(s, p)?;
    let (prices, past) = read_prices(s, at_prices)?;
    let figures = ReactiveCell {
        qmin: limits.qmin,
        qmax: limits.qmax,
        qru: prices.qru,
        qrd: prices.qrd,
    };
    Ok((figures, past))
}

pub fn read_reactive(s: &[u8], p: Place, edition: u32) -> Read<ReactiveCell>
    ensures { seen reactive_pair result ≡ got (since edition 2 no_reactive_cell reactive_cell) s.now p }
{
    if edition < REACTIVE_EDITION {
        return Ok((NEUTRAL, p));
    }
    if let Some(read) = quick_reactive(s, p) {
        return Ok(read);
    }
    exact_reactive(s, p)
}
