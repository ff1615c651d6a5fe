// The groups of a cell's fields as they are read, and the first of them: status, pmin, pmax.
#![tactic(auto)]

ghost use Rattle.std.specs.Prelude.{◌≡◌, true, ◌+◌, ◌*◌, ◌≤◌, Ok, IfSome};
ghost use Rattle.bits.specs.Bits.{reach};
ghost use Rattle.fields.specs.Got.{got, seen};
ghost use Rattle.cell_groups.specs.Groups.{limits, limits_bits, LimitsFit, limits_in};

use bits::bits_at;
use fields::Read;
use kilowatts::Kw;
use layouts::Place;
use word_fields::{WORD_BITS, field_in, has_bits};

// "status 2 (0 free, 1 on, 2 off)"
const STATUS_BITS: u64 = 2;

const LAST_STATUS: u32 = 2;

// "A 17-bit power is 0..100,000"
pub const POWER_BITS: u64 = 17;

pub const MOST_POWER: u32 = 100000;

// The three in a row.
const LIMITS_BITS: u64 = STATUS_BITS + 2 * POWER_BITS;

#[derive(Clone, Copy)]
pub struct Limits {
    pub status: u32,
    pub pmin: Kw,
    pub pmax: Kw,
}

// Whether each is in its range, and pmin is not above pmax.
fn limits_fit(status: u32, pmin: u32, pmax: u32) -> bool
    ensures { result ≡ true → LimitsFit status pmin pmax }
{
    status <= LAST_STATUS && pmin <= pmax && pmax <= MOST_POWER
}

// The three by one word, where they fit.
fn limits_word(s: &[u8], p: Place) -> Option<(Limits, Place)>
    requires { p.at + limits_bits ≤ 8 * reach s.now }
    ensures { IfSome result (λ x. seen limits_in (Ok x) ≡ got limits s.now p) }
{
    let word = bits_at(s, p.at, LIMITS_BITS);
    let status = field_in(word, 2 * POWER_BITS, STATUS_BITS);
    let pmin = field_in(word, POWER_BITS, POWER_BITS);
    let pmax = field_in(word, 0, POWER_BITS);
    if !limits_fit(status, pmin, pmax) {
        return None;
    }
    let read = Limits {
        status,
        pmin: Kw(pmin),
        pmax: Kw(pmax),
    };
    let past = Place {
        at: p.at + LIMITS_BITS,
        ..p
    };
    Some((read, past))
}

// By a word, where the message has one. The contract leaves free where it declines: the limits are then read field by field.
fn quick_limits(s: &[u8], p: Place) -> Option<(Limits, Place)>
    ensures { IfSome result (λ x. seen limits_in (Ok x) ≡ got limits s.now p) }
{
    if !has_bits(s, p.at, WORD_BITS) {
        return None;
    }
    limits_word(s, p)
}

// Field by field: from here comes every refusal.
fn exact_limits(s: &[u8], p: Place) -> Read<Limits>
    ensures { seen limits_in result ≡ got limits s.now p }
{
    let (status, at_pmin) = fields::read_figure(s, p, STATUS_BITS, 0, LAST_STATUS)?;
    let (pmin, at_pmax) = fields::read_figure(s, at_pmin, POWER_BITS, 0, MOST_POWER)?;
    let (pmax, past) = fields::read_figure(s, at_pmax, POWER_BITS, 0, MOST_POWER)?;
    let read = Limits {
        status,
        pmin: Kw(pmin),
        pmax: Kw(pmax),
    };
    Ok((read, fields::noted(pmin <= pmax, past, at_pmax.at)))
}

pub fn read_limits(s: &[u8], p: Place) -> Read<Limits>
    ensures { seen limits_in result ≡ got limits s.now p }
{
    if let Some(read) = quick_limits(s, p) {
        return Ok(read);
    }
    exact_limits(s, p)
}

// One block; its price is kept from 0: the price and 10,000.
#[derive(Clone, Copy)]
pub struct Block {
    pub cap: Kw,
    pub floor: Kw,
    pub price: u32,
}

#[derive(Clone, Copy)]
pub struct Blocks {
    pub count: u32,
    pub blocks: [Block; 4],
}
