// The figures of a plan's setting by whole words, where the message has them and each is in its range.
#![tactic(auto)]

ghost use Rattle.std.specs.Prelude.{◌≡◌, ◌+◌, ◌*◌, ◌%◌, ◌^◌, ◌≤◌, IfSome};
ghost use Rattle.bits.specs.Bits.{reach};
ghost use Rattle.setting_words.specs.Settings.{active_in, active_bits, nine_in, Threefold, Unborrowed, Low, Found};

use bits::bits_at;
use kilowatts::Kw;
use row_places::Reserves;
use word_fields::{field_in, has_bits};

// "A 17-bit power is 0..100,000"
pub const KW_BITS: u64 = 17;

pub const MOST_KW: u32 = 100000;

// Three powers in a row: their bits, and the bit ahead of each.
const THREE_BITS: u64 = 3 * KW_BITS;

const AHEAD: u64 = (1 << THREE_BITS) + (1 << (2 * KW_BITS)) + (1 << KW_BITS);

// The greatest three, with a bit further ahead from which the first may borrow.
const MOST_THREE: u64 = (2 << THREE_BITS)
    + MOST_KW as u64 * ((1 << (2 * KW_BITS)) + (1 << KW_BITS) + 1);

// The first word of a setting has its on bit ahead of three powers; two more follow.
const FIRST_BITS: u64 = 1 + THREE_BITS;

pub const ACTIVE_BITS: u64 = FIRST_BITS + 2 * THREE_BITS;

// "on 1, online power 17, eight reserves 17 each": the figures of a setting that every edition has.
#[derive(Clone, Copy)]
pub struct Active {
    pub on: u32,
    pub online: Kw,
    pub reserves: Reserves,
}

// Three powers in a row.
#[derive(Clone, Copy)]
pub struct Three {
    pub x: u32,
    pub y: u32,
    pub z: u32,
}

// The last three powers of a word.
fn three_in(word: u64) -> Three
    ensures { Threefold word result }
{
    let x = field_in(word, 2 * KW_BITS, KW_BITS);
    let y = field_in(word, KW_BITS, KW_BITS);
    let z = field_in(word, 0, KW_BITS);
    Three { x, y, z }
}

// The last three powers of a word, taken from the greatest three: one that is above its range borrows, which changes the bit ahead of it.
fn borrows(word: u64) -> u64
    ensures { Unborrowed result → Low word }
{
    let three = word % (1 << THREE_BITS);
    (MOST_THREE - three) ^ three
}

// The figures from an on bit and nine powers.
fn active_of(on: u32, a: Three, b: Three, c: Three) -> Active
    ensures { active_in result ≡ nine_in on a b c }
{
    let reserves = Reserves {
        rgu: Kw(a.y),
        rgd: Kw(a.z),
        scr: Kw(b.x),
        nsc: Kw(b.y),
        rruon: Kw(b.z),
        rruoff: Kw(c.x),
        rrdon: Kw(c.y),
        rrdoff: Kw(c.z),
    };
    Active {
        on,
        online: Kw(a.x),
        reserves,
    }
}

// Nine powers in three words, the on bit ahead of the first, where each is within its range.
fn active_words(s: &[u8], at: u64) -> Option<Active>
    requires { at + active_bits ≤ 8 * reach s.now }
    ensures { IfSome result (Found s.now at) }
{
    let first = bits_at(s, at, FIRST_BITS);
    let second = bits_at(s, at + FIRST_BITS, THREE_BITS);
    let third = bits_at(s, at + (FIRST_BITS + THREE_BITS), THREE_BITS);
    if (borrows(first) | borrows(second) | borrows(third)) & AHEAD != 0 {
        return None;
    }
    let on = (first >> THREE_BITS) as u32;
    Some(active_of(on, three_in(first), three_in(second), three_in(third)))
}

// By whole words, where the message has them. The contract leaves free where it declines: a reader then goes field by field, with the same figures.
pub fn quick_active(s: &[u8], at: u64) -> Option<Active>
    ensures { IfSome result (Found s.now at) }
{
    if has_bits(s, at, ACTIVE_BITS) {
        return active_words(s, at);
    }
    None
}
