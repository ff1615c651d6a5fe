// The reactive figures of a plan's setting, which came with edition 2, read against their layout.
#![tactic(auto)]

ghost use Rattle.std.specs.Prelude.{◌≡◌, true, ◌+◌, ◌*◌, ◌≤◌, IfSome};
ghost use Rattle.bits.specs.Bits.{reach};
ghost use Rattle.layouts.specs.Since.{since};
ghost use Rattle.model.specs.Case.{no_reactive};
ghost use Rattle.model.specs.ByEdition.{reactive};
ghost use Rattle.records.specs.Views.{reactive_in};
ghost use Rattle.fields.specs.Got.{got, seen};
ghost use Rattle.reactive_reader.specs.Words.{reactive_bits, InRanges, Found};

use bits::bits_at;
use fields::Read;
use kilovars::{KVAR_BITS, KVAR_HALF, Kvar, MOST_KVAR, NO_KVAR, SignedKvar};
use layouts::Place;
use row_places::Reactive;
use word_fields::{field_in, has_bits, offset_in};

// The edition that they came with.
pub const SINCE: u32 = 2;

// "reactive reserves (17 each)", 0..100,000
const RESERVE_BITS: u64 = 17;

const MOST_RESERVE: u32 = 100000;

// The bits of the three.
pub const REACTIVE_BITS: u64 = KVAR_BITS + 2 * RESERVE_BITS;

// The greatest q, as it is kept.
const MOST_KEPT: u32 = 2 * MOST_KVAR as u32;

// No reactive power: "a field that an edition lacks takes no bits and has its neutral value".
pub const NEUTRAL: Reactive = Reactive {
    q: NO_KVAR,
    qru: Kvar(0),
    qrd: Kvar(0),
};

// "q (as qmax)", field by field: from here comes every refusal.
pub fn read_three(s: &[u8], p: Place) -> Read<Reactive>
    ensures { seen reactive_in result ≡ got reactive s.now p }
{
    let (q, at_qru) = fields::read_offset(s, p, KVAR_BITS, KVAR_HALF, MOST_KVAR)?;
    let (qru, at_qrd) = fields::read_figure(s, at_qru, RESERVE_BITS, 0, MOST_RESERVE)?;
    let (qrd, past) = fields::read_figure(s, at_qrd, RESERVE_BITS, 0, MOST_RESERVE)?;
    let reactive = Reactive {
        q: SignedKvar(q),
        qru: Kvar(qru),
        qrd: Kvar(qrd),
    };
    Ok((reactive, past))
}

// Whether the three are in their ranges.
fn in_ranges(x: Reactive) -> bool
    ensures { result ≡ true → InRanges x }
{
    x.q.0 <= MOST_KEPT && x.qru.0 <= MOST_RESERVE && x.qrd.0 <= MOST_RESERVE
}

// The three in one word, where each is in its range.
fn reactive_word(s: &[u8], at: u64) -> Option<Reactive>
    requires { at + reactive_bits ≤ 8 * reach s.now }
    ensures { IfSome result (Found s.now at) }
{
    let word = bits_at(s, at, REACTIVE_BITS);
    let q = offset_in(word, 2 * RESERVE_BITS, KVAR_BITS, MOST_KVAR);
    let qru = field_in(word, RESERVE_BITS, RESERVE_BITS);
    let qrd = field_in(word, 0, RESERVE_BITS);
    let reactive = Reactive {
        q: SignedKvar(q),
        qru: Kvar(qru),
        qrd: Kvar(qrd),
    };
    in_ranges(reactive).then_some(reactive)
}

// By one word, where the message has it. The contract leaves free where it declines: a reader then goes field by field, with the same figures.
pub fn quick_reactive(s: &[u8], at: u64) -> Option<Reactive>
    ensures { IfSome result (Found s.now at) }
{
    if has_bits(s, at, REACTIVE_BITS) {
        return reactive_word(s, at);
    }
    None
}

// "The plan gains q (as qmax) and two reactive reserves (17 each)": an edition that lacks them has none.
pub fn read_reactive(s: &[u8], p: Place, edition: u32) -> Read<Reactive>
    ensures { seen reactive_in result ≡ got (since edition 2 no_reactive reactive) s.now p }
{
    if edition < SINCE {
        return Ok((NEUTRAL, p));
    }
    read_three(s, p)
}
