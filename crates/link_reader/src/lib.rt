// How a device's reactive power is linked to its power, from edition 2 on: a link kind, then its lines. An edition that lacks it has none.
#![tactic(auto)]

ghost use Rattle.std.specs.Prelude.{◌≡◌};
ghost use Rattle.layouts.specs.Since.{since, present};
ghost use Rattle.model.specs.Case.{no_line, no_link};
ghost use Rattle.model.specs.ByEdition.{line, link};
ghost use Rattle.records.specs.Views.{line_in, link_in};
ghost use Rattle.fields.specs.Got.{got, seen};

use fields::Read;
use kilovars::{KVAR_BITS, KVAR_HALF, MOST_KVAR, NO_KVAR, SignedKvar};
use layouts::Place;
use row_places::{Line, Link};

// The edition that it came with.
const LINK_EDITION: u32 = 2;

// "a link kind (2 bits: 0 none, 1 two lines, 2 equality)"
const KIND_BITS: u64 = 2;

const NO_LINES: u32 = 0;

const TWO_LINES: u32 = 1;

const EQUALITY: u32 = 2;

// "a slope in thousandths (15, ±10,000)"; half is the weight of its highest bit
const SLOPE_BITS: u64 = 15;

const SLOPE_HALF: u64 = 16384;

const MOST_SLOPE: u64 = 10000;

// A line that a link lacks: offset and slope 0, as they are kept.
const NEUTRAL_LINE: Line = Line {
    offset: NO_KVAR,
    slope: MOST_SLOPE as u32,
};

pub const NEUTRAL: Link = Link {
    kind: NO_LINES,
    upper: NEUTRAL_LINE,
    lower: NEUTRAL_LINE,
};

// "an offset (18, ±100,000) and a slope in thousandths (15, ±10,000)"
fn read_line(s: &[u8], p: Place) -> Read<Line>
    ensures { seen line_in result ≡ got line s.now p }
{
    let (offset, at_slope) = fields::read_offset(s, p, KVAR_BITS, KVAR_HALF, MOST_KVAR)?;
    let (slope, past) = fields::read_offset(s, at_slope, SLOPE_BITS, SLOPE_HALF, MOST_SLOPE)?;
    let line = Line {
        offset: SignedKvar(offset),
        slope,
    };
    Ok((line, past))
}

// A line that a link kind has or lacks.
fn read_present(s: &[u8], p: Place, there: bool) -> Read<Line>
    ensures { seen line_in result ≡ got (present there no_line line) s.now p }
{
    if there {
        return read_line(s, p);
    }
    Ok((NEUTRAL_LINE, p))
}

// Its kind, then its lines, "upper before lower, the equality once": from here comes every refusal.
fn read_kind(s: &[u8], p: Place) -> Read<Link>
    ensures { seen link_in result ≡ got link s.now p }
{
    let (kind, at_upper) = fields::read_figure(s, p, KIND_BITS, NO_LINES, EQUALITY)?;
    let (upper, at_lower) = read_present(s, at_upper, NO_LINES < kind)?;
    let (lower, past) = read_present(s, at_lower, kind == TWO_LINES)?;
    Ok((Link { kind, upper, lower }, past))
}

pub fn read_link(s: &[u8], p: Place, edition: u32) -> Read<Link>
    ensures { seen link_in result ≡ got (since edition 2 no_link link) s.now p }
{
    if edition < LINK_EDITION {
        return Ok((NEUTRAL, p));
    }
    read_kind(s, p)
}
