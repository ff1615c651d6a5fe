// The span of online powers that the lines of a device's link leave.
#![tactic(auto)]

ghost use Rattle.std.specs.Prelude.{◌≡◌, ◌+◌, ◌-◌, ◌*◌, ◌≤◌, ◌<◌, ◌^◌, eqb};
ghost use Rattle.bits.specs.Pick.{pick};
ghost use Rattle.spans.specs.Spans.{narrow, within};
ghost use Rattle.records.specs.Views.{most_power};
ghost use Rattle.reactive_tests.specs.Order.{line_level, own_level};
ghost use Rattle.reactive_tests.specs.Tests.{most_bracket, LineSized, LinkSized, ReactiveSized};
ghost use Rattle.line_spans.specs.Lines.{sloped_by, above_line, below_line, line_bounds_of};

use grains::product;
use kilovars::{Kvar, MOST_KVAR, SignedKvar};
use kilowatts::Kw;
use row_places::{Line, Link, Reactive};
use spans::{Span, at_least, at_most};

const KVAR_OFFSET: u32 = MOST_KVAR as u32;

const SLOPE_OFFSET: u32 = 10000;

const VARS: u32 = 1000;

const TWO_LINES: u32 = 1;

const EQUALITY: u32 = 2;

// A bound by a slope that is kept from 0.
fn sloped(s: Span, slope: u32, x: u64, y: u64) -> Span
    requires { (x < 2 ^ 60) × (y < 2 ^ 60) }
    ensures { result ≡ narrow s (sloped_by slope x y) }
{
    if SLOPE_OFFSET <= slope {
        at_least(s, u64::from(slope - SLOPE_OFFSET), x, y)
    } else {
        at_most(s, u64::from(SLOPE_OFFSET - slope), x, y)
    }
}

// A line at bracket n and power a, and a reactive power at the same level.
fn line_level(l: Line, n: u32, a: Kw) -> u64
    requires { LineSized l × (n ≤ most_bracket) × (a.0 ≤ most_power) }
    ensures { (result ≡ line_level l n a.0) × (result < 2 ^ 40) }
{
    let rise = product(l.slope, a.0);
    product(VARS, l.offset.0 * n) + rise + product(VARS, KVAR_OFFSET)
}

fn own_level(q: u32, n: u32, a: Kw) -> u64
    requires { (q ≤ 300000) × (n ≤ most_bracket) × (a.0 ≤ most_power) }
    ensures { (result ≡ own_level q n a.0) × (result < 2 ^ 40) }
{
    product(VARS, q + KVAR_OFFSET * n) + product(SLOPE_OFFSET, a.0)
}

// Rule 23: at or below a line, with the reserve that raises q.
fn below_upper(s: Span, q: SignedKvar, up: Kvar, l: Line, n: u32, a: Kw) -> Span
    requires { (q.0 ≤ 200000) × (up.0 ≤ 100000) × LineSized l × (n ≤ most_bracket) × (a.0 ≤ most_power) }
    ensures { result ≡ narrow s (above_line l n a.0 q.0 up.0) }
{
    let own = own_level(q.0 + up.0, n, a);
    let line = line_level(l, n, a);
    sloped(s, l.slope, own, line)
}

// Rule 24: at or above a line, with the reserve that lowers q.
fn above_lower(s: Span, q: SignedKvar, down: Kvar, l: Line, n: u32, a: Kw) -> Span
    requires { (q.0 ≤ 200000) × (down.0 ≤ 100000) × LineSized l × (n ≤ most_bracket) × (a.0 ≤ most_power) }
    ensures { result ≡ narrow s (below_line l n a.0 q.0 down.0) }
{
    let own = own_level(q.0, n, a);
    let line = line_level(l, n, a);
    let reserve = product(VARS, down.0);
    sloped(s, 2 * SLOPE_OFFSET - l.slope, line + reserve, own)
}

// The reserve of a consuming device, or that of a producing one.
fn by_side(side: u32, consuming: Kvar, producing: Kvar) -> Kvar
    requires { (consuming.0 ≤ 100000) × (producing.0 ≤ 100000) }
    ensures { (result.0 ≡ pick (eqb side 1) consuming.0 producing.0) × (result.0 ≤ 100000) }
{
    if side == 1 { consuming } else { producing }
}

// Rules 23 and 24.
fn within_two(s: Span, side: u32, n: u32, a: Kw, link: Link, x: Reactive) -> Span
    requires { LinkSized link × ReactiveSized x × (n ≤ most_bracket) × (a.0 ≤ most_power) × (link.kind ≡ 1) }
    ensures { result ≡ within s (line_bounds_of (eqb side 1) n a.0 link x) }
{
    let up = by_side(side, x.qrd, x.qru);
    let down = by_side(side, x.qru, x.qrd);
    let first = below_upper(s, x.q, up, link.upper, n, a);
    above_lower(first, x.q, down, link.lower, n, a)
}

// Rule 25.
fn within_equality(s: Span, side: u32, n: u32, a: Kw, link: Link, x: Reactive) -> Span
    requires { LinkSized link × ReactiveSized x × (n ≤ most_bracket) × (a.0 ≤ most_power) × (link.kind ≡ 2) }
    ensures { result ≡ within s (line_bounds_of (eqb side 1) n a.0 link x) }
{
    let first = below_upper(s, x.q, Kvar(0), link.upper, n, a);
    above_lower(first, x.q, Kvar(0), link.upper, n, a)
}

// Rules 23 to 25 of a device with this link, at bracket n, whose power is its online power and a.
pub fn within_lines(s: Span, side: u32, n: u32, a: Kw, link: Link, x: Reactive) -> Span
    requires { LinkSized link × ReactiveSized x × (n ≤ most_bracket) × (a.0 ≤ most_power) }
    ensures { result ≡ within s (line_bounds_of (eqb side 1) n a.0 link x) }
{
    if link.kind == TWO_LINES {
        return within_two(s, side, n, a, link, x);
    }
    if link.kind == EQUALITY {
        return within_equality(s, side, n, a, link, x);
    }
    s
}
