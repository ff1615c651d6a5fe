// Rules 21 to 26 of one device in one interval, from its records: the word of those that fail, and whether none does. Signed figures are kept from 0, so
// that both sides of a comparison are naturals; no product is rounded.
#![tactic(auto)]

ghost use Rattle.std.specs.Prelude.{◌≡◌, true, ◌&&◌, ◌↔◌, [], ◌+◌, ◌*◌, ◌≤◌, ◌<◌, ◌^◌, eqb, pos, ◌+ℤ◌, ◌-ℤ◌, ◌*ℤ◌};
ghost use Rattle.std.specs.Int.Signed.{le_z};
ghost use Rattle.bits.specs.Pick.{pick};
ghost use Rattle.model.specs.Rules.{on_line};
ghost use Rattle.model.specs.Breaches.{eq_z, failing};
ghost use Rattle.kilovars.specs.Reactive.{kvar_offset};
ghost use Rattle.records.specs.Views.{less, line_in, link_in, reactive_in, reactive_limits_in, most_power};
ghost use Rattle.cell_bounds.specs.Word.{failing_word};
ghost use Rattle.reactive_tests.specs.Order.{line_level, own_level};
ghost use Rattle.reactive_tests.specs.Tests.{most_bracket, LineSized, Sized, limit_tests, line_tests, equality_tests, tests};

use cell_bounds::bit_unless;
use grains::product;
use kilovars::{Kvar, MOST_KVAR, SignedKvar};
use kilowatts::Kw;
use row_places::{Line, Link, Reactive, ReactiveCell};

// What signed reactive power and slopes are kept from.
pub const KVAR_OFFSET: u32 = MOST_KVAR as u32;

const SLOPE_OFFSET: u32 = 10000;

// "slope in thousandths": var in a kvar.
const VARS: u32 = 1000;

// Link kinds.
const TWO_LINES: u32 = 1;

const EQUALITY: u32 = 2;

// Reactive power in var, above the level that both sides of a comparison share.
#[derive(Clone, Copy)]
struct Vars(pub u64);

// The reserve of a consuming device, or that of a producing one. A generic one, for Kw too, could not speak of the figure in a reserve, which proofs read.
fn by_side(side: u32, consuming: Kvar, producing: Kvar) -> Kvar
    requires { (consuming.0 ≤ 100000) × (producing.0 ≤ 100000) }
    ensures { (result.0 ≡ pick (eqb side 1) consuming.0 producing.0) × (result.0 ≤ 100000) }
{
    if side == 1 { consuming } else { producing }
}

// Rule 21: q and the reserve that raises it, at most qmax·n.
fn below_limit(q: SignedKvar, up: Kvar, qmax: SignedKvar, n: u32) -> bool
    requires { (q.0 ≤ 200000) × (up.0 ≤ 100000) × (qmax.0 ≤ 200000) × (n ≤ most_bracket) }
    ensures { result ≡ le_z (less kvar_offset q.0 +ℤ pos up.0) (less kvar_offset qmax.0 *ℤ pos n) }
{
    q.0 + up.0 + KVAR_OFFSET * n <= qmax.0 * n + KVAR_OFFSET
}

// Rule 22: q less the reserve that lowers it, at least qmin·n.
fn above_limit(q: SignedKvar, down: Kvar, qmin: SignedKvar, n: u32) -> bool
    requires { (q.0 ≤ 200000) × (down.0 ≤ 100000) × (qmin.0 ≤ 200000) × (n ≤ most_bracket) }
    ensures { result ≡ le_z (less kvar_offset qmin.0 *ℤ pos n) (less kvar_offset q.0 -ℤ pos down.0) }
{
    qmin.0 * n + KVAR_OFFSET + down.0 <= q.0 + KVAR_OFFSET * n
}

// A line at bracket n and power p: the offset times n, and the slope times p; "no product is rounded".
fn line_level(l: Line, n: u32, power: Kw) -> Vars
    requires { LineSized l × (n ≤ most_bracket) × (power.0 ≤ most_power) }
    ensures { (result.0 ≡ line_level l n power.0) × (result.0 < 2 ^ 40) }
{
    Vars(product(VARS, l.offset.0 * n) + product(l.slope, power.0) + product(VARS, KVAR_OFFSET))
}

// A reactive power at the same level.
fn own_level(q: u32, n: u32, power: Kw) -> Vars
    requires { (q ≤ 300000) × (n ≤ most_bracket) × (power.0 ≤ most_power) }
    ensures { (result.0 ≡ own_level q n power.0) × (result.0 < 2 ^ 40) }
{
    Vars(product(VARS, q + KVAR_OFFSET * n) + product(SLOPE_OFFSET, power.0))
}

// Rule 23: at or below a line, with the reserve that raises q.
fn below_line(q: SignedKvar, up: Kvar, l: Line, n: u32, power: Kw) -> bool
    requires { (q.0 ≤ 200000) × (up.0 ≤ 100000) × LineSized l × (n ≤ most_bracket) × (power.0 ≤ most_power) }
    ensures { result ≡ le_z (pos 1000 *ℤ (less kvar_offset q.0 +ℤ pos up.0)) (on_line (line_in l) n power.0) }
{
    let own = own_level(q.0 + up.0, n, power);
    let line = line_level(l, n, power);
    own.0 <= line.0
}

// Rule 24: at or above a line, with the reserve that lowers q.
fn above_line(q: SignedKvar, down: Kvar, l: Line, n: u32, power: Kw) -> bool
    requires { (q.0 ≤ 200000) × (down.0 ≤ 100000) × LineSized l × (n ≤ most_bracket) × (power.0 ≤ most_power) }
    ensures { result ≡ le_z (on_line (line_in l) n power.0) (pos 1000 *ℤ (less kvar_offset q.0 -ℤ pos down.0)) }
{
    let own = own_level(q.0, n, power);
    let line = line_level(l, n, power);
    line.0 + product(VARS, down.0) <= own.0
}

// Rule 25: on a line.
fn on_line(q: SignedKvar, l: Line, n: u32, power: Kw) -> bool
    requires { (q.0 ≤ 200000) × LineSized l × (n ≤ most_bracket) × (power.0 ≤ most_power) }
    ensures { result ≡ eq_z (pos 1000 *ℤ less kvar_offset q.0) (on_line (line_in l) n power.0) }
{
    let own = own_level(q.0, n, power);
    let line = line_level(l, n, power);
    own.0 == line.0
}

// Rule 26: no reactive reserve.
fn none_held(qru: Kvar, qrd: Kvar) -> bool
    ensures { result ≡ (eqb qru.0 0 && eqb qrd.0 0) }
{
    qru.0 == 0 && qrd.0 == 0
}

// Rules 21 and 22.
fn limit_rules(side: u32, n: u32, power: Kw, link: Link, c: ReactiveCell, x: Reactive) -> u32
    requires { Sized n power.0 link c x }
    ensures { (result ≡ failing_word (limit_tests (eqb side 1) n power.0 (link_in link) (reactive_limits_in c) (reactive_in x))) × (result < 2 ^ 23) }
{
    let up = by_side(side, x.qrd, x.qru);
    let down = by_side(side, x.qru, x.qrd);
    let roof = below_limit(x.q, up, c.qmax, n);
    let floor = above_limit(x.q, down, c.qmin, n);
    bit_unless(roof, 21) + bit_unless(floor, 22)
}

// Rules 23 and 24.
fn line_rules(side: u32, n: u32, power: Kw, link: Link, c: ReactiveCell, x: Reactive) -> u32
    requires { Sized n power.0 link c x }
    ensures { (result ≡ failing_word (line_tests (eqb side 1) n power.0 (link_in link) (reactive_limits_in c) (reactive_in x))) × (result < 2 ^ 25) }
{
    if link.kind != TWO_LINES {
        return 0;
    }
    let up = by_side(side, x.qrd, x.qru);
    let down = by_side(side, x.qru, x.qrd);
    let roof = below_line(x.q, up, link.upper, n, power);
    let floor = above_line(x.q, down, link.lower, n, power);
    bit_unless(roof, 23) + bit_unless(floor, 24)
}

// Rules 25 and 26.
fn equality_rules(side: u32, n: u32, power: Kw, link: Link, c: ReactiveCell, x: Reactive) -> u32
    requires { Sized n power.0 link c x }
    ensures { (result ≡ failing_word (equality_tests (eqb side 1) n power.0 (link_in link) (reactive_limits_in c) (reactive_in x))) × (result < 2 ^ 27) }
{
    if link.kind != EQUALITY {
        return 0;
    }
    let on = on_line(x.q, link.upper, n, power);
    let free = none_held(x.qru, x.qrd);
    bit_unless(on, 25) + bit_unless(free, 26)
}

// The reactive rules of one device in one interval that fail: bit k for rule k.
pub fn failing_figures(
    side: u32,
    n: u32,
    power: Kw,
    link: Link,
    c: ReactiveCell,
    x: Reactive,
) -> u32
    requires { Sized n power.0 link c x }
    ensures { result ≡ failing_word (tests (eqb side 1) n power.0 (link_in link) (reactive_limits_in c) (reactive_in x)) }
{
    limit_rules(side, n, power, link, c, x)
        + line_rules(side, n, power, link, c, x)
        + equality_rules(side, n, power, link, c, x)
}

// Whether rules 21 and 22 hold.
fn limits_held(side: u32, n: u32, power: Kw, link: Link, c: ReactiveCell, x: Reactive) -> bool
    requires { Sized n power.0 link c x }
    ensures { (result ≡ true) ↔ (failing (limit_tests (eqb side 1) n power.0 (link_in link) (reactive_limits_in c) (reactive_in x)) ≡ []) }
{
    let up = by_side(side, x.qrd, x.qru);
    let down = by_side(side, x.qru, x.qrd);
    below_limit(x.q, up, c.qmax, n) && above_limit(x.q, down, c.qmin, n)
}

// Whether rules 23 and 24 hold.
fn lines_held(side: u32, n: u32, power: Kw, link: Link, c: ReactiveCell, x: Reactive) -> bool
    requires { Sized n power.0 link c x }
    ensures { (result ≡ true) ↔ (failing (line_tests (eqb side 1) n power.0 (link_in link) (reactive_limits_in c) (reactive_in x)) ≡ []) }
{
    if link.kind != TWO_LINES {
        return true;
    }
    let up = by_side(side, x.qrd, x.qru);
    let down = by_side(side, x.qru, x.qrd);
    below_line(x.q, up, link.upper, n, power) && above_line(x.q, down, link.lower, n, power)
}

// Whether rules 25 and 26 hold.
fn equality_held(side: u32, n: u32, power: Kw, link: Link, c: ReactiveCell, x: Reactive) -> bool
    requires { Sized n power.0 link c x }
    ensures { (result ≡ true) ↔ (failing (equality_tests (eqb side 1) n power.0 (link_in link) (reactive_limits_in c) (reactive_in x)) ≡ []) }
{
    if link.kind != EQUALITY {
        return true;
    }
    on_line(x.q, link.upper, n, power) && none_held(x.qru, x.qrd)
}

// Whether no reactive rule of one device in one interval fails, in one go.
pub fn figures_held(side: u32, n: u32, power: Kw, link: Link, c: ReactiveCell, x: Reactive) -> bool
    requires { Sized n power.0 link c x }
    ensures { (result ≡ true) ↔ (failing (tests (eqb side 1) n power.0 (link_in link) (reactive_limits_in c) (reactive_in x)) ≡ []) }
{
    if !limits_held(side, n, power, link, c, x) {
        return false;
    }
    if !lines_held(side, n, power, link, c, x) {
        return false;
    }
    equality_held(side, n, power, link, c, x)
}
