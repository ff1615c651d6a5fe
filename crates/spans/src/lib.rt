// A span of powers, and how bounds narrow it.
#![tactic(auto)]

ghost use Rattle.std.specs.Prelude.{◌≡◌, ◌<◌, ◌^◌, leb};
ghost use Rattle.spans.specs.Spans.{whole, narrow, least, most, started, ended, clamped};

// The powers from one on, below another.
#[derive(Clone, Copy)]
pub struct Span {
    pub from: u64,
    pub until: u64,
}

// Every power up to a most.
pub fn whole_span(most: u64) -> Span
    requires { most < 2 ^ 40 }
    ensures { result ≡ whole most }
{
    Span {
        from: 0,
        until: most + 1,
    }
}

// Those of a span that are at least k.
fn starting(s: Span, k: u64) -> Span
    ensures { result ≡ started s k }
{
    Span {
        from: s.from.max(k),
        until: s.until,
    }
}

// Those of a span that are below k.
fn ending(s: Span, k: u64) -> Span
    ensures { result ≡ ended s k }
{
    Span {
        from: s.from,
        until: s.until.min(k),
    }
}

// Those v of a span with x ≤ slope·v + y.
pub fn at_least(s: Span, slope: u64, x: u64, y: u64) -> Span
    requires { (slope < 2 ^ 40) × (x < 2 ^ 60) }
    ensures { result ≡ narrow s (least slope x y) }
{
    if x <= y {
        s
    } else if slope == 0 {
        ending(s, 0)
    } else {
        starting(s, (x - y).div_ceil(slope))
    }
}

// Those v of a span with slope·v + x ≤ y.
pub fn at_most(s: Span, slope: u64, x: u64, y: u64) -> Span
    requires { y < 2 ^ 60 }
    ensures { result ≡ narrow s (most slope x y) }
{
    if y < x {
        ending(s, 0)
    } else if slope == 0 {
        s
    } else {
        ending(s, (y - x) / slope + 1)
    }
}

// Whether a span has none.
pub fn is_empty(s: Span) -> bool
    ensures { result ≡ leb s.until s.from }
{
    s.until <= s.from
}

// A power, held within a span.
pub fn clamp(s: Span, v: u64) -> u64
    requires { s.from < s.until }
    ensures { result ≡ clamped s v }
{
    v.clamp(s.from, s.until - 1)
}
