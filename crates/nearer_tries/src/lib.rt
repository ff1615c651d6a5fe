// The answer of a try, and the better of two: the smaller change, the earlier interval among equals.
#![tactic(auto)]

ghost use Rattle.std.specs.Prelude.{◌≡◌, ◌<◌};
ghost use Rattle.records.specs.Views.{most_devices, most_intervals};
ghost use Rattle.std.specs.Prelude.{Some};
ghost use Rattle.nearer_tries.specs.Nearer.{answer_as, nearer_as};

use kilowatts::Kw;
use mending::Mending;

// A try by itself, by interval and device from 1.
pub fn answer(t: usize, i: usize, r: Option<u32>) -> Mending
    requires { (t < most_intervals) × (i < most_devices) }
    ensures { result ≡ answer_as t i r }
{
    match r {
        None => Mending::Nothing,
        Some(v) => Mending::Mended(t as u64 + 1, i as u64 + 1, v as u64),
    }
}

// The better of two that were found.
fn better(t: usize, i: usize, before: Kw, now: Kw, v: u32, w: u32) -> Mending
    requires { (t < most_intervals) × (i < most_devices) × (0 < t) }
    ensures { result ≡ nearer_as t i before.0 now.0 (Some v) (Some w) }
{
    let a = before.apart(Kw(v));
    let b = now.apart(Kw(w));
    if a.0 <= b.0 {
        answer(t - 1, i, Some(v))
    } else {
        answer(t, i, Some(w))
    }
}

// The better of the tries of interval t − 1 and t, whose online powers were `before` and `now`.
pub fn nearer(
    t: usize,
    i: usize,
    before: Kw,
    now: Kw,
    first: Option<u32>,
    second: Option<u32>,
) -> Mending
    requires { (t < most_intervals) × (i < most_devices) × (0 < t) }
    ensures { result ≡ nearer_as t i before.0 now.0 first second }
{
    match first {
        None => answer(t, i, second),
        Some(v) => match second {
            None => answer(t - 1, i, Some(v)),
            Some(w) => better(t, i, before, now, v, w),
        },
    }
}
