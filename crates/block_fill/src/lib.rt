// The powers of a device's blocks, filled pick by pick: each block picked takes the lesser of its cap and what is left.
#![tactic(auto)]

ghost use Rattle.std.specs.Prelude.{◌≡◌, ◌+◌, ◌-◌, ◌^◌, ◌<◌};
ghost use Rattle.block_fill.specs.Filled.{Filled, Offered, cap_of};
ghost use Rattle.block_fill.specs.Above.{Four, sum_of, FloorsFit, FilledAbove, SumsFit};

use kilowatts::Kw;
use std::array;

// The blocks of an offer filled with p, at prices kept from 0: the cheapest first when producing, the dearest when consuming; it ends where nothing is left.
pub fn fill(p: Kw, side: u32, blocks: usize, caps: [Kw; 4], prices: [u32; 4]) -> [Kw; 4]
    requires { Offered blocks caps }
    ensures { Filled side p.0 caps prices result }
{
    let mut powers = [Kw(0); 4];
    let mut picked = [false; 4];
    let mut left = p;
    while 0 < left.0 {
        let next = block_pick::next(side, prices, blocks, picked);
        let Some(k) = next else {
            return powers;
        };
        let cap = caps[k];
        let power = cap.least(left);
        powers[k] = power;
        picked[k] = true;
        left = left.less(cap);
    }
    powers
}

// The same as `cell_bounds::sum_of`, which a lower crate cannot call, where the sum alone is known to be small.
fn sum_of(powers: [Kw; 4]) -> Kw
    requires { sum_of powers < 2 ^ 32 }
    ensures { result.0 ≡ sum_of powers }
{
    let [a, b, c, d] = powers;
    Kw(a.0 + b.0 + c.0 + d.0)
}

// What each block may take above its floor.
fn room_above(floors: [Kw; 4], caps: [Kw; 4]) -> [Kw; 4]
    ensures { Four (λ k. cap_of caps k - cap_of floors k) result }
{
    array::from_fn(|k| caps[k].less(floors[k]))
}

// Each block's floor and what it takes above it.
fn with_floors(floors: [Kw; 4], more: [Kw; 4]) -> [Kw; 4]
    requires { SumsFit floors more }
    ensures { Four (λ k. cap_of floors k + cap_of more k) result }
{
    array::from_fn(|k| floors[k].plus(more[k]))
}

// "Floors first, then price order": each block its floor, and what is left of p filled above them; without floors it is filling.
pub fn fill_above(
    p: Kw,
    side: u32,
    blocks: usize,
    floors: [Kw; 4],
    caps: [Kw; 4],
    prices: [u32; 4],
) -> [Kw; 4]
    requires { FloorsFit p.0 floors caps × Offered blocks caps }
    ensures { FilledAbove side p.0 floors caps prices result }
{
    let least = sum_of(floors);
    if least.0 == 0 {
        return fill(p, side, blocks, caps, prices);
    }
    let room = room_above(floors, caps);
    let left = p.less(least);
    let more = fill(left, side, blocks, room, prices);
    with_floors(floors, more)
}
