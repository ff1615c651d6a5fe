// The next of a device's blocks, straight from its offer: the cheapest first when producing, the dearest when consuming; "lower-numbered block first".
#![tactic(auto)]

ghost use Rattle.std.specs.Prelude.{◌≡◌, false, ◌≤◌, ◌<◌, eqb};
ghost use Rattle.block_pick.specs.Order.{ahead, ahead_in};
ghost use Rattle.block_pick.specs.Picks.{Below, better, next_of, Picks};

// The most blocks that an offer has.
const MOST_BLOCKS: usize = 4;

// Whether a block at the price a goes ahead of one at b that has a lower number.
fn goes_ahead(side: u32, a: u32, b: u32) -> bool
    ensures { result ≡ ahead (eqb side 1) a b false }
{
    if side == 1 { b < a } else { a < b }
}

// The better of what was found among lower numbers and block k.
fn better_of(side: u32, prices: [u32; 4], found: Option<usize>, k: usize) -> Option<usize>
    requires { (k < 4) × Below k found }
    ensures { result ≡ better (ahead_in (eqb side 1) prices) found k }
{
    let Some(j) = found else {
        return Some(k);
    };
    if goes_ahead(side, prices[k], prices[j]) {
        Some(k)
    } else {
        found
    }
}

// The next of the first n blocks: of those not picked yet the one ahead of the others.
fn next_among(side: u32, prices: [u32; 4], n: usize, picked: [bool; 4]) -> Option<usize>
    requires { n ≤ 4 }
    ensures { result ≡ next_of (eqb side 1) prices n picked }
{
    let mut found = None;
    for k in 0..n {
        if !picked[k] {
            found = better_of(side, prices, found, k);
        }
    }
    found
}

// The next of the blocks that the offer has; none exactly where all are picked. A full offer goes by a number that the compiler knows, so that its loop is
// unrolled.
pub fn next(side: u32, prices: [u32; 4], blocks: usize, picked: [bool; 4]) -> Option<usize>
    requires { blocks ≤ 4 }
    ensures { Picks (eqb side 1) prices blocks picked result }
{
    if blocks == MOST_BLOCKS {
        return next_among(side, prices, MOST_BLOCKS, picked);
    }
    next_among(side, prices, blocks, picked)
}
