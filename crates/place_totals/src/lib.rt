// Figures by place, one for each of the 64 devices that a case can have: their sum, and whether the bounds of all allow a target.
#![tactic(auto)]

ghost use Rattle.std.specs.Prelude.{◌≡◌, ◌≤◌, ◌↔◌, IsTrue, EachIndex, slice_index};
ghost use Rattle.place_totals.specs.Totals.{Small, total_of, meetable};

// The sum of the figures.
pub fn total_of(figures: [u64; 64]) -> u64
    requires { Small figures }
    ensures { result ≡ total_of figures }
{
    let mut sum = 0;
    for x in &figures {
        sum += *x;
    }
    sum
}

// Whether no place has its least above its most.
fn ordered(lo: [u64; 64], hi: [u64; 64]) -> bool
    ensures { IsTrue result ↔ EachIndex lo (λ i. slice_index lo i ≤ slice_index hi i) }
{
    lo.iter().zip(&hi).all(|(least, most)| least <= most)
}

// Whether figures between these bounds can add up to the target; the bounds are in order before they are summed, so that no sum wraps.
pub fn can_meet(lo: [u64; 64], hi: [u64; 64], target: u64) -> bool
    requires { Small hi }
    ensures { result ≡ meetable lo hi target }
{
    ordered(lo, hi) && total_of(lo) <= target && target <= total_of(hi)
}
