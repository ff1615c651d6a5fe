// Between offers, places and named sets: what the offers of each place have as floors, and the powers of the places in the order that their sets are named.
#![tactic(auto)]

ghost use Rattle.std.specs.Prelude.{◌≡◌, map, ◌-◌, length, get_or, take};
ghost use Rattle.dispatch_arrays.specs.Arrays.{SaneTo, Floors, Named};

use offers::Offer;

// The floors of the first n offers, by place.
pub fn floors_of(all: [Offer; 256], n: usize) -> [u64; 64]
    requires { SaneTo n all }
    ensures { Floors (take n all) result }
{
    let mut floors = [0u64; 64];
    for o in &all[..n] {
        floors[(o.set - 1) as usize] += o.floor;
    }
    floors
}

// The powers of the named sets, in the order named, over those lent.
pub fn write_powers(figures: [u64; 64], sets: &[u64], powers: &mut [u64])
    requires { Named sets.now powers.old }
    ensures { powers.new ≡ map (λ s. get_or figures (s - 1) 0) sets.now }
{
    for (j, s) in sets.iter().enumerate() {
        powers[j] = figures[(*s - 1) as usize];
    }
}
