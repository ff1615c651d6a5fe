// "Units: power kW, time minutes, energy kW·min, money grains. Power, energy and money are never added to one another": power as a type of its own,
// whose methods keep the unit.
#![tactic(auto)]

ghost use Rattle.std.specs.Prelude.{◌≡◌, ◌+◌, ◌-◌, ◌*◌, ◌<◌, ◌^◌, min, max, leb};

use energy::{KwMin, Watts};
use grains::{Rate, product};

// Power.
#[derive(Clone, Copy)]
pub struct Kw(pub u32);

// A power of either sign, kept from 0: the figure is the number less 100,000.
#[derive(Clone, Copy)]
pub struct SignedKw(pub u32);

// Its field, "18 bits, ±100,000" in two's complement; half is the weight of its highest bit.
pub const SIGNED_BITS: u64 = 18;

pub const SIGNED_HALF: u64 = 131072;

pub const MOST_KW: u64 = 100000;

// No power, as it is kept.
pub const NO_KW: SignedKw = SignedKw(MOST_KW as u32);

impl Kw {
    pub fn plus(self, other: Kw) -> Kw
        requires { self.0 + other.0 < 2 ^ 32 }
        ensures { result.0 ≡ self.0 + other.0 }
    {
        Kw(self.0 + other.0)
    }

    // What it is above another, else 0.
    pub fn less(self, other: Kw) -> Kw
        ensures { result.0 ≡ self.0 - other.0 }
    {
        Kw(self.0.saturating_sub(other.0))
    }

    // How far it is from another.
    pub fn apart(self, other: Kw) -> Kw
        ensures { result.0 ≡ (self.0 - other.0) + (other.0 - self.0) }
    {
        Kw(self.0.abs_diff(other.0))
    }

    pub fn least(self, other: Kw) -> Kw
        ensures { result.0 ≡ min self.0 other.0 }
    {
        Kw(self.0.min(other.0))
    }

    pub fn most(self, other: Kw) -> Kw
        ensures { result.0 ≡ max self.0 other.0 }
    {
        Kw(self.0.max(other.0))
    }

    pub fn at_most(self, other: Kw) -> bool
        ensures { result ≡ leb self.0 other.0 }
    {
        self.0 <= other.0
    }

    // Held over some minutes.
    pub fn over(self, minutes: u32) -> KwMin
        ensures { result.0 ≡ self.0 * minutes }
    {
        KwMin(product(self.0, minutes))
    }

    // What it is worth each minute, at a price in grains per kW·min.
    pub fn at(self, price: u32) -> Rate
        ensures { result.0 ≡ price * self.0 }
    {
        Rate(product(price, self.0))
    }

    // The same power.
    pub fn in_watts(self) -> Watts
        ensures { result.0 ≡ 1000 * self.0 }
    {
        Watts(product(1000, self.0))
    }

    // Some thousandths of it.
    pub fn share(self, thousandths: u32) -> Watts
        ensures { result.0 ≡ thousandths * self.0 }
    {
        Watts(product(thousandths, self.0))
    }
}
