// Reactive power in kvar, a type of its own: never added to kW by accident. Its methods keep the unit.
#![tactic(auto)]

ghost use Rattle.std.specs.Prelude.{◌≡◌, ◌+◌, ◌-◌, ◌*◌, ◌<◌, ◌^◌};

use grains::{Grains, Rate, product};

// An amount of reactive reserve, or of reactive mismatch.
#[derive(Clone, Copy)]
pub struct Kvar(pub u32);

// A reactive power of either sign, kept from 0: the figure is the number less 100,000.
#[derive(Clone, Copy)]
pub struct SignedKvar(pub u32);

// Its field, "18 bits, ±100,000" in two's complement; half is the weight of its highest bit.
pub const KVAR_BITS: u64 = 18;

pub const KVAR_HALF: u64 = 131072;

pub const MOST_KVAR: u64 = 100000;

// No reactive power, as it is kept.
pub const NO_KVAR: SignedKvar = SignedKvar(MOST_KVAR as u32);

// Reactive power in thousandths of a kvar.
#[derive(Clone, Copy)]
pub struct Var(pub u64);

// Prices, in grains per kvar·min and in grains per var·min.
#[derive(Clone, Copy)]
pub struct KvarPrice(pub u32);

#[derive(Clone, Copy)]
pub struct VarPrice(pub u32);

impl Kvar {
    pub fn plus(self, other: Kvar) -> Kvar
        requires { self.0 + other.0 < 2 ^ 32 }
        ensures { result.0 ≡ self.0 + other.0 }
    {
        Kvar(self.0 + other.0)
    }

    // How far it is from another.
    pub fn apart(self, other: Kvar) -> Kvar
        ensures { result.0 ≡ (self.0 - other.0) + (other.0 - self.0) }
    {
        Kvar(self.0.abs_diff(other.0))
    }

    // What it is worth each minute, at a price.
    pub fn at(self, price: KvarPrice) -> Rate
        ensures { result.0 ≡ price.0 * self.0 }
    {
        Rate(product(price.0, self.0))
    }

    // The same reactive power.
    pub fn in_var(self) -> Var
        ensures { result.0 ≡ 1000 * self.0 }
    {
        Var(product(1000, self.0))
    }
}

impl Var {
    // What it is above another, else 0.
    pub fn less(self, other: Var) -> Var
        ensures { result.0 ≡ self.0 - other.0 }
    {
        Var(self.0.saturating_sub(other.0))
    }

    // Over some minutes, at a price.
    pub fn priced(self, price: VarPrice, minutes: u32) -> Grains
        requires { (self.0 < 2 ^ 36) × (price.0 < 2 ^ 14) × (minutes < 2 ^ 14) }
        ensures { result.0 ≡ minutes * (price.0 * self.0) }
    {
        Grains(u64::from(minutes) * (u64::from(price.0) * self.0))
    }
}
