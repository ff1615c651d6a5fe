// "Units: power kW, time minutes, energy kW·min, money grains. Power, energy and money are never added to one another": energy, and the power in
// which shortfalls are told, as types of their own, whose methods keep the unit.
#![tactic(auto)]

ghost use Rattle.std.specs.Prelude.{◌≡◌, ◌+◌, ◌-◌, ◌*◌, ◌<◌, ◌^◌};

use grains::Grains;

// Energy.
#[derive(Clone, Copy)]
pub struct KwMin(pub u64);

// Power in thousandths of a kW.
#[derive(Clone, Copy)]
pub struct Watts(pub u64);

impl KwMin {
    pub fn plus(self, other: KwMin) -> KwMin
        requires { self.0 + other.0 < 2 ^ 64 }
        ensures { result.0 ≡ self.0 + other.0 }
    {
        KwMin(self.0 + other.0)
    }

    // What it is above another, else 0.
    pub fn less(self, other: KwMin) -> KwMin
        ensures { result.0 ≡ self.0 - other.0 }
    {
        KwMin(self.0.saturating_sub(other.0))
    }

    // At a price in grains per kW·min.
    pub fn priced(self, price: u32) -> Grains
        requires { (self.0 < 2 ^ 44) × (price < 2 ^ 20) }
        ensures { result.0 ≡ self.0 * price }
    {
        Grains(self.0 * u64::from(price))
    }
}

impl Watts {
    pub fn plus(self, other: Watts) -> Watts
        requires { self.0 + other.0 < 2 ^ 64 }
        ensures { result.0 ≡ self.0 + other.0 }
    {
        Watts(self.0 + other.0)
    }

    // What it is above another, else 0.
    pub fn less(self, other: Watts) -> Watts
        ensures { result.0 ≡ self.0 - other.0 }
    {
        Watts(self.0.saturating_sub(other.0))
    }

    // Over some minutes, at a price in grains per W·min.
    pub fn priced(self, price: u32, minutes: u32) -> Grains
        requires { (self.0 < 2 ^ 36) × (price < 2 ^ 14) × (minutes < 2 ^ 14) }
        ensures { result.0 ≡ minutes * (price * self.0) }
    {
        Grains(u64::from(minutes) * (u64::from(price) * self.0))
    }
}
