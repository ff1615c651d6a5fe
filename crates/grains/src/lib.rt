// "Units: power kW, time minutes, energy kW·min, money grains. Power, energy and money are never added to one another": money, and money each
// minute, as types of their own, whose methods keep the unit; and a ledger of money earned and spent.
#![tactic(auto)]

ghost use Rattle.std.specs.Prelude.{◌≡◌, ◌+◌, ◌-◌, ◌*◌, ◌<◌, ◌^◌};
ghost use Rattle.grains.specs.Money.{balance_of, Ledgered};

// Money.
#[derive(Clone, Copy)]
pub struct Grains(pub u64);

// Money each minute.
#[derive(Clone, Copy)]
pub struct Rate(pub u64);

// A product of two figures of 32 bits.
pub fn product(a: u32, b: u32) -> u64
    ensures { result ≡ a * b }
{
    u64::from(a) * u64::from(b)
}

impl Rate {
    pub fn plus(self, other: Rate) -> Rate
        requires { self.0 + other.0 < 2 ^ 64 }
        ensures { result.0 ≡ self.0 + other.0 }
    {
        Rate(self.0 + other.0)
    }

    // Over some minutes.
    pub fn over(self, minutes: u32) -> Grains
        requires { (self.0 < 2 ^ 44) × (minutes < 2 ^ 20) }
        ensures { result.0 ≡ minutes * self.0 }
    {
        Grains(u64::from(minutes) * self.0)
    }
}

impl Grains {
    pub fn plus(self, other: Grains) -> Grains
        requires { self.0 + other.0 < 2 ^ 64 }
        ensures { result.0 ≡ self.0 + other.0 }
    {
        Grains(self.0 + other.0)
    }

    // What it is above another, else 0.
    pub fn less(self, other: Grains) -> Grains
        ensures { result.0 ≡ self.0 - other.0 }
    {
        Grains(self.0.saturating_sub(other.0))
    }
}

// A rate of grains a minute, over some minutes.
pub fn cost_over(rate: u32, minutes: u32) -> Grains
    ensures { result.0 ≡ rate * minutes }
{
    Grains(product(rate, minutes))
}

// Money earned and money spent.
#[derive(Clone, Copy)]
pub struct Ledger {
    pub credit: Grains,
    pub debit: Grains,
}

impl Ledger {
    // One more earning.
    pub fn earn(self, money: Grains) -> Ledger
        requires { self.credit.0 + money.0 < 2 ^ 64 }
        ensures { Ledgered result (self.credit.0 + money.0) self.debit.0 }
    {
        Ledger {
            credit: self.credit.plus(money),
            ..self
        }
    }

    // One more expense.
    pub fn spend(self, money: Grains) -> Ledger
        requires { self.debit.0 + money.0 < 2 ^ 64 }
        ensures { Ledgered result self.credit.0 (self.debit.0 + money.0) }
    {
        Ledger {
            debit: self.debit.plus(money),
            ..self
        }
    }

    // What is earned less what is spent.
    pub fn balance(self) -> i64
        requires { (self.credit.0 < 2 ^ 63) × (self.debit.0 < 2 ^ 63) }
        ensures { result ≡ balance_of self }
    {
        let credit = self.credit.0 as i64;
        let debit = self.debit.0 as i64;
        credit - debit
    }
}

pub fn empty_ledger() -> Ledger
    ensures { Ledgered result 0 0 }
{
    Ledger {
        credit: Grains(0),
        debit: Grains(0),
    }
}
