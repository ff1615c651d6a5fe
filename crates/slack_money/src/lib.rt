// The money that shortfalls, mismatches and overruns cost, entered in a ledger.
#![tactic(auto)]

ghost use Rattle.std.specs.Prelude.{◌≡◌, ◌+◌, ◌*◌, ◌≤◌};
ghost use Rattle.money.specs.Bounds.{minutes_most, short_price_most, shortfall_most, short_most, zone_most};
ghost use Rattle.money.specs.Entries.{Room};
ghost use Rattle.slack_money.specs.Charges.{SixSmall, six_cost, ZoneOf, ZoneEntered, IntervalOf, MismatchEntered, OverrunOf, OverrunEntered};

use energy::{KwMin, Watts};
use grains::{Grains, Ledger};
use kilowatts::Kw;
use row_places::Zone;

// A shortfall over some minutes at its price.
fn short_cost(x: Watts, price: u32, minutes: u32) -> Grains
    requires { (x.0 ≤ shortfall_most) × (price ≤ short_price_most) × (minutes ≤ minutes_most) }
    ensures { (result.0 ≡ minutes * (price * x.0)) × (result.0 ≤ short_most) }
{
    x.priced(price, minutes)
}

fn six_cost(x: [Watts; 6], prices: [u32; 6], minutes: u32) -> Grains
    requires { SixSmall x prices × (minutes ≤ minutes_most) }
    ensures { (result.0 ≡ minutes * six_cost prices x) × (result.0 ≤ zone_most) }
{
    let a = short_cost(x[0], prices[0], minutes);
    let b = short_cost(x[1], prices[1], minutes);
    let c = short_cost(x[2], prices[2], minutes);
    let d = short_cost(x[3], prices[3], minutes);
    let e = short_cost(x[4], prices[4], minutes);
    let f = short_cost(x[5], prices[5], minutes);
    a.plus(b).plus(c).plus(d).plus(e).plus(f)
}

// A zone's shortfalls in one interval, in the order of their prices: "d·shortfall prices".
pub fn zone_money(l: Ledger, x: [Watts; 6], zone: Zone, minutes: u32) -> Ledger
    requires { Room 0 l × ZoneOf zone minutes x }
    ensures { ZoneEntered zone minutes x l result }
{
    l.spend(six_cost(x, zone.prices, minutes))
}

// An interval's mismatches, of both bars: "d·mismatch price".
pub fn mismatch_money(l: Ledger, first: Kw, second: Kw, price: u32, minutes: u32) -> Ledger
    requires { Room 0 l × IntervalOf price minutes (first.0 + second.0) }
    ensures { MismatchEntered price minutes (first.0 + second.0) l result }
{
    l.spend(first.plus(second).over(minutes).priced(price))
}

// An energy window's overrun: "overrun price·overrun".
pub fn overrun_money(l: Ledger, e: KwMin, price: u32) -> Ledger
    requires { Room 0 l × OverrunOf price e.0 }
    ensures { OverrunEntered price e.0 l result }
{
    l.spend(e.priced(price))
}
