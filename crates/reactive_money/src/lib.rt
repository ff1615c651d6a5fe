// The money that reactive reserves, reactive shortfalls and reactive mismatches cost, entered in a ledger.
#![tactic(auto)]

ghost use Rattle.std.specs.Prelude.{◌≡◌, ◌+◌, ◌*◌, ◌≤◌};
ghost use Rattle.money.specs.Bounds.{minutes_most, short_price_most, reactive_shortfall_most};
ghost use Rattle.money.specs.Entries.{Room};
ghost use Rattle.reactive_money.specs.Charges.{HeldOf, HeldEntered, short_most, ReactiveZoneOf, ReactiveZoneEntered, ReactiveIntervalOf, ReactiveMismatchEntered};

use cell_rows::reactive_cell_at;
use grains::{Grains, Ledger};
use kilovars::{Kvar, KvarPrice, Var, VarPrice};
use row_places::{CellRow, SettingRow, Zone};
use setting_rows::reactive_at;

// A device's reactive reserves in one interval, its figures at place k: "d·reserve costs". Where none is held its prices are not looked at.
pub fn reactive_reserves_money(
    l: Ledger,
    cells: &[CellRow],
    settings: &[SettingRow],
    k: usize,
    minutes: u32,
) -> Ledger
    requires { Room 0 l × HeldOf cells.now settings.now k minutes }
    ensures { HeldEntered cells.now settings.now k minutes l result }
{
    let x = reactive_at(settings, k);
    let held = x.qru.plus(x.qrd);
    if held.0 == 0 {
        return l;
    }
    let prices = reactive_cell_at(cells, k);
    let up = x.qru.at(prices.qru);
    let down = x.qrd.at(prices.qrd);
    l.spend(up.plus(down).over(minutes))
}

// A reactive shortfall over some minutes at its price.
fn short_cost(x: Var, price: VarPrice, minutes: u32) -> Grains
    requires { (x.0 ≤ reactive_shortfall_most) × (price.0 ≤ short_price_most) × (minutes ≤ minutes_most) }
    ensures { (result.0 ≡ minutes * (price.0 * x.0)) × (result.0 ≤ short_most) }
{
    x.priced(price, minutes)
}

// A zone's two reactive shortfalls in one interval: "d·shortfall prices".
pub fn reactive_zone_money(l: Ledger, qru: Var, qrd: Var, zone: Zone, minutes: u32) -> Ledger
    requires { Room 0 l × ReactiveZoneOf zone minutes qru.0 qrd.0 }
    ensures { ReactiveZoneEntered zone minutes qru.0 qrd.0 l result }
{
    let up = short_cost(qru, zone.qru, minutes);
    let down = short_cost(qrd, zone.qrd, minutes);
    l.spend(up.plus(down))
}

// An interval's reactive mismatches, of both bars, "priced like the real one".
pub fn reactive_mismatch_money(
    l: Ledger,
    first: Kvar,
    second: Kvar,
    price: u32,
    minutes: u32,
) -> Ledger
    requires { Room 0 l × ReactiveIntervalOf price minutes (first.0 + second.0) }
    ensures { ReactiveMismatchEntered price minutes (first.0 + second.0) l result }
{
    l.spend(first.plus(second).at(KvarPrice(price)).over(minutes))
}
