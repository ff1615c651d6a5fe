// The money that a device brings in an interval, entered in a ledger.
#![tactic(auto)]

ghost use Rattle.std.specs.Prelude.{◌≡◌, ◌+◌, ◌*◌, ◌≤◌, ◌<◌, pos, neg_ℤ, eqb, length};
ghost use Rattle.row_places.specs.Figures.{device_at};
ghost use Rattle.choices.specs.States.{cost_of};
ghost use Rattle.money.specs.Bounds.{power_most, minutes_most, rate_most, blocks_most, worth_most};
ghost use Rattle.money.specs.Bounds.{trade_most, on_most, state_most, change_most, reserves_most, cell_most};
ghost use Rattle.money.specs.Entries.{Entered, Room};
ghost use Rattle.money.specs.Worth.{Amounts, Priced, FourPriced, value_of, trade_of};
ghost use Rattle.money.specs.Costs.{CostsBelow, StateBelow, changes_of, AmountsBelow, PricesBelow, OfState, on_cost, off_cost, eight_cost};
ghost use Rattle.money.specs.Ruled.{Ruled};
ghost use Rattle.money.specs.Terms.{CellEntered};
ghost use Rattle.records.specs.Views.{most_states};

use choices::Choice;
use device_rows::{oncost_at, side_at, startcost_at, state_at, stopcost_at};
use energy::{KwMin, Watts};
use grains::{Grains, Ledger, Rate, cost_over};
use kilowatts::Kw;
use row_places::{Cell, DeviceRow, ReservePrices, Reserves, Setting};

// Block prices are kept from 0, the price and this.
const PRICE_OFFSET: u32 = 10_000;

// State costs are kept from 0, the cost and this.
const COST_OFFSET: u64 = 1_000_000_000;

// What a power is worth each minute at a price; nothing is worth 0 whatever its price.
fn worth(p: Kw, price: u32) -> Rate
    requires { (p.0 ≤ power_most) × Priced p.0 price }
    ensures { Amounts (price * p.0) worth_most result.0 }
{
    p.at(price)
}

fn blocks_worth(powers: [Kw; 4], kept: [u32; 4]) -> Rate
    requires { FourPriced powers kept }
    ensures { Amounts (value_of powers kept) (blocks_most * worth_most) result.0 }
{
    let a = worth(powers[0], kept[0]);
    let b = worth(powers[1], kept[1]);
    let c = worth(powers[2], kept[2]);
    let d = worth(powers[3], kept[3]);
    a.plus(b).plus(c).plus(d)
}

// "d·price·power of consuming blocks − producing blocks", with the prices' offset on the other side.
fn blocks_money(
    l: Ledger,
    side: u32,
    p: Kw,
    powers: [Kw; 4],
    kept: [u32; 4],
    minutes: u32,
) -> Ledger
    requires { Room reserves_most l × (p.0 ≤ power_most) × (minutes ≤ minutes_most) × FourPriced powers kept }
    ensures { Entered l result (trade_of (eqb side 1) minutes (value_of powers kept) p.0) trade_most }
{
    let offset = worth(p, PRICE_OFFSET).over(minutes);
    let value = blocks_worth(powers, kept).over(minutes);
    if side == 1 {
        l.earn(value).spend(offset)
    } else {
        l.earn(offset).spend(value)
    }
}

// A cost as often as it is due, at most once.
fn due(cost: Grains, times: u32) -> Grains
    requires { times ≤ 1 }
    ensures { (result.0 ≡ cost.0 * times) × (result.0 ≤ cost.0) }
{
    if times == 1 { cost } else { Grains(0) }
}

// "d·on cost·u"
fn on_money(l: Ledger, rate: u32, on: u32, minutes: u32) -> Ledger
    requires { Room (reserves_most + trade_most) l × (rate ≤ rate_most) × (on ≤ 1) × (minutes ≤ minutes_most) }
    ensures { Entered l result (neg_ℤ (pos (minutes * (rate * on)))) on_most }
{
    l.spend(due(cost_over(rate, minutes), on))
}

// A startup state's cost, which is kept from 0.
fn state_money(l: Ledger, devices: &[DeviceRow], i: usize, state: u32) -> Ledger
    requires { (i < length devices.now) × Room cell_most l × (state ≤ most_states) × StateBelow (device_at devices.now i) state }
    ensures { Entered l result (neg_ℤ (cost_of (device_at devices.now i) state)) state_most }
{
    if state == 0 {
        return l;
    }
    let s = state_at(devices, i, (state - 1) as usize);
    l.earn(Grains(COST_OFFSET)).spend(Grains(u64::from(s.cost)))
}

// "start, stop and state costs"
fn change_money(
    l: Ledger,
    devices: &[DeviceRow],
    i: usize,
    started: u32,
    stopped: u32,
    state: u32,
) -> Ledger
    requires { (i < length devices.now) × Room (reserves_most + trade_most + on_most) l × CostsBelow (device_at devices.now i) × (started ≤ 1) × (stopped ≤ 1) ×
        (state ≤ most_states) × StateBelow (device_at devices.now i) state }
    ensures { Entered l result (changes_of (device_at devices.now i) started stopped state) change_most }
{
    let start = due(startcost_at(devices, i), started);
    let stop = due(stopcost_at(devices, i), stopped);
    let m = l.spend(start).spend(stop);
    state_money(m, devices, i, state)
}

// The reserves of a device that is on; those of the other state are none.
fn on_reserves(a: Reserves, b: ReservePrices) -> Rate
    requires { AmountsBelow a × PricesBelow b }
    ensures { Amounts (on_cost b a) (8 * worth_most) result.0 }
{
    let rgu = worth(a.rgu, b.rgu);
    let rgd = worth(a.rgd, b.rgd);
    let scr = worth(a.scr, b.scr);
    let rruon = worth(a.rruon, b.rruon);
    let rrdon = worth(a.rrdon, b.rrdon);
    rgu.plus(rgd).plus(scr).plus(rruon).plus(rrdon)
}

// Those of a device that is off.
fn off_reserves(a: Reserves, b: ReservePrices) -> Rate
    requires { AmountsBelow a × PricesBelow b }
    ensures { Amounts (off_cost b a) (8 * worth_most) result.0 }
{
    let nsc = worth(a.nsc, b.nsc);
    let rruoff = worth(a.rruoff, b.rruoff);
    let rrdoff = worth(a.rrdoff, b.rrdoff);
    nsc.plus(rruoff).plus(rrdoff)
}

// What the amounts a cost each minute at the prices b.
fn reserves_rate(a: Reserves, b: ReservePrices, on: u32) -> Rate
    requires { AmountsBelow a × PricesBelow b × OfState on a }
    ensures { Amounts (eight_cost b a) (8 * worth_most) result.0 }
{
    if on == 1 {
        on_reserves(a, b)
    } else {
        off_reserves(a, b)
    }
}

// "d·reserve costs"
fn reserves_money(l: Ledger, a: Reserves, b: ReservePrices, on: u32, minutes: u32) -> Ledger
    requires { Room 0 l × (minutes ≤ minutes_most) × AmountsBelow a × PricesBelow b × OfState on a }
    ensures { Entered l result (neg_ℤ (pos (minutes * eight_cost b a))) reserves_most }
{
    l.spend(reserves_rate(a, b, on).over(minutes))
}

// What device i brings in one interval of so many minutes: its blocks' worth less its costs.
pub fn cell_money(
    l: Ledger,
    x: Choice,
    devices: &[DeviceRow],
    i: usize,
    cell: Cell,
    setting: Setting,
    p: Kw,
    minutes: u32,
) -> Ledger
    requires { (i < length devices.now) × Room 0 l × Ruled (device_at devices.now i) cell setting p.0 minutes x }
    ensures { CellEntered (device_at devices.now i) cell setting p.0 minutes x l result }
{
    let reserved = reserves_money(l, setting.reserves, cell.reserves, setting.on, minutes);
    let traded = blocks_money(
        reserved,
        side_at(devices, i),
        p,
        x.blocks,
        cell.prices,
        minutes,
    );
    let running = on_money(traded, oncost_at(devices, i), setting.on, minutes);
    change_money(running, devices, i, x.started, x.stopped, x.state)
}
