// The intervals of our completion: each figure is computed once, its money entered in a ledger and its bits written behind those before it.
#![tactic(auto)]

ghost use Rattle.std.specs.Prelude.{◌≡◌, ◌*◌, ◌<◌, length, get_or};
ghost use Rattle.pen.specs.Pens.{Ready};
ghost use Rattle.pen.specs.Runs.{Room};
ghost use Rattle.records.specs.Views.{most_devices, most_intervals};
ghost use Rattle.model.specs.Editions.{most_zones};
ghost use Rattle.money.specs.Bounds.{device_most, kinds_most, mismatches_most, interval_most};
ghost use Rattle.money.specs.Entries.{Spare};
ghost use Rattle.money.specs.Unbroken.{Unbroken};
ghost use Rattle.slack_money.specs.Charges.{IntervalOf};
ghost use Rattle.reactive_money.specs.Charges.{ReactiveIntervalOf};
ghost use Rattle.completion_size.specs.Size.{device_width, zone_width, interval_width};
ghost use Rattle.interval_completions.specs.Advances.{both, both_reactive, MismatchesEntered, DevicesAdvance, ZonesAdvance, IntervalAdvances, IntervalsAdvance};

use cell_rows::cell_at;
use choice_writer::put_choice;
use choices::choose;
use completion_writer::{put_mismatches, put_shortfalls};
use grains::Ledger;
use kilowatts::Kw;
use mismatches::{BarMismatches, mismatches};
use money::cell_money;
use progress::Progress;
use reactive_mismatches::{ReactiveMismatches, reactive_mismatches};
use reactive_money::{reactive_mismatch_money, reactive_reserves_money, reactive_zone_money};
use reactive_shortfalls::reactive_shortfalls;
use reactive_writer::{put_reactive_mismatches, put_reactive_shortfalls};
use row_places::{CellRow, DeviceRow, Front, MinimaRow, SettingRow, ZoneRow};
use setting_rows::setting_at;
use slack_money::{mismatch_money, zone_money};
use zone_rows::{minima_at, zone_at};
use zone_shortfalls::shortfalls;

// The devices of interval t: "per device started, stopped, startup state, four block powers".
fn complete_devices(
    front: Front,
    halves: &[u32],
    zones: &[ZoneRow],
    minima: &[MinimaRow],
    devices: &[DeviceRow],
    cells: &[CellRow],
    settings: &[SettingRow],
    starts: &[u32],
    powers: &[u32],
    t: usize,
    minutes: u32,
    buf: &mut [u8],
    p: Progress,
) -> Progress
    requires unbroken { Unbroken front halves.now zones.now minima.now devices.now cells.now settings.now starts.now powers.now × (t < length halves.now)
        × (minutes ≡ 2 * get_or halves.now t 0) }
    requires ready { Ready p.pen × Room buf.old p.pen (length devices.now * device_width) × Spare (most_devices * device_most) p.money }
    ensures { DevicesAdvance front halves.now zones.now minima.now devices.now cells.now settings.now t
        (length devices.now) buf.old buf.new p result }
{
    let m = halves.len();
    let mut money = p.money;
    let mut pen = p.pen;
    for i in 0..devices.len() {
        let a = i * m;
        let k = a + t;
        let power = Kw(powers[k]);
        let cell = cell_at(cells, k);
        let x = choose(devices, i, cell, &settings[a..a + m], starts, power, t);
        // read again: its prices are loaded where they are used
        let cell = cell_at(cells, k);
        let setting = setting_at(settings, k);
        money = cell_money(money, x, devices, i, cell, setting, power, minutes);
        money = reactive_reserves_money(money, cells, settings, k, minutes);
        pen = put_choice(buf, pen, x.started, x.stopped, x.state, x.blocks);
    }
    Progress { money, pen }
}

// Its zones: "then per zone six shortfalls in W, in the order of their prices"; since edition 2 two in var behind them.
fn complete_zones(
    front: Front,
    halves: &[u32],
    zones: &[ZoneRow],
    minima: &[MinimaRow],
    devices: &[DeviceRow],
    cells: &[CellRow],
    settings: &[SettingRow],
    starts: &[u32],
    powers: &[u32],
    t: usize,
    minutes: u32,
    buf: &mut [u8],
    p: Progress,
) -> Progress
    requires unbroken { Unbroken front halves.now zones.now minima.now devices.now cells.now settings.now starts.now powers.now × (t < length halves.now)
        × (minutes ≡ 2 * get_or halves.now t 0) }
    requires ready { Ready p.pen × Room buf.old p.pen (length zones.now * zone_width front.edition) × Spare (most_zones * kinds_most) p.money }
    ensures { ZonesAdvance front halves.now zones.now minima.now devices.now cells.now settings.now t
        (length zones.now) buf.old buf.new p result }
{
    let m = halves.len();
    let mut money = p.money;
    let mut pen = p.pen;
    for z in 0..zones.len() {
        let zone = zone_at(zones, z);
        let least = minima_at(minima, z * m + t);
        let two = reactive_shortfalls(least, devices, settings, m, t, z);
        let six = shortfalls(zone, least, devices, settings, powers, m, t, z);
        money = zone_money(money, six, zone, minutes);
        money = reactive_zone_money(money, two.qru, two.qrd, zone, minutes);
        pen = put_shortfalls(buf, pen, six);
        pen = put_reactive_shortfalls(buf, pen, front.edition, two.qru, two.qrd);
    }
    Progress { money, pen }
}

// The money of an interval's mismatches, real and reactive.
fn mismatches_money(
    l: Ledger,
    real: BarMismatches,
    reactive: ReactiveMismatches,
    price: u32,
    minutes: u32,
) -> Ledger
    requires { Spare mismatches_most l × IntervalOf price minutes (both real) × ReactiveIntervalOf price minutes (both_reactive reactive) }
    ensures { MismatchesEntered price minutes (both real) (both_reactive reactive) l result }
{
    let l = mismatch_money(l, real.first, real.second, price, minutes);
    reactive_mismatch_money(l, reactive.first, reactive.second, price, minutes)
}

// Interval t: its devices, its zones, "then mismatch" of each bar, and since edition 2 the reactive ones.
fn complete_interval(
    front: Front,
    halves: &[u32],
    zones: &[ZoneRow],
    minima: &[MinimaRow],
    devices: &[DeviceRow],
    cells: &[CellRow],
    settings: &[SettingRow],
    starts: &[u32],
    powers: &[u32],
    t: usize,
    buf: &mut [u8],
    p: Progress,
) -> Progress
    requires unbroken { Unbroken front halves.now zones.now minima.now devices.now cells.now settings.now starts.now powers.now × (t < length halves.now) }
    requires ready { Ready p.pen × Room buf.old p.pen (interval_width front.edition (length devices.now) (length zones.now)) × Spare interval_most p.money }
    ensures { IntervalAdvances front halves.now zones.now minima.now devices.now cells.now settings.now t
        buf.old buf.new p result }
{
    let minutes = 2 * halves[t];
    let a = complete_devices(
        front, halves, zones, minima, devices, cells, settings, starts, powers, t, minutes, buf, p,
    );
    let b = complete_zones(
        front, halves, zones, minima, devices, cells, settings, starts, powers, t, minutes, buf, a,
    );
    let real = mismatches(devices, settings, powers, halves.len(), t);
    let reactive = reactive_mismatches(devices, settings, halves.len(), t);
    let money = mismatches_money(b.money, real, reactive, front.mismatch, minutes);
    let pen = put_mismatches(buf, b.pen, front.edition, real.first, real.second);
    let pen = put_reactive_mismatches(buf, pen, front.edition, reactive.first, reactive.second);
    Progress { money, pen }
}

// The intervals, one behind the other.
pub fn complete_intervals(
    front: Front,
    halves: &[u32],
    zones: &[ZoneRow],
    minima: &[MinimaRow],
    devices: &[DeviceRow],
    cells: &[CellRow],
    settings: &[SettingRow],
    starts: &[u32],
    powers: &[u32],
    buf: &mut [u8],
    p: Progress,
) -> Progress
    requires unbroken { Unbroken front halves.now zones.now minima.now devices.now cells.now settings.now starts.now powers.now }
    requires ready { Ready p.pen × Room buf.old p.pen (length halves.now * interval_width front.edition (length devices.now) (length zones.now))
        × Spare (most_intervals * interval_most) p.money }
    ensures { IntervalsAdvance front halves.now zones.now minima.now devices.now cells.now settings.now
        (length halves.now) buf.old buf.new p result }
{
    let mut q = p;
    for t in 0..halves.len() {
        q = complete_interval(
            front, halves, zones, minima, devices, cells, settings, starts, powers, t, buf, q,
        );
    }
    q
}
