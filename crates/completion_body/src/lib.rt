// What stands behind the front of a completion or of the market's copy, by widths alone: its figures in a lent table, or where it is cut.
#![tactic(auto)]

ghost use Rattle.std.specs.Prelude.{◌≡◌, ◌≤◌};
ghost use Rattle.model.specs.Editions.{most_zones};
ghost use Rattle.figure_reader.specs.Walks.{Runs};
ghost use Rattle.completion_reading.specs.Flat.{times, device_widths, slack_widths, interval_widths};
ghost use Rattle.completion_body.specs.Forms.{shortfalls_in, bars_in, mismatches_in, widths_of};

use completion_size::{
    BARS_EDITION, FLAG_BITS, MISMATCH_BITS, OVERRUN_BITS, POWER_BITS, REACTIVE_EDITION,
    SHORTFALL_BITS, STATE_BITS,
};
use editions::bits_since;
use figure_reader::{Walk, read_field, read_fields};

// Block powers of a device, and shortfalls of a zone in every edition and from edition 2 on.
const BLOCKS: u64 = 4;

const SHORTFALLS: u64 = 6;

const REACTIVE_SHORTFALLS: u64 = 2;

const SURPLUS_BITS: u64 = 64;

// What is read: a completion for the desk or a copy for the market, by its case's edition and counts.
#[derive(Clone, Copy)]
pub struct Form {
    pub desk: bool,
    pub edition: u32,
    pub devices: u32,
    pub intervals: u32,
    pub zones: u32,
    pub windows: u64,
}

// A device in an interval.
fn read_device(s: &[u8], w: Walk, desk: bool, table: &mut [u64]) -> Walk
    requires { w.count ≤ w.at }
    ensures { Runs s.now w table.old (device_widths desk) result table.new }
{
    let changes = read_fields(s, w, FLAG_BITS, 2, table);
    if !desk {
        return changes;
    }
    let state = read_field(s, changes, STATE_BITS, table);
    read_fields(s, state, POWER_BITS, BLOCKS, table)
}

// The devices of an interval.
fn read_devices(s: &[u8], w: Walk, desk: bool, devices: u32, table: &mut [u64]) -> Walk
    requires { w.count ≤ w.at }
    ensures { Runs s.now w table.old (times devices (device_widths desk)) result table.new }
{
    let mut t = w;
    for _k in 0..devices {
        t = read_device(s, t, desk, table);
    }
    t
}

// The shortfalls of a zone.
fn shortfalls(edition: u32) -> u64
    ensures { (result ≡ shortfalls_in edition) × (result ≤ 8) }
{
    SHORTFALLS + bits_since(edition, REACTIVE_EDITION, REACTIVE_SHORTFALLS)
}

// The mismatches of an interval, real or reactive: one for each bar.
fn bars(edition: u32) -> u64
    ensures { (result ≡ bars_in edition) × (result ≤ 2) }
{
    1 + bits_since(edition, BARS_EDITION, 1)
}

// The mismatches of an interval.
fn mismatches(edition: u32) -> u64
    ensures { result ≡ mismatches_in edition }
{
    let each = bars(edition);
    each + bits_since(edition, REACTIVE_EDITION, each)
}

// The shortfalls and mismatches of an interval.
fn read_slack(s: &[u8], w: Walk, edition: u32, zones: u32, table: &mut [u64]) -> Walk
    requires { (w.count ≤ w.at) × (zones ≤ most_zones) }
    ensures { Runs s.now w table.old (slack_widths edition zones) result table.new }
{
    let each = shortfalls(edition);
    let short = read_fields(s, w, SHORTFALL_BITS, zones as u64 * each, table);
    let all = mismatches(edition);
    read_fields(s, short, MISMATCH_BITS, all, table)
}

// An interval.
fn read_interval(s: &[u8], w: Walk, f: Form, table: &mut [u64]) -> Walk
    requires { (w.count ≤ w.at) × (f.zones ≤ most_zones) }
    ensures { Runs s.now w table.old (interval_widths f.desk f.edition f.devices f.zones) result table.new }
{
    let t = read_devices(s, w, f.desk, f.devices, table);
    read_slack(s, t, f.edition, f.zones, table)
}

// All intervals.
fn read_intervals(s: &[u8], w: Walk, f: Form, table: &mut [u64]) -> Walk
    requires { (w.count ≤ w.at) × (f.zones ≤ most_zones) }
    ensures { Runs s.now w table.old (times f.intervals (interval_widths f.desk f.edition f.devices f.zones)) result table.new }
{
    let mut t = w;
    for _k in 0..f.intervals {
        t = read_interval(s, t, f, table);
    }
    t
}

// All that stands behind the front.
pub fn read_body(s: &[u8], w: Walk, f: Form, table: &mut [u64]) -> Walk
    requires { (w.count ≤ w.at) × (f.zones ≤ most_zones) }
    ensures { Runs s.now w table.old (widths_of f) result table.new }
{
    let desk = f.desk;
    let t = read_intervals(s, w, f, table);
    let over = read_fields(s, t, OVERRUN_BITS, f.windows, table);
    if !desk {
        return over;
    }
    read_field(s, over, SURPLUS_BITS, table)
}
