// The widths of a completion's fields, and how many bytes its message takes, of every edition.
#![tactic(auto)]

ghost use Rattle.std.specs.Prelude.{◌≡◌, ◌+◌, ◌*◌, ◌^◌, ◌≤◌, ◌<◌};
ghost use Rattle.model.specs.Editions.{most_devices, most_intervals, most_zones, most_windows};
ghost use Rattle.completion_size.specs.Size.{front_width, zone_width, bars_width, mismatches_width, interval_width, needed};

use editions::{bits_since, device_bits, interval_bits};

// The widths of its fields.
pub const KIND_BITS: u64 = 4;

pub const EDITION_BITS: u64 = 4;

pub const ZONES_BITS: u64 = 3;

pub const FLAG_BITS: u64 = 1;

pub const STATE_BITS: u64 = 3;

pub const POWER_BITS: u64 = 17;

pub const SHORTFALL_BITS: u64 = 33;

pub const MISMATCH_BITS: u64 = 23;

pub const OVERRUN_BITS: u64 = 32;

const SURPLUS_BITS: u64 = 64;

// The edition with which reactive shortfalls and mismatches came.
pub const REACTIVE_EDITION: u32 = 2;

// The edition with which a mismatch for each bar came.
pub const BARS_EDITION: u32 = 5;

// A device's part of an interval; a zone's shortfalls of real power, and of reactive power.
const DEVICE_BITS: u64 = FLAG_BITS + FLAG_BITS + STATE_BITS + 4 * POWER_BITS;

const SIX_BITS: u64 = 6 * SHORTFALL_BITS;

const TWO_BITS: u64 = 2 * SHORTFALL_BITS;

// The bits of a message ahead of its intervals.
fn front_bits(edition: u32) -> u64
    ensures { (result ≡ front_width edition) × (result ≤ 25) }
{
    KIND_BITS + EDITION_BITS + device_bits(edition) + interval_bits(edition) + ZONES_BITS
}

// The bits of a zone in an interval.
fn zone_bits(edition: u32) -> u64
    ensures { (result ≡ zone_width edition) × (result ≤ 264) }
{
    SIX_BITS + bits_since(edition, REACTIVE_EDITION, TWO_BITS)
}

// The bits of the bars' mismatches, real or reactive.
fn bars_bits(edition: u32) -> u64
    ensures { (result ≡ bars_width edition) × (result ≤ 46) }
{
    MISMATCH_BITS + bits_since(edition, BARS_EDITION, MISMATCH_BITS)
}

// The bits of an interval's mismatches.
fn mismatches_bits(edition: u32) -> u64
    ensures { (result ≡ mismatches_width edition) × (result ≤ 92) }
{
    let bars = bars_bits(edition);
    bars + bits_since(edition, REACTIVE_EDITION, bars)
}

// The bits of its intervals.
fn intervals_bits(edition: u32, devices: u64, intervals: u64, zones: u64) -> u64
    requires { (devices ≤ most_devices) × (intervals ≤ most_intervals) × (zones ≤ most_zones) }
    ensures { (result ≡ intervals * interval_width edition devices zones) × (result < 2 ^ 32) }
{
    let zone = zone_bits(edition);
    let mismatches = mismatches_bits(edition);
    intervals * (devices * DEVICE_BITS + zones * zone + mismatches)
}

// The bytes that a completion of these counts takes.
pub fn bytes_needed(edition: u32, devices: u64, intervals: u64, zones: u64, windows: u64) -> u64
    requires { (devices ≤ most_devices) × (intervals ≤ most_intervals) × (zones ≤ most_zones) × (windows ≤ most_devices * most_windows) }
    ensures { result ≡ needed edition devices intervals zones windows }
{
    let front = front_bits(edition) + intervals_bits(edition, devices, intervals, zones);
    let bits = front + windows * OVERRUN_BITS + SURPLUS_BITS;
    bits.div_ceil(8)
}
