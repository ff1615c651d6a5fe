// A case's message in the newest edition, copied from its own bits.
#![tactic(auto)]

ghost use Rattle.std.specs.Prelude.{◌^◌, ◌≤◌, ◌<◌};
ghost use Rattle.bits.specs.Bits.{reach};
ghost use Rattle.model.specs.Editions.{interval_bits};
ghost use Rattle.writing.specs.Splice.{by};
ghost use Rattle.writing.specs.CaseSplices.{body_splice, content_splice, case_splice};
ghost use Rattle.bit_copier.specs.Moves.{Set, Moves, Renews};

use bit_copier::{
    Copier, add_field, keep_field, keep_run, keep_since, next_field, renew, widen_field,
};
use device_copier::copy_devices;
use editions::{NEWEST, device_bits, interval_bits};
use zone_copier::copy_zones;

// The widths of a case's fields ahead of its zones; those of devices and intervals are the newest edition's.
const KIND_BITS: u64 = 4;

const EDITION_BITS: u64 = 4;

const AHEAD_BITS: u64 = KIND_BITS + EDITION_BITS;

const DEVICES_BITS: u64 = 7;

const INTERVALS_BITS: u64 = 7;

const ZONES_BITS: u64 = 3;

const PRICE_BITS: u64 = 14;

const LIMIT_BITS: u64 = 17;

const HALF_BITS: u64 = 8;

// The kind of a case's message, and the edition that is written.
const CASE_KIND: u64 = 1;

const EDITION: u64 = NEWEST as u64;

// The edition with which the link's limit came.
const LIMIT_EDITION: u32 = 5;

// What stands behind a case's counts.
fn copy_body(
    s: &[u8],
    buf: &mut [u8],
    q: Copier,
    edition: u32,
    devices: u64,
    intervals: u64,
    zones: u64,
) -> Copier
    requires { Set s.now q × (intervals < 2 ^ 7) }
    ensures { Moves (body_splice edition devices intervals zones) s.now buf.old buf.new q result }
{
    let q = keep_field(s, buf, q, PRICE_BITS);
    let q = keep_field(s, buf, q, PRICE_BITS);
    let q = keep_since(s, buf, q, edition, LIMIT_EDITION, LIMIT_BITS, 0);
    let q = keep_run(s, buf, q, intervals * HALF_BITS);
    let q = copy_zones(s, buf, q, edition, intervals, zones);
    copy_devices(s, buf, q, edition, intervals, devices)
}

// The count of zones, and what stands behind it.
fn copy_zoned(
    s: &[u8],
    buf: &mut [u8],
    q: Copier,
    edition: u32,
    devices: u64,
    intervals: u64,
) -> Copier
    requires { Set s.now q × (intervals < 2 ^ 7) }
    ensures { Moves (by 3 3 (λ zones. body_splice edition devices intervals zones)) s.now buf.old buf.new q result }
{
    let zones = next_field(s, q, ZONES_BITS);
    let q = keep_field(s, buf, q, ZONES_BITS);
    copy_body(s, buf, q, edition, devices, intervals, zones)
}

// The count of intervals, and what stands behind it.
fn copy_timed(s: &[u8], buf: &mut [u8], q: Copier, edition: u32, devices: u64) -> Copier
    requires { Set s.now q }
    ensures { Moves (by (interval_bits edition) 7 (λ intervals. by 3 3 (λ zones. body_splice edition devices intervals zones)))
        s.now buf.old buf.new q result }
{
    let width = interval_bits(edition);
    let intervals = next_field(s, q, width);
    let q = widen_field(s, buf, q, width, INTERVALS_BITS);
    copy_zoned(s, buf, q, edition, devices, intervals)
}

// A case's content, its counts in the newest edition's widths.
fn copy_content(s: &[u8], buf: &mut [u8], q: Copier, edition: u32) -> Copier
    requires { Set s.now q }
    ensures { Moves (content_splice edition) s.now buf.old buf.new q result }
{
    let width = device_bits(edition);
    let devices = next_field(s, q, width);
    let q = widen_field(s, buf, q, width, DEVICES_BITS);
    copy_timed(s, buf, q, edition, devices)
}

// One pass over a case: kind and edition new, its content from behind the old ones.
fn copy_case(s: &[u8], buf: &mut [u8], q: Copier, edition: u32) -> Copier
    requires { Set s.now q }
    ensures { Moves (case_splice edition) s.now buf.old buf.new q result }
{
    let q = add_field(buf, q, KIND_BITS, CASE_KIND);
    let q = add_field(buf, q, EDITION_BITS, EDITION);
    copy_content(s, buf, q, edition)
}

// A case in the newest edition: how many bytes it takes, counted first; written only where they fit.
pub fn renew_case(s: &[u8], buf: &mut [u8], edition: u32) -> u64
    requires { 1 ≤ reach s.now }
    ensures { Renews (case_splice edition) 8 s.now buf.old buf.new result }
{
    renew(buf, AHEAD_BITS, move |buf, q| copy_case(s, buf, q, edition))
}
