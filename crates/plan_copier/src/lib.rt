// A plan's message in the newest edition, copied from its own bits.
#![tactic(auto)]

ghost use Rattle.std.specs.Prelude.{◌≡◌, ◌*◌, ◌^◌, ◌≤◌, ◌<◌};
ghost use Rattle.bits.specs.Bits.{reach};
ghost use Rattle.bits.specs.Pick.{pick};
ghost use Rattle.layouts.specs.Since.{has};
ghost use Rattle.writing.specs.Splice.{keep, add, ◌⨾◌, times};
ghost use Rattle.writing.specs.PlanSplices.{setting_splice, plan_splice, front_of};
ghost use Rattle.pen.specs.Pens.{Ready};
ghost use Rattle.bit_copier.specs.Moves.{Set, Moves, Renews};
ghost use Rattle.plan_copier.specs.Fronts.{Fronts};

use bit_copier::{Copier, add_field, copy_each, keep_run, keep_since, renew};
use editions::{NEWEST, device_bits, interval_bits};

// The widths of a plan's fields: kind, edition and, as the newest edition has them, the counts; in each interval and device its on, online power and eight
// reserves, then reactive power and two reactive reserves; behind an interval's devices the flow.
const KIND_BITS: u64 = 4;

const EDITION_BITS: u64 = 4;

const AHEAD_BITS: u64 = KIND_BITS + EDITION_BITS;

const DEVICES_BITS: u64 = 7;

const INTERVALS_BITS: u64 = 7;

const ACTIVE_BITS: u64 = 1 + 9 * 17;

const REACTIVE_BITS: u64 = 18 + 2 * 17;

const FLOW_BITS: u64 = 18;

// The kind of a plan's message, and the edition that is written.
const PLAN_KIND: u64 = 2;

const EDITION: u64 = NEWEST as u64;

// The editions with which reactive power and the flow came.
const REACTIVE_EDITION: u32 = 2;

const FLOW_EDITION: u32 = 5;

// A device in one interval: since edition 2 three reactive figures behind the others.
fn copy_setting(s: &[u8], buf: &mut [u8], q: Copier, edition: u32) -> Copier
    requires { Set s.now q }
    ensures { Moves (setting_splice edition) s.now buf.old buf.new q result }
{
    let q = keep_run(s, buf, q, ACTIVE_BITS);
    keep_since(s, buf, q, edition, REACTIVE_EDITION, REACTIVE_BITS, 0)
}

// An interval: its devices, and since edition 5 its flow.
fn copy_interval(s: &[u8], buf: &mut [u8], q: Copier, edition: u32, devices: u64) -> Copier
    requires { Set s.now q }
    ensures { Moves (times devices (setting_splice edition) ⨾ pick (has 5 edition) (keep 18) (add 18 0)) s.now buf.old buf.new q result }
{
    let q = copy_each(buf, q, devices, move |buf, q| {
        copy_setting(s, buf, q, edition)
    });
    keep_since(s, buf, q, edition, FLOW_EDITION, FLOW_BITS, 0)
}

// Where a plan's rows begin.
fn front_bits(edition: u32) -> u64
    ensures { result ≡ front_of edition }
{
    AHEAD_BITS + device_bits(edition) + interval_bits(edition)
}

// Kind, edition and counts, in the newest edition's widths.
fn add_front(buf: &mut [u8], q: Copier, devices: u64, intervals: u64) -> Copier
    requires { Ready q.pen × (devices < 2 ^ 7) × (intervals < 2 ^ 7) }
    ensures { Fronts devices intervals buf.old buf.new q result }
{
    let q = add_field(buf, q, KIND_BITS, PLAN_KIND);
    let q = add_field(buf, q, EDITION_BITS, EDITION);
    let q = add_field(buf, q, DEVICES_BITS, devices);
    add_field(buf, q, INTERVALS_BITS, intervals)
}

// One pass over a plan: its front new, its rows from behind the old one.
fn copy_plan(
    s: &[u8],
    buf: &mut [u8],
    q: Copier,
    edition: u32,
    devices: u64,
    intervals: u64,
) -> Copier
    requires { Set s.now q × (devices < 2 ^ 7) × (intervals < 2 ^ 7) }
    ensures { Moves (plan_splice edition devices intervals) s.now buf.old buf.new q result }
{
    let q = add_front(buf, q, devices, intervals);
    copy_each(buf, q, intervals, move |buf, q| {
        copy_interval(s, buf, q, edition, devices)
    })
}

// A plan in the newest edition: how many bytes it takes, counted first; written only where they fit.
pub fn renew_plan(s: &[u8], buf: &mut [u8], edition: u32, devices: u64, intervals: u64) -> u64
    requires { (front_of edition ≤ 8 * reach s.now) × (devices < 2 ^ 7) × (intervals < 2 ^ 7) }
    ensures { Renews (plan_splice edition devices intervals) (front_of edition) s.now buf.old buf.new result }
{
    let from = front_bits(edition);
    renew(buf, from, move |buf, q| {
        copy_plan(s, buf, q, edition, devices, intervals)
    })
}
