// The market's copy of a completion, from the completion's own bits: startup states, block powers and surplus are left out.
#![tactic(auto)]

ghost use Rattle.std.specs.Prelude.{◌^◌, ◌≤◌};
ghost use Rattle.bits.specs.Pick.{pick};
ghost use Rattle.layouts.specs.Since.{has};
ghost use Rattle.writing.specs.Splice.{none, keep, times};
ghost use Rattle.market.specs.CopySplice.{change_splice, short_splice, bars_splice, interval_splice, front_splice, copy_splice};
ghost use Rattle.bit_copier.specs.Moves.{Set, Moves, Renews};
ghost use Rattle.market_copier.specs.Counts.{counts_in};
ghost use Rattle.market_copier.specs.Skips.{Skipped};

use bit_copier::{Copier, add_field, copy_each, keep_field, keep_run, renew};
use bits::reached;
use editions::{device_bits, interval_bits};

// The widths of a completion's fields: kind, edition and zones (those of the other counts go by the edition); of a device in an interval whether it is
// started, whether it is stopped, its startup state and the powers of its four blocks; of a zone its six shortfalls and two reactive ones; a bar's mismatch;
// an overrun; the surplus.
const KIND_BITS: u64 = 4;

const EDITION_BITS: u64 = 4;

const ZONES_BITS: u64 = 3;

const CHANGE_BITS: u64 = 1;

const STATE_BITS: u64 = 3;

const BLOCKS_BITS: u64 = 4 * 17;

const SHORTFALLS_BITS: u64 = 6 * 33;

const REACTIVE_SHORTFALLS_BITS: u64 = 2 * 33;

const MISMATCH_BITS: u64 = 23;

const OVERRUN_BITS: u64 = 32;

const SURPLUS_BITS: u64 = 64;

// The kind of a market copy's message.
const MARKET_KIND: u64 = 4;

// The editions with which reactive power and a second bar came.
const REACTIVE_EDITION: u32 = 2;

const BARS_EDITION: u32 = 5;

// The next bits of the message are left out.
fn skip_bits(s: &[u8], q: Copier, width: u64) -> Copier
    requires { Set s.now q }
    ensures { Skipped width s.now q result }
{
    let from = q.from;
    if 8 * reached(s) - from < width {
        return q;
    }
    Copier {
        from: from + width,
        ..q
    }
}

// What came with an edition: copied where the message has it.
fn keep_if(s: &[u8], buf: &mut [u8], q: Copier, edition: u32, since: u32, width: u64) -> Copier
    requires { Set s.now q }
    ensures { Moves (pick (has since edition) (keep width) none) s.now buf.old buf.new q result }
{
    if edition < since {
        return q;
    }
    keep_run(s, buf, q, width)
}

// A device in one interval: started and stopped.
fn copy_change(s: &[u8], buf: &mut [u8], q: Copier) -> Copier
    requires { Set s.now q }
    ensures { Moves change_splice s.now buf.old buf.new q result }
{
    let q = keep_field(s, buf, q, CHANGE_BITS);
    let q = keep_field(s, buf, q, CHANGE_BITS);
    let q = skip_bits(s, q, STATE_BITS);
    skip_bits(s, q, BLOCKS_BITS)
}

// A zone's shortfalls.
fn copy_short(s: &[u8], buf: &mut [u8], q: Copier, edition: u32) -> Copier
    requires { Set s.now q }
    ensures { Moves (short_splice edition) s.now buf.old buf.new q result }
{
    let q = keep_run(s, buf, q, SHORTFALLS_BITS);
    keep_if(
        s,
        buf,
        q,
        edition,
        REACTIVE_EDITION,
        REACTIVE_SHORTFALLS_BITS,
    )
}

// The mismatches of the bars, real or reactive.
fn copy_bars(s: &[u8], buf: &mut [u8], q: Copier, edition: u32) -> Copier
    requires { Set s.now q }
    ensures { Moves (bars_splice edition) s.now buf.old buf.new q result }
{
    let q = keep_field(s, buf, q, MISMATCH_BITS);
    keep_if(s, buf, q, edition, BARS_EDITION, MISMATCH_BITS)
}

// The reactive ones, since edition 2.
fn copy_reactive_bars(s: &[u8], buf: &mut [u8], q: Copier, edition: u32) -> Copier
    requires { Set s.now q }
    ensures { Moves (pick (has 2 edition) (bars_splice edition) none) s.now buf.old buf.new q result }
{
    if edition < REACTIVE_EDITION {
        return q;
    }
    copy_bars(s, buf, q, edition)
}

// One interval: its devices, its zones, its bars.
fn copy_interval(
    s: &[u8],
    buf: &mut [u8],
    q: Copier,
    edition: u32,
    devices: u64,
    zones: u64,
) -> Copier
    requires { Set s.now q }
    ensures { Moves (interval_splice edition devices zones) s.now buf.old buf.new q result }
{
    let q = copy_each(buf, q, devices, move |buf, q| copy_change(s, buf, q));
    let q = copy_each(buf, q, zones, move |buf, q| copy_short(s, buf, q, edition));
    let q = copy_bars(s, buf, q, edition);
    copy_reactive_bars(s, buf, q, edition)
}

// The front, with the market's kind.
fn copy_front(s: &[u8], buf: &mut [u8], q: Copier, edition: u32) -> Copier
    requires { Set s.now q }
    ensures { Moves (front_splice edition) s.now buf.old buf.new q result }
{
    let d = device_bits(edition);
    let i = interval_bits(edition);
    let q = skip_bits(s, q, KIND_BITS);
    let q = add_field(buf, q, KIND_BITS, MARKET_KIND);
    let q = keep_run(s, buf, q, EDITION_BITS);
    let q = keep_run(s, buf, q, d);
    let q = keep_run(s, buf, q, i);
    keep_run(s, buf, q, ZONES_BITS)
}

// One pass over a completion.
fn copy_completion(
    s: &[u8],
    buf: &mut [u8],
    q: Copier,
    edition: u32,
    devices: u64,
    intervals: u64,
    zones: u64,
    windows: u64,
) -> Copier
    requires { Set s.now q × (windows ≤ 2 ^ 32) }
    ensures { Moves (copy_splice edition (counts_in devices intervals zones) windows) s.now buf.old buf.new q result }
{
    let q = copy_front(s, buf, q, edition);
    let q = copy_each(buf, q, intervals, move |buf, q| {
        copy_interval(s, buf, q, edition, devices, zones)
    });
    let q = keep_run(s, buf, q, windows * OVERRUN_BITS);
    skip_bits(s, q, SURPLUS_BITS)
}

// The market's copy: how many bytes it takes, counted first; written only where they fit.
pub fn copy_for_market(
    s: &[u8],
    buf: &mut [u8],
    edition: u32,
    devices: u64,
    intervals: u64,
    zones: u64,
    windows: u64,
) -> u64
    requires { windows ≤ 2 ^ 32 }
    ensures { Renews (copy_splice edition (counts_in devices intervals zones) windows) 0 s.now buf.old buf.new result }
{
    renew(buf, 0, move |buf, q| {
        copy_completion(s, buf, q, edition, devices, intervals, zones, windows)
    })
}
