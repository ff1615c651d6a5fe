// A case's devices copied bit by bit into a message of the newest edition.
#![tactic(auto)]

ghost use Rattle.bits.specs.Pick.{pick};
ghost use Rattle.layouts.specs.Since.{has};
ghost use Rattle.model.specs.ByEdition.{first_line, second_line};
ghost use Rattle.writing.specs.Splice.{none, keep, add, by, ◌⨾◌, times};
ghost use Rattle.writing.specs.CaseSplices.{start_splice, link_splice, device_splice};
ghost use Rattle.bit_copier.specs.Moves.{Set, Moves};

use bit_copier::{
    Copier, add_field, copy_each, keep_counted, keep_field, keep_run, keep_since, next_field,
    widen_field,
};
use cell_copier::copy_cells;
use editions::starts_bits;

// The widths of what stands ahead of a device's intervals: its side, zone bits, initial state and power, minutes, minima and ramps; three costs; eight limits.
const HEAD_BITS: u64 = 1 + 4 + 1 + 17 + 3 * 16 + 4 * 17;

const COSTS_BITS: u64 = 17 + 2 * 30;

const LIMITS_BITS: u64 = 8 * 17;

// A startup state, an energy window and the two ends of a window.
const STATE_BITS: u64 = 16 + 31;

const ENERGY_BITS: u64 = 2 * 16 + 33;

const ENDS_BITS: u64 = 2 * 16;

const COUNT_BITS: u64 = 3;

// Most starts, since edition 4.
const STARTS_BITS: u64 = 7;

// A link's kind and a line of it.
const LINK_BITS: u64 = 2;

const LINE_BITS: u64 = 18 + 15;

const TWO_LINES_BITS: u64 = 2 * LINE_BITS;

const NO_LINK: u64 = 0;

const TWO_LINES: u64 = 1;

const BAR_BITS: u64 = 1;

// The editions with which links and bars came.
const LINK_EDITION: u32 = 2;

const BARS_EDITION: u32 = 5;

// A start window: its ends, and its most starts in the newest edition's width.
fn copy_start(s: &[u8], buf: &mut [u8], q: Copier, edition: u32) -> Copier
    requires { Set s.now q }
    ensures { Moves (start_splice edition) s.now buf.old buf.new q result }
{
    let width = starts_bits(edition);
    let q = keep_field(s, buf, q, ENDS_BITS);
    widen_field(s, buf, q, width, STARTS_BITS)
}

// "start windows 3 (0..4)", and that many.
fn copy_starts(s: &[u8], buf: &mut [u8], q: Copier, edition: u32) -> Copier
    requires { Set s.now q }
    ensures { Moves (by 3 3 (λ n. times n (start_splice edition))) s.now buf.old buf.new q result }
{
    let n = next_field(s, q, COUNT_BITS);
    let q = keep_field(s, buf, q, COUNT_BITS);
    copy_each(buf, q, n, move |buf, q| copy_start(s, buf, q, edition))
}

// The lines of a link kind: two, one or none.
fn copy_lines(s: &[u8], buf: &mut [u8], q: Copier, kind: u64) -> Copier
    requires { Set s.now q }
    ensures { Moves (pick (first_line kind) (keep 33) none ⨾ pick (second_line kind) (keep 33) none) s.now buf.old buf.new q result }
{
    if kind == NO_LINK {
        return q;
    }
    if kind == TWO_LINES {
        return keep_run(s, buf, q, TWO_LINES_BITS);
    }
    keep_field(s, buf, q, LINE_BITS)
}

// A device's link, since edition 2: none is neutral.
fn copy_link(s: &[u8], buf: &mut [u8], q: Copier, edition: u32) -> Copier
    requires { Set s.now q }
    ensures { Moves (pick (has 2 edition) link_splice (add 2 0)) s.now buf.old buf.new q result }
{
    if edition < LINK_EDITION {
        return add_field(buf, q, LINK_BITS, NO_LINK);
    }
    let kind = next_field(s, q, LINK_BITS);
    let q = keep_field(s, buf, q, LINK_BITS);
    copy_lines(s, buf, q, kind)
}

// A device: what stands ahead of its intervals, since edition 5 its bar last, then its cells.
fn copy_device(s: &[u8], buf: &mut [u8], q: Copier, edition: u32, intervals: u64) -> Copier
    requires { Set s.now q }
    ensures { Moves (device_splice edition intervals) s.now buf.old buf.new q result }
{
    let q = keep_run(s, buf, q, HEAD_BITS);
    let q = keep_run(s, buf, q, COSTS_BITS);
    let q = keep_run(s, buf, q, LIMITS_BITS);
    let q = keep_counted(s, buf, q, STATE_BITS);
    let q = copy_starts(s, buf, q, edition);
    let q = keep_counted(s, buf, q, ENERGY_BITS);
    let q = copy_link(s, buf, q, edition);
    let q = keep_since(s, buf, q, edition, BARS_EDITION, BAR_BITS, 0);
    copy_cells(s, buf, q, edition, intervals)
}

// So many devices.
pub fn copy_devices(
    s: &[u8],
    buf: &mut [u8],
    q: Copier,
    edition: u32,
    intervals: u64,
    devices: u64,
) -> Copier
    requires { Set s.now q }
    ensures { Moves (times devices (device_splice edition intervals)) s.now buf.old buf.new q result }
{
    copy_each(buf, q, devices, move |buf, q| {
        copy_device(s, buf, q, edition, intervals)
    })
}
