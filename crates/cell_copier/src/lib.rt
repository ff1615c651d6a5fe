// A device's cells copied bit by bit into a message of the newest edition.
#![tactic(auto)]

ghost use Rattle.bits.specs.Pick.{pick};
ghost use Rattle.layouts.specs.Since.{has};
ghost use Rattle.std.specs.Prelude.{◌^◌, ◌<◌};
ghost use Rattle.writing.specs.Splice.{keep, add, ◌⨾◌, times};
ghost use Rattle.writing.specs.CaseSplices.{block_splice, cell_splice};
ghost use Rattle.bit_copier.specs.Moves.{Set, Moves};
ghost use Rattle.cell_copier.specs.Runs.{offer_splice};

use bit_copier::{Copier, add_field, copy_each, keep_field, keep_run, keep_since, next_field};

// The widths of a cell's fields: status, pmin and pmax; the count of blocks, each with cap, floor and price; eight reserve prices, then reactive limits and
// prices.
const STATUS_BITS: u64 = 2;

const KW_BITS: u64 = 17;

const HEAD_BITS: u64 = STATUS_BITS + 2 * KW_BITS;

const COUNT_BITS: u64 = 3;

const PRICE_BITS: u64 = 15;

const BLOCK_BITS: u64 = 2 * KW_BITS + PRICE_BITS;

const RESERVES_BITS: u64 = 8 * 14;

const REACTIVE_LIMITS_BITS: u64 = 2 * 18;

const REACTIVE_PRICES_BITS: u64 = 2 * 14;

const REACTIVE_BITS: u64 = REACTIVE_LIMITS_BITS + REACTIVE_PRICES_BITS;

const REST_BITS: u64 = RESERVES_BITS + REACTIVE_BITS;

// The editions with which reactive power and floors came.
const REACTIVE_EDITION: u32 = 2;

const FLOOR_EDITION: u32 = 3;

// A block: its cap, since edition 3 its floor, its price.
fn copy_block(s: &[u8], buf: &mut [u8], q: Copier, edition: u32) -> Copier
    requires { Set s.now q }
    ensures { Moves (block_splice edition ⨾ keep 15) s.now buf.old buf.new q result }
{
    let q = keep_field(s, buf, q, KW_BITS);
    let q = keep_since(s, buf, q, edition, FLOOR_EDITION, KW_BITS, 0);
    keep_field(s, buf, q, PRICE_BITS)
}

// What a cell has of reactive power, since edition 2: neutral figures are all 0.
fn copy_reactive(s: &[u8], buf: &mut [u8], q: Copier, edition: u32) -> Copier
    requires { Set s.now q }
    ensures { Moves (pick (has 2 edition) (keep 64) (add 36 0 ⨾ add 28 0)) s.now buf.old buf.new q result }
{
    if edition < REACTIVE_EDITION {
        let q = add_field(buf, q, REACTIVE_LIMITS_BITS, 0);
        return add_field(buf, q, REACTIVE_PRICES_BITS, 0);
    }
    keep_run(s, buf, q, REACTIVE_BITS)
}

// What stands behind the count of blocks: since edition 3 as it stands in the newest.
fn copy_offer(s: &[u8], buf: &mut [u8], q: Copier, edition: u32, n: u64) -> Copier
    requires { Set s.now q × (n < 2 ^ 3) }
    ensures { Moves (offer_splice edition n) s.now buf.old buf.new q result }
{
    if edition < FLOOR_EDITION {
        let q = copy_each(buf, q, n, move |buf, q| copy_block(s, buf, q, edition));
        let q = keep_run(s, buf, q, RESERVES_BITS);
        return copy_reactive(s, buf, q, edition);
    }
    let blocks = n * BLOCK_BITS;
    keep_run(s, buf, q, blocks + REST_BITS)
}

// A device in one interval: status and limits, "blocks 3 (0..4)", and the rest.
fn copy_cell(s: &[u8], buf: &mut [u8], q: Copier, edition: u32) -> Copier
    requires { Set s.now q }
    ensures { Moves (cell_splice edition) s.now buf.old buf.new q result }
{
    let q = keep_field(s, buf, q, HEAD_BITS);
    let n = next_field(s, q, COUNT_BITS);
    let q = keep_field(s, buf, q, COUNT_BITS);
    copy_offer(s, buf, q, edition, n)
}

// A device's cells.
pub fn copy_cells(s: &[u8], buf: &mut [u8], q: Copier, edition: u32, intervals: u64) -> Copier
    requires { Set s.now q }
    ensures { Moves (times intervals (cell_splice edition)) s.now buf.old buf.new q result }
{
    copy_each(
        buf,
        q,
        intervals,
        move |buf, q| copy_cell(s, buf, q, edition),
    )
}
