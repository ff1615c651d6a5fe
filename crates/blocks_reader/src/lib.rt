// A cell's blocks: their count and that many.
#![tactic(auto)]

ghost use Rattle.std.specs.Prelude.{◌≡◌, true, ◌+◌, ◌*◌, ◌≤◌, ◌<◌, Ok, IfSome};
ghost use Rattle.bits.specs.Bits.{reach};
ghost use Rattle.fields.specs.Got.{got, seen};
ghost use Rattle.cell_groups.specs.Groups.{block, block_in, BlocksDone};
ghost use Rattle.blocks_reader.specs.Words.{plain_bits, floor_bits, block_with, BlockFits};

use bits::bits_at;
use cell_groups::{Block, Blocks, MOST_POWER, POWER_BITS};
use fields::Read;
use floor_reader::{FLOOR_EDITION, read_bounds};
use kilowatts::Kw;
use layouts::Place;
use word_fields::{field_in, has_bits, offset_in};

// "blocks 3 (0..4)"
const COUNT_BITS: u64 = 3;

const MOST_BLOCKS: u32 = 4;

// "price 15 (±10,000)"; half is the weight of its highest bit
const PRICE_BITS: u64 = 15;

const PRICE_HALF: u64 = 16384;

const MOST_PRICE: u64 = 10000;

// The greatest price, as it is kept.
const MOST_KEPT: u32 = 2 * MOST_PRICE as u32;

// A block is a word, without its floor and with it.
const PLAIN_BITS: u64 = POWER_BITS + PRICE_BITS;

const FLOOR_BITS: u64 = 2 * POWER_BITS + PRICE_BITS;

const ABSENT: Block = Block {
    cap: Kw(0),
    floor: Kw(0),
    price: 0,
};

// Whether each is in its range, and the floor is not above the cap.
fn block_fits(cap: u32, floor: u32, price: u32) -> bool
    ensures { result ≡ true → BlockFits cap floor price }
{
    cap <= MOST_POWER && floor <= cap && price <= MOST_KEPT
}

// A block that was read up to p, where it fits.
fn block_of(cap: u32, floor: u32, price: u32, p: Place) -> Option<(Block, Place)>
    ensures { IfSome result (λ x. (x ≡ (block_with cap floor price, p)) × BlockFits cap floor price) }
{
    if !block_fits(cap, floor, price) {
        return None;
    }
    let block = Block {
        cap: Kw(cap),
        floor: Kw(floor),
        price,
    };
    Some((block, p))
}

// Cap and price by one word.
fn plain_word(s: &[u8], p: Place, edition: u32) -> Option<(Block, Place)>
    requires { (edition < 3) × (p.at + plain_bits ≤ 8 * reach s.now) }
    ensures { IfSome result (λ x. seen block_in (Ok x) ≡ got (block edition) s.now p) }
{
    let word = bits_at(s, p.at, PLAIN_BITS);
    let cap = field_in(word, PRICE_BITS, POWER_BITS);
    let price = offset_in(word, 0, PRICE_BITS, MOST_PRICE);
    let past = Place {
        at: p.at + PLAIN_BITS,
        ..p
    };
    block_of(cap, 0, price, past)
}

// Cap, floor and price by one word.
fn floor_word(s: &[u8], p: Place, edition: u32) -> Option<(Block, Place)>
    requires { (3 ≤ edition) × (p.at + floor_bits ≤ 8 * reach s.now) }
    ensures { IfSome result (λ x. seen block_in (Ok x) ≡ got (block edition) s.now p) }
{
    let word = bits_at(s, p.at, FLOOR_BITS);
    let cap = field_in(word, POWER_BITS + PRICE_BITS, POWER_BITS);
    let floor = field_in(word, PRICE_BITS, POWER_BITS);
    let price = offset_in(word, 0, PRICE_BITS, MOST_PRICE);
    let past = Place {
        at: p.at + FLOOR_BITS,
        ..p
    };
    block_of(cap, floor, price, past)
}

// By a word, where the message has one. The contract leaves free where it declines: the block is then read field by field.
fn quick_block(s: &[u8], p: Place, edition: u32) -> Option<(Block, Place)>
    ensures { IfSome result (λ x. seen block_in (Ok x) ≡ got (block edition) s.now p) }
{
    if !has_bits(s, p.at, FLOOR_BITS) {
        return None;
    }
    if edition < FLOOR_EDITION {
        return plain_word(s, p, edition);
    }
    floor_word(s, p, edition)
}

// "each cap 17 and price 15 (±10,000)"; the floor stands between them. Field by field: from here comes every refusal.
fn exact_block(s: &[u8], p: Place, edition: u32) -> Read<Block>
    ensures { seen block_in result ≡ got (block edition) s.now p }
{
    let (bounds, at_price) = read_bounds(s, p, edition)?;
    let (price, past) = fields::read_offset(s, at_price, PRICE_BITS, PRICE_HALF, MOST_PRICE)?;
    let block = Block {
        cap: bounds.cap,
        floor: bounds.floor,
        price,
    };
    Ok((block, past))
}

fn read_block(s: &[u8], p: Place, edition: u32) -> Read<Block>
    ensures { seen block_in result ≡ got (block edition) s.now p }
{
    if let Some(read) = quick_block(s, p, edition) {
        return Ok(read);
    }
    exact_block(s, p, edition)
}

// The count of blocks and that many; absent blocks have cap 0 and floor 0.
pub fn read_blocks(s: &[u8], p: Place, edition: u32) -> Read<Blocks>
    ensures { BlocksDone edition s.now p result }
{
    let (count, start) = fields::read_count(s, p, COUNT_BITS, 0, MOST_BLOCKS)?;
    let mut blocks = [ABSENT; 4];
    let mut q = start;
    for i in 0..count as usize {
        let (block, next) = read_block(s, q, edition)?;
        blocks[i] = block;
        q = next;
    }
    Ok((Blocks { count, blocks }, q))
}
