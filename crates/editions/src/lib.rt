// What depends on a message's edition, in code: widths and limits, each an equation with its definition. An edition is a number.
#![tactic(auto)]

ghost use Rattle.std.specs.Prelude.{◌≡◌, min};
ghost use Rattle.numbers.specs.Sum.{gate};
ghost use Rattle.layouts.specs.Since.{has};
ghost use Rattle.model.specs.Editions as E;

// The newest edition there is.
pub const NEWEST: u32 = 5;

// The edition that widened counts and most starts.
const WIDE: u32 = 4;

// The largest counts that a reader takes, in whatever edition.
#[derive(Clone, Copy)]
pub struct Largest {
    pub devices: u32,
    pub intervals: u32,
}

// What edition 4 widened: the figure since then, or the one before.
fn widened(edition: u32, after: u32, before: u32) -> u32
    ensures { result ≡ E.widened edition after before }
{
    if edition < WIDE { before } else { after }
}

// The widths of the counts of devices and intervals.
pub fn device_bits(edition: u32) -> u64
    ensures { result ≡ E.device_bits edition }
{
    widened(edition, 7, 5) as u64
}

pub fn interval_bits(edition: u32) -> u64
    ensures { result ≡ E.interval_bits edition }
{
    widened(edition, 7, 6) as u64
}

// The edition's own limits.
fn device_limit(edition: u32) -> u32
    ensures { result ≡ E.device_limit edition }
{
    widened(edition, 64, 16)
}

fn interval_limit(edition: u32) -> u32
    ensures { result ≡ E.interval_limit edition }
{
    widened(edition, 96, 48)
}

// What of them a reader takes.
pub fn devices_in(edition: u32, most: u32) -> u32
    ensures { result ≡ min most (E.device_limit edition) }
{
    most.min(device_limit(edition))
}

pub fn intervals_in(edition: u32, most: u32) -> u32
    ensures { result ≡ min most (E.interval_limit edition) }
{
    most.min(interval_limit(edition))
}

// "most starts": its width and its limit.
pub fn starts_bits(edition: u32) -> u64
    ensures { result ≡ E.starts_bits edition }
{
    widened(edition, 7, 6) as u64
}

pub fn most_starts(edition: u32) -> u32
    ensures { result ≡ E.most_starts edition }
{
    widened(edition, 96, 48)
}

// The bits of what came with edition k: none in an older one.
pub fn bits_since(edition: u32, k: u32, bits: u64) -> u64
    ensures { result ≡ gate (has k edition) bits }
{
    if edition < k { 0 } else { bits }
}
