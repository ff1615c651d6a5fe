// What a case says of two busbars and the link between them, which came with edition 5: a bar for each device, a limit for the link.
#![tactic(auto)]

ghost use Rattle.std.specs.Prelude.{◌≡◌, ◌≤◌};
ghost use Rattle.layouts.specs.Layout.{figure};
ghost use Rattle.layouts.specs.Since.{since};
ghost use Rattle.model.specs.ByEdition.{bar, link_limit};
ghost use Rattle.fields.specs.Got.{got};

use fields::Read;
use layouts::Place;

// The edition that they came with.
pub const SINCE: u32 = 5;

// "a link limit (17 bits ..)", 0..100,000
const LIMIT_BITS: u64 = 17;

const MOST_LIMIT: u32 = 100000;

// "a bar (1 bit ..)"
const BAR_BITS: u64 = 1;

const LAST_BAR: u32 = 1;

// A figure from 0 to most; an edition that lacks it has 0.
fn read_there(s: &[u8], p: Place, edition: u32, width: u64, most: u32) -> Read<u32>
    requires { width ≤ 64 }
    ensures { result ≡ got (since edition 5 0 (figure width 0 most)) s.now p }
{
    if edition < SINCE {
        return Ok((0, p));
    }
    fields::read_figure(s, p, width, 0, most)
}

pub fn read_limit(s: &[u8], p: Place, edition: u32) -> Read<u32>
    ensures { result ≡ got (since edition 5 0 link_limit) s.now p }
{
    read_there(s, p, edition, LIMIT_BITS, MOST_LIMIT)
}

pub fn read_bar(s: &[u8], p: Place, edition: u32) -> Read<u32>
    ensures { result ≡ got (since edition 5 0 bar) s.now p }
{
    read_there(s, p, edition, BAR_BITS, LAST_BAR)
}
