// The flow of a plan's interval, which came with edition 5, read against its layout.
#![tactic(auto)]

ghost use Rattle.std.specs.Prelude.{◌≡◌};
ghost use Rattle.layouts.specs.Since.{since};
ghost use Rattle.model.specs.Case.{no_flow};
ghost use Rattle.model.specs.ByEdition.{flow};
ghost use Rattle.fields.specs.Got.{got, seen, less};

use fields::Read;
use kilowatts::{MOST_KW, NO_KW, SIGNED_BITS, SIGNED_HALF};
use layouts::Place;

// The edition that it came with.
const SINCE: u32 = 5;

// "a flow from bar 0 to bar 1 (18 bits, ±100,000)", kept from 0; an edition that lacks it has none.
pub fn read_flow(s: &[u8], p: Place, edition: u32) -> Read<u32>
    ensures { seen (less 100000) result ≡ got (since edition 5 no_flow flow) s.now p }
{
    if edition < SINCE {
        return Ok((NO_KW.0, p));
    }
    fields::read_offset(s, p, SIGNED_BITS, SIGNED_HALF, MOST_KW)
}
