// A block's cap and, from edition 3 on, the floor behind it. An edition that lacks floors has 0.
#![tactic(auto)]

ghost use Rattle.std.specs.Prelude.{◌≡◌};
ghost use Rattle.model.specs.ByEdition.{block};
ghost use Rattle.fields.specs.Got.{got, seen};
ghost use Rattle.floor_reader.specs.Floors.{bounds_in};

use cell_groups::{MOST_POWER, POWER_BITS};
use fields::Read;
use kilowatts::Kw;
use layouts::Place;

// "Edition 3 adds .. a floor"
pub const FLOOR_EDITION: u32 = 3;

const NO_FLOOR: Kw = Kw(0);

// What a block's power lies between.
#[derive(Clone, Copy)]
pub struct Bounds {
    pub cap: Kw,
    pub floor: Kw,
}

// "a floor (17 bits) after each block's cap"; "A floor above its cap is a contradiction at the floor".
pub fn read_bounds(s: &[u8], p: Place, edition: u32) -> Read<Bounds>
    ensures { seen bounds_in result ≡ got (block edition) s.now p }
{
    let (cap, at_floor) = fields::read_figure(s, p, POWER_BITS, 0, MOST_POWER)?;
    if edition < FLOOR_EDITION {
        let bounds = Bounds {
            cap: Kw(cap),
            floor: NO_FLOOR,
        };
        return Ok((bounds, at_floor));
    }
    let (floor, past) = fields::read_figure(s, at_floor, POWER_BITS, 0, MOST_POWER)?;
    let bounds = Bounds {
        cap: Kw(cap),
        floor: Kw(floor),
    };
    Ok((bounds, fields::noted(floor <= cap, past, at_floor.at)))
}
