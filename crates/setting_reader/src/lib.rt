// A plan's setting of every edition, read field by field against its layout.
#![tactic(auto)]

ghost use Rattle.std.specs.Prelude.{◌≡◌, ◌+◌};
ghost use Rattle.model.specs.Messages.{active};
ghost use Rattle.model.specs.ByEdition.{setting};
ghost use Rattle.records.specs.Views.{eight_in};
ghost use Rattle.ranges.specs.Kept.{reserves_of};
ghost use Rattle.fields.specs.Got.{got, seen};
ghost use Rattle.setting_words.specs.Settings.{active_in, setting_held};

use fields::Read;
use kilowatts::Kw;
use layouts::Place;
use reactive_reader::read_reactive;
use row_places::{Reserves, Setting};
use setting_words::{Active, KW_BITS, MOST_KW};

// "The eight, in order".
fn reserves_of(v: [u32; 8]) -> Reserves
    ensures { eight_in result ≡ reserves_of v }
{
    Reserves {
        rgu: Kw(v[0]),
        rgd: Kw(v[1]),
        scr: Kw(v[2]),
        nsc: Kw(v[3]),
        rruon: Kw(v[4]),
        rruoff: Kw(v[5]),
        rrdon: Kw(v[6]),
        rrdoff: Kw(v[7]),
    }
}

// Field by field: from here comes every refusal.
fn exact_active(s: &[u8], p: Place) -> Read<Active>
    ensures { seen active_in result ≡ got active s.now p }
{
    let (on, at_online) = fields::read_figure(s, p, 1, 0, 1)?;
    let (online, at_reserves) = fields::read_figure(s, at_online, KW_BITS, 0, MOST_KW)?;
    let (values, past) = field_rows::read_eight(s, at_reserves, KW_BITS, MOST_KW)?;
    let active = Active {
        on,
        online: Kw(online),
        reserves: reserves_of(values),
    };
    Ok((active, past))
}

// A setting of an edition: the figures that every edition has, then the reactive ones.
pub fn read_setting(s: &[u8], p: Place, edition: u32) -> Read<Setting>
    ensures { seen setting_held result ≡ got (setting edition) s.now p }
{
    let (active, at_reactive) = exact_active(s, p)?;
    let (reactive, past) = read_reactive(s, at_reactive, edition)?;
    let setting = Setting {
        on: active.on,
        online: active.online,
        reserves: active.reserves,
        reactive,
    };
    Ok((setting, past))
}
