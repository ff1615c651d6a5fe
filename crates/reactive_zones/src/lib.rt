// What a zone has of reactive reserves, from edition 2 on: two shortfall prices ahead of its intervals, two minima in each. An edition that lacks them has
// prices of 1 and minima of 0.
#![tactic(auto)]

ghost use Rattle.std.specs.Prelude.{◌≡◌, ◌≤◌};
ghost use Rattle.layouts.specs.Layout.{figure};
ghost use Rattle.layouts.specs.Since.{since};
ghost use Rattle.model.specs.Case.{no_reactive_reserves, unit_prices};
ghost use Rattle.model.specs.ByEdition.{reactive_minima, zone_reactive_prices};
ghost use Rattle.fields.specs.Got.{got, seen};
ghost use Rattle.reactive_zones.specs.Two.{two, two_of, prices_in, minima_in};

use fields::Read;
use kilovars::Kvar;
use layouts::Place;

// "Edition 2 adds the rules .."
const REACTIVE_EDITION: u32 = 2;

// "two prices, with rru's widths and ranges": 7 bits, 1..100
const PRICE_BITS: u64 = 7;

const LEAST_PRICE: u32 = 1;

const MOST_PRICE: u32 = 100;

// "two minima in kvar .., with rru's widths and ranges": 23 bits, 0..6,400,000
const MINIMUM_BITS: u64 = 23;

const MOST_MINIMUM: u32 = 6400000;

// What an edition has that lacks them.
pub const NEUTRAL_PRICE: u32 = 1;

pub const NO_MINIMUM: Kvar = Kvar(0);

// The shortfall prices of a zone, in grains per var·min.
#[derive(Clone, Copy)]
pub struct Prices {
    pub qru: u32,
    pub qrd: u32,
}

// The minima of a zone in one interval.
#[derive(Clone, Copy)]
pub struct Minima {
    pub qru: Kvar,
    pub qrd: Kvar,
}

// Two fields of one kind, "up before down".
fn read_two(s: &[u8], p: Place, width: u64, low: u32, high: u32) -> Read<[u32; 2]>
    requires { width ≤ 64 }
    ensures { seen two_of result ≡ got (two (figure width low high)) s.now p }
{
    let mut v = [0u32; 2];
    let past = field_rows::read_list(s, p, 2, width, low, high, &mut v)?;
    Ok((v, past))
}

// The two prices, ahead of a zone's intervals.
pub fn read_prices(s: &[u8], p: Place, edition: u32) -> Read<Prices>
    ensures { seen prices_in result ≡ got (since edition 2 unit_prices zone_reactive_prices) s.now p }
{
    if edition < REACTIVE_EDITION {
        let prices = Prices {
            qru: NEUTRAL_PRICE,
            qrd: NEUTRAL_PRICE,
        };
        return Ok((prices, p));
    }
    let ([qru, qrd], past) = read_two(s, p, PRICE_BITS, LEAST_PRICE, MOST_PRICE)?;
    Ok((Prices { qru, qrd }, past))
}

// The two minima of one interval.
pub fn read_minima(s: &[u8], p: Place, edition: u32) -> Read<Minima>
    ensures { seen minima_in result ≡ got (since edition 2 no_reactive_reserves reactive_minima) s.now p }
{
    if edition < REACTIVE_EDITION {
        let minima = Minima {
            qru: NO_MINIMUM,
            qrd: NO_MINIMUM,
        };
        return Ok((minima, p));
    }
    let ([qru, qrd], past) = read_two(s, p, MINIMUM_BITS, 0, MOST_MINIMUM)?;
    let minima = Minima {
        qru: Kvar(qru),
        qrd: Kvar(qrd),
    };
    Ok((minima, past))
}
