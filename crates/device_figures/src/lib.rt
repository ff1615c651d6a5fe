// What a case says of a device ahead of its intervals, part by part but for its lists: side and zone bits; single figures; its link and its bar.
#![tactic(auto)]

ghost use Rattle.std.specs.Prelude.{◌≡◌, true, ◌*◌, ◌≤◌, length};
ghost use Rattle.fields.specs.Got.{got, seen};
ghost use Rattle.field_rows.specs.Each.{row, narrow};
ghost use Rattle.device_figures.specs.Parts.{sides, sides_in, figures, figures_in, linked, linked_in};
ghost use Rattle.model.specs.Editions.{most_zones};

use fields::Read;
use layouts::Place;
use row_places::Link;

// "A 17-bit power is 0..100,000"
const MOST_KW: u32 = 100000;

// "ramps .. (1..100,000)"
const LEAST_RAMP: u32 = 1;

// Minutes already so, minimum up and down: 0..60,000.
const MOST_MINUTES: u32 = 60000;

// "on cost per minute 17 (0..100,000); start, stop cost 30 each (0..10^9)"
const MOST_ON_COST: u32 = 100000;

const MOST_COST: u32 = 1000000000;

// ---- single figures

#[derive(Clone, Copy)]
pub struct Sides {
    pub side: u32,
    pub zonebits: u32,
}

// "side 1 (0 producing, 1 consuming); zone bits 4, zone 1 first": "zone bit above the zone count" is noted at the first of them.
pub fn read_sides(s: &[u8], p: Place, zones: u32) -> Read<Sides>
    requires { zones ≤ most_zones }
    ensures { seen sides_in result ≡ got (sides zones) s.now p }
{
    let (side, at_zones) = fields::read_figure(s, p, 1, 0, 1)?;
    let (zonebits, past) = fields::read_figure(s, at_zones, 4, 0, 15)?;
    let fits = zonebits % (1 << (4 - zones)) == 0;
    let checked = fields::noted(fits, past, at_zones.at);
    Ok((Sides { side, zonebits }, checked))
}

// Groups of fields in a row: each field's width, least and greatest.
const INITIAL: [u32; 15] = [
    // initially on
    1,
    0,
    1,
    // initial power
    17,
    0,
    MOST_KW,
    // minutes already so
    16,
    0,
    MOST_MINUTES,
    // minimum up minutes
    16,
    0,
    MOST_MINUTES,
    // minimum down minutes
    16,
    0,
    MOST_MINUTES,
];

const RAMPS: [u32; 12] = [
    // up
    17, LEAST_RAMP, MOST_KW,
    // down
    17, LEAST_RAMP, MOST_KW,
    // starting
    17, LEAST_RAMP, MOST_KW,
    // stopping
    17, LEAST_RAMP, MOST_KW,
];

const COSTS: [u32; 9] = [
    // on, per minute
    17,
    0,
    MOST_ON_COST,
    // start
    30,
    0,
    MOST_COST,
    // stop
    30,
    0,
    MOST_COST,
];

fn read_group<const N: usize>(s: &[u8], p: Place, fields: &[u32]) -> Read<[u32; N]>
    requires { (narrow fields.now N ≡ true) × (3 * N ≤ length fields.now) }
    ensures { result ≡ got (row fields.now N) s.now p }
{
    let mut values = [0u32; N];
    let past = field_rows::read_row(s, p, N, fields, &mut values)?;
    Ok((values, past))
}

// What stands behind the zone bits, up to the lists.
#[derive(Clone, Copy)]
pub struct Figures {
    pub initial: [u32; 5],
    pub ramps: [u32; 4],
    pub costs: [u32; 3],
    pub limits: [u32; 8],
}

pub fn read_figures(s: &[u8], p: Place) -> Read<Figures>
    ensures { seen figures_in result ≡ got figures s.now p }
{
    let (initial, at_ramps) = read_group(s, p, &INITIAL)?;
    let (ramps, at_costs) = read_group(s, at_ramps, &RAMPS)?;
    let (costs, at_limits) = read_group(s, at_costs, &COSTS)?;
    let (limits, past) = field_rows::read_eight(s, at_limits, 17, MOST_KW)?;
    let figures = Figures {
        initial,
        ramps,
        costs,
        limits,
    };
    Ok((figures, past))
}

// ---- link and bar

// What stands last ahead of the intervals.
#[derive(Clone, Copy)]
pub struct Linked {
    pub link: Link,
    pub bar: u32,
}

// The link, then the bar.
pub fn read_linked(s: &[u8], p: Place, edition: u32) -> Read<Linked>
    ensures { seen linked_in result ≡ got (linked edition) s.now p }
{
    let (link, at_bar) = link_reader::read_link(s, p, edition)?;
    let (bar, past) = busbar_reader::read_bar(s, at_bar, edition)?;
    Ok((Linked { link, bar }, past))
}
