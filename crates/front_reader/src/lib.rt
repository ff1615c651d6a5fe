// What stands ahead of a case's durations: kind and edition, counts, the prices of mismatch and overrun, the link's limit; and the end of its day.
#![tactic(auto)]

ghost use Rattle.std.specs.Prelude.{◌≡◌, take};
ghost use Rattle.model.specs.Messages.{last_end};
ghost use Rattle.layouts.specs.Layout.{begin};
ghost use Rattle.fields.specs.Got.{got, seen};
ghost use Rattle.front_reader.specs.Fronts.{edition, largest, CountsDone, prices, pair_of, figures, figures_in, FrontDone, Halves};

use fields::{BEGIN, Read};
use kilowatts::Kw;
use layouts::Place;
use row_places::{Counts, Front};

// "kind 4 (1)"
const CASE: u32 = 1;

// The first edition there was.
const OLDEST: u32 = 1;

// "zones 3 (0..4)"
const ZONE_BITS: u64 = 3;

const MOST_ZONES: u32 = 4;

// "mismatch price, overrun price 14 each (1..10,000 per kW·min)"
const PRICE_BITS: u64 = 14;

const LEAST_PRICE: u32 = 1;

const MOST_PRICE: u32 = 10000;

// The prices of mismatch and overrun, and the limit of the link.
#[derive(Clone, Copy)]
pub struct Figures {
    pub mismatch: u32,
    pub overrun: u32,
    pub limit: Kw,
}

// What stands ahead of a case's durations.
#[derive(Clone, Copy)]
pub struct Opening {
    pub front: Front,
    pub counts: Counts,
    pub limit: Kw,
}

// Kind and edition.
fn read_edition(s: &[u8]) -> Read<u32>
    ensures { result ≡ got edition s.now begin }
{
    let (_, at_edition) = fields::read_fixed(s, BEGIN, CASE)?;
    fields::read_kind(s, at_edition, OLDEST, editions::NEWEST)
}

// The counts of devices, intervals and zones: the edition's widths and limits, and of these what the caller takes.
fn read_counts(
    s: &[u8],
    p: Place,
    edition: u32,
    most_devices: u32,
    most_intervals: u32,
) -> Read<Counts>
    ensures { CountsDone edition (largest most_devices most_intervals) s.now p result }
{
    let width = editions::device_bits(edition);
    let most = editions::devices_in(edition, most_devices);
    let (devices, at_intervals) = fields::read_count(s, p, width, 1, most)?;
    let width = editions::interval_bits(edition);
    let most = editions::intervals_in(edition, most_intervals);
    let (intervals, at_zones) = fields::read_count(s, at_intervals, width, 1, most)?;
    let (zones, past) = fields::read_count(s, at_zones, ZONE_BITS, 0, MOST_ZONES)?;
    let counts = Counts {
        devices: devices as usize,
        intervals: intervals as usize,
        zones: zones as usize,
    };
    Ok((counts, past))
}

// The prices of mismatch and overrun.
fn read_prices(s: &[u8], p: Place) -> Read<[u32; 2]>
    ensures { seen pair_of result ≡ got prices s.now p }
{
    let mut v = [0u32; 2];
    let past = field_rows::read_list(s, p, 2, PRICE_BITS, LEAST_PRICE, MOST_PRICE, &mut v)?;
    Ok((v, past))
}

// The prices, then the limit of the link.
fn read_figures(s: &[u8], p: Place, edition: u32) -> Read<Figures>
    ensures { seen figures_in result ≡ got (figures edition) s.now p }
{
    let ([mismatch, overrun], at_limit) = read_prices(s, p)?;
    let (limit, past) = busbar_reader::read_limit(s, at_limit, edition)?;
    let figures = Figures {
        mismatch,
        overrun,
        limit: Kw(limit),
    };
    Ok((figures, past))
}

// All that stands ahead of the durations.
pub fn read_front(s: &[u8], most_devices: u32, most_intervals: u32) -> Read<Opening>
    ensures { FrontDone (largest most_devices most_intervals) s.now result }
{
    let (edition, at_counts) = read_edition(s)?;
    let (counts, at_figures) = read_counts(s, at_counts, edition, most_devices, most_intervals)?;
    let (figures, past) = read_figures(s, at_figures, edition)?;
    let opening = Opening {
        front: Front {
            edition,
            mismatch: figures.mismatch,
            overrun: figures.overrun,
        },
        counts,
        limit: figures.limit,
    };
    Ok((opening, past))
}

// The last E: twice the sum of the halves of m durations.
pub fn last_end(halves: &[u32], m: usize) -> u32
    requires { Halves m halves.now }
    ensures { result ≡ last_end (take m halves.now) }
{
    let mut sum: u32 = 0;
    for i in 0..m {
        sum += halves[i];
    }
    2 * sum
}
