// A completion or the market's copy from its bytes, against what its case gives: refused, or its figures in a lent table.
#![tactic(auto)]

ghost use Rattle.std.specs.Prelude.{◌≡◌, ◌*◌, ◌≤◌};
ghost use Rattle.bits.specs.Bits.{reach};
ghost use Rattle.layouts.specs.Layout.{begin};
ghost use Rattle.model.specs.Editions.{most_zones};
ghost use Rattle.fields.specs.Got.{got};
ghost use Rattle.completion_reading.specs.Figures.{tabled};
ghost use Rattle.completion_reading.specs.Flat.{walked};
ghost use Rattle.completion_body.specs.Forms.{counts_in, widths_of};
ghost use Rattle.completion_reader.specs.Fronts.{kind_by, counts, header};
ghost use Rattle.completion_reader.specs.Behind.{Fills, settled};
ghost use Rattle.completion_reader.specs.Whole.{figures_by};

use completion_body::{Form, read_body};
use completion_reading::Reading;
use completion_size::ZONES_BITS;
use editions::{device_bits, interval_bits};
use fields::{BEGIN, Read, read_count, read_fixed};
use figure_reader::Walk;
use layouts::{Fault, Place};

// "kind 4 (3)" and "kind 4 (4)"
const COMPLETION_KIND: u32 = 3;

const COPY_KIND: u32 = 4;

// The case's counts, zones included.
fn read_counts(s: &[u8], p: Place, f: Form) -> Read<u32>
    ensures { result ≡ got (counts f) s.now p }
{
    let across = device_bits(f.edition);
    let (_, at_intervals) = read_count(s, p, across, f.devices, f.devices)?;
    let along = interval_bits(f.edition);
    let (_, at_zones) = read_count(s, at_intervals, along, f.intervals, f.intervals)?;
    read_count(s, at_zones, ZONES_BITS, f.zones, f.zones)
}

// Kind, edition and the case's counts.
fn read_front(s: &[u8], kind: u32, f: Form) -> Read<u32>
    ensures { result ≡ got (header kind f) s.now begin }
{
    let (_, at_edition) = read_fixed(s, BEGIN, kind)?;
    let (_, at_counts) = read_fixed(s, at_edition, f.edition)?;
    read_counts(s, at_counts, f)
}

// The figures into the lent table, or 7 where it has fewer numbers.
fn fill(s: &[u8], at: u64, f: Form, count: u64, table: &mut [u64]) -> Reading
    requires { f.zones ≤ most_zones }
    ensures { Fills s.now at f count table.old table.new result }
{
    if (table.len() as u64) < count {
        return Reading::Short(count);
    }
    let start = Walk {
        at,
        count: 0,
        cut: false,
    };
    read_body(s, start, f, table);
    Reading::Figures(count)
}

// What stands behind the front: 1 where it is cut, 6 at the end, 7, or the figures.
fn read_behind(s: &[u8], p: Place, f: Form, table: &mut [u64]) -> Reading
    requires { (p.at ≤ 8 * reach s.now) × (f.zones ≤ most_zones) }
    ensures { record { answer = result; table = table.new } ≡ tabled (settled s.now p.clash (walked s.now p.at (widths_of f))) table.old }
{
    let at = p.at;
    let clash = p.clash;
    let start = Walk {
        at,
        count: 0,
        cut: false,
    };
    let mut scratch = [0u64; 1];
    let first = read_body(s, start, f, &mut scratch);
    let end = first.at;
    let count = first.count;
    let cut = first.cut;
    if cut {
        return Reading::RefusedMessage(Fault::Cut(end));
    }
    match message_ends::finish(s, Place { at: end, clash }) {
        Err(x) => Reading::RefusedMessage(x),
        Ok(()) => fill(s, at, f, count, table),
    }
}

// "kind 4": 3 for the desk, 4 for the market.
fn kind_of(desk: bool) -> u32
    ensures { result ≡ kind_by desk }
{
    if desk { COMPLETION_KIND } else { COPY_KIND }
}

// A message against its case's edition and counts.
pub fn read_message(s: &[u8], f: Form, table: &mut [u64]) -> Reading
    requires { f.zones ≤ most_zones }
    ensures { record { answer = result; table = table.new } ≡ tabled (figures_by f.desk f.edition (counts_in f) f.windows s.now) table.old }
{
    let kind = kind_of(f.desk);
    match read_front(s, kind, f) {
        Err(x) => Reading::RefusedMessage(x),
        Ok((_, p)) => read_behind(s, p, f, table),
    }
}
