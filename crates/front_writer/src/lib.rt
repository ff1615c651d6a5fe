// What stands ahead of a completion's intervals, of every edition, written through a pen.
#![tactic(auto)]

ghost use Rattle.model.specs.ByEdition.{completion_front};
ghost use Rattle.theorems.specs.Back.{Countable};
ghost use Rattle.pen.specs.Pens.{Ready, Pushes};
ghost use Rattle.pen.specs.Runs.{Room};
ghost use Rattle.field_groups.specs.Groups.{Holds};
ghost use Rattle.field_groups.specs.Fields.{counts_in};
ghost use Rattle.completion_size.specs.Size.{front_width};

use completion_size::{EDITION_BITS, KIND_BITS, ZONES_BITS};
use editions::{device_bits, interval_bits};
use field_groups::{Group, field};
use pen::{Pen, push};

// A completion's kind.
const COMPLETION: u64 = 3;

// "kind 4 (3); edition; devices; intervals; zones", with their edition's widths.
fn front_of(edition: u32, devices: u32, intervals: u32, zones: u32) -> Group
    requires { Countable edition (counts_in devices intervals zones) }
    ensures { Holds (front_width edition) ((completion_front edition (counts_in devices intervals zones)).write (counts_in devices intervals zones)) result }
{
    let of_edition = field(KIND_BITS, COMPLETION).and(EDITION_BITS, edition as u64);
    let of_devices = of_edition.and(device_bits(edition), devices as u64);
    let of_intervals = of_devices.and(interval_bits(edition), intervals as u64);
    of_intervals.and(ZONES_BITS, zones as u64)
}

// What stands ahead of the intervals.
pub fn put_front(
    buf: &mut [u8],
    p: Pen,
    edition: u32,
    devices: u32,
    intervals: u32,
    zones: u32,
) -> Pen
    requires { Ready p × Room buf.old p (front_width edition) × Countable edition (counts_in devices intervals zones) }
    ensures { Pushes (front_width edition) ((completion_front edition (counts_in devices intervals zones)).write (counts_in devices intervals zones)) buf.old buf.new p result }
{
    let front = front_of(edition, devices, intervals, zones);
    push(buf, p, front.width, front.value)
}
