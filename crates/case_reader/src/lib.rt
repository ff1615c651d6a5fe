// A case message of every edition, read once into the rows of lent tables. The largest counts that are taken are the caller's.
#![tactic(auto)]

ghost use Rattle.case_reader.specs.Whole.{CaseRoom, BodyRoom, BodyDone, FieldsDone, CaseDone};

use fields::Read;
use front_reader::Opening;
use layouts::{Fault, Place};
use row_places::{CellRow, Counts, DeviceRow, Front, MinimaRow, ZoneRow};

// "Per interval: d/2, 8 (1..180)"
const HALF_BITS: u64 = 8;

const LEAST_HALF: u32 = 1;

const MOST_HALF: u32 = 180;

// What a case says ahead of its tables.
#[derive(Clone, Copy)]
pub struct CaseHead {
    pub front: Front,
    pub counts: Counts,
}

// What stands for it where there is no case.
pub const NO_CASE: CaseHead = CaseHead {
    front: Front {
        edition: 0,
        mismatch: 0,
        overrun: 0,
    },
    counts: Counts {
        devices: 0,
        intervals: 0,
        zones: 0,
    },
};

// The durations, zones and devices behind a front; the link's limit goes into the first device's row.
fn read_body(
    s: &[u8],
    p: Place,
    opening: Opening,
    halves: &mut [u32],
    zones: &mut [ZoneRow],
    minima: &mut [MinimaRow],
    devices: &mut [DeviceRow],
    cells: &mut [CellRow],
) -> Result<Place, Fault>
    requires { BodyRoom opening.counts halves.old zones.old minima.old devices.old cells.old }
    ensures { BodyDone s.now p opening result halves.new zones.new minima.new devices.new cells.new }
{
    let edition = opening.front.edition;
    let counts = opening.counts;
    let m = counts.intervals;
    let at_zones = field_rows::read_list(s, p, m, HALF_BITS, LEAST_HALF, MOST_HALF, halves)?;
    let last = front_reader::last_end(halves, m);
    let at_devices = zone_table::read_zones(s, at_zones, edition, counts.zones, m, zones, minima)?;
    let past = device_table::read_devices(
        s,
        at_devices,
        edition,
        counts.devices,
        m,
        counts.zones as u32,
        last,
        devices,
        cells,
    )?;
    device_store::put_limit(devices, opening.limit);
    Ok(past)
}

// Every field of a case, in message order.
fn read_fields(
    s: &[u8],
    most_devices: u32,
    most_intervals: u32,
    halves: &mut [u32],
    zones: &mut [ZoneRow],
    minima: &mut [MinimaRow],
    devices: &mut [DeviceRow],
    cells: &mut [CellRow],
) -> Read<CaseHead>
    requires { CaseRoom most_devices most_intervals halves.old zones.old minima.old devices.old cells.old }
    ensures { FieldsDone most_devices most_intervals s.now result halves.new zones.new minima.new devices.new cells.new }
{
    let (opening, at_body) = front_reader::read_front(s, most_devices, most_intervals)?;
    let past = read_body(s, at_body, opening, halves, zones, minima, devices, cells)?;
    let head = CaseHead {
        front: opening.front,
        counts: opening.counts,
    };
    Ok((head, past))
}

// A case message, read by a reader that takes counts up to these: its front and counts, and its figures in the first rows of the tables, or its fault.
// After a refusal what the tables hold is left free; rows behind those of the case are left free too.
pub fn read_case(
    s: &[u8],
    most_devices: u32,
    most_intervals: u32,
    halves: &mut [u32],
    zones: &mut [ZoneRow],
    minima: &mut [MinimaRow],
    devices: &mut [DeviceRow],
    cells: &mut [CellRow],
) -> Result<CaseHead, Fault>
    requires { CaseRoom most_devices most_intervals halves.old zones.old minima.old devices.old cells.old }
    ensures { CaseDone most_devices most_intervals s.now halves.new zones.new minima.new devices.new cells.new result }
{
    let (head, past) = read_fields(
        s,
        most_devices,
        most_intervals,
        halves,
        zones,
        minima,
        devices,
        cells,
    )?;
    message_ends::finish(s, past)?;
    Ok(head)
}
