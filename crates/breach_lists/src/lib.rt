// Every broken rule of a plan in a lent list, against a decoded case: of a decoded plan, and of a plan's bytes for a stack of plans.
#![tactic(auto)]

ghost use Rattle.records.specs.Views.{Ready};
ghost use Rattle.decoded_cases.specs.Decoded.{Decoded, Planned, Work};
ghost use Rattle.breach_lists.specs.Lists.{ListsRows};
ghost use Rattle.breach_lists.specs.Plans.{ListsPlan};

use layouts::Fault;
use model::{Listing, Subject};
use row_places::{CellRow, DeviceRow, Front, MinimaRow, SettingRow, ZoneRow};

// The bytes of a breach in the list.
const ENTRY: u64 = 4;

// Every broken rule, counted first: a list that is too short is not touched.
fn list_all(
    front: Front,
    halves: &[u32],
    zones: &[ZoneRow],
    minima: &[MinimaRow],
    devices: &[DeviceRow],
    cells: &[CellRow],
    settings: &[SettingRow],
    starts: &[u32],
    powers: &[u32],
    list: &mut [u8],
) -> Listing
    requires { Ready front halves.now zones.now minima.now devices.now cells.now settings.now starts.now powers.now }
    ensures { ListsRows front halves.now zones.now minima.now devices.now cells.now
        settings.now list.old list.new result }
{
    let mut none = [0u8; 1];
    let n = breach_notes::note_all(
        front, halves, zones, minima, devices, cells, settings, starts, powers, &mut none,
    );
    let needed = ENTRY * n as u64;
    if (list.len() as u64) < needed {
        return Listing::Refused(Subject::Result, Fault::TooShort(needed));
    }
    breach_notes::note_all(
        front, halves, zones, minima, devices, cells, settings, starts, powers, list,
    );
    Listing::Listed(n as u64)
}

// A decoded plan: none in one go, or all of them.
fn list_settings(
    front: Front,
    halves: &[u32],
    zones: &[ZoneRow],
    minima: &[MinimaRow],
    devices: &[DeviceRow],
    cells: &[CellRow],
    settings: &[SettingRow],
    starts: &mut [u32],
    powers: &mut [u32],
    list: &mut [u8],
) -> Listing
    requires { Planned front halves.now zones.now minima.now devices.now cells.now settings.now starts.old powers.old }
    ensures { ListsRows front halves.now zones.now minima.now devices.now cells.now
        settings.now list.old list.new result }
{
    powers::force(halves, devices, cells, settings, starts, powers);
    if breaches::no_breach(
        front, halves, zones, minima, devices, cells, settings, starts, powers,
    ) {
        return Listing::Listed(0);
    }
    list_all(
        front, halves, zones, minima, devices, cells, settings, starts, powers, list,
    )
}

// A plan's bytes against a decoded case, with tables lent to work in.
pub fn breaches_of_plan(
    front: Front,
    halves: &[u32],
    zones: &[ZoneRow],
    minima: &[MinimaRow],
    devices: &[DeviceRow],
    cells: &[CellRow],
    plan: &[u8],
    settings: &mut [SettingRow],
    starts: &mut [u32],
    powers: &mut [u32],
    list: &mut [u8],
) -> Listing
    requires { Decoded front halves.now zones.now minima.now devices.now cells.now × Work halves.now devices.now settings.old starts.old powers.old }
    ensures { ListsPlan front halves.now zones.now minima.now devices.now cells.now
        plan.now list.old list.new result }
{
    let n = devices.len();
    let m = halves.len();
    match plan_reader::read_plan(plan, front.edition, n, m, settings) {
        Err(f) => Listing::Refused(Subject::Plan, f),
        Ok(()) => list_settings(
            front, halves, zones, minima, devices, cells, settings, starts, powers, list,
        ),
    }
}
