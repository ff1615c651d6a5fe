// A case's devices: a row each, and each with its part of the cells.
#![tactic(auto)]

ghost use Rattle.std.specs.Prelude.{◌≤◌, length};
ghost use Rattle.model.specs.Editions.{most_zones};
ghost use Rattle.records.specs.Views.{most_intervals};
ghost use Rattle.zone_table.specs.Tables.{Fits, DeviceDone, DevicesDone};

use fields::Read;
use layouts::{Fault, Place};
use row_places::{CellRow, Device, DeviceRow};

// A device: what stands ahead of its intervals, then its cells into its part of the table.
fn read_device(
    s: &[u8],
    p: Place,
    edition: u32,
    zones: u32,
    last: u32,
    cells: &mut [CellRow],
) -> Read<Device>
    requires { (zones ≤ most_zones) × (length cells.old ≤ most_intervals) }
    ensures { DeviceDone edition s.now p zones last result cells.new }
{
    let (device, at_cells) = device_reader::read_head(s, p, edition, zones, last)?;
    let past = cell_reader::read_cells(s, at_cells, edition, cells)?;
    Ok((device, past))
}

// n devices, each with its cells for m intervals; zones is the count of zones, last the last E.
pub fn read_devices(
    s: &[u8],
    p: Place,
    edition: u32,
    n: usize,
    m: usize,
    zones: u32,
    last: u32,
    devices: &mut [DeviceRow],
    cells: &mut [CellRow],
) -> Result<Place, Fault>
    requires { (zones ≤ most_zones) × Fits n m devices.old cells.old }
    ensures { DevicesDone edition s.now p n m zones last result devices.new cells.new }
{
    let mut q = p;
    let mut a: usize = 0;
    for i in 0..n {
        let e = a + m;
        let (device, next) = read_device(s, q, edition, zones, last, &mut cells[a..e])?;
        device_store::put_device(devices, i, device);
        q = next;
        a = e;
    }
    Ok(q)
}
