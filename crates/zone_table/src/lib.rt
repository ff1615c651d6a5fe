// A case's zones: a row each, and each with its part of the minima.
#![tactic(auto)]

ghost use Rattle.std.specs.Prelude.{◌≡◌};
ghost use Rattle.layouts.specs.Layout.{list};
ghost use Rattle.model.specs.ByEdition as B;
ghost use Rattle.fields.specs.Got.{got, told};
ghost use Rattle.zone_table.specs.Tables.{Fits, zones_in};

use layouts::{Fault, Place};
use row_places::{MinimaRow, ZoneRow};

// n zones, each with its minima for m intervals.
pub fn read_zones(
    s: &[u8],
    p: Place,
    edition: u32,
    n: usize,
    m: usize,
    zones: &mut [ZoneRow],
    minima: &mut [MinimaRow],
) -> Result<Place, Fault>
    requires { Fits n m zones.old minima.old }
    ensures { told result (zones_in n m zones.new minima.new) ≡ got (list n (B.zone edition m)) s.now p }
{
    let mut q = p;
    let mut a: usize = 0;
    for i in 0..n {
        let e = a + m;
        let (zone, next) = zone_reader::read_zone(s, q, edition, &mut minima[a..e])?;
        zone_rows::put_zone(zones, i, zone);
        q = next;
        a = e;
    }
    Ok(q)
}
