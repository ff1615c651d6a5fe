// Several fields of a message in a row, read against their layouts.
#![tactic(auto)]

ghost use Rattle.std.specs.Prelude.{◌≡◌, ◌*◌, ◌≤◌, length, take, true};
ghost use Rattle.layouts.specs.Layout.{list, figure};
ghost use Rattle.model.specs.Messages.{eight};
ghost use Rattle.ranges.specs.Kept.{reserves_of};
ghost use Rattle.fields.specs.Got.{got, seen, told};
ghost use Rattle.field_rows.specs.Each.{row, narrow};

use fields::Read;
use layouts::{Fault, Place};

// n fields of one kind, into the front of a table.
pub fn read_list(
    s: &[u8],
    p: Place,
    n: usize,
    width: u64,
    low: u32,
    high: u32,
    out: &mut [u32],
) -> Result<Place, Fault>
    requires { (width ≤ 64) × (n ≤ length out.old) }
    ensures { told result (take n out.new) ≡ got (list n (figure width low high)) s.now p }
{
    let mut q = p;
    for i in 0..n {
        let (v, next) = fields::read_figure(s, q, width, low, high)?;
        out[i] = v;
        q = next;
    }
    Ok(q)
}

// n fields in a row, into the front of a table; each is described by its width, least and greatest.
pub fn read_row(
    s: &[u8],
    p: Place,
    n: usize,
    fields: &[u32],
    out: &mut [u32],
) -> Result<Place, Fault>
    requires { (narrow fields.now n ≡ true) × (3 * n ≤ length fields.now) × (n ≤ length out.old) }
    ensures { told result (take n out.new) ≡ got (row fields.now n) s.now p }
{
    let mut q = p;
    for i in 0..n {
        let k = 3 * i;
        let width = fields[k];
        let low = fields[k + 1];
        let high = fields[k + 2];
        let (v, next) = fields::read_figure(s, q, width as u64, low, high)?;
        out[i] = v;
        q = next;
    }
    Ok(q)
}

// The eight, in order.
pub fn read_eight(s: &[u8], p: Place, width: u64, high: u32) -> Read<[u32; 8]>
    requires { width ≤ 64 }
    ensures { seen reserves_of result ≡ got (eight (figure width 0 high)) s.now p }
{
    let mut values = [0u32; 8];
    let past = read_list(s, p, 8, width, 0, high, &mut values)?;
    Ok((values, past))
}
