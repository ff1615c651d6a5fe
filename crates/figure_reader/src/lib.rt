// The figures of a message, field by field, into a lent table of numbers.
#![tactic(auto)]

ghost use Rattle.std.specs.Prelude.{◌≡◌, [], ◌∷◌, ◌≤◌, set};
ghost use Rattle.completion_reading.specs.Flat.{times};
ghost use Rattle.figure_reader.specs.Walks.{Runs};

use bits::{Cursor, Field};

// How far a message is read, in bits; how many figures that gave; and whether the next field was cut, where reading stands.
#[derive(Clone, Copy)]
pub struct Walk {
    pub at: u64,
    pub count: u64,
    pub cut: bool,
}

// A figure in the table, where that has room for it.
fn store(table: &mut [u64], k: u64, v: u64)
    ensures { table.new ≡ set table.old k v }
{
    if k < table.len() as u64 {
        let i = k as usize;
        table[i] = v;
    }
}

// The next field.
pub fn read_field(s: &[u8], w: Walk, width: u64, table: &mut [u64]) -> Walk
    requires { (w.count ≤ w.at) × (1 ≤ width) × (width ≤ 64) }
    ensures { Runs s.now w table.old (width ∷ []) result table.new }
{
    let at = w.at;
    let count = w.count;
    let cut = w.cut;
    if cut {
        return w;
    }
    let c = Cursor { at };
    let Field::Value(v, next) = c.field(s, width) else {
        return Walk {
            at,
            count,
            cut: true,
        };
    };
    let end = next.at;
    store(table, count, v);
    Walk {
        at: end,
        count: count + 1,
        cut: false,
    }
}

// So many fields of one width.
pub fn read_fields(s: &[u8], w: Walk, width: u64, fields: u64, table: &mut [u64]) -> Walk
    requires { (w.count ≤ w.at) × (1 ≤ width) × (width ≤ 64) }
    ensures { Runs s.now w table.old (times fields (width ∷ [])) result table.new }
{
    let mut t = w;
    for _k in 0..fields {
        t = read_field(s, t, width, table);
    }
    t
}
