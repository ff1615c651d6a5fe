// Fields side by side, as one number, and pushed through a pen.
#![tactic(auto)]

ghost use Rattle.std.specs.Prelude.{◌++◌, ◌+◌, ◌^◌, ◌<◌};
ghost use Rattle.layouts.specs.Layout.{bits_of};
ghost use Rattle.pen.specs.Pens.{Ready, Pushes};
ghost use Rattle.pen.specs.Runs.{Room};
ghost use Rattle.field_groups.specs.Groups.{Holds, Joined, Pushable};

use pen::{Pen, push};

// Fields side by side, as one number.
#[derive(Clone, Copy)]
pub struct Group {
    pub width: u64,
    pub value: u64,
}

pub fn field(width: u64, value: u64) -> Group
    requires { value < 2 ^ width }
    ensures { Holds width (bits_of width value) result }
{
    Group { width, value }
}

impl Group {
    // One field more behind them.
    pub fn and(self, width: u64, value: u64) -> Group
        requires { (self.width + width < 64) × (self.value < 2 ^ self.width) × (value < 2 ^ width) }
        ensures { Joined self width value result }
    {
        Group {
            width: self.width + width,
            value: (self.value << width) + value,
        }
    }
}

// Two groups, one behind the other.
pub fn put_both(buf: &mut [u8], p: Pen, a: Group, b: Group) -> Pen
    requires { Ready p × Pushable a × Pushable b × Room buf.old p (a.width + b.width) }
    ensures { Pushes (a.width + b.width) (bits_of a.width a.value ++ bits_of b.width b.value) buf.old buf.new p result }
{
    let p = push(buf, p, a.width, a.value);
    push(buf, p, b.width, b.value)
}
