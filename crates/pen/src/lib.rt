// Fields written one behind the other through a number of pending bits, which is stored eight bytes at a time.
#![tactic(auto)]

ghost use Rattle.std.specs.Prelude.{◌≡◌, length, ◌+◌, ◌-◌, ◌*◌, ◌^◌, ◌≤◌, ◌<◌};
ghost use Rattle.layouts.specs.Layout.{bits_of};
ghost use Rattle.pen.specs.Stored.{stored};
ghost use Rattle.pen.specs.Pens.{Ready, Pushes, Finishes};

// The last `n` bits of a message so far, fewer than 64, and the bytes that stand in the buffer ahead of them.
#[derive(Clone, Copy)]
pub struct Pen {
    pub acc: u64,
    pub n: u64,
    pub at: usize,
}

// A number in the eight bytes from j on: one swap and one store.
fn store_word(buf: &mut [u8], j: usize, v: u64)
    requires { j + 8 ≤ length buf.old }
    ensures { buf.new ≡ stored buf.old j 8 v }
{
    buf[j..j + 8].copy_from_slice(&v.to_be_bytes());
}

// A number in the bytes from `first` up to `end`, its lowest byte last.
fn store(buf: &mut [u8], first: usize, end: usize, all: u64)
    requires { (first ≤ end) × (end ≤ length buf.old) }
    ensures { buf.new ≡ stored buf.old first (end - first) all }
{
    let mut rest = all;
    for j in (first..end).rev() {
        buf[j] = (rest % 256) as u8;
        rest /= 256;
    }
}

// A field of at most 56 bits.
pub fn push(buf: &mut [u8], p: Pen, width: u64, value: u64) -> Pen
    requires { Ready p × (1 ≤ width) × (width ≤ 56) × (value < 2 ^ width) × (8 * p.at + p.n + width ≤ 8 * length buf.old) }
    ensures { Pushes width (bits_of width value) buf.old buf.new p result }
{
    let at = p.at;
    let n = p.n + width;
    if n < 64 {
        return Pen {
            acc: (p.acc << width) + value,
            n,
            at,
        };
    }
    let rest = n - 64;
    let word = (p.acc << (width - rest)) + (value >> rest);
    store_word(buf, at, word);
    Pen {
        acc: value & ((1 << rest) - 1),
        n: rest,
        at: at + 8,
    }
}

// The pending bits, with zero bits to fill the last byte.
pub fn finish(buf: &mut [u8], p: Pen)
    requires { Ready p × (8 * p.at + p.n ≤ 8 * length buf.old) }
    ensures { Finishes buf.old buf.new p }
{
    let at = p.at;
    let bytes = (p.n + 7) / 8;
    let all = p.acc << (bytes * 8 - p.n);
    let end = at + bytes as usize;
    store(buf, at, end, all);
}
