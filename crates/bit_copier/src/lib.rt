// A message written anew: its bits copied as they stand, with others put in between, through a pen.
#![tactic(auto)]

ghost use Rattle.std.specs.Prelude.{◌≡◌, List, ℕ, length, ◌+◌, ◌*◌, ◌^◌, ◌≤◌, ◌<◌};
ghost use Rattle.bits.specs.Bits.{field_at, reach};
ghost use Rattle.pen.specs.Pens.{Ready};
ghost use Rattle.bits.specs.Pick.{pick};
ghost use Rattle.layouts.specs.Since.{has};
ghost use Rattle.writing.specs.Splice.{Splice, none, keep, add, by, times};
ghost use Rattle.bit_copier.specs.Moves.{Set, Puts, Adding, Moves, Peeked, Counted, Closes, Renews};

use bits::{bits_at, reached};
use pen::{Pen, finish, push};

// How far a message is copied, in bits, and the pen that writes the new one.
#[derive(Clone, Copy)]
pub struct Copier {
    pub from: u64,
    pub pen: Pen,
}

// More bytes than any message has: past them a pen only stands.
const LIMIT: usize = 0x100_0000_0000;

// A field more: written where the buffer has room for it, else only counted.
fn put(buf: &mut [u8], p: Pen, width: u64, value: u64) -> Pen
    requires { Ready p × (1 ≤ width) × (width ≤ 56) × (value < 2 ^ width) }
    ensures { Puts width value buf.old buf.new p result }
{
    let at = p.at;
    if LIMIT < at {
        return p;
    }
    let bits = p.n + width;
    let end = at as u64 * 8 + bits;
    if (end + 7) / 8 <= buf.len() as u64 {
        return push(buf, p, width, value);
    }
    Pen {
        acc: 0,
        n: bits % 64,
        at: at + (bits / 64 * 8) as usize,
    }
}

// A number that the message has not.
pub fn add_field(buf: &mut [u8], q: Copier, width: u64, value: u64) -> Copier
    requires { Ready q.pen × (1 ≤ width) × (width ≤ 56) × (value < 2 ^ width) }
    ensures { Adding width value buf.old buf.new q result }
{
    let pen = put(buf, q.pen, width, value);
    Copier { pen, ..q }
}

// The next field of the message, written in another width.
pub fn widen_field(s: &[u8], buf: &mut [u8], q: Copier, width: u64, wider: u64) -> Copier
    requires { Set s.now q × (1 ≤ width) × (width ≤ wider) × (wider ≤ 56) }
    ensures { Moves (by width wider (λ x. none)) s.now buf.old buf.new q result }
{
    let from = q.from;
    if 8 * reached(s) - from < width {
        return q;
    }
    let value = bits_at(s, from, width);
    let pen = put(buf, q.pen, wider, value);
    Copier {
        from: from + width,
        pen,
    }
}

// The next bits of the message, as they stand.
pub fn keep_field(s: &[u8], buf: &mut [u8], q: Copier, width: u64) -> Copier
    requires { Set s.now q × (1 ≤ width) × (width ≤ 56) }
    ensures { Moves (keep width) s.now buf.old buf.new q result }
{
    widen_field(s, buf, q, width, width)
}

// The next field's value, where the message has it.
pub fn next_field(s: &[u8], q: Copier, width: u64) -> u64
    requires { Set s.now q × (width ≤ 56) }
    ensures { Peeked width s.now q result }
{
    let from = q.from;
    if 8 * reached(s) - from < width {
        return 0;
    }
    bits_at(s, from, width)
}

// The most bits that are copied at once.
const WORD: u64 = 56;

// So many bits of the message, as they stand.
pub fn keep_run(s: &[u8], buf: &mut [u8], q: Copier, count: u64) -> Copier
    requires { Set s.now q }
    ensures { Moves (keep count) s.now buf.old buf.new q result }
{
    let mut t = q;
    for _ in 0..count / WORD {
        t = keep_field(s, buf, t, WORD);
    }
    let rest = count % WORD;
    if rest == 0 {
        return t;
    }
    keep_field(s, buf, t, rest)
}

// So many parts, one behind the other, each copied by the step: a part's splice, of a message, is what the step copies by.
pub fn copy_each<F: Fn(&mut [u8], Copier) -> Copier>(
    buf: &mut [u8],
    q: Copier,
    n: u64,
    step: F,
) -> Copier
    ghost part: { Splice × List ℕ }
    requires set { Set part.1 q }
    requires callable { (b : _) (p : _) → Set part.1 p → F.pre step b p }
    requires copies { (b : _) (p : _) (r : _) (e : _) → Set part.1 p → F.post step b p r e → Moves part.0 part.1 b.now e.now p r }
    ensures { Moves (times n part.0) part.1 buf.old buf.new q result }
{
    let mut t = q;
    for _ in 0..n {
        t = step(buf, t);
    }
    t
}

// What came with an edition: copied where the message has it, else its neutral value.
pub fn keep_since(
    s: &[u8],
    buf: &mut [u8],
    q: Copier,
    edition: u32,
    since: u32,
    width: u64,
    neutral: u64,
) -> Copier
    requires { Set s.now q × (1 ≤ width) × (width ≤ 56) × (neutral < 2 ^ width) }
    ensures { Moves (pick (has since edition) (keep width) (add width neutral)) s.now buf.old buf.new q result }
{
    if edition < since {
        return add_field(buf, q, width, neutral);
    }
    keep_field(s, buf, q, width)
}

// The width of a count of parts.
const COUNT_BITS: u64 = 3;

// A count, and that many parts of one width.
pub fn keep_counted(s: &[u8], buf: &mut [u8], q: Copier, width: u64) -> Copier
    requires { Set s.now q × (width ≤ 1000) }
    ensures { Moves (by 3 3 (λ n. times n (keep width))) s.now buf.old buf.new q result }
{
    let n = next_field(s, q, COUNT_BITS);
    let counted = keep_field(s, buf, q, COUNT_BITS);
    keep_run(s, buf, counted, n * width)
}

// The bytes that a pen has written or counted.
pub fn bytes_in(p: Pen) -> u64
    requires { Ready p }
    ensures { Counted p result }
{
    let at = p.at;
    if LIMIT < at {
        return 0;
    }
    at as u64 + (p.n + 7) / 8
}

// The last bits of a message, where the buffer has room for all of it.
pub fn close(buf: &mut [u8], p: Pen)
    requires { Ready p }
    ensures { Closes buf.old buf.new p }
{
    let at = p.at;
    if LIMIT < at {
        return;
    }
    let end = at as u64 + (p.n + 7) / 8;
    if (buf.len() as u64) < end {
        return;
    }
    finish(buf, p);
}

// A message written anew by a step that copies all of it: how many bytes it takes, counted first; written only where they fit.
pub fn renew<F: Fn(&mut [u8], Copier) -> Copier>(buf: &mut [u8], from: u64, step: F) -> u64
    ghost whole: { Splice × List ℕ }
    requires inside { from ≤ 8 * reach whole.1 }
    requires callable { (b : _) (p : _) → Set whole.1 p → F.pre step b p }
    requires copies { (b : _) (p : _) (r : _) (e : _) → Set whole.1 p → F.post step b p r e → Moves whole.0 whole.1 b.now e.now p r }
    ensures { Renews whole.0 from whole.1 buf.old buf.new result }
{
    let pen = Pen {
        acc: 0,
        n: 0,
        at: 0,
    };
    let start = Copier { from, pen };
    let mut none = [0u8; 1];
    let counted = step(&mut none, start);
    let needed = bytes_in(counted.pen);
    if (buf.len() as u64) < needed {
        return needed;
    }
    let copied = step(buf, start);
    close(buf, copied.pen);
    needed
}
