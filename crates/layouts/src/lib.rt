// What a message is made of: faults with their places, the place that advances by one field, and the messages of a batch.
#![tactic(auto)]

ghost use Rattle.std.specs.Prelude.{◌≡◌};
ghost use Rattle.layouts.specs.Faults.{number_of, returned_by};
ghost use Rattle.layouts.specs.Framing.{message_at};
ghost use Rattle.layouts.specs.Split.{Splits};

use bits::{bits_at, reached};

// "What the unit gives back": numbers 1 to 7 in this order, each with its bit or its count of bytes.
#[derive(Clone, Copy)]
pub enum Fault {
    Cut(u64),
    WrongKind(u64),
    WrongCount(u64),
    OutOfRange(u64),
    Contradiction(u64),
    Tail(u64),
    TooShort(u64),
}

// A fault's number.
pub fn number_of(f: Fault) -> u64
    ensures { result ≡ number_of f }
{
    match f {
        Fault::Cut(_) => 1,
        Fault::WrongKind(_) => 2,
        Fault::WrongCount(_) => 3,
        Fault::OutOfRange(_) => 4,
        Fault::Contradiction(_) => 5,
        Fault::Tail(_) => 6,
        Fault::TooShort(_) => 7,
    }
}

// A fault's bit or count of bytes.
pub fn returned_by(f: Fault) -> u64
    ensures { result ≡ returned_by f }
{
    match f {
        Fault::Cut(b) => b,
        Fault::WrongKind(b) => b,
        Fault::WrongCount(b) => b,
        Fault::OutOfRange(b) => b,
        Fault::Contradiction(b) => b,
        Fault::Tail(b) => b,
        Fault::TooShort(n) => n,
    }
}

// The first contradiction met on the way to a place of a message.
#[derive(Clone, Copy)]
pub enum Clash {
    Clear,
    At(u64),
}

// "A message is read by a place that advances by one field": the next bit, and the first contradiction so far.
#[derive(Clone, Copy)]
pub struct Place {
    pub at: u64,
    pub clash: Clash,
}

// What stands at a byte of a batch: a message's bounds, which end where the next length begins; the end; or a refusal.
#[derive(Clone, Copy)]
pub enum Framed {
    End,
    Message(usize, usize),
    Refused(Fault),
}

// The message behind the length at byte `at`, of at most `limit` bytes.
pub fn frame_at(s: &[u8], at: usize, limit: u64) -> Framed
    ensures { Splits limit s.now at result }
{
    let len = reached(s);
    let start = at as u64;
    if len <= start {
        return Framed::End;
    }
    let bit = 8 * start;
    if len - start < 3 {
        return Framed::Refused(Fault::Cut(bit));
    }
    let n = bits_at(s, bit, 24);
    let rest = len - start - 3;
    if limit < n {
        return Framed::Refused(Fault::OutOfRange(bit));
    }
    if rest < n {
        Framed::Refused(Fault::Cut(bit))
    } else {
        let from = at + 3;
        let until = from + n as usize;
        Framed::Message(from, until)
    }
}

// The message itself, as that part of the caller's bytes; an empty part where no message stands.
pub fn message_at(s: &[u8], at: usize, limit: u64) -> &[u8]
    ensures { result.now ≡ message_at limit s.now at }
{
    let Framed::Message(from, until) = frame_at(s, at, limit) else {
        return &s[0..0];
    };
    &s[from..until]
}
