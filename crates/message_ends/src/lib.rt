// The end of a message: its fill bits, bytes behind it, and the contradictions met on the way.
#![tactic(auto)]

ghost use Rattle.std.specs.Prelude.{◌≡◌, ◌-◌, ◌*◌, ◌≤◌, length};
ghost use Rattle.bits.specs.Bits.{reach};
ghost use Rattle.layouts.specs.Layout.{first_one, tail_fault};
ghost use Rattle.message_ends.specs.Ended.{ending_of};

use layouts::{Clash, Fault, Place};

// The first bit that is 1 from bit at on, up to bit end.
fn first_one(s: &[u8], at: u64, end: u64) -> Clash
    requires { end ≤ 8 * length s.now }
    ensures { result ≡ first_one s.now at (end - at) }
{
    for i in at..end {
        if bits::bits_at(s, i, 1) != 0 {
            return Clash::At(i);
        }
    }
    Clash::Clear
}

// The first fill bit that is not 0, or else the first bit of a surplus byte, behind a message's last field.
fn tail(s: &[u8], at: u64) -> Clash
    requires { at ≤ 8 * reach s.now }
    ensures { result ≡ tail_fault s.now at }
{
    let bytes = (at + 7) / 8;
    let end = 8 * bytes;
    let fill = first_one(s, at, end);
    let Clash::Clear = fill else {
        return fill;
    };
    if bytes < s.len() as u64 {
        return Clash::At(end);
    }
    Clash::Clear
}

// The end of a message whose fields were in range: 6, then 5.
pub fn finish(s: &[u8], p: Place) -> Result<(), Fault>
    requires { p.at ≤ 8 * reach s.now }
    ensures { result ≡ ending_of (tail_fault s.now p.at) p.clash }
{
    match tail(s, p.at) {
        Clash::At(b) => Err(Fault::Tail(b)),
        Clash::Clear => match p.clash {
            Clash::At(b) => Err(Fault::Contradiction(b)),
            Clash::Clear => Ok(()),
        },
    }
}
