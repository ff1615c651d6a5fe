// Fields out of a word of a message.
#![tactic(auto)]

ghost use Rattle.std.specs.Prelude.{◌≡◌, true, ◌+◌, ◌*◌, ◌/◌, ◌%◌, ◌^◌, ◌≤◌, ◌<◌};
ghost use Rattle.bits.specs.Bits.{reach};

// The bits that a word of eight bytes has, whatever bit of its first byte they begin at.
pub const WORD_BITS: u64 = 57;

// Whether the message has so many bits from bit `at` on, whatever bit of a byte they begin at.
pub fn has_bits(s: &[u8], at: u64, width: u64) -> bool
    requires { width < 2 ^ 32 }
    ensures { result ≡ true → at + width ≤ 8 * reach s.now }
{
    at / 8 + (7 + width + 7) / 8 <= bits::reached(s)
}

// The field that has so many bits of a word behind it.
pub fn field_in(word: u64, behind: u64, width: u64) -> u32
    requires { (behind < 64) × (width ≤ 32) }
    ensures { result ≡ word / 2 ^ behind % 2 ^ width }
{
    ((word >> behind) % (1 << width)) as u32
}

// The same of a field in two's complement, kept from 0: the figure and `most`.
pub fn offset_in(word: u64, behind: u64, width: u64, most: u64) -> u32
    requires { (behind < 64) × (width ≤ 32) × (most < 2 ^ 32) }
    ensures { result ≡ (word / 2 ^ behind % 2 ^ width + most) % 2 ^ width }
{
    ((field_in(word, behind, width) as u64 + most) % (1 << width)) as u32
}
