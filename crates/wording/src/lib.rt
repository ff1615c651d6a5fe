// Text in a lent buffer: bytes, numbers in decimal, a word and numbers as a line.
#![tactic(auto)]

ghost use Rattle.std.specs.Prelude.{◌++◌, ◌+◌, ◌*◌, ◌≤◌, length};
ghost use Rattle.wording.specs.Decimal.{decimal};
ghost use Rattle.wording.specs.Text.{space, newline, figures as figures_of, word_line};
ghost use Rattle.wording.specs.Writes.{Puts};

use itoa::Buffer;

// The bytes of a text from the place `at` on; answers the place behind them.
fn put_bytes(out: &mut [u8], at: usize, text: &[u8]) -> usize
    requires { at + length text.now ≤ length out.old }
    ensures { Puts (length text.now) text.now out.old out.new at result }
{
    let end = at + text.len();
    out[at..end].copy_from_slice(text);
    end
}

// A number in decimal, of at most 20 digits.
fn put_number(out: &mut [u8], at: usize, n: u64) -> usize
    requires { at + 20 ≤ length out.old }
    ensures { Puts 20 (decimal n) out.old out.new at result }
{
    let mut digits = Buffer::new();
    put_bytes(out, at, digits.format(n).as_bytes())
}

// A space and a number.
fn put_figure(out: &mut [u8], at: usize, n: u64) -> usize
    requires { at + 21 ≤ length out.old }
    ensures { Puts 21 (space ++ decimal n) out.old out.new at result }
{
    let at = put_bytes(out, at, b" ");
    put_number(out, at, n)
}

// Numbers, each behind a space.
fn put_figures(out: &mut [u8], at: usize, figures: &[u64]) -> usize
    requires { at + 21 * length figures.now ≤ length out.old }
    ensures { Puts (21 * length figures.now) (figures_of figures.now) out.old out.new at result }
{
    let mut next = at;
    for figure in figures {
        next = put_figure(out, next, *figure);
    }
    next
}

// A word, numbers and the line's end.
pub fn put_word(out: &mut [u8], at: usize, word: &[u8], figures: &[u64]) -> usize
    requires { at + length word.now + 21 * length figures.now + 1 ≤ length out.old }
    ensures { Puts (length word.now + 21 * length figures.now + 1) (word_line word.now figures.now) out.old out.new at result }
{
    let at = put_bytes(out, at, word);
    let at = put_figures(out, at, figures);
    put_bytes(out, at, b"\n")
}

// An index, a word and numbers.
pub fn put_indexed(out: &mut [u8], index: u64, word: &[u8], figures: &[u64]) -> usize
    requires { 20 + (length word.now + 21 * length figures.now + 1) ≤ length out.old }
    ensures { Puts (20 + (length word.now + 21 * length figures.now + 1))
        (decimal index ++ word_line word.now figures.now) out.old out.new 0 result }
{
    let at = put_number(out, 0, index);
    put_word(out, at, word, figures)
}

// An index, a word and a surplus without its sign, which stands at the word's end.
pub fn put_surplus(out: &mut [u8], index: u64, word: &[u8], size: u64) -> usize
    requires { 20 + length word.now + 20 + 1 ≤ length out.old }
    ensures { Puts (20 + length word.now + 20 + 1) (decimal index ++ word.now ++ decimal size ++ newline) out.old out.new 0 result }
{
    let at = put_number(out, 0, index);
    let at = put_bytes(out, at, word);
    let at = put_number(out, at, size);
    put_bytes(out, at, b"\n")
}
