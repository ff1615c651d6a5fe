// What hosts in other languages are told: a word and four numbers.
#![tactic(auto)]

ghost use Rattle.std.specs.Prelude.{◌≡◌, ◌++◌, ◌≤◌, length, drop};
ghost use Rattle.completion_reading.specs.Figures.{Few};
ghost use Rattle.tellings.specs.Splitting.{HostSplits};
ghost use Rattle.tellings.specs.Told.{word_of, told_number, told_breach, told_fault, told_of, told_case, told_list, told_writing, told_copy, told_reading, told_mending, told_frame, figures_of};

use completion_reading::Reading;
use layouts::{Fault, Framed};
use market::Copying;
use mending::Mending;
use model::{Breach, Inspected, Listing, Subject, Verdict};
use writing::Writing;

#[derive(Clone, Copy)]
pub struct Told {
    pub word: u64,
    pub first: u64,
    pub second: u64,
    pub third: u64,
    pub fourth: u64,
}

// The words: 0 tells a figure; of a refusal the word says whose it is.
const BROKEN: u64 = 1;

const END: u64 = 1;

const CASE: u64 = 2;

const MESSAGE: u64 = 3;

const BUFFER: u64 = 4;

const MENDED: u64 = 1;

const UNMENDABLE: u64 = 6;

// The bytes of each number of a table.
const NUMBER_BYTES: u64 = 8;

fn word_of(s: Subject) -> u64
    ensures { result ≡ word_of s }
{
    match s {
        Subject::Case => CASE,
        Subject::Plan => MESSAGE,
        Subject::Result => BUFFER,
    }
}

// One number.
fn tell_number(n: u64) -> Told
    ensures { result ≡ told_number n }
{
    Told {
        word: 0,
        first: n,
        second: 0,
        third: 0,
        fourth: 0,
    }
}

// A broken rule with its place.
fn tell_breach(b: Breach) -> Told
    ensures { result ≡ told_breach b }
{
    Told {
        word: BROKEN,
        first: b.rule,
        second: b.interval,
        third: b.device,
        fourth: b.window,
    }
}

// A refusal: its number, and the bit or the bytes that it returns.
fn tell_fault(word: u64, f: Fault) -> Told
    ensures { result ≡ told_fault word f }
{
    let number = layouts::number_of(f);
    let returned = layouts::returned_by(f);
    Told {
        word,
        first: number,
        second: returned,
        third: 0,
        fourth: 0,
    }
}

// A refusal of a case, a plan or a lent buffer.
fn tell_refused(s: Subject, f: Fault) -> Told
    ensures { result ≡ told_fault (word_of s) f }
{
    let word = word_of(s);
    tell_fault(word, f)
}

// A verdict.
pub fn tell(v: Verdict) -> Told
    ensures { result ≡ told_of v }
{
    match v {
        Verdict::Accepted(z) => {
            let surplus = bits::twos(z);
            tell_number(surplus)
        }
        Verdict::Broken(b) => tell_breach(b),
        Verdict::Refused(s, f) => tell_refused(s, f),
    }
}

// A case that was inspected.
pub fn tell_case(x: Inspected) -> Told
    ensures { result ≡ told_case x }
{
    match x {
        Inspected::Counts(d, n, z) => Told {
            word: 0,
            first: d,
            second: n,
            third: z,
            fourth: 0,
        },
        Inspected::Refused(f) => tell_fault(CASE, f),
    }
}

// A list of breaches.
pub fn tell_list(x: Listing) -> Told
    ensures { result ≡ told_list x }
{
    match x {
        Listing::Listed(n) => tell_number(n),
        Listing::Refused(s, f) => tell_refused(s, f),
    }
}

// A message written in the newest edition.
pub fn tell_writing(x: Writing) -> Told
    ensures { result ≡ told_writing x }
{
    match x {
        Writing::Written(bytes) => tell_number(bytes),
        Writing::Refused(s, f) => tell_refused(s, f),
    }
}

// The market's copy of a completion.
pub fn tell_copy(x: Copying) -> Told
    ensures { result ≡ told_copy x }
{
    match x {
        Copying::Copied(bytes) => tell_number(bytes),
        Copying::Broken(b) => tell_breach(b),
        Copying::Refused(s, f) => tell_refused(s, f),
    }
}

// A completion or a market copy that is read.
pub fn tell_reading(x: Reading) -> Told
    requires { Few x }
    ensures { result ≡ told_reading x }
{
    match x {
        Reading::Figures(count) => tell_number(count),
        Reading::RefusedCase(f) => tell_fault(CASE, f),
        Reading::RefusedMessage(f) => tell_fault(MESSAGE, f),
        Reading::Short(count) => tell_fault(BUFFER, Fault::TooShort(NUMBER_BYTES * count)),
    }
}

// A plan that is mended.
pub fn tell_mending(x: Mending) -> Told
    ensures { result ≡ told_mending x }
{
    match x {
        Mending::Accepted(z) => {
            let surplus = bits::twos(z);
            tell_number(surplus)
        }
        Mending::Mended(interval, device, power) => Told {
            word: MENDED,
            first: interval,
            second: device,
            third: power,
            fourth: 0,
        },
        Mending::Nothing => Told {
            word: UNMENDABLE,
            first: 0,
            second: 0,
            third: 0,
            fourth: 0,
        },
        Mending::Refused(s, f) => tell_refused(s, f),
    }
}

// What a splitter finds.
pub fn tell_frame(x: Framed) -> Told
    ensures { result ≡ told_frame x }
{
    match x {
        Framed::Message(from, until) => Told {
            word: 0,
            first: from as u64,
            second: until as u64,
            third: 0,
            fourth: 0,
        },
        Framed::End => Told {
            word: END,
            first: 0,
            second: 0,
            third: 0,
            fourth: 0,
        },
        Framed::Refused(f) => tell_fault(CASE, f),
    }
}

// The four numbers at the front of a slice.
pub fn store(figures: &mut [u64], t: Told)
    requires { 4 ≤ length figures.old }
    ensures { figures.new ≡ figures_of t ++ drop 4 figures.old }
{
    figures[3] = t.fourth;
    figures[2] = t.third;
    figures[1] = t.second;
    figures[0] = t.first;
}

// The most bytes of a message that a host's splitter takes.
pub const LONGEST: u64 = 1048576;

// What stands behind the length at byte `at` of a host's batch: 0 and the message's bounds, 1 at the end, or 2 and the refusal; 5, with nothing done, where
// `figures` has fewer than four places.
pub fn split(batch: &[u8], at: usize, figures: &mut [u64]) -> u64
    ensures { HostSplits batch.now at figures.old figures.new result }
{
    if figures.len() < 4 {
        return 5;
    }
    let x = layouts::frame_at(batch, at, LONGEST);
    let t = tell_frame(x);
    let word = t.word;
    store(figures, t);
    word
}
