// Which tables a case needs, by the counts that its message states.
#![tactic(auto)]

ghost use Rattle.std.specs.Prelude.{◌≡◌};
ghost use Rattle.case_sizes.specs.Sizes.{Sized, by_size};

use bits::{Cursor, Field};

// The largest counts of a small case: those that the batch program takes.
pub const SMALL_DEVICES: usize = 16;

pub const SMALL_INTERVALS: usize = 48;

// "kind 4; edition 4"
const KIND_BITS: u64 = 4;

const EDITION_BITS: u64 = 4;

// What a message states of its counts: not both, since it ends ahead of them or has no known edition; at most those of a small case; or more.
#[derive(Clone, Copy)]
pub enum Size {
    Unstated,
    Small,
    ManyDevices,
    ManyIntervals,
}

// By the counts from the cursor on, of a known edition.
fn by_counts(case: &[u8], first: Cursor, edition: u32) -> Size
    ensures { result ≡ by_size case.now edition first.at }
{
    let width = editions::device_bits(edition);
    let Field::Value(devices, at_intervals) = first.field(case, width) else {
        return Size::Unstated;
    };
    if (SMALL_DEVICES as u64) < devices {
        return Size::ManyDevices;
    }
    let width = editions::interval_bits(edition);
    let Field::Value(intervals, _) = at_intervals.field(case, width) else {
        return Size::Unstated;
    };
    if (SMALL_INTERVALS as u64) < intervals {
        return Size::ManyIntervals;
    }
    Size::Small
}

// A case's size; nothing but its edition and these two counts is read.
pub fn size_of(case: &[u8]) -> Size
    ensures { Sized case.now result }
{
    let at_edition = Cursor { at: KIND_BITS };
    let Field::Value(edition, at_devices) = at_edition.field(case, EDITION_BITS) else {
        return Size::Unstated;
    };
    if (editions::NEWEST as u64) < edition {
        return Size::Unstated;
    }
    by_counts(case, at_devices, edition as u32)
}
