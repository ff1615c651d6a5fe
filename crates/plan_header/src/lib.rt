// What stands ahead of a plan's settings, of every edition, read against its layout.
#![tactic(auto)]

ghost use Rattle.std.specs.Prelude.{◌≡◌};
ghost use Rattle.layouts.specs.Layout.{begin};
ghost use Rattle.fields.specs.Got.{got};
ghost use Rattle.plan_header.specs.Plans.{header};

use fields::{BEGIN, Read};

// "kind 4 (2)"
const PLAN_KIND: u32 = 2;

// Kind, edition and the case's counts.
pub fn read_header(s: &[u8], edition: u32, devices: u32, intervals: u32) -> Read<u32>
    ensures { result ≡ got (header edition devices intervals) s.now begin }
{
    let (_, at_edition) = fields::read_fixed(s, BEGIN, PLAN_KIND)?;
    let (_, at_devices) = fields::read_fixed(s, at_edition, edition)?;
    let across = editions::device_bits(edition);
    let (_, at_intervals) = fields::read_count(s, at_devices, across, devices, devices)?;
    let along = editions::interval_bits(edition);
    fields::read_count(s, at_intervals, along, intervals, intervals)
}
