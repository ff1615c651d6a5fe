// The plan message of every edition, read against its layout into rows. The message goes interval by interval, in it device by device, then the flow; the rows
// stand device by device, and an interval's flow in the first device's.
#![tactic(auto)]

ghost use Rattle.std.specs.Prelude.{◌≡◌, ◌+◌, ◌<◌};
ghost use Rattle.layouts.specs.Layout.{list, begin};
ghost use Rattle.model.specs.ByEdition.{setting, planned, plan_layout};
ghost use Rattle.records.specs.Views.{plan_in};
ghost use Rattle.numbers.specs.Rows.{rows};
ghost use Rattle.fields.specs.Got.{got, told};
ghost use Rattle.plan_reader.specs.Rows.{interval_at, SettingsDone, IntervalDone};
ghost use Rattle.plan_header.specs.Plans.{PlanRoom, PlanDone};

use kilowatts::SignedKw;
use layouts::{Fault, Place};
use plan_header::read_header;
use row_places::SettingRow;
use setting_rows::put_flow;
use setting_store::store_setting;

// The settings of interval t, device by device: the rows of a device stand together.
fn read_settings(
    s: &[u8],
    p: Place,
    edition: u32,
    devices: usize,
    intervals: usize,
    t: usize,
    settings: &mut [SettingRow],
) -> Result<Place, Fault>
    requires { PlanRoom devices intervals settings.old × (t < intervals) }
    ensures { SettingsDone edition devices intervals t s.now p settings.old settings.new result }
{
    let mut q = p;
    for i in 0..devices {
        q = store_setting(s, q, edition, settings, i * intervals + t)?;
    }
    Ok(q)
}

// Interval t: its settings, then its flow.
fn read_interval(
    s: &[u8],
    p: Place,
    edition: u32,
    devices: usize,
    intervals: usize,
    t: usize,
    settings: &mut [SettingRow],
) -> Result<Place, Fault>
    requires { PlanRoom devices intervals settings.old × (t < intervals) }
    ensures { IntervalDone edition devices intervals t s.now p settings.old settings.new result }
{
    let at_flow = read_settings(s, p, edition, devices, intervals, t, settings)?;
    let (flow, past) = flow_reader::read_flow(s, at_flow, edition)?;
    put_flow(settings, t, SignedKw(flow));
    Ok(past)
}

// Every interval.
fn read_intervals(
    s: &[u8],
    p: Place,
    edition: u32,
    devices: usize,
    intervals: usize,
    settings: &mut [SettingRow],
) -> Result<Place, Fault>
    requires { PlanRoom devices intervals settings.old }
    ensures { told result (rows (interval_at devices intervals settings.new) intervals) ≡ got (list intervals (planned edition devices)) s.now p }
{
    let mut q = p;
    for t in 0..intervals {
        q = read_interval(s, q, edition, devices, intervals, t, settings)?;
    }
    Ok(q)
}

// Every field of the plan.
fn read_fields(
    s: &[u8],
    edition: u32,
    devices: usize,
    intervals: usize,
    settings: &mut [SettingRow],
) -> Result<Place, Fault>
    requires { PlanRoom devices intervals settings.old }
    ensures { told result (plan_in devices intervals settings.new) ≡ got (plan_layout edition devices intervals) s.now begin }
{
    let (_, p) = read_header(s, edition, devices as u32, intervals as u32)?;
    read_intervals(s, p, edition, devices, intervals, settings)
}

// A plan message for a case of this edition with these counts, into rows device by device. After a refusal what the rows hold is left free.
pub fn read_plan(
    s: &[u8],
    edition: u32,
    devices: usize,
    intervals: usize,
    settings: &mut [SettingRow],
) -> Result<(), Fault>
    requires { PlanRoom devices intervals settings.old }
    ensures { PlanDone edition devices intervals s.now settings.new result }
{
    let p = read_fields(s, edition, devices, intervals, settings)?;
    message_ends::finish(s, p)
}
