// What a case says of a device ahead of its intervals, in every edition, as a record by value.
#![tactic(auto)]

ghost use Rattle.std.specs.Prelude.{◌≡◌, ◌≤◌};
ghost use Rattle.device_reader.specs.Parts.{MoneyMade, limits_from, DeviceMade};
ghost use Rattle.model.specs.Editions.{most_zones};
ghost use Rattle.device_reader.specs.Heads.{HeadDone};

use device_figures::{Figures, Linked, Sides};
use fields::Read;
use grains::Grains;
use item_reader::{Items, Listed};
use kilowatts::Kw;
use layouts::Place;
use row_places::Device;

// ---- parts of the record

fn money_of(x: u32) -> Grains
    ensures { MoneyMade x result }
{
    Grains(x as u64)
}

fn limits_of(figures: Figures) -> [Kw; 8]
    ensures { result ≡ limits_from figures.limits }
{
    let l = figures.limits;
    [
        Kw(l[0]),
        Kw(l[1]),
        Kw(l[2]),
        Kw(l[3]),
        Kw(l[4]),
        Kw(l[5]),
        Kw(l[6]),
        Kw(l[7]),
    ]
}

// ---- the record

// A device's record, from its figures, its lists, its link and its bar.
fn device_of(
    sides: Sides,
    figures: Figures,
    states: Items,
    starts: Items,
    energies: Items,
    linked: Linked,
) -> Device
    ensures { DeviceMade sides figures states starts energies linked result }
{
    let [on0, power0, minutes0, minup, mindown] = figures.initial;
    let [up, down, starting, stopping] = figures.ramps;
    let [oncost, startcost, stopcost] = figures.costs;
    let limits = limits_of(figures);
    let state_items = list_records::states_of(states);
    let start_items = list_records::starts_of(starts);
    let energy_items = list_records::energies_of(energies);
    Device {
        side: sides.side,
        zonebits: sides.zonebits,
        on0,
        power0: Kw(power0),
        minutes0,
        minup,
        mindown,
        ramps: [up, down, starting, stopping],
        oncost,
        startcost: money_of(startcost),
        stopcost: money_of(stopcost),
        limits,
        nstates: states.count,
        states: state_items,
        nstarts: starts.count,
        starts: start_items,
        nenergies: energies.count,
        energies: energy_items,
        link: linked.link,
        bar: linked.bar,
    }
}

// What stands ahead of a device's intervals; zones is the case's count, last its last E.
pub fn read_head(s: &[u8], p: Place, edition: u32, zones: u32, last: u32) -> Read<Device>
    requires { zones ≤ most_zones }
    ensures { HeadDone edition s.now p zones last result }
{
    let (sides, at_figures) = device_figures::read_sides(s, p, zones)?;
    let (figures, at_states) = device_figures::read_figures(s, at_figures)?;
    let (states, at_starts) = list_reader::read_items(s, at_states, Listed::States, edition, last)?;
    let (starts, at_energies) = list_reader::read_items(
        s,
        at_starts,
        Listed::Starts,
        edition,
        last,
    )?;
    let (energies, at_link) = list_reader::read_items(
        s,
        at_energies,
        Listed::Energies,
        edition,
        last,
    )?;
    let (linked, past) = device_figures::read_linked(s, at_link, edition)?;
    let device = device_of(sides, figures, states, starts, energies, linked);
    Ok((device, past))
}
