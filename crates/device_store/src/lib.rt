// A device into its row.
#![tactic(auto)]

ghost use Rattle.std.specs.Prelude.{◌≡◌, ◌<◌, ◌^◌, [], length, get_or, set};
ghost use Rattle.row_places.specs.Figures.{state_figures, start_figures, energy_figures, EnergiesSmall, DeviceSmall, device_row, with_limit};

use kilowatts::Kw;
use row_places::{Device, DeviceRow, EnergyWindow, LINK_LIMIT, StartWindow, State};

// A figure that was read from 32 bits.
fn narrow(x: u64) -> u32
    requires { x < 2 ^ 32 }
    ensures { result ≡ x }
{
    x as u32
}

fn state_figures(l: [State; 3]) -> [u32; 6]
    ensures { result ≡ state_figures l }
{
    let s0 = l[0];
    let s1 = l[1];
    let s2 = l[2];
    [
        s0.longest, s0.cost, s1.longest, s1.cost, s2.longest, s2.cost,
    ]
}

fn start_figures(l: [StartWindow; 4]) -> [u32; 12]
    ensures { result ≡ start_figures l }
{
    let w0 = l[0];
    let w1 = l[1];
    let w2 = l[2];
    let w3 = l[3];
    [
        w0.from, w0.until, w0.most, w1.from, w1.until, w1.most, w2.from, w2.until, w2.most,
        w3.from, w3.until, w3.most,
    ]
}

fn energy_figures(l: [EnergyWindow; 4]) -> [u32; 16]
    requires { EnergiesSmall l }
    ensures { result ≡ energy_figures l }
{
    let w0 = l[0];
    let w1 = l[1];
    let w2 = l[2];
    let w3 = l[3];
    let e0 = narrow(w0.energy.0);
    let e1 = narrow(w1.energy.0);
    let e2 = narrow(w2.energy.0);
    let e3 = narrow(w3.energy.0);
    [
        w0.kind, w0.from, w0.until, e0, w1.kind, w1.from, w1.until, e1, w2.kind, w2.from, w2.until,
        e2, w3.kind, w3.from, w3.until, e3,
    ]
}

fn device_row(d: Device) -> DeviceRow
    requires { DeviceSmall d }
    ensures { result ≡ device_row d }
{
    let ramps = d.ramps;
    let limits = d.limits;
    let startcost = narrow(d.startcost.0);
    let stopcost = narrow(d.stopcost.0);
    let nstates = narrow(d.nstates as u64);
    let nstarts = narrow(d.nstarts as u64);
    let nenergies = narrow(d.nenergies as u64);
    let listed = d.states;
    let states = state_figures(listed);
    let listed = d.starts;
    let starts = start_figures(listed);
    let listed = d.energies;
    let energies = energy_figures(listed);
    [
        d.side,
        d.zonebits,
        d.on0,
        d.power0.0,
        d.minutes0,
        d.minup,
        d.mindown,
        ramps[0],
        ramps[1],
        ramps[2],
        ramps[3],
        d.oncost,
        startcost,
        stopcost,
        limits[0].0,
        limits[1].0,
        limits[2].0,
        limits[3].0,
        limits[4].0,
        limits[5].0,
        limits[6].0,
        limits[7].0,
        nstates,
        states[0],
        states[1],
        states[2],
        states[3],
        states[4],
        states[5],
        nstarts,
        starts[0],
        starts[1],
        starts[2],
        starts[3],
        starts[4],
        starts[5],
        starts[6],
        starts[7],
        starts[8],
        starts[9],
        starts[10],
        starts[11],
        nenergies,
        energies[0],
        energies[1],
        energies[2],
        energies[3],
        energies[4],
        energies[5],
        energies[6],
        energies[7],
        energies[8],
        energies[9],
        energies[10],
        energies[11],
        energies[12],
        energies[13],
        energies[14],
        energies[15],
        d.link.kind,
        d.link.upper.offset.0,
        d.link.upper.slope,
        d.link.lower.offset.0,
        d.link.lower.slope,
        d.bar,
        0,
    ]
}

// A device into row i.
pub fn put_device(devices: &mut [DeviceRow], i: usize, d: Device)
    requires { DeviceSmall d × (i < length devices.old) }
    ensures { devices.new ≡ set devices.old i (device_row d) }
{
    devices[i] = device_row(d);
}

// The limit of the link between the bars into the first device's row; the row's other figures stay.
pub fn put_limit(devices: &mut [DeviceRow], x: Kw)
    requires { 0 < length devices.old }
    ensures { devices.new ≡ set devices.old 0 (with_limit (get_or devices.old 0 []) x.0) }
{
    let mut row = devices[0];
    row[LINK_LIMIT] = x.0;
    devices[0] = row;
}
