// A device from its row, whole or one figure of it.
#![tactic(auto)]

ghost use Rattle.std.specs.Prelude.{◌≡◌, [], ◌<◌, get_or, length};
ghost use Rattle.grains.specs.Money.{grains};
ghost use Rattle.model.specs.Editions.{most_states, most_windows};
ghost use Rattle.row_places.specs.Figures.{device_with, window_of, states_of, starts_of, energies_of, limits_of, device_of, state_of, start_of, energy_of, link_of, side_at, zonebits_at};
ghost use Rattle.row_places.specs.Figures.{on0_at, minutes0_at, oncost_at, startcost_at, stopcost_at, states_at, state_at, energies_at, energy_at, link_at, bar_at, limit_at};

use energy::KwMin;
use grains::Grains;
use kilovars::SignedKvar;
use kilowatts::Kw;
use row_places::{
    DEVICE_BAR, DEVICE_MIN_DOWN, DEVICE_MIN_UP, DEVICE_MINUTES_0, DEVICE_NSC, DEVICE_ON_0,
    DEVICE_ON_COST, DEVICE_POWER_0, DEVICE_RAMP_DOWN, DEVICE_RAMP_STARTING, DEVICE_RAMP_STOPPING,
    DEVICE_RAMP_UP, DEVICE_RGD, DEVICE_RGU, DEVICE_RRD_OFF, DEVICE_RRD_ON, DEVICE_RRU_OFF,
    DEVICE_RRU_ON, DEVICE_SCR, DEVICE_SIDE, DEVICE_START_COST, DEVICE_STOP_COST, DEVICE_ZONE_BITS,
    Device, DeviceRow, ENERGIES, ENERGY_WIDTH, EnergyWindow, LINK_KIND, LINK_LIMIT, LOWER_OFFSET,
    LOWER_SLOPE, Line, Link, START_WIDTH, STARTS, STATE_WIDTH, STATES, StartWindow, State,
    UPPER_OFFSET, UPPER_SLOPE,
};

fn money_of(x: u32) -> Grains
    ensures { result ≡ grains x }
{
    Grains(x as u64)
}

fn counted(x: u32) -> usize
    ensures { result ≡ x }
{
    x as usize
}

// Startup state k.
fn state_in(r: DeviceRow, k: usize) -> State
    requires { k < most_states }
    ensures { result ≡ state_of r k }
{
    let a = STATES + 1 + STATE_WIDTH * k;
    State {
        longest: r[a],
        cost: r[a + 1],
    }
}

fn states_in(r: DeviceRow) -> [State; 3]
    ensures { result ≡ states_of r }
{
    let a = state_in(r, 0);
    let b = state_in(r, 1);
    let c = state_in(r, 2);
    [a, b, c]
}

// Start window k.
fn start_in(r: DeviceRow, k: usize) -> StartWindow
    requires { k < most_windows }
    ensures { result ≡ start_of r k }
{
    let a = STARTS + 1 + START_WIDTH * k;
    StartWindow {
        from: r[a],
        until: r[a + 1],
        most: r[a + 2],
    }
}

fn starts_in(r: DeviceRow) -> [StartWindow; 4]
    ensures { result ≡ starts_of r }
{
    let a = start_in(r, 0);
    let b = start_in(r, 1);
    let c = start_in(r, 2);
    let d = start_in(r, 3);
    [a, b, c, d]
}

fn energy_window(kind: u32, from: u32, until: u32, energy: u32) -> EnergyWindow
    ensures { result ≡ window_of kind from until energy }
{
    EnergyWindow {
        kind,
        from,
        until,
        energy: KwMin(energy as u64),
    }
}

// Energy window k.
fn energy_in(r: DeviceRow, k: usize) -> EnergyWindow
    requires { k < most_windows }
    ensures { result ≡ energy_of r k }
{
    let a = ENERGIES + 1 + ENERGY_WIDTH * k;
    energy_window(r[a], r[a + 1], r[a + 2], r[a + 3])
}

fn energies_in(r: DeviceRow) -> [EnergyWindow; 4]
    ensures { result ≡ energies_of r }
{
    let a = energy_in(r, 0);
    let b = energy_in(r, 1);
    let c = energy_in(r, 2);
    let d = energy_in(r, 3);
    [a, b, c, d]
}

fn limits_in(r: DeviceRow) -> [Kw; 8]
    ensures { result ≡ limits_of r }
{
    [
        Kw(r[DEVICE_RGU]),
        Kw(r[DEVICE_RGD]),
        Kw(r[DEVICE_SCR]),
        Kw(r[DEVICE_NSC]),
        Kw(r[DEVICE_RRU_ON]),
        Kw(r[DEVICE_RRU_OFF]),
        Kw(r[DEVICE_RRD_ON]),
        Kw(r[DEVICE_RRD_OFF]),
    ]
}

fn link_in(r: DeviceRow) -> Link
    ensures { result ≡ link_of r }
{
    Link {
        kind: r[LINK_KIND],
        upper: Line {
            offset: SignedKvar(r[UPPER_OFFSET]),
            slope: r[UPPER_SLOPE],
        },
        lower: Line {
            offset: SignedKvar(r[LOWER_OFFSET]),
            slope: r[LOWER_SLOPE],
        },
    }
}

// A device from its row; its costs and counts given.
fn device_with(
    r: DeviceRow,
    startcost: Grains,
    stopcost: Grains,
    nstates: usize,
    nstarts: usize,
    nenergies: usize,
) -> Device
    ensures { result ≡ device_with r startcost stopcost (limits_of r) nstates (states_of r) nstarts (starts_of r) nenergies (energies_of r) }
{
    Device {
        side: r[DEVICE_SIDE],
        zonebits: r[DEVICE_ZONE_BITS],
        on0: r[DEVICE_ON_0],
        power0: Kw(r[DEVICE_POWER_0]),
        minutes0: r[DEVICE_MINUTES_0],
        minup: r[DEVICE_MIN_UP],
        mindown: r[DEVICE_MIN_DOWN],
        ramps: [
            r[DEVICE_RAMP_UP],
            r[DEVICE_RAMP_DOWN],
            r[DEVICE_RAMP_STARTING],
            r[DEVICE_RAMP_STOPPING],
        ],
        oncost: r[DEVICE_ON_COST],
        startcost,
        stopcost,
        limits: limits_in(r),
        nstates,
        states: states_in(r),
        nstarts,
        starts: starts_in(r),
        nenergies,
        energies: energies_in(r),
        link: link_in(r),
        bar: r[DEVICE_BAR],
    }
}

pub fn device_at(devices: &[DeviceRow], i: usize) -> Device
    requires { i < length devices.now }
    ensures { result ≡ device_of (get_or devices.now i []) }
{
    let r = devices[i];
    let startcost = money_of(r[DEVICE_START_COST]);
    let stopcost = money_of(r[DEVICE_STOP_COST]);
    let nstates = counted(r[STATES]);
    let nstarts = counted(r[STARTS]);
    let nenergies = counted(r[ENERGIES]);
    device_with(r, startcost, stopcost, nstates, nstarts, nenergies)
}

// One figure where only that is read.
pub fn side_at(devices: &[DeviceRow], i: usize) -> u32
    requires { i < length devices.now }
    ensures { result ≡ side_at devices.now i }
{
    devices[i][DEVICE_SIDE]
}

// The bar that it stands on.
pub fn bar_at(devices: &[DeviceRow], i: usize) -> u32
    requires { i < length devices.now }
    ensures { result ≡ bar_at devices.now i }
{
    devices[i][DEVICE_BAR]
}

// The limit of the link between the bars, which stands in the first device's row.
pub fn limit_at(devices: &[DeviceRow]) -> Kw
    requires { 0 < length devices.now }
    ensures { result.0 ≡ limit_at devices.now }
{
    Kw(devices[0][LINK_LIMIT])
}

pub fn zonebits_at(devices: &[DeviceRow], i: usize) -> u32
    requires { i < length devices.now }
    ensures { result ≡ zonebits_at devices.now i }
{
    devices[i][DEVICE_ZONE_BITS]
}

// Whether it is on before the day, and the minutes already so.
pub fn on0_at(devices: &[DeviceRow], i: usize) -> u32
    requires { i < length devices.now }
    ensures { result ≡ on0_at devices.now i }
{
    devices[i][DEVICE_ON_0]
}

pub fn minutes0_at(devices: &[DeviceRow], i: usize) -> u32
    requires { i < length devices.now }
    ensures { result ≡ minutes0_at devices.now i }
{
    devices[i][DEVICE_MINUTES_0]
}

pub fn oncost_at(devices: &[DeviceRow], i: usize) -> u32
    requires { i < length devices.now }
    ensures { result ≡ oncost_at devices.now i }
{
    devices[i][DEVICE_ON_COST]
}

pub fn startcost_at(devices: &[DeviceRow], i: usize) -> Grains
    requires { i < length devices.now }
    ensures { result ≡ startcost_at devices.now i }
{
    money_of(devices[i][DEVICE_START_COST])
}

pub fn stopcost_at(devices: &[DeviceRow], i: usize) -> Grains
    requires { i < length devices.now }
    ensures { result ≡ stopcost_at devices.now i }
{
    money_of(devices[i][DEVICE_STOP_COST])
}

// How many startup states it has, and state k.
pub fn states_at(devices: &[DeviceRow], i: usize) -> usize
    requires { i < length devices.now }
    ensures { result ≡ states_at devices.now i }
{
    counted(devices[i][STATES])
}

pub fn state_at(devices: &[DeviceRow], i: usize, k: usize) -> State
    requires { (i < length devices.now) × (k < most_states) }
    ensures { result ≡ state_at devices.now i k }
{
    let a = STATES + 1 + STATE_WIDTH * k;
    State {
        longest: devices[i][a],
        cost: devices[i][a + 1],
    }
}

// How many energy windows it has, and window k.
pub fn energies_at(devices: &[DeviceRow], i: usize) -> usize
    requires { i < length devices.now }
    ensures { result ≡ energies_at devices.now i }
{
    counted(devices[i][ENERGIES])
}

pub fn energy_at(devices: &[DeviceRow], i: usize, k: usize) -> EnergyWindow
    requires { (i < length devices.now) × (k < most_windows) }
    ensures { result ≡ energy_at devices.now i k }
{
    let a = ENERGIES + 1 + ENERGY_WIDTH * k;
    energy_window(
        devices[i][a],
        devices[i][a + 1],
        devices[i][a + 2],
        devices[i][a + 3],
    )
}

// How its reactive power is tied to its power.
pub fn link_at(devices: &[DeviceRow], i: usize) -> Link
    requires { i < length devices.now }
    ensures { result ≡ link_at devices.now i }
{
    Link {
        kind: devices[i][LINK_KIND],
        upper: Line {
            offset: SignedKvar(devices[i][UPPER_OFFSET]),
            slope: devices[i][UPPER_SLOPE],
        },
        lower: Line {
            offset: SignedKvar(devices[i][LOWER_OFFSET]),
            slope: devices[i][LOWER_SLOPE],
        },
    }
}
