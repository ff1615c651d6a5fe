// The rows of a decoded case and plan: their widths, and the records that are taken from them and put into them. At rest figures stand in lent slices of
// rows, device by device, zone by zone; counts are the slices' lengths. In flight they are structs by value. Where each figure stands in its row is said in
// `Figures`, and by name below; only the crates of the rows (`zone_rows`, `cell_rows`, `setting_rows`, `device_rows`, `device_store`) read and write by place.
#![tactic(auto)]

ghost use Rattle.std.specs.Prelude.{◌≡◌};
ghost use Rattle.row_places.specs.Figures.{blank};

use energy::KwMin;
use grains::Grains;
use kilovars::{Kvar, KvarPrice, SignedKvar, VarPrice};
use kilowatts::Kw;

// A device in one interval: status, pmin, pmax, count of blocks, four caps, four prices kept from −10,000, the prices of the eight; then qmin and qmax, kept
// from −100,000, and the prices of the two reactive reserves; then four floors.
pub type CellRow = [u32; 28];

// The places of its figures; of the prices of the eight and of the two reactive reserves.
pub const CELL_STATUS: usize = 0;

pub const CELL_PMIN: usize = 1;

pub const CELL_PMAX: usize = 2;

pub const CELL_BLOCKS: usize = 3;

pub const CELL_CAP_1: usize = 4;

pub const CELL_CAP_2: usize = 5;

pub const CELL_CAP_3: usize = 6;

pub const CELL_CAP_4: usize = 7;

pub const CELL_PRICE_1: usize = 8;

pub const CELL_PRICE_2: usize = 9;

pub const CELL_PRICE_3: usize = 10;

pub const CELL_PRICE_4: usize = 11;

pub const CELL_RGU: usize = 12;

pub const CELL_RGD: usize = 13;

pub const CELL_SCR: usize = 14;

pub const CELL_NSC: usize = 15;

pub const CELL_RRU_ON: usize = 16;

pub const CELL_RRU_OFF: usize = 17;

pub const CELL_RRD_ON: usize = 18;

pub const CELL_RRD_OFF: usize = 19;

pub const CELL_QMIN: usize = 20;

pub const CELL_QMAX: usize = 21;

pub const CELL_QRU: usize = 22;

pub const CELL_QRD: usize = 23;

pub const CELL_FLOOR_1: usize = 24;

pub const CELL_FLOOR_2: usize = 25;

pub const CELL_FLOOR_3: usize = 26;

pub const CELL_FLOOR_4: usize = 27;

// A plan's figures for a device in one interval: on, online power, the eight; q kept from −100,000, its two reserves; then, in the rows of the first device,
// the interval's flow, kept from −100,000.
pub type SettingRow = [u32; 14];

// The places of its figures.
pub const SETTING_ON: usize = 0;

pub const SETTING_ONLINE: usize = 1;

pub const SETTING_RGU: usize = 2;

pub const SETTING_RGD: usize = 3;

pub const SETTING_SCR: usize = 4;

pub const SETTING_NSC: usize = 5;

pub const SETTING_RRU_ON: usize = 6;

pub const SETTING_RRU_OFF: usize = 7;

pub const SETTING_RRD_ON: usize = 8;

pub const SETTING_RRD_OFF: usize = 9;

pub const SETTING_Q: usize = 10;

pub const SETTING_QRU: usize = 11;

pub const SETTING_QRD: usize = 12;

pub const SETTING_FLOW: usize = 13;

// A device ahead of its intervals: its head, ramps, costs, limits; then counted states, start windows and energy windows; then its link, the lines' offsets
// kept from −100,000 and their slopes from −10,000; then its bar and, in the first device's row, the limit of the link between the bars.
pub type DeviceRow = [u32; 66];

// The places of its figures; of the limits of the eight.
pub const DEVICE_SIDE: usize = 0;

pub const DEVICE_ZONE_BITS: usize = 1;

pub const DEVICE_ON_0: usize = 2;

pub const DEVICE_POWER_0: usize = 3;

pub const DEVICE_MINUTES_0: usize = 4;

pub const DEVICE_MIN_UP: usize = 5;

pub const DEVICE_MIN_DOWN: usize = 6;

pub const DEVICE_RAMP_UP: usize = 7;

pub const DEVICE_RAMP_DOWN: usize = 8;

pub const DEVICE_RAMP_STARTING: usize = 9;

pub const DEVICE_RAMP_STOPPING: usize = 10;

pub const DEVICE_ON_COST: usize = 11;

pub const DEVICE_START_COST: usize = 12;

pub const DEVICE_STOP_COST: usize = 13;

pub const DEVICE_RGU: usize = 14;

pub const DEVICE_RGD: usize = 15;

pub const DEVICE_SCR: usize = 16;

pub const DEVICE_NSC: usize = 17;

pub const DEVICE_RRU_ON: usize = 18;

pub const DEVICE_RRU_OFF: usize = 19;

pub const DEVICE_RRD_ON: usize = 20;

pub const DEVICE_RRD_OFF: usize = 21;

// Where its lists begin, each with its count.
pub const STATES: usize = 22;

pub const STARTS: usize = 29;

pub const ENERGIES: usize = 42;

// The places of its link's figures.
pub const LINK_KIND: usize = 59;

pub const UPPER_OFFSET: usize = 60;

pub const UPPER_SLOPE: usize = 61;

pub const LOWER_OFFSET: usize = 62;

pub const LOWER_SLOPE: usize = 63;

// Its bar; the limit of the link between the bars.
pub const DEVICE_BAR: usize = 64;

pub const LINK_LIMIT: usize = 65;

// How many figures a startup state, a start window and an energy window have there.
pub const STATE_WIDTH: usize = 2;

pub const START_WIDTH: usize = 3;

pub const ENERGY_WIDTH: usize = 4;

// A zone ahead of its intervals: four shares, six prices, two of reactive reserves.
pub type ZoneRow = [u32; 12];

// The places of its shares and prices.
pub const ZONE_RGU: usize = 0;

pub const ZONE_RGD: usize = 1;

pub const ZONE_SCR: usize = 2;

pub const ZONE_NSC: usize = 3;

pub const ZONE_RGU_PRICE: usize = 4;

pub const ZONE_RGD_PRICE: usize = 5;

pub const ZONE_SCR_PRICE: usize = 6;

pub const ZONE_NSC_PRICE: usize = 7;

pub const ZONE_RRU_PRICE: usize = 8;

pub const ZONE_RRD_PRICE: usize = 9;

pub const ZONE_QRU_PRICE: usize = 10;

pub const ZONE_QRD_PRICE: usize = 11;

// A zone's minima in one interval: rru, rrd, qru, qrd.
pub type MinimaRow = [u32; 4];

// The places of its figures.
pub const MINIMA_RRU: usize = 0;

pub const MINIMA_RRD: usize = 1;

pub const MINIMA_QRU: usize = 2;

pub const MINIMA_QRD: usize = 3;

// Rows of zeros, for an owner's tables: what a reader fills.
pub fn blank_cell() -> CellRow
    ensures { result ≡ blank 28 }
{
    [0u32; 28]
}

pub fn blank_setting() -> SettingRow
    ensures { result ≡ blank 14 }
{
    [0u32; 14]
}

pub fn blank_device() -> DeviceRow
    ensures { result ≡ blank 66 }
{
    [0u32; 66]
}

pub fn blank_zone() -> ZoneRow
    ensures { result ≡ blank 12 }
{
    [0u32; 12]
}

pub fn blank_minima() -> MinimaRow
    ensures { result ≡ blank 4 }
{
    [0u32; 4]
}

// "The eight, in order": amounts of a plan, limits of a device.
#[derive(Clone, Copy)]
pub struct Reserves {
    pub rgu: Kw,
    pub rgd: Kw,
    pub scr: Kw,
    pub nsc: Kw,
    pub rruon: Kw,
    pub rruoff: Kw,
    pub rrdon: Kw,
    pub rrdoff: Kw,
}

// The prices of the eight, in grains per kW·min.
#[derive(Clone, Copy)]
pub struct ReservePrices {
    pub rgu: u32,
    pub rgd: u32,
    pub scr: u32,
    pub nsc: u32,
    pub rruon: u32,
    pub rruoff: u32,
    pub rrdon: u32,
    pub rrdoff: u32,
}

// What a device has of reactive power in one interval: "qmin and qmax in kvar"; the prices of the two reserves.
#[derive(Clone, Copy)]
pub struct ReactiveCell {
    pub qmin: SignedKvar,
    pub qmax: SignedKvar,
    pub qru: KvarPrice,
    pub qrd: KvarPrice,
}

// A device in one interval. Block prices are kept from 0: the price and 10,000. Absent blocks have cap 0 and floor 0.
#[derive(Clone, Copy)]
pub struct Cell {
    pub status: u32,
    pub pmin: Kw,
    pub pmax: Kw,
    pub blocks: u32,
    pub caps: [Kw; 4],
    pub floors: [Kw; 4],
    pub prices: [u32; 4],
    pub reserves: ReservePrices,
    pub reactive: ReactiveCell,
}

// "q (as qmax) and two reactive reserves", up before down.
#[derive(Clone, Copy)]
pub struct Reactive {
    pub q: SignedKvar,
    pub qru: Kvar,
    pub qrd: Kvar,
}

// A plan's figures for a device in one interval; "u = on (1/0)".
#[derive(Clone, Copy)]
pub struct Setting {
    pub on: u32,
    pub online: Kw,
    pub reserves: Reserves,
    pub reactive: Reactive,
}

// A startup state; its cost is kept from 0: the cost and 1,000,000,000.
#[derive(Clone, Copy)]
pub struct State {
    pub longest: u32,
    pub cost: u32,
}

#[derive(Clone, Copy)]
pub struct StartWindow {
    pub from: u32,
    pub until: u32,
    pub most: u32,
}

// Kind 0 limits the energy from above, kind 1 from below.
#[derive(Clone, Copy)]
pub struct EnergyWindow {
    pub kind: u32,
    pub from: u32,
    pub until: u32,
    pub energy: KwMin,
}

// "an offset .. and a slope in thousandths": the slope, in thousandths of a kvar per kW, is kept from 0: the slope and 10,000.
#[derive(Clone, Copy)]
pub struct Line {
    pub offset: SignedKvar,
    pub slope: u32,
}

// Kind 0 none, 1 two lines, 2 equality, which stands as the upper line.
#[derive(Clone, Copy)]
pub struct Link {
    pub kind: u32,
    pub upper: Line,
    pub lower: Line,
}

// "Per device": what a case says of a device ahead of its intervals. The ramps are up, down, starting, stopping, in kW/min; the limits are the eight in
// order; the on cost is grains a minute; the bar is 0 or 1.
#[derive(Clone, Copy)]
pub struct Device {
    pub side: u32,
    pub zonebits: u32,
    pub on0: u32,
    pub power0: Kw,
    pub minutes0: u32,
    pub minup: u32,
    pub mindown: u32,
    pub ramps: [u32; 4],
    pub oncost: u32,
    pub startcost: Grains,
    pub stopcost: Grains,
    pub limits: [Kw; 8],
    pub nstates: usize,
    pub states: [State; 3],
    pub nstarts: usize,
    pub starts: [StartWindow; 4],
    pub nenergies: usize,
    pub energies: [EnergyWindow; 4],
    pub link: Link,
    pub bar: u32,
}

// Shares in thousandths; prices of the six shortfalls in grains per W·min, then of the two of reactive reserves.
#[derive(Clone, Copy)]
pub struct Zone {
    pub rgu: u32,
    pub rgd: u32,
    pub scr: u32,
    pub nsc: u32,
    pub prices: [u32; 6],
    pub qru: VarPrice,
    pub qrd: VarPrice,
}

#[derive(Clone, Copy)]
pub struct Minima {
    pub rru: Kw,
    pub rrd: Kw,
    pub qru: Kvar,
    pub qrd: Kvar,
}

// What stands at a case's front beside its counts: its edition; prices of mismatch and overrun in grains per kW·min.
#[derive(Clone, Copy)]
pub struct Front {
    pub edition: u32,
    pub mismatch: u32,
    pub overrun: u32,
}

// How many of each a case has.
#[derive(Clone, Copy)]
pub struct Counts {
    pub devices: usize,
    pub intervals: usize,
    pub zones: usize,
}
