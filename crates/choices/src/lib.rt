// Our choices for a device in an interval: "Floors first, then price order", "lower-numbered block first; lowest-numbered cheapest state, and none unless it costs below 0".
#![tactic(auto)]

ghost use Rattle.std.specs.Prelude.{◌≡◌, ◌≤◌, ◌<◌, ◌-◌, ◌*◌, eqb, length};
ghost use Rattle.bits.specs.Pick.{pick};
ghost use Rattle.row_places.specs.Figures.{device_at, on_at};
ghost use Rattle.choices.specs.Cells.{CellOf};
ghost use Rattle.choices.specs.States.{chosen, state_of};
ghost use Rattle.choices.specs.Rests.{initial, off_since, Looks};
ghost use Rattle.records.specs.Views.{most_states};
ghost use Rattle.block_fill.specs.Filled.{Offered};
ghost use Rattle.block_fill.specs.Above.{sum_of, FloorsFit};
ghost use Rattle.choices.specs.Blocks.{FilledWhile};
ghost use Rattle.choices.specs.Choices.{ChoiceOf};

use block_fill::{fill, fill_above};
use device_rows::{minutes0_at, on0_at, side_at, states_at};
use kilowatts::Kw;
use row_places::{Cell, DeviceRow, SettingRow, State};
use setting_rows::{on_at, started_at, stopped_at};

// The cost of no state, kept from 0.
const NO_COST: u32 = 1_000_000_000;

// The startup state chosen so far, 0 none, and its cost kept from 0.
#[derive(Clone, Copy)]
pub struct Chosen {
    pub state: u32,
    pub least: u32,
}

// State number n in its place, where it lasts the downtime and costs less.
fn with_state(b: Chosen, s: State, n: u32, downtime: u32) -> Chosen
    ensures { result ≡ chosen b s n downtime }
{
    if downtime <= s.longest && s.cost < b.least {
        Chosen {
            state: n,
            least: s.cost,
        }
    } else {
        b
    }
}

// The lowest-numbered cheapest state that lasts the downtime, and none unless it costs below 0.
fn best_state(devices: &[DeviceRow], i: usize, downtime: u32) -> u32
    requires { (i < length devices.now) × ((device_at devices.now i).nstates ≤ most_states) }
    ensures { result ≡ state_of (device_at devices.now i) downtime }
{
    let mut b = Chosen {
        state: 0,
        least: NO_COST,
    };
    for k in 0..states_at(devices, i) {
        let s = device_rows::state_at(devices, i, k);
        b = with_state(b, s, k as u32 + 1, downtime);
    }
    b.state
}

// The minutes that a device was off before the day.
fn initial_rest(devices: &[DeviceRow], i: usize) -> u32
    requires { i < length devices.now }
    ensures { (result ≡ initial (device_at devices.now i)) × (result ≤ (device_at devices.now i).minutes0) }
{
    if on0_at(devices, i) == 0 {
        minutes0_at(devices, i)
    } else {
        0
    }
}

// "Downtime runs from the end of the last on interval; if none, S, plus minutes already so when initially off."
fn downtime(
    devices: &[DeviceRow],
    i: usize,
    settings: &[SettingRow],
    starts: &[u32],
    t: usize,
) -> u32
    requires { (i < length devices.now) × Looks (device_at devices.now i) settings.now starts.now t }
    ensures { result ≡ off_since (device_at devices.now i) settings.now starts.now t t }
{
    let start = starts[t];
    for e in (0..t).rev() {
        if on_at(settings, e) == 1 {
            return start.saturating_sub(starts[e + 1]);
        }
    }
    start + initial_rest(devices, i)
}

// The startup state at a start, elsewhere none.
fn state_at(
    devices: &[DeviceRow],
    i: usize,
    settings: &[SettingRow],
    starts: &[u32],
    t: usize,
    started: u32,
) -> u32
    requires { (i < length devices.now) × ((device_at devices.now i).nstates ≤ most_states) × Looks (device_at devices.now i) settings.now starts.now t }
    ensures { result ≡ pick (eqb started 1) (state_of (device_at devices.now i) (off_since (device_at devices.now i) settings.now starts.now t t)) 0 }
{
    if started == 1 {
        best_state(devices, i, downtime(devices, i, settings, starts, t))
    } else {
        0
    }
}

// The block powers of p: above the floors while on; while off floors don't bind.
fn blocks_of(
    on: u32,
    p: Kw,
    side: u32,
    blocks: usize,
    floors: [Kw; 4],
    caps: [Kw; 4],
    prices: [u32; 4],
) -> [Kw; 4]
    requires { (on ≤ 1) × (on ≡ 1 → FloorsFit p.0 floors caps) × Offered blocks caps }
    ensures { FilledWhile on side p.0 floors caps prices result }
{
    if on == 1 {
        fill_above(p, side, blocks, floors, caps, prices)
    } else {
        fill(p, side, blocks, caps, prices)
    }
}

// Our choices for one device in one interval; state 0 is none.
#[derive(Clone, Copy)]
pub struct Choice {
    pub started: u32,
    pub stopped: u32,
    pub state: u32,
    pub blocks: [Kw; 4],
}

// The choices of device i in interval t, from its cell there, its settings and its power p, which while on is at or above the floors.
pub fn choose(
    devices: &[DeviceRow],
    i: usize,
    cell: Cell,
    settings: &[SettingRow],
    starts: &[u32],
    p: Kw,
    t: usize,
) -> Choice
    requires { (i < length devices.now) × CellOf (device_at devices.now i) cell settings.now starts.now p.0 t × (on_at settings.now t * sum_of cell.floors ≤ p.0) }
    ensures { ChoiceOf (device_at devices.now i) cell settings.now starts.now p.0 t result }
{
    let on0 = on0_at(devices, i);
    let started = started_at(on0, settings, t);
    let stopped = stopped_at(on0, settings, t);
    let state = state_at(devices, i, settings, starts, t, started);
    let on = on_at(settings, t);
    let floors = cell.floors;
    let caps = cell.caps;
    let prices = cell.prices;
    let offered = cell.blocks as usize;
    let blocks = blocks_of(on, p, side_at(devices, i), offered, floors, caps, prices);
    Choice {
        started,
        stopped,
        state,
        blocks,
    }
}
