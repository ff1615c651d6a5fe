// One of a device's lists: a startup state, a start window, an energy window, in every edition.
#![tactic(auto)]

ghost use Rattle.std.specs.Prelude.{◌≡◌};
ghost use Rattle.model.specs.Messages.{window_ends, energy_window};
ghost use Rattle.fields.specs.Got.{got, seen};
ghost use Rattle.item_reader.specs.Items.{item, state, state_item, start_item, energy_item, item_in};
ghost use Rattle.model.specs.ByEdition.{start_window};

use fields::Read;
use layouts::Place;

// "longest downtime 16 (0..60,000)"
const MOST_MINUTES: u32 = 60000;

// A state's cost is "31 (±10^9)"; the weight of its highest bit.
const MOST_STATE_COST: u64 = 1000000000;

const STATE_COST_HALF: u64 = 1073741824;

// "energy 32 (0..4·10^9)"
const MOST_ENERGY: u32 = 4000000000;

// A window's start and end: every value of 16 bits.
const ANY_16: u32 = 65535;

// What a list holds.
#[derive(Clone, Copy)]
pub enum Listed {
    States,
    Starts,
    Energies,
}

// One of a list, in the message's order; what it lacks is 0.
// A startup state: longest downtime, cost kept from 0. A start window: start, end, most starts. An energy window: kind, start, end, energy.
#[derive(Clone, Copy)]
pub struct Item(pub u32, pub u32, pub u32, pub u32);

// What was read of a list: how many, and they ahead of the rest.
#[derive(Clone, Copy)]
pub struct Items {
    pub count: usize,
    pub items: [Item; 4],
}

// "start 16, end 16": "window start after end; window end after the last E" is noted at the end's first bit.
fn read_ends(s: &[u8], p: Place, last: u32) -> Read<(u32, u32)>
    ensures { result ≡ got (window_ends last) s.now p }
{
    let (from, at_end) = fields::read_figure(s, p, 16, 0, ANY_16)?;
    let (until, past) = fields::read_figure(s, at_end, 16, 0, ANY_16)?;
    let checked = fields::noted(from <= until && until <= last, past, at_end.at);
    Ok(((from, until), checked))
}

// "longest downtime 16 (0..60,000) and cost 31 (±10^9)"
fn read_state(s: &[u8], p: Place) -> Read<Item>
    ensures { seen state_item result ≡ got state s.now p }
{
    let (longest, at_cost) = fields::read_figure(s, p, 16, 0, MOST_MINUTES)?;
    let (cost, past) = fields::read_offset(s, at_cost, 31, STATE_COST_HALF, MOST_STATE_COST)?;
    Ok((Item(longest, cost, 0, 0), past))
}

// "start 16, end 16, most starts 6 (0..48)", by edition
fn read_start(s: &[u8], p: Place, edition: u32, last: u32) -> Read<Item>
    ensures { seen start_item result ≡ got (start_window edition last) s.now p }
{
    let ((from, until), at_most) = read_ends(s, p, last)?;
    let width = editions::starts_bits(edition);
    let high = editions::most_starts(edition);
    let (most, past) = fields::read_figure(s, at_most, width, 0, high)?;
    Ok((Item(from, until, most, 0), past))
}

// "kind 1 (0 maximum, 1 minimum), start 16, end 16, energy 32 (0..4·10^9)"
fn read_energy(s: &[u8], p: Place, last: u32) -> Read<Item>
    ensures { seen energy_item result ≡ got (energy_window last) s.now p }
{
    let (kind, at_ends) = fields::read_figure(s, p, 1, 0, 1)?;
    let ((from, until), at_energy) = read_ends(s, at_ends, last)?;
    let (energy, past) = fields::read_figure(s, at_energy, 32, 0, MOST_ENERGY)?;
    Ok((Item(kind, from, until, energy), past))
}

pub fn read_item(s: &[u8], p: Place, listed: Listed, edition: u32, last: u32) -> Read<Item>
    ensures { seen (item_in listed) result ≡ got (item listed edition last) s.now p }
{
    match listed {
        Listed::States => read_state(s, p),
        Listed::Starts => read_start(s, p, edition, last),
        Listed::Energies => read_energy(s, p, last),
    }
}
