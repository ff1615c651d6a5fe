// The records of a device's lists as they were read.
#![tactic(auto)]

ghost use Rattle.std.specs.Prelude.{◌≡◌};
ghost use Rattle.item_reader.specs.Items.{threes, state_from, start_from, fours, EnergyMade, EnergiesMade};

use energy::KwMin;
use item_reader::{Item, Items};
use row_places::{EnergyWindow, StartWindow, State};

fn state_of(x: Item) -> State
    ensures { result ≡ state_from x }
{
    State {
        longest: x.0,
        cost: x.1,
    }
}

pub fn states_of(list: Items) -> [State; 3]
    ensures { result ≡ threes state_from list.items }
{
    let [a, b, c, _] = list.items;
    [state_of(a), state_of(b), state_of(c)]
}

fn start_of(x: Item) -> StartWindow
    ensures { result ≡ start_from x }
{
    StartWindow {
        from: x.0,
        until: x.1,
        most: x.2,
    }
}

pub fn starts_of(list: Items) -> [StartWindow; 4]
    ensures { result ≡ fours start_from list.items }
{
    let [a, b, c, d] = list.items;
    [start_of(a), start_of(b), start_of(c), start_of(d)]
}

fn energy_of(x: Item) -> EnergyWindow
    ensures { EnergyMade x result }
{
    EnergyWindow {
        kind: x.0,
        from: x.1,
        until: x.2,
        energy: KwMin(x.3 as u64),
    }
}

pub fn energies_of(list: Items) -> [EnergyWindow; 4]
    ensures { EnergiesMade list.items result }
{
    let [a, b, c, d] = list.items;
    [energy_of(a), energy_of(b), energy_of(c), energy_of(d)]
}
