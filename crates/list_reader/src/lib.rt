// The lists of a device: startup states, start windows, energy windows, each as a count and that many, in every edition.
#![tactic(auto)]

ghost use Rattle.std.specs.Prelude.{◌≡◌};
ghost use Rattle.item_reader.specs.Items.{most_items, ItemsDone};

use fields::Read;
use item_reader::{Item, Items, Listed, read_item};
use layouts::Place;

// "startup states 3 (0..3)"; "start windows 3 (0..4)"; "energy windows 3 (0..4)"
const MOST_STATES: u32 = 3;

const MOST_WINDOWS: u32 = 4;

// How many a list may hold.
fn most_items(listed: Listed) -> u32
    ensures { result ≡ most_items listed }
{
    match listed {
        Listed::States => MOST_STATES,
        Listed::Starts => MOST_WINDOWS,
        Listed::Energies => MOST_WINDOWS,
    }
}

// A count and that many.
pub fn read_items(s: &[u8], p: Place, listed: Listed, edition: u32, last: u32) -> Read<Items>
    ensures { ItemsDone listed edition last s.now p result }
{
    let (n, start) = fields::read_count(s, p, 3, 0, most_items(listed))?;
    let count = n as usize;
    let mut items = [Item(0, 0, 0, 0); 4];
    let mut q = start;
    for i in 0..count {
        let (item, next) = read_item(s, q, listed, edition, last)?;
        items[i] = item;
        q = next;
    }
    Ok((Items { count, items }, q))
}
