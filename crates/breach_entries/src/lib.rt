// A breach as four bytes of a lent list, entry k from the place 4·k on, where the list has room for it.
#![tactic(auto)]

ghost use Rattle.std.specs.Prelude.{◌≡◌, ◌+◌, ◌≤◌, ◌<◌, length};
ghost use Rattle.breach_entries.specs.Noted.{entered, note_if, Notes, most_entries, InBytes};

use model::Breach;

// The bytes of a breach in the list.
pub const ENTRY: usize = 4;

// Entry k, where the list has room for it.
fn enter(b: Breach, k: usize, list: &mut [u8])
    requires { InBytes b × (k < most_entries) }
    ensures { list.new ≡ entered k b list.old }
{
    let entry = [
        b.rule as u8,
        b.interval as u8,
        b.device as u8,
        b.window as u8,
    ];
    let at = ENTRY * k;
    if at + ENTRY <= list.len() {
        list[at..at + ENTRY].copy_from_slice(&entry);
    }
}

// A breach where its rule fails; answers how many there are then.
pub fn note_if(fails: bool, b: Breach, k: usize, list: &mut [u8]) -> usize
    requires { InBytes b × (k + length (note_if fails b) ≤ most_entries) }
    ensures { Notes k (note_if fails b) list.old list.new result }
{
    if !fails {
        return k;
    }
    enter(b, k, list);
    k + 1
}
