// A batch of plans against a decoded case, each in its turn. One body for owners of tables of any size.
#![tactic(auto)]

ghost use Rattle.std.specs.Prelude.{◌≡◌, ◌+◌, ◌*◌, ◌≤◌, length};
ghost use Rattle.decoded_cases.specs.Decoded.{Decoded, Work, stated_rows};
ghost use Rattle.stacks.specs.declared.Counted.TheVariants.{Messages};
ghost use Rattle.stacks.specs.Messages.{messages_of, counted, plans_in};
ghost use Rattle.stacks.specs.Stack.{row_numbers};
ghost use Rattle.stacks.specs.Going.{Moves, TakesTurns};
ghost use Rattle.stacks.specs.Judges.{JudgesBatch};
ghost use Rattle.tellings.specs.Splitting.{host_limit};

use layouts::Framed;
use row_places::{CellRow, DeviceRow, Front, MinimaRow, SettingRow, ZoneRow};
use stack_rows::ROW;
use stacks::{Counted, Stacking};
use tellings::LONGEST;

// How far the batch is judged: the byte behind the last message, and the bytes of the completions.
#[derive(Clone, Copy)]
struct Reached {
    at: usize,
    bytes: usize,
}

// The message at a byte of the batch, with the buffer and the table from `reached` and `place` on.
fn next_turn(
    front: Front,
    halves: &[u32],
    zones: &[ZoneRow],
    minima: &[MinimaRow],
    devices: &[DeviceRow],
    cells: &[CellRow],
    batch: &[u8],
    settings: &mut [SettingRow],
    starts: &mut [u32],
    powers: &mut [u32],
    results: &mut [u8],
    table: &mut [u64],
    reached: Reached,
    place: usize,
) -> Reached
    requires { Decoded front halves.now zones.now minima.now devices.now cells.now × Work halves.now devices.now settings.old starts.old powers.old
        × (reached.bytes ≤ length results.old) × (place + row_numbers ≤ length table.old) }
    ensures { Moves (stated_rows front halves.now zones.now minima.now devices.now cells.now)
        batch.now reached.at reached.bytes place results.old results.new table.old table.new result.at result.bytes }
{
    let at = reached.at;
    let bytes = reached.bytes;
    match layouts::frame_at(batch, at, LONGEST) {
        Framed::End => reached,
        Framed::Refused(_) => reached,
        Framed::Message(from, until) => {
            let written = stack_turns::take_turn(
                front,
                halves,
                zones,
                minima,
                devices,
                cells,
                &batch[from..until],
                settings,
                starts,
                powers,
                &mut results[bytes..],
                &mut table[place..],
            );
            Reached {
                at: until,
                bytes: bytes + written,
            }
        }
    }
}

// The plans of a batch of so many messages, in a table with room for their numbers; answers the bytes of their completions.
fn judge_messages(
    front: Front,
    halves: &[u32],
    zones: &[ZoneRow],
    minima: &[MinimaRow],
    devices: &[DeviceRow],
    cells: &[CellRow],
    batch: &[u8],
    settings: &mut [SettingRow],
    starts: &mut [u32],
    powers: &mut [u32],
    results: &mut [u8],
    table: &mut [u64],
    count: usize,
) -> usize
    requires { Decoded front halves.now zones.now minima.now devices.now cells.now × Work halves.now devices.now settings.old starts.old powers.old
        × (counted (messages_of host_limit batch.now) ≡ Messages count) × (row_numbers * count ≤ length table.old) }
    ensures { TakesTurns (stated_rows front halves.now zones.now minima.now devices.now cells.now)
        (plans_in (messages_of host_limit batch.now)) results.old results.new table.old table.new result }
{
    let mut reached = Reached { at: 0, bytes: 0 };
    for k in 0..count {
        let place = ROW * k;
        reached = next_turn(
            front, halves, zones, minima, devices, cells, batch, settings, starts, powers, results,
            table, reached, place,
        );
    }
    reached.bytes
}

// The batch is gone over first: a refusal of its splitter, or a table too short, and nothing is written. Of `settings`, `starts` and `powers` only the room counts.
pub fn judge_batch_in(
    front: Front,
    halves: &[u32],
    zones: &[ZoneRow],
    minima: &[MinimaRow],
    devices: &[DeviceRow],
    cells: &[CellRow],
    batch: &[u8],
    settings: &mut [SettingRow],
    starts: &mut [u32],
    powers: &mut [u32],
    results: &mut [u8],
    table: &mut [u64],
) -> Stacking
    requires { Decoded front halves.now zones.now minima.now devices.now cells.now × Work halves.now devices.now settings.old starts.old powers.old }
    ensures { JudgesBatch (stated_rows front halves.now zones.now minima.now devices.now cells.now)
        batch.now results.old results.new table.old table.new result }
{
    match stack_counts::count_messages(batch) {
        Counted::Refused(f) => Stacking::RefusedBatch(f),
        Counted::Messages(count) => {
            let places = ROW * count;
            if table.len() < places {
                return Stacking::Short(places as u64);
            }
            let bytes = judge_messages(
                front, halves, zones, minima, devices, cells, batch, settings, starts, powers,
                results, table, count,
            );
            Stacking::Judged(count as u64, bytes as u64)
        }
    }
}
