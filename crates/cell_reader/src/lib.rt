// A device's cells of a case message, one for each interval, read into rows. A cell is read in groups: limits, blocks, the prices of the eight, reactive power.
#![tactic(auto)]

ghost use Rattle.std.specs.Prelude.{◌≡◌, ◌≤◌, length};
ghost use Rattle.records.specs.Views.{most_intervals};
ghost use Rattle.cell_groups.specs.Groups.{cell_with};
ghost use Rattle.cell_reader.specs.Cells.{CellDone, CellsDone};

use blocks_reader::read_blocks;
use cell_groups::{Blocks, Limits, read_limits};
use fields::Read;
use layouts::{Fault, Place};
use price_words::read_prices;
use reactive_cells::read_reactive;
use row_places::{Cell, CellRow, ReactiveCell, ReservePrices};

// A cell of its groups.
fn cell_with(
    limits: Limits,
    blocks: Blocks,
    reserves: ReservePrices,
    reactive: ReactiveCell,
) -> Cell
    ensures { result ≡ cell_with limits blocks reserves reactive }
{
    let [a, b, c, d] = blocks.blocks;
    Cell {
        status: limits.status,
        pmin: limits.pmin,
        pmax: limits.pmax,
        blocks: blocks.count,
        caps: [a.cap, b.cap, c.cap, d.cap],
        floors: [a.floor, b.floor, c.floor, d.floor],
        prices: [a.price, b.price, c.price, d.price],
        reserves,
        reactive,
    }
}

// One cell; "status ..; pmin, pmax ..; blocks ..; eight reserve prices"; from edition 2 on qmin, qmax and two prices.
fn read_cell(s: &[u8], p: Place, edition: u32) -> Read<Cell>
    ensures { CellDone edition s.now p result }
{
    let (limits, at_blocks) = read_limits(s, p)?;
    let (blocks, at_prices) = read_blocks(s, at_blocks, edition)?;
    let (prices, at_reactive) = read_prices(s, at_prices)?;
    let (reactive, past) = read_reactive(s, at_reactive, edition)?;
    Ok((cell_with(limits, blocks, prices, reactive), past))
}

// The cells of a device, one for each interval, into its part of the rows.
pub fn read_cells(s: &[u8], p: Place, edition: u32, cells: &mut [CellRow]) -> Result<Place, Fault>
    requires { length cells.old ≤ most_intervals }
    ensures { CellsDone edition s.now p result cells.new }
{
    let mut q = p;
    for t in 0..cells.len() {
        let (cell, next) = read_cell(s, q, edition)?;
        cell_rows::put_cell(cells, t, cell);
        q = next;
    }
    Ok(q)
}
