// A device in one interval from its row, and into it.
#![tactic(auto)]

ghost use Rattle.std.specs.Prelude.{◌≡◌, [], ◌<◌, get_or, length, set};
ghost use Rattle.row_places.specs.Figures.{cell_row, cell_of, pmin_at, reactive_cell_at};

use kilovars::{KvarPrice, SignedKvar};
use kilowatts::Kw;
use row_places::{
    CELL_BLOCKS, CELL_CAP_1, CELL_CAP_2, CELL_CAP_3, CELL_CAP_4, CELL_FLOOR_1, CELL_FLOOR_2,
    CELL_FLOOR_3, CELL_FLOOR_4, CELL_NSC, CELL_PMAX, CELL_PMIN, CELL_PRICE_1, CELL_PRICE_2,
    CELL_PRICE_3, CELL_PRICE_4, CELL_QMAX, CELL_QMIN, CELL_QRD, CELL_QRU, CELL_RGD, CELL_RGU,
    CELL_RRD_OFF, CELL_RRD_ON, CELL_RRU_OFF, CELL_RRU_ON, CELL_SCR, CELL_STATUS, Cell, CellRow,
    ReactiveCell, ReservePrices,
};

// The prices of the eight in a cell's row.
fn reserve_prices(r: CellRow) -> ReservePrices
    ensures { result ≡ (cell_of r).reserves }
{
    ReservePrices {
        rgu: r[CELL_RGU],
        rgd: r[CELL_RGD],
        scr: r[CELL_SCR],
        nsc: r[CELL_NSC],
        rruon: r[CELL_RRU_ON],
        rruoff: r[CELL_RRU_OFF],
        rrdon: r[CELL_RRD_ON],
        rrdoff: r[CELL_RRD_OFF],
    }
}

pub fn cell_at(cells: &[CellRow], k: usize) -> Cell
    requires { k < length cells.now }
    ensures { result ≡ cell_of (get_or cells.now k []) }
{
    let r = cells[k];
    let reserves = reserve_prices(r);
    let reactive = ReactiveCell {
        qmin: SignedKvar(r[CELL_QMIN]),
        qmax: SignedKvar(r[CELL_QMAX]),
        qru: KvarPrice(r[CELL_QRU]),
        qrd: KvarPrice(r[CELL_QRD]),
    };
    Cell {
        status: r[CELL_STATUS],
        pmin: Kw(r[CELL_PMIN]),
        pmax: Kw(r[CELL_PMAX]),
        blocks: r[CELL_BLOCKS],
        caps: [
            Kw(r[CELL_CAP_1]),
            Kw(r[CELL_CAP_2]),
            Kw(r[CELL_CAP_3]),
            Kw(r[CELL_CAP_4]),
        ],
        floors: [
            Kw(r[CELL_FLOOR_1]),
            Kw(r[CELL_FLOOR_2]),
            Kw(r[CELL_FLOOR_3]),
            Kw(r[CELL_FLOOR_4]),
        ],
        prices: [
            r[CELL_PRICE_1],
            r[CELL_PRICE_2],
            r[CELL_PRICE_3],
            r[CELL_PRICE_4],
        ],
        reserves,
        reactive,
    }
}

pub fn pmin_at(cells: &[CellRow], k: usize) -> Kw
    requires { k < length cells.now }
    ensures { result.0 ≡ pmin_at cells.now k }
{
    Kw(cells[k][CELL_PMIN])
}

// What it has of reactive power.
pub fn reactive_cell_at(cells: &[CellRow], k: usize) -> ReactiveCell
    requires { k < length cells.now }
    ensures { result ≡ reactive_cell_at cells.now k }
{
    ReactiveCell {
        qmin: SignedKvar(cells[k][CELL_QMIN]),
        qmax: SignedKvar(cells[k][CELL_QMAX]),
        qru: KvarPrice(cells[k][CELL_QRU]),
        qrd: KvarPrice(cells[k][CELL_QRD]),
    }
}

fn cell_row(c: Cell) -> CellRow
    ensures { result ≡ cell_row c }
{
    let caps = c.caps;
    let floors = c.floors;
    let prices = c.prices;
    let reserves = c.reserves;
    let reactive = c.reactive;
    [
        c.status,
        c.pmin.0,
        c.pmax.0,
        c.blocks,
        caps[0].0,
        caps[1].0,
        caps[2].0,
        caps[3].0,
        prices[0],
        prices[1],
        prices[2],
        prices[3],
        reserves.rgu,
        reserves.rgd,
        reserves.scr,
        reserves.nsc,
        reserves.rruon,
        reserves.rruoff,
        reserves.rrdon,
        reserves.rrdoff,
        reactive.qmin.0,
        reactive.qmax.0,
        reactive.qru.0,
        reactive.qrd.0,
        floors[0].0,
        floors[1].0,
        floors[2].0,
        floors[3].0,
    ]
}

// A cell into row k.
pub fn put_cell(cells: &mut [CellRow], k: usize, c: Cell)
    requires { k < length cells.old }
    ensures { cells.new ≡ set cells.old k (cell_row c) }
{
    cells[k] = cell_row(c);
}
