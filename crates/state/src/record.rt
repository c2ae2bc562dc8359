// The record of a run.
ghost use Rattle.std.specs.Prelude.{◌≤◌};

use crate::table::Table;
use cells::cell::Cell;
use mesh::point::PricePoint;

mod beginning;
mod reading;
mod stepping;

pub use stepping::Entry;

// Where a run halted: the prices of the named corner, and its improper label.
#[derive(Clone, Copy)]
pub struct Halt {
    pub prices: [u32; 8],
    pub label: u8,
}

// Where a run stands: walking; arrived, with the place of the dropped corner; halted.
#[derive(Clone, Copy)]
pub enum Stage {
    Walking,
    Arrived(usize),
    Halted(Halt),
}

// Its number, its own copy of the start point, the cell, the place of the newest corner, the cells entered on this mesh and in all, the stage, and
// the corners by their places.
#[derive(Clone, Copy)]
pub struct State {
    pub number: u16,
    pub start: PricePoint,
    pub cell: Cell,
    pub newest: usize,
    pub count: u64,
    pub total: u64,
    pub stage: Stage,
    pub corners: Table,
    ghost newest_fits: { newest ≤ start.grid.goods },
    ghost count_fits: { count ≤ total },
}
