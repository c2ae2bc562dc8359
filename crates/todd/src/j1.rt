// Todd's J1.
ghost use Rattle.std.specs.Prelude.{◌≡◌, ◌-◌, true, not, slice_index_or, slice_set};
ghost use Rattle.todd_laws.specs.J1.{j1};
ghost use Rattle.todd_laws.proofs.Triangulations.{j1-lawful};
ghost use Rattle.todd_laws.proofs.InFamily.{j1-in-family};

use crate::member::{self, Member};
use crate::start::{admits, is_even, start_down, start_up};
use crate::steps::{index, shift_level, stop_at, upward};
use cells::Triangulation;
use cells::cell::Cell;
use cells::wall::Way;
use mesh::grid::Grid;
use mesh::point::PricePoint;
use mesh::refusal::Refusal;

// The triangulation J1 of every mesh. A price point is admitted if all its prices but the last are even.
#[derive(Clone, Copy)]
pub struct J1;

// The direction of level j turns round. Levels count from 1; 0 is taken for 1, and past the last nothing turns.
fn turn(cell: &mut Cell, j: u8)
    ensures { cell.new ≡ record cell.old { ups = slice_set cell.old.ups (j - 1) (not (slice_index_or cell.old.ups (j - 1) true)) } }
{
    let i = index(usize::from(j));
    if i < cell.ups.len() {
        cell.ups[i] = !cell.ups[i];
    }
}

impl Member for J1 {
    ghost meaning = { j1 };

    ghost in_family = { j1-in-family };

    // The first level of the order moves by two in its direction, which turns round.
    fn cross_first(grid: &Grid, cell: &mut Cell) -> Way {
        let j = cell.order[0];
        let up = upward(cell, j);
        if let Some(wall) = stop_at(grid, cell, 1, up, 0) {
            return Way::Stopped(wall);
        }
        shift_level(&mut cell.base, up, j);
        shift_level(&mut cell.base, up, j);
        turn(cell, j);
        Way::Moved(0)
    }

    // The direction of the last level of the order turns round.
    fn cross_last(grid: &Grid, cell: &mut Cell) -> Way {
        let goods = grid.goods();
        let j = cell.order[goods - 1];
        let up = upward(cell, j);
        if let Some(wall) = stop_at(grid, cell, goods - 1, !up, goods - 1) {
            return Way::Stopped(wall);
        }
        turn(cell, j);
        Way::Moved(goods)
    }
}

impl Triangulation for J1 {
    ghost meaning = { λ _. j1 };

    ghost lawful = { λ t g D goods mesh. j1-lawful g D goods mesh };

    #[tactic(auto, using(crate::proofs::Starting::order_up, crate::proofs::Starting::ways_up))]
    fn start(&self, point: &PricePoint) -> Result<Cell, Refusal> {
        if !admits(point) {
            return Err(Refusal::NotAdmitted);
        }
        if is_even(point.mesh()) {
            return Ok(start_down(point));
        }
        Ok(start_up(point))
    }

    fn corner(&self, grid: Grid, cell: &Cell, place: usize) -> Result<[u32; 8], Refusal> {
        member::corner::<J1>(&grid, cell, place)
    }

    #[inline(always)]
    fn across(&self, grid: Grid, cell: &mut Cell, place: usize) -> Result<(u8, u8), Refusal> {
        member::across::<J1>(&grid, cell, place)
    }
}
