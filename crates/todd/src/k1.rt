// Todd's K1.
ghost use Rattle.todd_laws.specs.K1.{k1};
ghost use Rattle.todd_laws.proofs.Triangulations.{k1-lawful};
ghost use Rattle.todd_laws.proofs.InFamily.{k1-in-family};

use crate::member::{self, Member};
use crate::start::start_up;
use crate::steps::{shift_level, stop_at};
use cells::Triangulation;
use cells::cell::Cell;
use cells::wall::Way;
use mesh::grid::Grid;
use mesh::point::PricePoint;
use mesh::refusal::Refusal;

// The triangulation K1 of every mesh. Every price point is admitted.
#[derive(Clone, Copy)]
pub struct K1;

impl Member for K1 {
    ghost meaning = { k1 };

    ghost in_family = { k1-in-family };

    // The first level of the order goes up in the base, and to the end of the order.
    fn cross_first(grid: &Grid, cell: &mut Cell) -> Way {
        let goods = grid.goods();
        let j = cell.order[0];
        if let Some(wall) = stop_at(grid, cell, goods, true, 0) {
            return Way::Stopped(wall);
        }
        shift_level(&mut cell.base, true, j);
        cell.order[..goods].rotate_left(1);
        Way::Moved(goods)
    }

    // The last level of the order goes down in the base, and to the front of the order.
    fn cross_last(grid: &Grid, cell: &mut Cell) -> Way {
        let goods = grid.goods();
        let j = cell.order[goods - 1];
        if let Some(wall) = stop_at(grid, cell, 0, false, goods - 1) {
            return Way::Stopped(wall);
        }
        shift_level(&mut cell.base, false, j);
        cell.order[..goods].rotate_right(1);
        Way::Moved(0)
    }
}

impl Triangulation for K1 {
    ghost meaning = { λ _. k1 };

    ghost lawful = { λ t g D goods mesh. k1-lawful g D goods mesh };

    #[tactic(auto, using(crate::proofs::Starting::order_up, crate::proofs::Starting::ways_up))]
    fn start(&self, point: &PricePoint) -> Result<Cell, Refusal> {
        Ok(start_up(point))
    }

    fn corner(&self, grid: Grid, cell: &Cell, place: usize) -> Result<[u32; 8], Refusal> {
        member::corner::<K1>(&grid, cell, place)
    }

    #[inline(always)]
    fn across(&self, grid: Grid, cell: &mut Cell, place: usize) -> Result<(u8, u8), Refusal> {
        member::across::<K1>(&grid, cell, place)
    }
}
