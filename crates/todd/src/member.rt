// What lies across a place of a cell of K1 or J1, and its corners. Their cells are of one form; they differ at the first place and at the last.
// A crossing does so little that the calls of `across` and `cross` would be a quarter to a third of its instructions: both are built into their callers.
ghost use Rattle.std.specs.Prelude.{◌≡◌, ℕ, ◌<◌, ◌≤◌};
ghost use Rattle.cells.specs.Triangulation.{Shape, Mesh};
ghost use Rattle.cells.specs.Cells.{CornerAnswer, AcrossAnswer};
ghost use Rattle.cells.specs.Ways.{numbers_of, place_of};
ghost use Rattle.todd_laws.specs.Records.{InFamily};
ghost use Rattle.todd.specs.Walk.{CrossesIn};

use crate::steps::{corner_of, cross_middle};
use cells::cell::Cell;
use cells::wall::Way;
use mesh::grid::Grid;
use mesh::refusal::Refusal;

// What each of the two says for itself.
pub(crate) trait Member {
    // What it is as a triangulation.
    ghost meaning: { (g D : ℕ) → Mesh Shape g D };

    // Crosses a cell at the first place.
    fn cross_first(grid: &Grid, cell: &mut Cell) -> Way
        ensures crosses { CrossesIn (meaning grid.now.goods grid.now.mesh) cell.old 0 result cell.new }
        ensures fits { place_of 0 result ≤ grid.now.goods };

    // Crosses a cell at the last place.
    fn cross_last(grid: &Grid, cell: &mut Cell) -> Way
        ensures crosses { CrossesIn (meaning grid.now.goods grid.now.mesh) cell.old grid.now.goods result cell.new }
        ensures fits { place_of grid.now.goods result ≤ grid.now.goods };

    ghost in_family: { InFamily meaning };
}

// The levels of the corner at a place.
pub(crate) fn corner<M: Member>(grid: &Grid, cell: &Cell, place: usize) -> Result<[u32; 8], Refusal>
    ensures { CornerAnswer (M.meaning grid.now.goods grid.now.mesh) cell.now place result }
{
    let goods = grid.goods();
    if place > goods {
        return Err(Refusal::NoSuchPlace);
    }
    Ok(corner_of(grid, cell, place))
}

// Crosses a cell at a place.
#[inline(always)]
fn cross<M: Member>(grid: &Grid, cell: &mut Cell, place: usize) -> Way
    requires { place ≤ grid.now.goods }
    ensures crosses { CrossesIn (M.meaning grid.now.goods grid.now.mesh) cell.old place result cell.new }
    ensures fits { place_of place result ≤ grid.now.goods }
{
    if place == 0 {
        return M::cross_first(grid, cell);
    }
    if place == grid.goods() {
        return M::cross_last(grid, cell);
    }
    cross_middle(grid, cell, place)
}

// The pair of numbers that tells a way across a place.
fn numbers(way: Way, place: usize) -> (u8, u8)
    requires from { place < 256 }
    requires to { place_of place way < 256 }
    ensures { result ≡ numbers_of place way }
{
    match way {
        Way::Moved(new_place) => (new_place as u8, 0),
        Way::Stopped(wall) => (place as u8, wall.number()),
    }
}

// Crosses a cell at a place, and tells it by a pair of numbers.
#[inline(always)]
pub(crate) fn across<M: Member>(
    grid: &Grid,
    cell: &mut Cell,
    place: usize,
) -> Result<(u8, u8), Refusal>
    ensures { AcrossAnswer (M.meaning grid.now.goods grid.now.mesh) cell.old place result cell.new }
{
    if place > grid.goods() {
        return Err(Refusal::NoSuchPlace);
    }
    let way = cross::<M>(grid, cell, place);
    Ok(numbers(way, place))
}
