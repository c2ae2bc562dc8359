// Cells of a triangulation: what a triangulation answers, and how many cells there can be.
#![tactic(auto)]

ghost use Rattle.std.specs.Prelude.{◌≡◌, ℕ, ◌≤◌};
ghost use Rattle.cells.specs.Counting.{AddressesBounded, Pigeonhole, CellsBounded};
ghost use Rattle.cells.specs.Triangulation.{Shape, Mesh, Lawful};
ghost use Rattle.cells.specs.Cells.{shape_of, start_for, CornerAnswer, AcrossAnswer};
ghost use Rattle.mesh.specs.Points.{goods_of, mesh_of, prices_of};
ghost use Rattle.mesh.specs.Refusals.{answered};

use cell::Cell;
use mesh::grid::Grid;
use mesh::point::PricePoint;
use mesh::refusal::Refusal;

pub mod cell;
pub mod outer;
pub mod wall;

// A triangulation: for every number of goods and every mesh, cells with corners and neighbours that keep the laws.
pub trait Triangulation {
    ghost meaning: { Self → (g D : ℕ) → Mesh Shape g D };

    // The start cell of a price point. Refuses a point from which no walk may start.
    fn start(&self, point: &PricePoint) -> Result<Cell, Refusal>
        ensures { answered (shape_of (goods_of point.now)) result ≡ start_for (meaning self.now (goods_of point.now) (mesh_of point.now)) (prices_of point.now) };

    // The levels of the corner at a place, 0 to the number of goods. Refuses any other place.
    fn corner(&self, grid: Grid, cell: &Cell, place: usize) -> Result<[u32; 8], Refusal>
        ensures { CornerAnswer (meaning self.now grid.goods grid.mesh) cell.now place result };

    // Crosses the cell at a place: answers the place of the new corner, and 0; or at a wall the place itself, and the wall's number. Refuses a
    // place past the number of goods.
    fn across(&self, grid: Grid, cell: &mut Cell, place: usize) -> Result<(u8, u8), Refusal>
        ensures { AcrossAnswer (meaning self.now grid.goods grid.mesh) cell.old place result cell.new };

    ghost lawful: { (t : Self) (g D : ℕ) → 2 ≤ g → 1 ≤ D → Lawful (meaning t g D) };
}

// Different cells have different addresses, and there are only so many addresses.
pub fn addresses_bounded() -> bool
    ensures holes { Pigeonhole }
    ensures bound { AddressesBounded }
{
    true
}

// No mesh of a triangulation has more than (D + 1)^g - D^g cells.
pub fn cells_bounded<T: Triangulation>(tri: &T) -> bool
    ensures { (g D : ℕ) → 2 ≤ g → 1 ≤ D → CellsBounded (T.meaning tri.now g D) }
{
    true
}
