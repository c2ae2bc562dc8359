// Price points: prices that add up to the mesh.
ghost use Rattle.std.specs.Prelude.{◌≡◌, length, take, sum};

use crate::grid::Grid;

mod levels;
mod listing;
mod make;

// No value of this type has prices that do not add up to its mesh. The entries past the goods never matter.
#[derive(Clone, Copy)]
pub struct PricePoint {
    grid: Grid,
    prices: [u32; 8],
    ghost room: { length prices ≡ 8 },
    ghost adds_up: { sum (take grid.goods prices) ≡ grid.mesh },
}
