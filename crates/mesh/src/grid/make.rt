// Making and reading a grid.
ghost use Rattle.std.specs.Prelude.{◌≡◌};
ghost use Rattle.mesh.specs.Points.{grid_of, grid_for};
ghost use Rattle.mesh.specs.Refusals.{answered};
ghost use Rattle.mesh.specs.Range.{most};

use super::Grid;
use crate::refusal::Refusal;

// The finest mesh for so many goods.
pub fn finest(goods: usize) -> u32
    ensures { result ≡ most goods }
{
    if goods <= 4 { 16_384 } else { 128 }
}

impl Grid {
    // Refuses goods outside 2 to 8, then a mesh outside 1 to the finest.
    pub fn new(goods: usize, mesh: u32) -> Result<Grid, Refusal>
        ensures { answered grid_of result ≡ grid_for goods mesh }
    {
        if !(2..=8).contains(&goods) {
            return Err(Refusal::GoodsOutOfRange);
        }
        if !(1..=finest(goods)).contains(&mesh) {
            return Err(Refusal::MeshOutOfRange);
        }
        Ok(Grid { goods, mesh })
    }

    pub fn goods(&self) -> usize
        ensures { result ≡ self.now.goods }
    {
        self.goods
    }

    pub fn mesh(&self) -> u32
        ensures { result ≡ self.now.mesh }
    {
        self.mesh
    }
}
