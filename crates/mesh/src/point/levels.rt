// Levels: each is the sum of the prices from its good on.
ghost use Rattle.std.specs.Prelude.{◌≡◌, ℕ, ◌<◌, take, drop, IfOk, sum, slice_index};
ghost use Rattle.mesh.specs.Points.{point_of, point_at_levels, levels_fit, goods_of, mesh_of, prices_of};
ghost use Rattle.mesh.specs.Prices.{first, falls, Falls, to_levels, to_prices};
ghost use Rattle.mesh.specs.Refusals.{answered};

use super::PricePoint;
use crate::grid::Grid;
use crate::pricing::to_prices;
use crate::refusal::Refusal;

// No level is above the one before it.
fn fall(levels: &[u32]) -> bool
    ensures { result ≡ falls levels.now }
{
    levels.is_sorted_by(|level, next| *level >= *next)
}

// As many levels as goods, falling from the mesh.
fn fit(grid: Grid, levels: &[u32]) -> bool
    ensures { result ≡ levels_fit grid.goods grid.mesh levels.now }
{
    levels.len() == grid.goods() && levels.first().copied() == Some(grid.mesh()) && fall(levels)
}

impl PricePoint {
    // The level of each good, with zeros after them.
    pub fn levels(&self) -> [u32; 8]
        ensures value { take (goods_of self.now) result ≡ to_levels (prices_of self.now) }
        ensures sums { (j : ℕ) → j < goods_of self.now → slice_index result j ≡ sum (drop j (prices_of self.now)) }
        ensures back { to_prices (take (goods_of self.now) result) ≡ prices_of self.now }
        ensures fall { Falls (take (goods_of self.now) result) }
        ensures top { first (take (goods_of self.now) result) ≡ mesh_of self.now }
    {
        let mut levels = self.prices;
        for j in (1..self.grid.goods()).rev() {
            levels[j - 1] += levels[j];
        }
        levels
    }

    // The point with these levels. Refuses goods and mesh out of range as `new` does, then anything but that many levels falling from the mesh.
    pub fn at_levels(goods: usize, mesh: u32, levels: &[u32]) -> Result<PricePoint, Refusal>
        ensures value { answered point_of result ≡ point_at_levels goods mesh levels.now }
        ensures back { IfOk result (λ p. to_levels (prices_of p) ≡ levels.now) }
    {
        let grid = Grid::new(goods, mesh)?;
        if !fit(grid, levels) {
            return Err(Refusal::NotAPricePoint);
        }
        let prices = to_prices(levels);
        Ok(PricePoint { grid, prices })
    }
}
