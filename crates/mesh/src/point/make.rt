// Making a price point from handed numbers, and reading its parts.
ghost use Rattle.std.specs.Prelude.{◌≡◌, ◌≤◌, length, sum};
ghost use Rattle.mesh.specs.Points.{point_of, point_for, goods_of, mesh_of, prices_of};
ghost use Rattle.mesh.specs.Prices.{price};
ghost use Rattle.mesh.specs.Refusals.{answered};

use super::PricePoint;
use crate::grid::Grid;
use crate::refusal::Refusal;
use tables::table_of;

// Eight prices of 32 bits add up to less than 2^64.
fn total(prices: &[u32]) -> u64
    requires { length prices.now ≤ 8 }
    ensures { result ≡ sum prices.now }
{
    prices.iter().map(|price| u64::from(*price)).sum()
}

impl PricePoint {
    // Refuses goods outside 2 to 8, then a mesh out of range, then anything but that many prices adding up to the mesh.
    pub fn new(goods: usize, mesh: u32, prices: &[u32]) -> Result<PricePoint, Refusal>
        ensures { answered point_of result ≡ point_for goods mesh prices.now }
    {
        let grid = Grid::new(goods, mesh)?;
        if prices.len() != goods || total(prices) != u64::from(mesh) {
            return Err(Refusal::NotAPricePoint);
        }
        let prices = table_of(prices, 0);
        Ok(PricePoint { grid, prices })
    }

    pub fn grid(&self) -> Grid
        ensures { result ≡ self.now.grid }
    {
        self.grid
    }

    pub fn goods(&self) -> usize
        ensures { result ≡ goods_of self.now }
    {
        self.grid.goods()
    }

    pub fn mesh(&self) -> u32
        ensures { result ≡ mesh_of self.now }
    {
        self.grid.mesh()
    }

    // The prices of the goods, in their order.
    pub fn prices(&self) -> &[u32]
        ensures { result.now ≡ prices_of self.now }
    {
        &self.prices[0..self.grid.goods()]
    }

    // The price of one good, counted from 1; 0 where there is no such good.
    pub fn price(&self, good: usize) -> u32
        ensures { result ≡ price (prices_of self.now) good }
    {
        if good == 0 {
            return 0;
        }
        self.prices().get(good - 1).copied().unwrap_or(0)
    }
}
