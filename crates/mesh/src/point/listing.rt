// Going through the price points of a mesh, from all of it on the first good to all of it on the last.
ghost use Rattle.std.specs.Prelude.{◌≡◌, ◌-◌, length, MatchOption};
ghost use Rattle.mesh.specs.Listing.{IsFirst, IsLast, RightAfter};
ghost use Rattle.mesh.specs.Points.{goods_of, mesh_of, prices_of};
ghost use Rattle.mesh.specs.Step.{NonePriced, LastPriced, stepped};

use super::PricePoint;
use crate::grid::Grid;
use tables::table_of;

// The last place with a price above 0.
fn last_priced(prices: &[u32]) -> Option<usize>
    ensures { MatchOption result (NonePriced prices.now (length prices.now)) (λ i. LastPriced prices.now (length prices.now) i) }
{
    prices.iter().rposition(|price| *price > 0)
}

impl PricePoint {
    // The first price point: the whole mesh on good 1.
    #[tactic(auto, using(crate::proofs::PointListing::first_point))]
    pub fn first(grid: Grid) -> PricePoint
        ensures grid { result.grid ≡ grid }
        ensures first { IsFirst grid.goods grid.mesh (prices_of result) }
    {
        let prices = table_of(&[grid.mesh()], 0);
        PricePoint { grid, prices }
    }

    // The point right after this one, if it is not the last.
    pub fn next(&self) -> Option<PricePoint>
        ensures { MatchOption result (IsLast (goods_of self.now) (mesh_of self.now) (prices_of self.now)) (λ p. (p.grid ≡ self.now.grid) × RightAfter (goods_of self.now) (mesh_of self.now) (prices_of self.now) (prices_of p)) }
    {
        let last = self.grid.goods() - 1;
        let i = last_priced(&self.prices[..last])?;
        let prices = self.step(i);
        Some(PricePoint {
            grid: self.grid,
            prices,
        })
    }

    // Takes one from the price at that place, and puts it with all of the last good's price on the next place.
    #[tactic(auto, using(crate::proofs::PointPrices::entry_small))]
    fn step(&self, i: usize) -> [u32; 8]
        requires { LastPriced self.now.prices (goods_of self.now - 1) i }
        ensures { result ≡ stepped self.now.prices (goods_of self.now - 1) i }
    {
        let last = self.grid.goods() - 1;
        let mut next = self.prices;
        next[last] = 0;
        next[i] = self.prices[i] - 1;
        next[i + 1] = self.prices[last] + 1;
        next
    }
}
