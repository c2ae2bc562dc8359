// Outer labels.
ghost use Rattle.std.specs.Prelude.{◌≡◌, ℕ, suc, ◌<◌, ◌≤◌, MatchOption, length, slice_index};
ghost use Rattle.mesh.specs.Points.{goods_of, mesh_of, prices_of};
ghost use Rattle.mesh.specs.Prices.{first, to_prices};
ghost use Rattle.cells.specs.Corners.{Corner, outer_label, LabelsOuter};

use mesh::point::PricePoint;
use mesh::pricing::price_at;

// The first place where the price that levels give is strictly above that of the start. No price after it is made.
fn place_above(start: &[u32], levels: &[u32]) -> Option<usize>
    ensures { MatchOption result ((k : ℕ) → k < length start.now → slice_index (to_prices levels.now) k ≤ slice_index start.now k) (λ j. (j < length start.now) × (slice_index start.now j < slice_index (to_prices levels.now) j) × ((k : ℕ) → k < j → slice_index (to_prices levels.now) k ≤ slice_index start.now k)) }
{
    for (j, before) in start.iter().enumerate() {
        let price = price_at(levels, j);
        if price > *before {
            return Some(j);
        }
    }
    None
}

// The outer label of a corner for a start point: the smallest good whose price is above that of the start, 0 where there is none. An outer corner of
// the start's mesh always has one.
pub fn outer_label(start: &PricePoint, levels: &[u32]) -> u8
    ensures value { result ≡ outer_label (prices_of start.now) levels.now }
    ensures found { Corner (goods_of start.now) (mesh_of start.now) levels.now → first levels.now ≡ suc (mesh_of start.now) → LabelsOuter (goods_of start.now) (prices_of start.now) levels.now result }
{
    match place_above(start.prices(), levels) {
        Some(j) => j as u8 + 1,
        None => 0,
    }
}
