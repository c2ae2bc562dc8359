// A corner of the cell in which a run stands.
ghost use Rattle.std.specs.Prelude.{◌≡◌, ℕ, ◌*◌, ◌<◌, ◌≤◌, map, length, take, slice_index};
ghost use Rattle.state.specs.Views.{is_proper};

use mesh::pricing::price_at;

// Its levels, and its label: 0 while it has none. The entries past the goods never matter.
#[derive(Clone, Copy)]
pub struct Corner {
    pub levels: [u32; 8],
    pub label: u8,
}

// The label is a good, and levels give that good a price above 0.
pub fn is_proper(levels: &[u32], label: u8) -> bool
    ensures { result ≡ is_proper (length levels.now) levels.now label }
{
    let good = usize::from(label);
    (1..=levels.len()).contains(&good) && price_at(levels, good - 1) > 0
}

// So many times each price. What does not fit its type is the most that fits.
pub fn scaled(prices: &[u32; 8], factor: u32) -> [u32; 8]
    ensures { (g : ℕ) → g ≤ 8 → ((i : ℕ) → i < g → factor * slice_index prices.now i ≤ 4294967295) → take g result ≡ map (λ x. factor * x) (take g prices.now) }
{
    prices.map(|price| price.saturating_mul(factor))
}
