// Prices from levels: each is a level less the next, and 0 where the next is above it.
ghost use Rattle.std.specs.Prelude.{◌≡◌, ℕ, ◌+◌, ◌-◌, ◌<◌, ◌≤◌, length, take, slice_index};
ghost use Rattle.mesh.specs.Prices.{to_prices};

use std::array;

// The price that levels give the good after place j: a level less the next, 0 past the last level.
pub fn price_at(levels: &[u32], j: usize) -> u32
    ensures { result ≡ slice_index levels.now j - slice_index levels.now (j + 1) }
{
    match levels.get(j..) {
        Some([level, next, ..]) => level.saturating_sub(*next),
        Some([level]) => *level,
        _ => 0,
    }
}

// The first eight prices that levels give, with zeros after them.
pub fn to_prices(levels: &[u32]) -> [u32; 8]
    ensures size { length result ≡ 8 }
    ensures entries { (j : ℕ) → j < 8 → slice_index result j ≡ slice_index (to_prices levels.now) j }
    ensures prices { length levels.now ≤ 8 → take (length levels.now) result ≡ to_prices levels.now }
{
    array::from_fn(|j| price_at(levels, j))
}
