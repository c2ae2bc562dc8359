// A market: numbers in which every trader's weights add up to the weight sum.
ghost use Rattle.std.specs.Prelude.{◌≡◌, ◌≤◌, true, length, take};
ghost use Rattle.market.specs.Rows.{traders_in, all_fit};

use crate::rows::Numbers;

mod excess;
mod good;
mod make;
mod parts;

#[derive(Clone, Copy)]
pub struct Market {
    numbers: Numbers,
    ghost goods_fit: { (2 ≤ numbers.goods) × (numbers.goods ≤ 8) },
    ghost sum_fits: { (1 ≤ numbers.sum) × (numbers.sum ≤ 1000) },
    ghost some_traders: { (1 ≤ numbers.filled) × (numbers.filled ≤ 16) },
    ghost all_named: { (numbers.named ≡ numbers.goods) × (length numbers.names ≡ 8) },
    ghost room: { length numbers.traders ≡ 16 },
    ghost shares: { all_fit numbers.goods numbers.sum (traders_in numbers.goods (take numbers.filled numbers.traders)) ≡ true },
}
