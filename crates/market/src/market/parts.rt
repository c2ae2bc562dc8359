// The parts of a market.
ghost use Rattle.std.specs.Prelude.{◌≡◌, length};
ghost use Rattle.market.specs.Markets.{goods_in, rows_of, traders_of};

use super::Market;
use crate::rows::Trader;

impl Market {
    // How many goods are traded.
    pub fn goods(&self) -> usize
        ensures { result ≡ goods_in self.now }
    {
        self.numbers.goods
    }

    // What each trader's weights add up to.
    pub fn weight_sum(&self) -> u32
        ensures { result ≡ self.now.numbers.sum }
    {
        self.numbers.sum
    }

    // How many traders there are.
    pub fn traders(&self) -> usize
        ensures { result ≡ length (traders_of self.now) }
    {
        self.rows().len()
    }

    // The filled rows of the table.
    pub(super) fn rows(&self) -> &[Trader]
        ensures { result.now ≡ rows_of self.now }
    {
        &self.numbers.traders[..self.numbers.filled]
    }
}
