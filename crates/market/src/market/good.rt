// One good of a market.
ghost use Rattle.std.specs.Prelude.{◌≡◌, ◌≤◌, true, false, [], MatchResult};
ghost use Rattle.mesh.specs.Range.{between};
ghost use Rattle.mesh.specs.Refusals.{told};
ghost use Rattle.trade.specs.Trade.{owned_in_all};
ghost use Rattle.market.specs.Markets.{goods_in, traders_of};
ghost use Rattle.market.specs.Reading.{span_of};

use super::Market;
use crate::rows::Span;
use mesh::refusal::Refusal;

// The number of a good that the market has.
#[derive(Clone, Copy)]
pub(super) struct Good<'m> {
    pub(super) market: &'m Market,
    pub(super) number: usize,
    ghost is_good: { (1 ≤ number) × (number ≤ goods_in market.now) },
}

impl Market {
    // A good by its number. Refuses a number past the goods, and 0.
    pub(super) fn good(&self, number: usize) -> Result<Good<'_>, Refusal>
        ensures { MatchResult result
            (λ g. (between 1 (goods_in self.now) number ≡ true) × ((g.market.now ≡ self.now) × (g.number ≡ number)))
            (λ e. (between 1 (goods_in self.now) number ≡ false) × (told e ≡ (11, []))) }
    {
        if !(1..=self.numbers.goods).contains(&number) {
            return Err(Refusal::NoSuchGood);
        }
        Ok(Good {
            market: self,
            number,
        })
    }
}

impl<'m> Good<'m> {
    // What all traders own of it.
    pub(super) fn owned(&self) -> u32
        ensures value { result ≡ owned_in_all (traders_of self.now.market.now) self.now.number }
        ensures small { result ≤ 1048560 }
    {
        let mut sum = 0u32;
        for owner in self.market.rows() {
            sum += u32::from(owner.owns[self.number - 1]);
        }
        sum
    }

    // Where its name stands in the file that was read.
    pub(super) fn span(&self) -> Span
        ensures { result ≡ span_of self.now.market.now.numbers self.now.number }
    {
        self.market.numbers.names[self.number - 1]
    }
}
