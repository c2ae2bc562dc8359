// Making a market from numbers that were read.
ghost use Rattle.std.specs.Prelude.{◌≡◌, IfOk, Ok, MatchOption};
ghost use Rattle.mesh.specs.Range.{between};
ghost use Rattle.mesh.specs.Refusals.{answered, insist};
ghost use Rattle.market.specs.Reading.{span_of};
ghost use Rattle.market.specs.Names.{name_for, NameStands};
ghost use Rattle.market.specs.Markets.{goods_in, MarketNumbers, AllOwned, FirstUnowned};

use super::Market;
use crate::rows::{Numbers, Span};
use mesh::refusal::Refusal;

impl Market {
    pub(crate) fn with(numbers: Numbers) -> Market
        requires { MarketNumbers numbers }
        ensures { result.numbers ≡ numbers }
    {
        Market { numbers }
    }

    // The smallest good that nobody owns.
    pub(crate) fn unowned(&self) -> Option<usize>
        ensures { MatchOption result (AllOwned self.now) (λ j. FirstUnowned self.now j) }
    {
        (1..self.numbers.goods + 1).find(|good| self.owned_in_all(*good) == Ok(0))
    }

    // Where the name of a good stands in the file that was read.
    pub(crate) fn name_span(&self, good: usize) -> Result<Span, Refusal>
        ensures { answered (λ s. s) result ≡ insist (between 1 (goods_in self.now) good) 11 (Ok (span_of self.now.numbers good)) }
    {
        Ok(self.good(good)?.span())
    }

    // The name of a good, as a part of the file that was read.
    pub(crate) fn name_in<'f>(&self, file: &'f [u8], good: usize) -> Result<&'f [u8], Refusal>
        ensures value { answered (λ x. x.now) result ≡ name_for file.now (Ok self.now) good }
        ensures place { IfOk result (λ s. NameStands file.now (Ok self.now) good s.now) }
    {
        let span = self.name_span(good)?;
        Ok(span.of(file))
    }
}
