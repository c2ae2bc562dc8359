// A market file held for reading.
ghost use Rattle.std.specs.Prelude.{◌≡◌, IfOk};
ghost use Rattle.mesh.specs.Refusals.{answered};
ghost use Rattle.market.specs.Reading.{Reads};
ghost use Rattle.market.specs.Names.{name_for, place_for, NameStands};

use crate::market::Market;
use crate::reader::read;
use mesh::refusal::Refusal;

// The bytes of a file, and what reading them answered.
#[derive(Clone, Copy)]
pub struct MarketFile<'f> {
    bytes: &'f [u8],
    found: Result<Market, Refusal>,
}

impl<'f> MarketFile<'f> {
    pub fn open(bytes: &'f [u8]) -> MarketFile<'f>
        ensures same { result.bytes.now ≡ bytes.now }
        ensures reads { Reads bytes.now result.found }
    {
        let found = read(bytes);
        MarketFile { bytes, found }
    }

    // The market, or the refusal of the file's first fault.
    pub fn market(&self) -> Result<Market, Refusal>
        ensures { result ≡ self.now.found }
    {
        self.found
    }

    // The name of a good: that part of the file. Refuses a good that the market does not have; a file with a fault has none.
    pub fn name(&self, good: usize) -> Result<&'f [u8], Refusal>
        ensures value { answered (λ x. x.now) result ≡ name_for self.now.bytes.now self.now.found good }
        ensures place { IfOk result (λ s. NameStands self.now.bytes.now self.now.found good s.now) }
    {
        let market = self.found.map_err(|_| Refusal::NoSuchGood)?;
        market.name_in(self.bytes, good)
    }

    // The place of that name in the file, counted from 0. Refused alike.
    pub fn name_place(&self, good: usize) -> Result<usize, Refusal>
        ensures { answered (λ n. n) result ≡ place_for self.now.found good }
    {
        let market = self.found.map_err(|_| Refusal::NoSuchGood)?;
        let span = market.name_span(good)?;
        Ok(span.at)
    }
}
