// Reading a market file.
ghost use Rattle.std.specs.Prelude.{◌≡◌, ◌+◌, ◌<◌, false, ◌&&◌, length, MatchResult, ◌==◌, nat_lt};
ghost use Rattle.mesh.specs.Refusals.{told};
ghost use Rattle.layout.specs.Faults.{FieldFault};
ghost use Rattle.market.specs.Held.{Held};
ghost use Rattle.market.specs.Reading.{Reads};

use crate::field::{Field, next_field};
use crate::market::Market;
use crate::rows::{Numbers, Trader};
use mesh::refusal::Refusal;

// Reads the field that is due at a place, and answers the place after it.
fn read_one(file: &[u8], at: usize, numbers: &mut Numbers) -> Result<usize, Refusal>
    requires held { Held file.now at numbers.old }
    requires goes_on { (nat_lt 0 numbers.old.filled && at == length file.now) ≡ false }
    ensures { MatchResult result (λ next. (at < next) × Held file.now next numbers.new) (λ e. FieldFault file.now (told e)) }
{
    let field = next_field(file, at, numbers.due())?;
    let end = at + 3 + field.body().len();
    match field {
        Field::Goods(body, _) => numbers.add_goods(body),
        Field::Name(body, place) => numbers.add_name(place, body),
        Field::Sum(body, _) => numbers.add_sum(body),
        Field::Trader(body, place) => {
            let trader = Trader::of(body, numbers.goods);
            if !trader.adds_up_to(numbers.goods, numbers.sum) {
                return Err(Refusal::WeightsOffSum(place));
            }
            numbers.add_trader(trader);
        }
    }
    Ok(end)
}

// The end of a whole file: some trader was read, and no byte is left.
fn ended(file: &[u8], at: usize, numbers: &Numbers) -> bool
    ensures { result ≡ (nat_lt 0 numbers.now.filled && at == length file.now) }
{
    numbers.filled > 0 && at == file.len()
}

// Reads a whole file: the market that it says, or the refusal of its first fault.
pub fn read(file: &[u8]) -> Result<Market, Refusal>
    ensures { Reads file.now result }
{
    let mut numbers = Numbers::unsaid();
    let mut at = 0;
    while !ended(file, at, &numbers) {
        at = read_one(file, at, &mut numbers)?;
    }
    let market = Market::with(numbers);
    match market.unowned() {
        Some(good) => Err(Refusal::GoodUnowned(good)),
        None => Ok(market),
    }
}
