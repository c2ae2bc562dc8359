// What is demanded and supplied of a good, and the excess.
ghost use Rattle.std.specs.Prelude.{◌≡◌, ◌*◌, ◌≤◌, ◌&&◌, length, pos, ◌-ℤ◌, [], MatchResult, ◌≢◌, sum, ◌==◌};
ghost use Rattle.trade.specs.Trade.{dot, clears};
ghost use Rattle.mesh.specs.Refusals.{answered, told};
ghost use Rattle.mesh.specs.Points.{goods_of, mesh_of, prices_of};
ghost use Rattle.market.specs.Markets.{goods_in, traders_of, demand_at, supply_at, excess_at, excess_for, owned_for, market_rule, LabelledBy};
ghost use Rattle.market.specs.MarketLabel.{label-byte};

use super::Market;
use super::good::Good;
use labelling::Labelling;
use mesh::point::PricePoint;
use mesh::refusal::Refusal;

// A good of a market, at a price point of as many goods.
#[derive(Clone, Copy)]
struct Quote<'q> {
    good: Good<'q>,
    point: &'q PricePoint,
    ghost same_goods: { goods_of point.now ≡ goods_in good.market.now },
}

// What an endowment is worth at these prices.
fn worth(prices: &[u32], owned: &[u16]) -> u64
    requires { (length prices.now ≤ 8) × ((sum prices.now ≤ 16384) × (length prices.now ≤ length owned.now)) }
    ensures value { result ≡ dot prices.now owned.now }
    ensures small { result ≤ 1073725440 }
{
    let mut income = 0u64;
    for (price, amount) in prices.iter().zip(owned) {
        income += u64::from(*price) * u64::from(*amount);
    }
    income
}

// A weight sum times a price times an amount.
fn product(weight_sum: u32, price: u32, amount: u32) -> u64
    requires { (weight_sum ≤ 1000) × ((price ≤ 16384) × (amount ≤ 1048560)) }
    ensures value { result ≡ weight_sum * price * amount }
    ensures small { result ≤ 17179607040000 }
{
    u64::from(weight_sum) * u64::from(price) * u64::from(amount)
}

// How far a demand is above a supply.
fn difference(demand: u64, supply: u64) -> i64
    requires { (demand ≤ 1125865547366400) × (supply ≤ 17179607040000) }
    ensures { result ≡ pos demand -ℤ pos supply }
{
    demand as i64 - supply as i64
}

impl<'m> Good<'m> {
    // The good at a price point. Refuses a point with another number of goods.
    fn at(&self, point: &'m PricePoint) -> Result<Quote<'m>, Refusal>
        ensures { MatchResult result
            (λ q. (goods_of point.now ≡ goods_in self.now.market.now) × ((q.good ≡ self.now) × (q.point.now ≡ point.now)))
            (λ e. (goods_of point.now ≢ goods_in self.now.market.now) × (told e ≡ (3, []))) }
    {
        if point.goods() != self.market.goods() {
            return Err(Refusal::NotAPricePoint);
        }
        Ok(Quote { good: *self, point })
    }
}

impl<'q> Quote<'q> {
    // What all traders spend on the good, times the weight sum.
    fn demanded(&self) -> u64
        ensures value { result ≡ demand_at self.now.good.market.now self.now.point.now self.now.good.number }
        ensures small { result ≤ 1125865547366400 }
    {
        let prices = self.point.prices();
        let mut sum = 0u64;
        for trader in self.good.market.rows() {
            let income = worth(prices, &trader.owns);
            sum += u64::from(trader.weighs[self.good.number - 1]) * income;
        }
        sum
    }

    // What all there is of the good is worth, times the weight sum.
    fn supplied(&self) -> u64
        ensures value { result ≡ supply_at self.now.good.market.now self.now.point.now self.now.good.number }
        ensures small { result ≤ 17179607040000 }
    {
        product(
            self.good.market.weight_sum(),
            self.point.price(self.good.number),
            self.good.owned(),
        )
    }

    // How much more is demanded than supplied.
    fn excess(&self) -> i64
        ensures { result ≡ excess_at self.now.good.market.now self.now.point.now self.now.good.number }
    {
        difference(self.demanded(), self.supplied())
    }
}

impl Market {
    // The excess of one good at a point. Refuses a good that the market does not have, then a point with another number of goods.
    pub fn excess(&self, good: usize, point: &PricePoint) -> Result<i64, Refusal>
        ensures { answered (λ z. z) result ≡ excess_for self.now good point.now }
    {
        Ok(self.good(good)?.at(point)?.excess())
    }

    // What is owned of one good in all. Refuses a good that the market does not have.
    pub fn owned_in_all(&self, good: usize) -> Result<u32, Refusal>
        ensures { answered (λ n. n) result ≡ owned_for self.now good }
    {
        Ok(self.good(good)?.owned())
    }

    // A good with a price that is not short, at a point of as many goods.
    fn clears(&self, good: usize, point: &PricePoint) -> bool
        ensures { result ≡ (goods_of point.now == goods_in self.now && clears self.now.numbers.sum (traders_of self.now) (prices_of point.now) good) }
    {
        point.price(good) > 0 && self.excess(good, point).is_ok_and(|excess| excess <= 0)
    }
}

impl Labelling for Market {
    ghost rule = { market_rule };

    ghost small = { λ m g D x. label-byte m g D x };

    // The smallest good with a price that is not short. At a point of as many goods there always is one.
    fn label(&self, point: &PricePoint) -> u8
        ensures value { result ≡ market_rule self.now (goods_of point.now) (mesh_of point.now) (prices_of point.now) }
        ensures found { goods_of point.now ≡ goods_in self.now → LabelledBy self.now point.now result }
    {
        (1..self.numbers.goods + 1)
            .find(|good| self.clears(*good, point))
            .map_or(0, |good| good as u8)
    }
}
