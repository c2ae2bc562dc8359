// The line of a price point.
ghost use Rattle.std.specs.Prelude.{◌≡◌, ◌≤◌, IfOk, Some, string_bytes, MatchOption, ◌≢◌};
ghost use Rattle.std.specs.Fmt.{signed_decimal};
ghost use Rattle.mesh.specs.Points.{goods_of};
ghost use Rattle.market.specs.Markets.{goods_in, excess_at};
ghost use Rattle.lines.specs.Lines.{spaced, excesses_at, line_at, PointLine};

use crate::errors::LineError;
use crate::spaced::Spaced;
use labelling::Labelling;
use market::market::Market;
use mesh::point::PricePoint;
use mesh::refusal::Refusal;
use std::alloc::{AllocError, Global};
use std::fmt;

// The excesses of a market at a price point of as many goods. They are printed each after a blank.
#[derive(Clone, Copy)]
struct Excesses<'q> {
    market: &'q Market,
    point: &'q PricePoint,
    ghost same_goods: { goods_of point.now ≡ goods_in market.now },
}

impl<'q> Excesses<'q> {
    // None where the point has another number of goods.
    fn of(market: &'q Market, point: &'q PricePoint) -> Option<Excesses<'q>>
        ensures { MatchOption result (goods_of point.now ≢ goods_in market.now) (λ q. (q.market.now ≡ market.now) × (q.point.now ≡ point.now)) }
    {
        if point.goods() != market.goods() {
            return None;
        }
        Some(Excesses { market, point })
    }

    // The excess of a good of the market.
    fn excess(&self, good: usize) -> i64
        requires { (1 ≤ good) × (good ≤ goods_in self.now.market.now) }
        ensures { result ≡ excess_at self.now.market.now self.now.point.now good }
    {
        self.market.excess(good, self.point).unwrap()
    }

    // The line of the point.
    fn line(&self, heap: Global) -> Result<String, AllocError>
        ensures { IfOk result (λ s. string_bytes s ≡ line_at self.now.market.now self.now.point.now) }
    {
        let prices = Spaced(self.point.prices());
        let label = self.market.label(self.point);
        format!(in heap; "prices{prices}: excess{self}, label {label}")
    }
}

impl fmt::Display for Excesses<'_> {
    ghost output = { λ q. Some (spaced signed_decimal (excesses_at q.market.now q.point.now)) };

    fn fmt<W: fmt::Write>(&self, f: &mut fmt::Formatter<W>) -> fmt::Result {
        for good in 1..=self.market.goods() {
            write!(f, " {}", self.excess(good))?;
        }
        Ok(())
    }
}

// The prices of a point, the excess of each good, and the label. Refuses a point with another number of goods than the market.
pub fn point_line(heap: Global, market: &Market, point: &PricePoint) -> Result<String, LineError>
    ensures { PointLine market.now point.now result }
{
    let excesses = Excesses::of(market, point).ok_or(Refusal::NotAPricePoint)?;
    Ok(excesses.line(heap)?)
}
