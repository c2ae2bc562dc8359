// Markets that are walked.
#![tactic(auto)]

ghost use Rattle.std.specs.Prelude.{◌≡◌, ℕ, List, ◌≢◌};
ghost use Rattle.market.specs.Markets.{goods_in, market_rule};
ghost use Rattle.path.specs.Path.{Opening, Call, Path, Leads, halted};

use cells::Triangulation;
use market::market::Market;

// No walk over a market at its own number of goods halts, whatever the calls.
pub fn never_halts<T: Triangulation>(tri: &T, market: &Market) -> bool
    ensures { (o : Opening) (calls : List Call) (p : Path) → o.goods ≡ goods_in market.now → Leads (T.meaning tri.now) (market_rule market.now) o calls p → (x : List ℕ) (l : ℕ) → p.stage ≢ halted x l }
{
    true
}
