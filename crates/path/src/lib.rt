// The path of a run, and what is true of every path: theory. A path goes by the meanings of a triangulation and a labelling alone.
#![tactic(auto)]

ghost use Rattle.std.specs.Prelude.{◌≡◌, ℕ, List};
ghost use Rattle.cells.specs.Triangulation.{Shape};
ghost use Rattle.path.specs.Claim.{Claim};
ghost use Rattle.path.specs.Lists.{Different};
ghost use Rattle.path.specs.Path.{Opening, Call, Path, Leads};

use cells::Triangulation;
use labelling::Labelling;

// What is claimed holds of the path of every opening and every list of calls, for any triangulation and any labelling.
pub fn claimed<T: Triangulation, L: Labelling>(tri: &T, labels: &L) -> bool
    ensures { (o : Opening) (calls : List Call) (p : Path) → Leads (T.meaning tri.now) (L.rule labels.now) o calls p → Claim (T.meaning tri.now) (L.rule labels.now) o p }
{
    true
}

// The same opening with the same calls has one path.
pub fn determined<T: Triangulation, L: Labelling>(tri: &T, labels: &L) -> bool
    ensures { (o : Opening) (calls : List Call) (p q : Path) → Leads (T.meaning tri.now) (L.rule labels.now) o calls p → Leads (T.meaning tri.now) (L.rule labels.now) o calls q → p ≡ q }
{
    true
}

// A list of cells has one number of different cells.
pub fn one_number() -> bool
    ensures { (cells : List Shape) (n m : ℕ) → Different cells n → Different cells m → n ≡ m }
{
    true
}
