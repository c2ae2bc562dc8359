// The laws of the market file's layout. Theory only: the function's contract is the theorem.
#![tactic(auto)]

ghost use Rattle.layout.specs.Laws.{OneEconomy, OneFault, NoFileHasAFault};

// A byte string has one meaning: the economy it is the file of, or its first fault.
pub fn one_meaning() -> bool
    ensures economy { OneEconomy }
    ensures fault { OneFault }
    ensures apart { NoFileHasAFault }
{
    true
}
