// Todd's triangulations K1 and J1 keep the laws of triangulations: theory.
#![tactic(auto)]

ghost use Rattle.todd_laws.specs.Laws.{K1Lawful, J1Lawful};

pub fn lawful() -> bool
    ensures k1 { K1Lawful }
    ensures j1 { J1Lawful }
{
    true
}
