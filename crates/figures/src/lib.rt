// Worked examples: shown of the definitions, and run.
#![tactic(auto)]

ghost use Rattle.figures.specs.Examples.{WorkedExamples};

#[cfg(test)]
mod runs;
#[cfg(test)]
mod tests;

// The worked examples hold of the definitions.
pub fn worked_examples() -> bool
    ensures { WorkedExamples }
{
    true
}
