// Numbers in a line.
ghost use Rattle.std.specs.Prelude.{Some, decimal};
ghost use Rattle.lines.specs.Lines.{spaced};

use std::fmt;

// Each number after a blank.
#[derive(Clone, Copy)]
pub(crate) struct Spaced<'n>(pub(crate) &'n [u32]);

impl fmt::Display for Spaced<'_> {
    ghost output = { λ s. Some (spaced decimal s.0.now) };

    fn fmt<W: fmt::Write>(&self, f: &mut fmt::Formatter<W>) -> fmt::Result {
        for number in self.0 {
            write!(f, " {number}")?;
        }
        Ok(())
    }
}
