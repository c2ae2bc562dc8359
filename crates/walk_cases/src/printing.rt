// The text of what calls answer.
use state::corner::Corner;
use state::record::{Halt, Stage};
use std::fmt;
use walk::play::Said;
use walk::run::Look;

// A value that is shown on a run of so many goods. Only the first entries of a table count: as many as there are goods.
#[derive(Clone, Copy)]
pub struct Shown<'a, T> {
    pub goods: usize,
    pub value: &'a T,
}

impl<'a, T> Shown<'a, T> {
    // Another value on the same run.
    fn beside<'b, U>(&self, value: &'b U) -> Shown<'b, U> {
        Shown {
            goods: self.goods,
            value,
        }
    }
}

// A row: its numbers with a blank before each.
impl<'a> fmt::Display for Shown<'a, [u32; 8]> {
    fn fmt<W: fmt::Write>(&self, f: &mut fmt::Formatter<W>) -> fmt::Result {
        for number in &self.value[0..self.goods.min(8)] {
            write!(f, " {number}")?;
        }
        Ok(())
    }
}

// A halt: the prices of the corner and its label.
impl<'a> fmt::Display for Shown<'a, Halt> {
    fn fmt<W: fmt::Write>(&self, f: &mut fmt::Formatter<W>) -> fmt::Result {
        let halt = self.value;
        write!(
            f,
            "halted at{} label {}",
            self.beside(&halt.prices),
            halt.label
        )
    }
}

impl<'a> fmt::Display for Shown<'a, Stage> {
    fn fmt<W: fmt::Write>(&self, f: &mut fmt::Formatter<W>) -> fmt::Result {
        match self.value {
            Stage::Walking => write!(f, "walking"),
            Stage::Arrived(dropped) => write!(f, "arrived {dropped}"),
            Stage::Halted(halt) => write!(f, "{}", self.beside(halt)),
        }
    }
}

// A corner: its levels and its label.
impl<'a> fmt::Display for Shown<'a, Corner> {
    fn fmt<W: fmt::Write>(&self, f: &mut fmt::Formatter<W>) -> fmt::Result {
        write!(
            f,
            "{}: {}",
            self.beside(&self.value.levels),
            self.value.label
        )
    }
}

// A look: stage, goods, mesh, cells on this mesh and in all, and the corners, one more than there are goods.
impl<'a> fmt::Display for Shown<'a, Look> {
    fn fmt<W: fmt::Write>(&self, f: &mut fmt::Formatter<W>) -> fmt::Result {
        let look = self.value;
        write!(
            f,
            "look {} goods {} mesh {}",
            self.beside(&look.stage),
            look.goods,
            look.mesh
        )?;
        write!(f, " count {} total {}", look.count, look.total)?;
        for corner in &look.corners[0..self.goods.min(8) + 1] {
            write!(f, " |{}", self.beside(corner))?;
        }
        Ok(())
    }
}

impl<'a> fmt::Display for Shown<'a, Said> {
    fn fmt<W: fmt::Write>(&self, f: &mut fmt::Formatter<W>) -> fmt::Result {
        match self.value {
            Said::Began => write!(f, "began"),
            Said::Moved => write!(f, "moved"),
            Said::Arrived { number, mesh } => write!(f, "ticket {number} {mesh}"),
            Said::Halted(halt) => write!(f, "{}", self.beside(halt)),
            Said::Seen(look) => write!(f, "{}", self.beside(look)),
            Said::Found(prices) => write!(f, "prices{}", self.beside(prices)),
        }
    }
}
