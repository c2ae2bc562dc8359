// The lines of a walk.
ghost use Rattle.std.specs.Prelude.{◌≡◌, map, take, IfOk, Some, string_bytes};
ghost use Rattle.lines.specs.Lines.{open_text, blocks, arrival_text};

use crate::spaced::Spaced;
use std::alloc::{AllocError, Global};
use std::fmt;

// A mesh on which the walk did not arrive.
pub fn open_line(heap: Global, mesh: u32) -> Result<String, AllocError>
    ensures { IfOk result (λ s. string_bytes s ≡ open_text mesh) }
{
    format!(in heap; "mesh {mesh} open")
}

// The prices of a corner: of its row as many as there are goods.
fn corner(goods: usize, row: &[u32; 8]) -> Spaced<'_>
    ensures { result.0.now ≡ take goods row.now }
{
    Spaced(row.get(..goods).unwrap_or(row))
}

// The corners of a cell, with a stroke between them.
#[derive(Clone, Copy)]
struct Corners<'c> {
    goods: usize,
    rows: &'c [[u32; 8]],
}

impl fmt::Display for Corners<'_> {
    ghost output = { λ c. Some (blocks (map (take c.goods) c.rows.now)) };

    fn fmt<W: fmt::Write>(&self, f: &mut fmt::Formatter<W>) -> fmt::Result {
        let Some((first, rest)) = self.rows.split_first() else {
            return Ok(());
        };
        write!(f, "{}", corner(self.goods, first))?;
        for row in rest {
            write!(f, " |{}", corner(self.goods, row))?;
        }
        Ok(())
    }
}

// An arrival: the mesh, how many cells were entered on it, and the prices of each corner. Of each row the first entries count, as many as there are goods.
pub fn arrival_line(
    heap: Global,
    mesh: u32,
    cells: u64,
    goods: usize,
    corners: &[[u32; 8]],
) -> Result<String, AllocError>
    ensures { IfOk result (λ s. string_bytes s ≡ arrival_text mesh cells (map (take goods) corners.now)) }
{
    let rows = Corners {
        goods,
        rows: corners,
    };
    format!(in heap; "mesh {mesh} cells {cells}:{rows}")
}
