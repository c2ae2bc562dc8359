// The record of a run that begins on a mesh.
ghost use Rattle.std.specs.Prelude.{◌≡◌, suc, ◌<◌, ◌≤◌, take, ◌==◌};
ghost use Rattle.mesh.specs.Prices.{first};
ghost use Rattle.cells.specs.Cells.{shape_of};
ghost use Rattle.state.specs.Views.{view_of, goods_of, bare, placing};

use super::{Stage, State};
use crate::corner::Corner;
use crate::table::Table;
use cells::cell::Cell;
use cells::outer::outer_label;
use mesh::point::PricePoint;

impl State {
    // Walking from a start point, in its start cell, with no corner placed yet. It is the first cell on this mesh, after so many on others.
    pub fn begin(number: u16, before: u64, start: PricePoint, cell: Cell) -> State
        ensures { before < 18446744073709551615 → view_of result ≡ bare number start (shape_of start.grid.goods cell) (suc before) }
    {
        let corners = Table::blank();
        State {
            number,
            start,
            cell,
            newest: 0,
            count: 1,
            total: before.saturating_add(1),
            stage: Stage::Walking,
            corners,
        }
    }

    // Places a corner: a real one is the newest, and an outer one gets its label.
    pub fn place(&mut self, i: usize, levels: &[u32; 8])
        ensures placed { i ≤ goods_of self.old → view_of self.new ≡ placing (view_of self.old) i (take (goods_of self.old) levels.now) }
        ensures kept { goods_of self.old < i → self.new ≡ self.old }
    {
        let goods = self.start.goods();
        if i > goods {
            return;
        }
        let mut corner = Corner {
            levels: *levels,
            label: 0,
        };
        if self.is_real(levels) {
            self.newest = i;
        } else {
            corner.label = outer_label(&self.start, &levels[0..goods]);
        }
        self.corners.put(i, corner);
    }

    // The levels of a corner begin with the mesh.
    fn is_real(&self, levels: &[u32; 8]) -> bool
        ensures { result ≡ (first (take (goods_of self.now) levels.now) == self.now.start.grid.mesh) }
    {
        levels[0] == self.start.mesh()
    }
}
