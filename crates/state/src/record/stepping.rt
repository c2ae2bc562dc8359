// What a step does to the record of a run.
ghost use Rattle.std.specs.Prelude.{◌≡◌, ◌&&◌, Ok, OnOk, OnErr, take, nat_le, nat_lt};
ghost use Rattle.mesh.specs.Prices.{to_prices};
ghost use Rattle.mesh.specs.Refusals.{answered, insist};
ghost use Rattle.cells.specs.Cells.{shape_of};
ghost use Rattle.path.specs.Path.{limit};
ghost use Rattle.state.specs.Views.{view_of, goods_of, levels_at, halting, arriving, entering};

use super::{Halt, Stage, State};
use cells::cell::Cell;
use mesh::pricing::to_prices;
use mesh::refusal::Refusal;

// The total from which on no cell is entered.
const LIMIT: u64 = 1 << 62;

// A cell that is entered, with the place of its new corner and that corner's levels.
#[derive(Clone, Copy)]
pub struct Entry {
    pub cell: Cell,
    pub place: usize,
    pub levels: [u32; 8],
}

impl State {
    // The newest corner gets an improper label, and the run halts there.
    pub fn halt(&mut self, label: u8) -> Halt
        ensures view { view_of self.new ≡ halting (view_of self.old) label }
        ensures prices { take (goods_of self.old) result.prices ≡ to_prices (levels_at (view_of self.old) self.old.newest) }
        ensures label { result.label ≡ label }
    {
        let prices = to_prices(self.newest_row());
        let halt = Halt { prices, label };
        self.corners.set_label(self.newest, label);
        self.stage = Stage::Halted(halt);
        halt
    }

    // The newest corner gets its label, and the run arrives with a corner dropped.
    pub fn arrive(&mut self, dropped: usize, label: u8)
        ensures { view_of self.new ≡ arriving (view_of self.old) dropped label }
    {
        self.corners.set_label(self.newest, label);
        self.stage = Stage::Arrived(dropped);
    }

    // The newest corner gets its label, and the run stands in the cell across the dropped corner, whose new corner is the newest. Refuses where the
    // total has come to its limit, or there is no such place, and then alters nothing.
    pub fn enter(&mut self, dropped: usize, label: u8, entry: &Entry) -> Result<(), Refusal>
        ensures answer { answered (λ u. u) result ≡ insist (nat_lt self.old.total limit && nat_le entry.now.place (goods_of self.old)) 10 (Ok tt) }
        ensures entered { OnOk result (view_of self.new ≡ entering (view_of self.old) (shape_of (goods_of self.old) entry.now.cell) dropped entry.now.place (take (goods_of self.old) entry.now.levels) label) }
        ensures kept { OnErr result (self.new ≡ self.old) }
    {
        if self.total >= LIMIT || entry.place > self.start.goods() {
            return Err(Refusal::WayBlocked);
        }
        self.corners.set_label(self.newest, label);
        self.corners.shift(dropped, entry.place, &entry.levels);
        self.cell = entry.cell;
        self.newest = entry.place;
        self.count += 1;
        self.total += 1;
        Ok(())
    }
}
