// Stepping.
ghost use Rattle.std.specs.Prelude.{◌≡◌, ◌≤◌, OnErr};
ghost use Rattle.cells.specs.Corners.{Corner};
ghost use Rattle.path.specs.Path.{step};
ghost use Rattle.state.specs.Views.{view_of, goods_of, levels_at};
ghost use Rattle.walk.specs.Answers.{stepped};
ghost use Rattle.walk.specs.Records.{mesh_on, label_now, crossed};
ghost use Rattle.walk.specs.Showing.{Makes, SameBorrows};

use super::{Progress, Run, Ticket};
use crate::starting::label_of;
use cells::Triangulation;
use cells::wall::{Wall, Way};
use labelling::Labelling;
use mesh::refusal::Refusal;
use state::record::{Entry, State};

impl<'a, T: Triangulation, L: Labelling> Run<'a, T, L> {
    // One step. Refuses a run that is not walking.
    pub fn step(&mut self) -> Result<Progress, Refusal>
        ensures goes { Makes T.meaning L.rule self.old step (stepped (goods_of self.old.state) result) self.new.state }
        ensures kept { OnErr result (self.new.state ≡ self.old.state) }
        ensures borrows { SameBorrows self.old self.new }
    {
        if !self.state.walks() {
            return Err(Refusal::NotWalking);
        }
        let label = self.newest_label();
        if !self.state.is_proper(label) {
            return Ok(Progress::Halted(self.state.halt(label)));
        }
        let carrier = self.state.carrier(label, self.state.newest);
        let dropped = carrier.ok_or(Refusal::WayBlocked)?;
        cross(self.tri, &mut self.state, dropped, label)
    }

    // The label that the newest corner gets.
    fn newest_label(&self) -> u8
        ensures { Corner (goods_of self.now.state) self.now.state.start.grid.mesh (levels_at (view_of self.now.state) self.now.state.newest) → result ≡ label_now (L.rule self.now.labels.now) (view_of self.now.state) }
    {
        label_of(self.labels, &self.state.start, self.state.newest_row())
    }
}

// Drops a corner, and goes where the way across it leads.
fn cross<T: Triangulation>(
    tri: &T,
    state: &mut State,
    dropped: usize,
    label: u8,
) -> Result<Progress, Refusal>
    ensures crossed { let M = mesh_on (T.meaning tri.now) (view_of state.old) in dropped ≤ goods_of state.old → M.is_cell (view_of state.old).cell → (stepped (goods_of state.old) result, view_of state.new) ≡ crossed M (view_of state.old) dropped label (M.across (view_of state.old).cell dropped) }
    ensures kept { OnErr result (state.new ≡ state.old) }
{
    let grid = state.start.grid();
    let mut cell = state.cell;
    let Ok(way) = tri.across(grid, &mut cell, dropped) else {
        return Err(Refusal::WayBlocked);
    };
    match Way::from(way) {
        Way::Moved(place) => {
            let Ok(levels) = tri.corner(grid, &cell, place) else {
                return Err(Refusal::WayBlocked);
            };
            let entry = Entry {
                cell,
                place,
                levels,
            };
            state.enter(dropped, label, &entry)?;
            Ok(Progress::Moved)
        }
        Way::Stopped(Wall::Real) => {
            state.arrive(dropped, label);
            Ok(Progress::Arrived(Ticket::of(state.number, state.start.mesh())))
        }
        Way::Stopped(_) => Err(Refusal::WayBlocked),
    }
}
