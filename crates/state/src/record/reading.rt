// Reading the record of a run.
ghost use Rattle.std.specs.Prelude.{◌≡◌, ◌<◌, ◌≤◌, length, take, replicate, MatchOption};
ghost use Rattle.state.specs.Views.{view_of, goods_of, stage_of, walks_at, arrived_at, levels_at, is_proper, NoCarrier, Carrier};

use super::{Stage, State};
use crate::corner::{Corner, is_proper};

// The first levels of a corner.
fn levels_of(corner: &Corner, goods: usize) -> &[u32]
    requires { goods ≤ 8 }
    ensures levels { result.now ≡ take goods corner.now.levels }
    ensures size { length result.now ≡ goods }
{
    &corner.levels[..goods]
}

impl State {
    pub fn walks(&self) -> bool
        ensures { result ≡ walks_at (stage_of (goods_of self.now) self.now.stage) }
    {
        matches!(self.stage, Stage::Walking)
    }

    // The place of the dropped corner, where the run has arrived.
    pub fn arrived(&self) -> Option<usize>
        ensures { result ≡ arrived_at (stage_of (goods_of self.now) self.now.stage) }
    {
        if let Stage::Arrived(dropped) = self.stage {
            Some(dropped)
        } else {
            None
        }
    }

    // The levels of the corner at a place, zeros where there is no such place.
    pub fn levels_at(&self, place: usize) -> [u32; 8]
        ensures none { goods_of self.now < place → result ≡ replicate 8 0 }
        ensures levels { place ≤ goods_of self.now → take (goods_of self.now) result ≡ levels_at (view_of self.now) place }
    {
        if place > self.start.goods() {
            return [0u32; 8];
        }
        self.corners.records[place].levels
    }

    // The levels of the newest corner.
    pub fn newest_levels(&self) -> [u32; 8]
        ensures { take (goods_of self.now) result ≡ levels_at (view_of self.now) self.now.newest }
    {
        self.levels_at(self.newest)
    }

    // The same, borrowed from the record, as many as there are goods.
    pub fn newest_row(&self) -> &[u32]
        ensures levels { result.now ≡ levels_at (view_of self.now) self.now.newest }
        ensures size { length result.now ≡ goods_of self.now }
    {
        levels_of(&self.corners.records[self.newest], self.start.goods())
    }

    // The label is proper at the newest corner.
    pub fn is_proper(&self, label: u8) -> bool
        ensures { result ≡ is_proper (goods_of self.now) (levels_at (view_of self.now) self.now.newest) label }
    {
        is_proper(self.newest_row(), label)
    }

    // The place of a corner that carries the label, other than the one at a given place.
    pub fn carrier(&self, label: u8, except: usize) -> Option<usize>
        ensures { MatchOption result (NoCarrier (view_of self.now) label except) (λ i. Carrier (view_of self.now) label except i) }
    {
        (0..self.start.goods() + 1).find(|&i| i != except && self.corners.records[i].label == label)
    }
}
