// Looking.
ghost use Rattle.std.specs.Prelude.{◌≡◌, MatchResult};
ghost use Rattle.path.specs.Path.{look, look_for, sight};
ghost use Rattle.state.specs.Views.{view_of, goods_of, sight_of, NoCarrier};
ghost use Rattle.walk.specs.Answers.{looked, found};
ghost use Rattle.walk.specs.Records.{PricesOf};
ghost use Rattle.walk.specs.Showing.{Makes};

use super::{Look, Run};
use cells::Triangulation;
use labelling::Labelling;
use mesh::pricing::to_prices;
use mesh::refusal::Refusal;

impl<'a, T: Triangulation, L: Labelling> Run<'a, T, L> {
    // All that a look shows.
    pub fn look(&self) -> Look
        ensures sight { looked result ≡ sight_of self.now.state }
        ensures goes { Makes T.meaning L.rule self.now look (sight (looked result)) self.now.state }
    {
        Look {
            stage: self.state.stage,
            goods: self.state.start.goods(),
            mesh: self.state.start.mesh(),
            count: self.state.count,
            total: self.state.total,
            corners: self.state.corners.records,
        }
    }

    // The prices of the arrived corner with a label. Refuses a run that has not arrived, then anything but a good.
    pub fn look_for(&self, label: usize) -> Result<[u32; 8], Refusal>
        ensures goes { Makes T.meaning L.rule self.now (look_for label) (found (goods_of self.now.state) result) self.now.state }
    {
        let dropped = self.state.arrived().ok_or(Refusal::NotArrived)?;
        if !(1..=self.state.start.goods()).contains(&label) {
            return Err(Refusal::NoSuchGood);
        }
        self.kept(label as u8, dropped)
    }

    // The prices of a corner with a label, other than the dropped one. Refuses where there is none.
    pub(crate) fn kept(&self, label: u8, dropped: usize) -> Result<[u32; 8], Refusal>
        ensures { MatchResult result (λ x. PricesOf (view_of self.now.state) label dropped x) (λ e. NoCarrier (view_of self.now.state) label dropped) }
    {
        let carrier = self.state.carrier(label, dropped);
        let place = carrier.ok_or(Refusal::WayBlocked)?;
        let levels = self.state.levels_at(place);
        let goods = self.state.start.goods();
        Ok(to_prices(&levels[0..goods]))
    }
}
