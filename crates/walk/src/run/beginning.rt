// Opening a run.
ghost use Rattle.std.specs.Prelude.{◌≡◌, [], IfOk};
ghost use Rattle.mesh.specs.Refusals.{answered};
ghost use Rattle.path.specs.Claim.{Claim};
ghost use Rattle.state.specs.Views.{view_of};
ghost use Rattle.walk.specs.Showing.{Came, opened, opening_of, opening as opening_path};

use super::{Opening, Run};
use crate::starting::stand;
use cells::Triangulation;
use labelling::Labelling;
use mesh::point::PricePoint;
use mesh::refusal::Refusal;

impl<'a, T: Triangulation, L: Labelling> Run<'a, T, L> {
    // Opens a run at a start point. Refuses goods, mesh and prices as a price point does, then a start that is not admitted.
    pub fn open(opening: Opening, tri: &'a T, labels: &'a L) -> Result<Run<'a, T, L>, Refusal>
        ensures answer { answered (λ run. view_of run.state) result ≡ opened (T.meaning tri.now) (L.rule labels.now) (opening_of opening.entry) }
        ensures came { IfOk result (λ run. Came (T.meaning tri.now) (L.rule labels.now) (opening_of opening.entry) [] run.state) }
        ensures claim { IfOk result (λ run. Claim (T.meaning tri.now) (L.rule labels.now) (opening_of opening.entry) (opening_path (T.meaning tri.now) (L.rule labels.now) (opening_of opening.entry))) }
        ensures borrows { IfOk result (λ run. (run.tri.now ≡ tri.now) × (run.labels.now ≡ labels.now)) }
    {
        let point = PricePoint::new(opening.goods, opening.mesh, opening.start)?;
        let state = stand(tri, opening.number, 0, point)?;
        Ok(Run { tri, labels, state })
    }
}
