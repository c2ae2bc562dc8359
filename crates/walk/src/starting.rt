// Where a run begins, and the labels of corners.
ghost use Rattle.std.specs.Prelude.{◌≡◌, suc, ◌<◌, Ok};
ghost use Rattle.mesh.specs.Points.{goods_of, mesh_of, prices_of};
ghost use Rattle.mesh.specs.Refusals.{answered, insist};
ghost use Rattle.cells.specs.Corners.{Corner};
ghost use Rattle.path.specs.Legs.{label};
ghost use Rattle.state.specs.Views.{view_of};
ghost use Rattle.walk.specs.Records.{fresh};

use cells::Triangulation;
use cells::outer::outer_label;
use labelling::Labelling;
use mesh::point::PricePoint;
use mesh::refusal::Refusal;
use state::record::State;

// The record of a run that begins at a point, after so many cells on other meshes. Refuses a point that is not admitted.
pub(crate) fn stand<T: Triangulation>(
    tri: &T,
    number: u16,
    before: u64,
    point: PricePoint,
) -> Result<State, Refusal>
    ensures { let M = T.meaning tri.now (goods_of point) (mesh_of point) in before < 18446744073709551615 → answered view_of result ≡ insist (M.admitted (prices_of point)) 4 (Ok (fresh M number (suc before) (prices_of point))) }
{
    let cell = tri.start(&point)?;
    let grid = point.grid();
    let mut state = State::begin(number, before, point, cell);
    for i in 0..=grid.goods() {
        let levels = tri.corner(grid, &cell, i)?;
        state.place(i, &levels);
    }
    Ok(state)
}

// The label of a corner for a start point: its outer label, or the labelling's where it is real.
pub(crate) fn label_of<L: Labelling>(labels: &L, start: &PricePoint, levels: &[u32]) -> u8
    ensures { Corner (goods_of start.now) (mesh_of start.now) levels.now → result ≡ label (goods_of start.now) (mesh_of start.now) (L.rule labels.now) (prices_of start.now) levels.now }
{
    match PricePoint::at_levels(start.goods(), start.mesh(), levels) {
        Ok(point) => labels.label(&point),
        Err(_) => outer_label(start, levels),
    }
}
