// Refining.
ghost use Rattle.std.specs.Prelude.{◌≡◌};
ghost use Rattle.mesh.specs.Refusals.{answered};
ghost use Rattle.path.specs.Path.{refine};
ghost use Rattle.state.specs.Views.{view_of};
ghost use Rattle.walk.specs.Answers.{refined, made_finer, after, HandedBack};
ghost use Rattle.walk.specs.Records.{accepting, finer_mesh};
ghost use Rattle.walk.specs.Showing.{Makes, SameBorrows};

use super::{Run, Ticket};
use crate::starting::stand;
use cells::Triangulation;
use labelling::Labelling;
use mesh::grid::finest;
use mesh::point::PricePoint;
use mesh::refusal::Refusal;
use state::corner::scaled;
use state::record::State;

// So many times the mesh. Refuses a factor outside 2 to 64, then a mesh above the finest.
fn finer_mesh(goods: usize, mesh: u32, factor: u32) -> Result<u32, Refusal>
    ensures { answered (λ m. m) result ≡ finer_mesh goods mesh factor }
{
    if !(2..=64).contains(&factor) {
        return Err(Refusal::FactorOutOfRange);
    }
    let finer = u64::from(factor) * u64::from(mesh);
    if finer > u64::from(finest(goods)) {
        return Err(Refusal::FinerThanFinest);
    }
    Ok(finer as u32)
}

impl<'a, T: Triangulation, L: Labelling> Run<'a, T, L> {
    // Begins again on a mesh finer by a factor, from the arrived corner with label 1. Takes the ticket of the arrival, and hands it back where it refuses: a
    // run that has not arrived or another's ticket, then a factor outside 2 to 64, then a mesh above the finest, then a start that is not admitted.
    pub fn refine(&mut self, ticket: Ticket, factor: u32) -> Result<(), (Refusal, Ticket)>
        ensures goes { Makes T.meaning L.rule self.old (refine ticket.number ticket.mesh factor) (refined result) self.new.state }
        ensures back { HandedBack ticket self.old.state result self.new.state }
        ensures borrows { SameBorrows self.old self.new }
    {
        match self.finer(&ticket, factor) {
            Ok(state) => {
                self.state = state;
                Ok(())
            }
            Err(refusal) => Err((refusal, ticket)),
        }
    }

    // The record of the run as it begins on the finer mesh.
    fn finer(&self, ticket: &Ticket, factor: u32) -> Result<State, Refusal>
        ensures { Makes T.meaning L.rule self.now (refine ticket.now.number ticket.now.mesh factor) (made_finer result) (after self.now.state result) }
    {
        let dropped = self.accept(ticket)?;
        let goods = self.state.start.goods();
        let mesh = finer_mesh(goods, self.state.start.mesh(), factor)?;
        let prices = self.kept(1, dropped)?;
        let start = scaled(&prices, factor);
        let point = PricePoint::new(goods, mesh, &start[0..goods])?;
        stand(self.tri, self.state.number, self.state.total, point)
    }

    // The place that was dropped at the arrival, if the ticket is of this arrival.
    fn accept(&self, ticket: &Ticket) -> Result<usize, Refusal>
        ensures { answered (λ d. d) result ≡ accepting (view_of self.now.state) ticket.now.number ticket.now.mesh }
    {
        let dropped = self.state.arrived().ok_or(Refusal::TicketNotAccepted)?;
        if ticket.number != self.state.number || ticket.mesh != self.state.start.mesh() {
            return Err(Refusal::TicketNotAccepted);
        }
        Ok(dropped)
    }
}
