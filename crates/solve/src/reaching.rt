// Stepping a run to its arrival.
ghost use Rattle.std.specs.Prelude.{◌≡◌, true, false, List};
ghost use Rattle.std.specs.ControlFlow.{MatchControlFlow};
ghost use Rattle.path.specs.Path.{Opening, Call};
ghost use Rattle.solve.specs.Reaching.{Reaches, is_move, ticket_in};
ghost use Rattle.walk.specs.Showing.{Came, SameBorrows};

use cells::Triangulation;
use labelling::Labelling;
use mesh::refusal::Refusal;
use std::ops::ControlFlow;
use walk::run::{Progress, Run, Ticket};

// After a step that moved the walk goes on. After any other it ends, with the ticket of an arrival.
fn after(answer: Result<Progress, Refusal>) -> ControlFlow<Option<Ticket>>
    ensures { MatchControlFlow result (λ _. is_move answer ≡ true) (λ ticket. (is_move answer ≡ false) × (ticket ≡ ticket_in answer)) }
{
    match answer {
        Ok(Progress::Moved) => ControlFlow::Continue(()),
        Ok(Progress::Arrived(ticket)) => ControlFlow::Break(Some(ticket)),
        _ => ControlFlow::Break(None),
    }
}

// Steps until the run arrives, and answers its ticket. It stops without one after the most steps, or where a step halts or is refused.
pub(crate) fn reach<T: Triangulation, L: Labelling>(
    run: &mut Run<T, L>,
    most: u32,
) -> Option<Ticket>
    ensures reaches { (o : Opening) (calls : List Call) → Came (T.meaning run.old.tri.now) (L.rule run.old.labels.now) o calls run.old.state → Reaches (T.meaning run.old.tri.now) (L.rule run.old.labels.now) o calls most result run.new.state }
    ensures borrows { SameBorrows run.old run.new }
{
    for made in 0..most {
        if let ControlFlow::Break(ticket) = after(run.step()) {
            return ticket;
        }
    }
    None
}
