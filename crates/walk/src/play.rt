// Playing a list of calls.
ghost use Rattle.std.specs.Prelude.{◌≡◌, ℕ, Ok, map, reverse};
ghost use Rattle.state.specs.Views.{goods_of};
ghost use Rattle.walk.specs.Answers.{stepped};
ghost use Rattle.walk.specs.Playing.{call_of, said_of, PlayAnswer};
ghost use Rattle.walk.specs.Showing.{opening_of, Makes, SameBorrows};

use crate::run::{Look, Opening, Progress, Run, Ticket};
use cells::Triangulation;
use labelling::Labelling;
use mesh::refusal::Refusal;
use state::record::Halt;

// A call on a run. Refining names its ticket by the run number and the mesh on it.
#[derive(Clone, Copy)]
pub enum Call {
    Step,
    Look,
    LookFor(usize),
    Refine { number: u16, mesh: u32, factor: u32 },
}

// What a granted call answered: the run began; the step moved; it arrived, with the run number and the mesh of the ticket; it halted; what a look shows; the prices that were looked for.
#[derive(Clone, Copy)]
pub enum Said {
    Began,
    Moved,
    Arrived { number: u16, mesh: u32 },
    Halted(Halt),
    Seen(Look),
    Found([u32; 8]),
}

// What the last call answered (the opening, where there was no call), and what a look shows after it.
#[derive(Clone, Copy)]
pub struct Played {
    pub last: Result<Said, Refusal>,
    pub look: Look,
}

impl From<Progress> for Said {
    ghost from_gives = { λ progress said. (g : ℕ) → said_of g (Ok said) ≡ stepped g (Ok progress) };

    fn from(progress: Progress) -> Said {
        match progress {
            Progress::Moved => Said::Moved,
            Progress::Arrived(ticket) => Said::Arrived {
                number: ticket.number(),
                mesh: ticket.mesh(),
            },
            Progress::Halted(halt) => Said::Halted(halt),
        }
    }
}

// One call, with its arguments.
fn make<T: Triangulation, L: Labelling>(run: &mut Run<T, L>, call: Call) -> Result<Said, Refusal>
    ensures goes { Makes T.meaning L.rule run.old (call_of call) (said_of (goods_of run.old.state) result) run.new.state }
    ensures borrows { SameBorrows run.old run.new }
{
    match call {
        Call::Step => Ok(Said::from(run.step()?)),
        Call::Look => Ok(Said::Seen(run.look())),
        Call::LookFor(label) => Ok(Said::Found(run.look_for(label)?)),
        Call::Refine {
            number,
            mesh,
            factor,
        } => {
            match run.refine(Ticket::of(number, mesh), factor) {
                Ok(()) => Ok(Said::Began),
                Err((refusal, _)) => Err(refusal),
            }
        }
    }
}

// Opens a run, makes the calls one after the other, whatever they answer, and answers the last answer and a last look. Refuses only where opening does.
pub fn play<'a, T: Triangulation, L: Labelling>(
    opening: Opening,
    tri: &'a T,
    labels: &'a L,
    calls: &[Call],
) -> Result<Played, Refusal>
    ensures { PlayAnswer (T.meaning tri.now) (L.rule labels.now) (opening_of opening.entry) (reverse (map call_of calls.now)) result }
{
    let mut run = Run::open(opening, tri, labels)?;
    let mut last = Ok(Said::Began);
    for call in calls {
        last = make(&mut run, *call);
    }
    let look = run.look();
    Ok(Played { last, look })
}
