// A run, and what its calls answer.
ghost use Rattle.std.specs.Prelude.{◌≡◌};

use cells::Triangulation;
use labelling::Labelling;
use state::corner::Corner;
use state::record::{Halt, Stage, State};

mod beginning;
mod looking;
mod refining;
mod stepping;

// A run over a triangulation and a labelling, which it borrows. Nothing but its own calls reaches its record.
#[derive(Drop)]
pub struct Run<'a, T: Triangulation, L: Labelling> {
    tri: &'a T,
    labels: &'a L,
    state: State,
}

// How a run is opened: its number, the goods, the mesh, and the prices of the start point.
#[derive(Clone, Copy)]
pub struct Opening<'s> {
    pub number: u16,
    pub goods: usize,
    pub mesh: u32,
    pub start: &'s [u32],
}

// What an arrival answers, and refining takes: the number of the run and the mesh. It can be neither copied nor made by others.
#[derive(Drop)]
pub struct Ticket {
    number: u16,
    mesh: u32,
}

// What a granted step did: it moved; it arrived, with a ticket; it halted.
#[derive(Drop)]
pub enum Progress {
    Moved,
    Arrived(Ticket),
    Halted(Halt),
}

// What a look shows. Of the corners the first ones count, as many as there are goods and one more.
#[derive(Clone, Copy)]
pub struct Look {
    pub stage: Stage,
    pub goods: usize,
    pub mesh: u32,
    pub count: u64,
    pub total: u64,
    pub corners: [Corner; 9],
}

impl Ticket {
    // The ticket of a call that names it by its numbers.
    pub(crate) fn of(number: u16, mesh: u32) -> Ticket
        ensures { (result.number ≡ number) × (result.mesh ≡ mesh) }
    {
        Ticket { number, mesh }
    }

    // The run number and the mesh on it.
    pub fn number(&self) -> u16
        ensures { result ≡ self.now.number }
    {
        self.number
    }

    pub fn mesh(&self) -> u32
        ensures { result ≡ self.now.mesh }
    {
        self.mesh
    }
}
