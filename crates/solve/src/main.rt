// Reads a market file and walks to a clearing cell, on mesh 4, 8 and 16.
#![tactic(auto)]

use cells::Triangulation;
use input::fill;
use labelling::Labelling;
use lines::{LineError, arrival_line, fault_line, open_line};
use market::file::MarketFile;
use market::market::Market;
use reaching::reach;
use std::alloc::Global;
use std::io;
use tables::table_of;
use todd::k1::K1;
use walk::run::{Opening, Run, Ticket};

mod reaching;

// How much of the input is read: more than the largest market file has.
const MOST_BYTES: usize = 1024;

// The first mesh.
const MESH: u32 = 4;

// How often it is made finer, and by which factor.
const REFININGS: usize = 2;

const FACTOR: u32 = 2;

// How many steps are taken on a mesh at most.
const MOST_STEPS: u32 = 1_000_000;

// The line of an arrival: the mesh, the cells on it, the prices of the corners labelled 1 to the number of goods.
fn arrived_line<T: Triangulation, L: Labelling>(
    heap: Global,
    run: &Run<T, L>,
) -> Result<String, LineError> {
    let look = run.look();
    let mut table = [[0u32; 8]; 8];
    let corners = &mut table[..look.goods.min(8)];
    for (corner, label) in corners.iter_mut().zip(1..) {
        *corner = run.look_for(label)?;
    }
    Ok(arrival_line(heap, look.mesh, look.count, look.goods, corners)?)
}

// Walks on one mesh, prints its line, and answers the ticket of an arrival.
fn walk_mesh<T: Triangulation, L: Labelling>(
    rt: &HostRuntime,
    run: &mut Run<T, L>,
) -> io::Result<Option<Ticket>> {
    let ticket = reach(run, MOST_STEPS);
    rt.println(match ticket {
        Some(_) => arrived_line(rt.alloc(), run)?,
        None => open_line(rt.alloc(), run.look().mesh)?,
    })?;
    Ok(ticket)
}

// Makes the mesh finer, from the arrival that the ticket is of.
fn finer<T: Triangulation, L: Labelling>(
    run: &mut Run<T, L>,
    ticket: Ticket,
) -> Result<(), LineError> {
    Ok(run.refine(ticket, FACTOR).map_err(|(refusal, _)| refusal)?)
}

// Opens a run that begins with the whole mesh on good 1.
fn open_run<'a>(tri: &'a K1, market: &'a Market) -> Result<Run<'a, K1, Market>, LineError> {
    let start: [u32; 8] = table_of(&[MESH], 0);
    let goods = market.goods();
    let opening = Opening {
        number: 0,
        goods,
        mesh: MESH,
        start: &start[0..goods],
    };
    Ok(Run::open(opening, tri, market)?)
}

// Walks on each mesh in turn, as long as the walks arrive.
fn print_walk<'a>(rt: &HostRuntime, tri: &'a K1, market: &'a Market) -> io::Result<()> {
    let mut run = open_run(tri, market)?;
    let mut held = walk_mesh(rt, &mut run)?;
    for _ in 0..REFININGS {
        let Some(ticket) = held else {
            return Ok(());
        };
        finer(&mut run, ticket)?;
        held = walk_mesh(rt, &mut run)?;
    }
    Ok(())
}

fn main(rt: HostRuntime) -> io::Result<()> {
    let mut bytes = [0u8; MOST_BYTES];
    let len = fill(&mut rt.stdin(), &mut bytes)?;
    let file = MarketFile::open(&bytes[..len]);
    match file.market() {
        Ok(market) => print_walk(&rt, &K1, &market),
        Err(refusal) => rt.println(fault_line(rt.alloc(), refusal)?),
    }
}
