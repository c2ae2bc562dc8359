// Plays the cases of standard input, one to a line, and prints what the opening and every call answer.
#![tactic(auto)]

use crate::printing::Shown;
use crate::reading::{read_calls, read_market, read_opening, read_sheet};
use cells::Triangulation;
use labelling::Labelling;
use mesh::refusal::Refusal;
use std::alloc::AllocError;
use std::io;
use todd::j1::J1;
use todd::k1::K1;
use walk::play::{Call, Played, play};
use walk::run::Opening;

mod printing;
mod reading;

// Why a case ended early: its labelling or its opening was refused, or it could not be read or printed.
#[derive(Debug, Drop)]
enum CaseError {
    Refused(Refusal),
    Io(io::Error),
}

impl From<Refusal> for CaseError {
    fn from(refusal: Refusal) -> CaseError {
        CaseError::Refused(refusal)
    }
}

impl From<io::Error> for CaseError {
    fn from(error: io::Error) -> CaseError {
        CaseError::Io(error)
    }
}

impl From<AllocError> for CaseError {
    fn from(error: AllocError) -> CaseError {
        CaseError::Io(io::Error::from(error))
    }
}

fn print_answer(rt: &HostRuntime, played: &Played) -> io::Result<()> {
    match &played.last {
        Ok(said) => println!(rt;
            "{}",
            Shown {
                goods: played.look.goods,
                value: said
            }
        ),
        Err(refusal) => println!(rt; "refused {}", refusal.number()),
    }
}

// Plays every front of the list of calls, so that each call's answer is seen, and prints it; at the end a last look.
fn play_case<T: Triangulation, L: Labelling>(
    rt: &HostRuntime,
    opening: Opening,
    calls: &[Call],
    tri: &T,
    labels: &L,
) -> Result<(), CaseError> {
    for n in 0..calls.len() {
        print_answer(rt, &play(opening, tri, labels, &calls[0..n])?)?;
    }
    let played = play(opening, tri, labels, calls)?;
    print_answer(rt, &played)?;
    println!(rt;
        "{}",
        Shown {
            goods: played.look.goods,
            value: &played.look
        }
    )?;
    Ok(())
}

// A case over a triangulation. A labelling that is not called a sheet is read as a market.
fn play_over<T: Triangulation>(
    rt: &HostRuntime,
    opening: Opening,
    calls: &[Call],
    tri: &T,
    labels: &str,
) -> Result<(), CaseError> {
    let (name, digits) = labels.split_once(' ').unwrap_or((labels, ""));
    if name == "sheet" {
        play_case(rt, opening, calls, tri, &read_sheet(digits)?)
    } else {
        play_case(rt, opening, calls, tri, &read_market(digits)?)
    }
}

// A line has four parts: the triangulation, the labelling, the opening, the calls. A part that is not there reads as empty.
fn play_line(rt: &HostRuntime, line: &str) -> Result<(), CaseError> {
    let mut parts = line.split('|');
    let name = parts.next().unwrap_or("").trim();
    let labels = parts.next().unwrap_or("").trim();
    let read = read_opening(rt.alloc(), parts.next().unwrap_or(""))?;
    let calls = read_calls(rt.alloc(), parts.next().unwrap_or(""))?;
    if name == "k1" {
        play_over(rt, read.opening(), calls.as_slice(), &K1, labels)
    } else {
        play_over(rt, read.opening(), calls.as_slice(), &J1, labels)
    }
}

fn main(rt: HostRuntime) -> io::Result<()> {
    let text = io::read_to_string(rt.alloc(), rt.stdin())?;
    let mut number = 0u32;
    for line in text.as_str().lines() {
        number = number.saturating_add(1);
        println!(rt; "case {number}")?;
        match play_line(&rt, line) {
            Ok(()) => {}
            Err(CaseError::Refused(refusal)) => println!(rt; "refused {}", refusal.number())?,
            Err(CaseError::Io(error)) => return Err(error),
        }
    }
    Ok(())
}
