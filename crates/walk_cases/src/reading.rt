// Reading the parts of a case. A word that is no number reads as 0.
use input::decode;
use labelling::sheet::Sheet;
use market::market::Market;
use market::reader::read;
use mesh::refusal::Refusal;
use std::alloc::{AllocError, Global};
use std::str::FromStr;
use walk::play::Call;
use walk::run::Opening;

// How a run is opened, as a case says it.
#[derive(Drop)]
pub struct ParsedOpening {
    number: u16,
    goods: usize,
    mesh: u32,
    start: Vec<u32>,
}

impl ParsedOpening {
    pub(crate) fn opening(&self) -> Opening<'_> {
        Opening {
            number: self.number,
            goods: self.goods,
            mesh: self.mesh,
            start: self.start.as_slice(),
        }
    }
}

// A market: the bytes of its file.
pub fn read_market(digits: &str) -> Result<Market, Refusal> {
    let mut room = [0u8; 1024];
    read(decode(digits.as_bytes(), &mut room))
}

// A sheet: its labels, of which there is one more than its mesh.
pub fn read_sheet(digits: &str) -> Result<Sheet, Refusal> {
    let mut room = [0u8; 128];
    let labels = decode(digits.as_bytes(), &mut room);
    Sheet::new(labels.len().saturating_sub(1) as u32, labels)
}

// The number that a word says; 0 where there is no word, or it is no number.
fn number_in<N: FromStr + Default>(word: Option<&str>) -> N
where
    N::Err: Drop,
{
    word.unwrap_or("").parse::<N>().unwrap_or_default()
}

// Run number, goods, mesh, and the start prices.
pub fn read_opening(heap: Global, text: &str) -> Result<ParsedOpening, AllocError> {
    let mut words = text.split_whitespace();
    let number = number_in(words.next());
    let goods = number_in(words.next());
    let mesh = number_in(words.next());
    let start = words.map(|word| number_in(Some(word))).collect(heap)?;
    Ok(ParsedOpening {
        number,
        goods,
        mesh,
        start,
    })
}

// The ticket's run number and mesh, and the factor.
fn read_refining(text: &str) -> Call {
    let mut words = text.split('.');
    Call::Refine {
        number: number_in(words.next()),
        mesh: number_in(words.next()),
        factor: number_in(words.next()),
    }
}

// One call: s steps, l looks, f1 looks for label 1, r7.4.2 refines with the ticket of run 7 on mesh 4 by 2.
fn read_call(word: &str) -> Call {
    if let Some(label) = word.strip_prefix('f') {
        return Call::LookFor(number_in(Some(label)));
    }
    if let Some(text) = word.strip_prefix('r') {
        return read_refining(text);
    }
    if word == "l" { Call::Look } else { Call::Step }
}

pub fn read_calls(heap: Global, text: &str) -> Result<Vec<Call>, AllocError> {
    text.split_whitespace().map(read_call).collect(heap)
}
