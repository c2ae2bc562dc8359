// Reads a market file, and prints its goods, its traders, and a line for each price point of mesh 4.
#![tactic(auto)]

use input::fill;
use lines::{LineError, fault_line, good_line, point_line, traders_line};
use market::file::MarketFile;
use market::market::Market;
use mesh::grid::Grid;
use mesh::point::PricePoint;
use std::alloc::Global;
use std::{io, iter};

// How much of the input is read: more than the largest market file has.
const MOST_BYTES: usize = 1024;

// The mesh of the printed price points.
const MESH: u32 = 4;

// Eight goods have 330 price points of that mesh, fewer goods have fewer.
const MOST_POINTS: usize = 330;

// The line of one good.
fn good_of(
    heap: Global,
    file: &MarketFile,
    market: &Market,
    good: usize,
) -> Result<String, LineError> {
    let name = file.name(good)?;
    let owned = market.owned_in_all(good)?;
    Ok(good_line(heap, good, name, owned)?)
}

// A line for each good, and one for the traders.
fn print_head(rt: &HostRuntime, file: &MarketFile, market: &Market) -> io::Result<()> {
    for good in 1..=market.goods() {
        rt.println(good_of(rt.alloc(), file, market, good)?)?;
    }
    rt.println(traders_line(rt.alloc(), market.traders(), market.weight_sum())?)
}

// The whole mesh on good 1.
fn first_point(market: &Market) -> Result<PricePoint, LineError> {
    Ok(PricePoint::first(Grid::new(market.goods(), MESH)?))
}

// A line for each price point.
fn print_points(rt: &HostRuntime, market: &Market) -> io::Result<()> {
    let first = first_point(market)?;
    for point in iter::successors(Some(first), |point| point.next()).take(MOST_POINTS) {
        rt.println(point_line(rt.alloc(), market, &point)?)?;
    }
    Ok(())
}

fn main(rt: HostRuntime) -> io::Result<()> {
    let mut bytes = [0u8; MOST_BYTES];
    let len = fill(&mut rt.stdin(), &mut bytes)?;
    let file = MarketFile::open(&bytes[..len]);
    match file.market() {
        Ok(market) => {
            print_head(&rt, &file, &market)?;
            print_points(&rt, &market)
        }
        Err(refusal) => rt.println(fault_line(rt.alloc(), refusal)?),
    }
}
