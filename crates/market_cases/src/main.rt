// Reads many market files, a line of hexadecimal digits each, and prints what each of them says or its fault.
#![tactic(auto)]

use input::decode;
use lines::Letters;
use market::file::MarketFile;
use market::market::Market;
use mesh::refusal::Refusal;
use std::fmt;

// What a file says: its goods and their names, the sum of the weights, its traders, and what is owned.
#[derive(Clone, Copy)]
struct Said<'a> {
    file: &'a MarketFile<'a>,
    market: &'a Market,
}

impl<'a> fmt::Display for Said<'a> {
    fn fmt<W: fmt::Write>(&self, f: &mut fmt::Formatter<W>) -> fmt::Result {
        let market = self.market;
        write!(
            f,
            "goods {} sum {} traders {} owned",
            market.goods(),
            market.weight_sum(),
            market.traders()
        )?;
        for good in 1..=market.goods() {
            if let Ok(owned) = market.owned_in_all(good) {
                write!(f, " {owned}")?;
            }
        }
        write!(f, " names ")?;
        for good in 1..=market.goods() {
            if good > 1 {
                write!(f, "|")?;
            }
            if let Ok(name) = self.file.name(good) {
                write!(f, "{}", Letters(name))?;
            }
        }
        Ok(())
    }
}

// The line of a fault, made without memory.
fn print_fault(rt: &HostRuntime, refusal: Refusal) -> anyhow::Result<()> {
    let number = refusal.number();
    let place = refusal.carried().unwrap_or(0);
    println!(rt; "fault {number} at {place}")?;
    Ok(())
}

fn main(rt: HostRuntime) -> anyhow::Result<()> {
    for line in rt.lines(rt.alloc()) {
        let line = line?;
        let mut room = [0u8; 1024];
        let file = MarketFile::open(decode(line.as_bytes(), &mut room));
        match file.market() {
            Ok(market) => rt.println(Said {
                file: &file,
                market: &market,
            })?,
            Err(refusal) => print_fault(&rt, refusal)?,
        }
    }
    Ok(())
}
