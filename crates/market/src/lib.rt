// Markets: what traders own and how they weigh the goods, and the market file that says it.
#![tactic(auto)]

pub mod field;
pub mod file;
pub mod market;
pub mod reader;
mod rows;
