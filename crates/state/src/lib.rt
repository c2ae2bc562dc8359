// The record of a run: plain numbers and tables, and what a walk does to them.
#![tactic(auto)]

pub mod corner;
pub mod record;
pub mod table;
