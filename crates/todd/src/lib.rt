// Todd's triangulations K1 and J1.
#![tactic(auto)]

pub mod j1;
pub mod k1;
mod member;
mod start;
mod steps;

pub use todd_laws::lawful;
