// Price points of a mesh, and the refusals of the whole library.
#![tactic(auto)]

pub mod grid;
pub mod point;
pub mod pricing;
pub mod refusal;
