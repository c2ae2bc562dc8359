// The walk: opening a run, stepping, looking, refining. One text for every triangulation and every labelling.
#![tactic(auto)]

pub mod play;
pub mod run;
mod starting;
