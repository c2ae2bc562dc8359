// The text of the printed lines, each without its line feed.
#![tactic(auto)]

mod errors;
mod heads;
mod points;
mod spaced;
mod walks;

pub use errors::LineError;
pub use heads::{Letters, fault_line, good_line, traders_line};
pub use points::point_line;
pub use walks::{arrival_line, open_line};
