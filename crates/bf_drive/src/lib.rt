//! All ranks of a run on one thread, turn by turn, until each has come to its end.
//!
//! The journal is the one that comes of turns in a given order, and then of passes through all ranks in rising order.
#![tactic(auto)]

mod driver;
pub mod laws;
mod opening;

pub use driver::drive;
pub use opening::opened_ranks;
