//! One rank of a run: its local, and its turns on a world.
#![tactic(auto)]

mod giving;
pub mod laws;
mod leaving;
mod rank;
mod receiving;
mod rounds;
mod stand;
mod steps;

pub use rank::Rank;
pub use stand::{Stand, Turn};
