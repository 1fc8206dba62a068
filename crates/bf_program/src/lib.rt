//! What a round program is, with its laws, and the lockstep of its rounds.
#![tactic(auto)]

mod epoch;
mod kept;
pub mod laws;
mod measure;
mod program;

pub use epoch::{Epoch, target_of};
pub use kept::Kept;
pub use measure::Measure;
pub use program::RankProgram;
pub use std::alloc::AllocError as Memory;
