//! The world of a run: its journal, and the messages on their way.
//!
//! The ranks' turns need the six calls, of which each is one event at most. `journal` and `restores` are for whoever looks
//! at a run that has ended, as tests do.
#![tactic(auto)]

mod answers;
mod journal;
pub mod laws;
pub mod losses;
mod queues;
pub mod snapshots;
mod steps;
mod world;

pub use answers::{Arrival, Got, Left};
pub use world::World;

#[cfg(test)]
mod tests;
