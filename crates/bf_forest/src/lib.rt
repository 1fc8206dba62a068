//! The rank program of the block forest.
//!
//! Its ranks own the blocks, each with links to the leaves that touch it and their owners. In a step's round neighbours, which own
//! leaves that touch, tell each other's blocks what lies beside them, and all blocks are stepped; at the end of an epoch they make
//! a snapshot, which each keeps for itself and for the member whose buddy it is. All that can differ between two runs at the same
//! point is who owns what.
#![tactic(auto)]

mod calls;
pub mod laws;
mod local;
mod opening;
mod peers;
mod program;
mod setup;
mod stage;
mod start;
mod step;
mod strips;

pub use local::ForestLocal;
pub use opening::load;
pub use program::Forest;
pub use setup::Setup;
pub use stage::Stage;
pub use start::laid;

#[cfg(test)]
mod tests;
