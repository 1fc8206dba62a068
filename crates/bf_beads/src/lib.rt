//! A small round program, by which the laws of round programs are shown to be met. It is no part of the product.
//!
//! Beads stand in a row, each with an owner among the ranks and links to the beads beside it. In each step of time those
//! who own beads beside each other tell each other of them, then each bead grows, and then every other bead goes to the
//! next member and the links follow. At each time the members have exactly the beads of that time, each once, with true
//! owners in the links, whatever ranks die.
#![tactic(auto)]

mod bead;
mod beads;
mod calls;
pub mod laws;
mod local;
mod message;
mod moving;
mod opening;
mod peers;
mod program;
mod setup;
mod stage;

pub use bead::{Bead, Link};
pub use bf_items::Items;
pub use local::BeadLocal;
pub use message::BeadMessage;
pub use opening::{filled, opened};
pub use program::Beads;
pub use setup::BeadSetup;
pub use stage::Stage;

#[cfg(test)]
mod tests;
