//! The two sides of a rank's snapshots: the active one, which is agreed, and the spare one, which is being made.
//!
//! A snapshot's round writes the spare side alone, and only `swap` makes of it the active one. So until all have agreed a
//! restore goes back to the snapshot agreed before, however far the new one has come, and after the swap to the new one.
//! No call lends a side to be written.
#![tactic(auto)]

mod buffers;
pub mod laws;

pub use buffers::Buffers;

#[cfg(test)]
mod tests;
