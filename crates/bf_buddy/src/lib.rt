//! The members of a run, their buddies, and the first home whose part of a snapshot is lost.
//!
//! Members are ranks below 32, seen as a rising list. A home and its buddy hold the home's part; it is lost where both
//! are dead. Buddies and the first lost home are exact, and no call takes memory.
#![tactic(auto)]

pub mod laws;
mod losses;
mod members;

pub use losses::first_lost;
pub use members::Members;

#[cfg(test)]
mod tests;
