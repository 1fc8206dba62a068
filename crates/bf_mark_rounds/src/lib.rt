//! The rounds in which ranks mark the leaves of a map, over any members and any owners of the leaves.
//!
//! In a force round each rank tells its neighbours which of its leaves beside theirs are refined; in the rounds of a level,
//! which of its leaves of that level may merge, and which do. Each round leads from what the ranks have to be before it to
//! what they have to be after it, so that the ranks together find what one that owns all leaves would find.
//!
//! A rank plays a round by calls on its marks: it asks [`is_peer`] whom it tells, sends each [`force_told`] or [`level_told`],
//! takes what it was sent by [`hear_all`], and ends the round. Most rounds end by one call of [`bf_marks::Marks`], and the
//! others by [`end_last_force_round`] and [`end_merges_round`]. What each call gives is what the round's play says, of
//! which [`laws`] speaks.
#![tactic(auto)]

mod ends;
pub mod laws;
mod telling;

pub use ends::{end_last_force_round, end_merges_round};
pub use telling::{force_told, hear_all, is_peer, level_told};

#[cfg(test)]
mod tests;
