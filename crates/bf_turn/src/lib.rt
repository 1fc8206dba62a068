//! A lock over a state that writes a log: threads take the state in turn, each by a seat of its own.
//!
//! A seat makes the calls of its parties. Whoever has the turn has the state with its name, with a log that begins with all
//! that the seat had seen, and that has of the seat's parties just the seat's own calls. Seats are split off one seat that has
//! all parties, and joined again; the seat that has them all closes the lock, and the state then has each seat's calls, each
//! once and in its order, and no others. Nothing is said of who is served when.
#![tactic(auto)]

pub mod diary;
mod held;
mod kept;
mod known;
mod logged;
mod plays;
mod seat;
mod turns;
mod view;

pub use held::{Grip, Held};
pub use kept::Kept;
pub use known::Known;
pub use logged::Logged;
pub use seat::Seat;
pub use turns::Turns;

#[cfg(test)]
mod tests;
