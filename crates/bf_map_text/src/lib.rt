//! The text of a map: each leaf in its order, and the last line.
//!
//! A leaf is the line with its id and a line for each row of its cells along x. Whatever has an id and cells is
//! written as a leaf, so that a run's blocks need no list of their own. A text goes to its sink in as few calls as
//! pages are filled, with no call for memory; where the sink fails, a front of it is written.
//!
//! [`write_map`] is what the program calls. [`write_leaf`] and [`write_end`] are its two pieces, for whoever has the leaves one
//! at a time.
#![tactic(auto)]

mod writer;

pub use writer::{write_end, write_leaf, write_map};
