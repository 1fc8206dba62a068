//! What blocks tell each other of the cells at their faces, across levels, and the shells that are filled with it.
//!
//! A [`Strip`] has what one block tells to another that shares a face with it: the cells on the face, or those on the part of it
//! that covers the face of a finer block, or means of cells for a coarser one. Where the strips of all leaves around a block are
//! laid, and its own cells at the domain's edge, the shell holds the samples beside its faces, so the block may be stepped. In
//! which order the strips come is no matter.
#![tactic(auto)]

mod filling;
pub mod laws;
mod strip;

pub use filling::{fill, mirror, step, surround};
pub use std::alloc::AllocError as Memory;
pub use strip::{Strip, strip_for, strip_to, sum_of};

#[cfg(test)]
mod tests;
