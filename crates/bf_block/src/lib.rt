//! Blocks whose cells are the model's, and the setup of a run.
//!
//! A [`Block`] comes only of an [`Opening`], of a regrid that kept, refined or merged leaves, of a step, or of a copy, so
//! its cells are always those that the model has of its id at its point. What a merging leaf gives to its parent is an
//! [`Eighth`], with means of the model's cells alone.
//!
//! Some calls are made by tests alone as yet: `Setup::{levels, regrid, refine, coarsen, flow, turns}`, `Block::{point, split, eighth,
//! merged}` and `Eighth::{id, sum}`. They are for the ranks, which regrid by them, balance by them, and read what they send, as
//! they will send each [`Cargo`].
#![tactic(auto)]

mod block;
mod cargo;
mod eighth;
mod kept;
pub mod laws;
mod merging;
mod opening;
mod point;
mod setup;
mod shared_case;

pub use block::Block;
pub use cargo::Cargo;
pub use eighth::Eighth;
pub use kept::Kept;
pub use opening::Opening;
pub use point::Point;
pub use setup::Setup;
pub use std::alloc::AllocError as Memory;

#[cfg(test)]
mod tests;
