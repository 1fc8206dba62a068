//! Links between leaves: to a leaf, the leaves that touch it, at a corner or along an edge too, each with the rank
//! that owns it.
//!
//! [`Links::build`] finds exactly the touching ones of some leaves, and [`Links::of_root`] those of a root among all
//! roots by place, without looking at each. In a balanced tiling they are at most 56, and two leaves are linked both
//! ways: [`laws`] has these facts.
#![tactic(auto)]

pub mod laws;
mod link;
mod links;
mod roots;

pub use bf_program::Memory;
pub use link::Link;
pub use links::Links;

#[cfg(test)]
mod tests;
