//! The round of a regrid in which blocks go to where their proxies are, over any members, any owners of the leaves and any
//! owners of the leaves to come.
//!
//! Each rank makes cargo of all its blocks, sends each rank the cargo for its proxies, and makes of what stayed and of what
//! arrived one block for each proxy. The round leads from the model's blocks before the regrid of a time, at their owners, to
//! those after it, at their later owners.
//!
//! A rank program keeps its blocks, the cargo on its way out and the cargo that arrived. At a send it [`pack`]s blocks that are
//! left and [`take_for`] gives the message for a peer; at the end it [`pack`]s once more and [`unpack`]s.
#![tactic(auto)]

pub mod laws;
mod packing;
mod peers;
mod unpacking;

pub use packing::{pack, take_for};
pub use peers::{is_two_way, two_way};
pub use unpacking::unpack;

#[cfg(test)]
mod tests;
