//! Balancing among ranks by diffusion, for one rank.
//!
//! A rank's load is 1024 for each of its proxies. In a turn it moves load to or from each neighbor, and the sum of what
//! it moved is the flow between the two. By its flows it then hands over proxies, or asks its neighbors for some. All
//! numbers are whole, so both ends of a flow tell the same, and no call takes memory.
#![tactic(auto)]

mod ask;
pub mod laws;
mod quota;
mod turn;

pub use ask::pull_ask;
pub use quota::push_quota;
pub use turn::{Peer, flow_turn};

#[cfg(test)]
mod tests;
