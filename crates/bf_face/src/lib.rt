//! The six faces of a box. What lies beside a block, and the values round its cells, are told by them.
//!
//! A face's `number` is its place in the list of six, for those who tell a face in a text or a table.
#![tactic(auto)]

mod face;

pub use face::Face;
