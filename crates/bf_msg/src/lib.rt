//! What ranks of the forest send each other: strips in a step's round, their parts of the new snapshot in its round, and ids
//! of leaves in the rounds that agree on what is refined and what merges.
//!
//! A part is of linked blocks, each a block with its links: that is what ranks own, send and keep. A message is measured by the
//! blocks that it has whole and by the sum of its values; a strip is no block, but its values count in the sum, and ids count
//! in neither.
#![tactic(auto)]

mod linked_block;
mod message;

pub use linked_block::{LinkedBlock, copies};
pub use message::Message;
