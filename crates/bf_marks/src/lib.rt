//! Marks of leaves: which of them a regrid refines, and which it merges.
//!
//! Each rank has the marks of its own leaves, and is told by others which flags the leaves have that are linked with its
//! own. In force rounds leaves are forced to be refined by refined ones that are one level finer; then, from the finest
//! level up, a round finds out which leaves of a level may merge, and another which octets of them do.
//!
//! What each call of [`Marks`] makes of the flags is a definition over lists of ids, and [`laws`] has what all rounds come
//! to: where one rank owns all leaves, what becomes of each is what the model says.
#![tactic(auto)]

mod flag;
mod flags;
mod has_links;
mod hints;
mod known;
pub mod laws;
mod marks;
mod rounds;
mod spread;
mod wishes;

pub use bf_block::Memory;
pub use bf_case::Target;
pub use flag::Flag;
pub use has_links::HasLinks;
pub use marks::Marks;
pub use spread::wish;
pub use wishes::Wish;

#[cfg(test)]
mod tests;
