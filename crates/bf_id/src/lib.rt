//! Identifiers of the blocks of a forest of octrees.
//!
//! The domain is a box of cubic roots, 1 to 16 along each axis, and a root's edge is 16 units. A
//! block is a root, or one of the eight equal cubes into which a block is cut, down to four levels
//! below its root. An `Id` names it by its root and by an octant for each level, and no two blocks
//! have the same name or the same text.
//!
//! From its id come a block's parent and children, its box, whether it touches another block, and
//! the face that it shares with it. A box is a [`Cube`] of units, which knows the units beside it
//! and across its faces; each step to a neighbour goes by [`Axis`]. The order of ids is the walk
//! through the octrees: a block, and then all that lies in it, octant by octant.
//!
//! `touches` and the laws on the order are for the layers that link blocks with their neighbours and
//! keep them in order; the plain run has no need of them.
#![tactic(auto)]

mod axis;
mod cube;
mod id;
mod id_text;
pub mod laws;
mod order;
mod parse;
mod shape;
mod voxel;

pub use axis::Axis;
pub use bf_face::Face;
pub use cube::Cube;
pub use id::Id;
pub use id_text::IdText;
pub use order::{a_child_has_one_parent, order_is_the_walk, order_is_total, texts_differ};
pub use shape::Shape;
pub use voxel::Voxel;

#[cfg(test)]
mod tests;
