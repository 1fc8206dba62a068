//! The cells of a block: a cube of whole numbers, the six squares of values that surround it, and one step of it.
//!
//! The kernel is the stencil exactly: each new cell is the mean of the old one, which counts twice, and its six
//! neighbours, rounded down. It takes no memory, and walks rows.
#![tactic(auto)]

mod cells;
mod cubes;
mod extremes;
mod faces;
mod levels;
mod means;
mod octants;
mod pieces;
mod places;
mod planes;
mod quarters;
mod rows;
mod shell;
mod squares;

pub use cells::Cells;
pub use shell::Shell;
pub use std::alloc::AllocError as Memory;

#[cfg(test)]
mod tests;
