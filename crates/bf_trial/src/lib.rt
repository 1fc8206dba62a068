//! The program of beads driven on a world, by which worlds, ranks and their turns are tried out. It is no part of the product.
#![tactic(auto)]

mod trial;

pub use trial::run;

#[cfg(test)]
mod tests;
