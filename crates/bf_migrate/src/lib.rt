//! Blocks go to where their proxies are.
//!
//! At a regrid [`outgoing`] turns the blocks of a rank into cargo: a kept block goes whole, a refined one as its eight
//! children, and of a merging one its eighth goes. [`assemble`] makes of the cargo for some proxies one block each. The
//! cells of a kept block are not copied. That no box comes or goes on the way is told by [`laws`].
#![tactic(auto)]

mod assembling;
mod giving;
pub mod laws;
mod targets;

pub use assembling::assemble;
pub use bf_block::{Block, Cargo, Memory};
pub use bf_proxy::Proxy;
pub use giving::outgoing;
