//! Proxies: light stand-ins for the leaves that a regrid is about to make. A proxy has no cells. It names the leaves of
//! which it comes, and its links name the proxies that touch it, all with the ranks that own them.
//!
//! [`make`] makes the proxies that come of one leaf, and [`gather`] completes the links of one that merges, which are the
//! outer links of all eight siblings. Over a balanced map the proxies of all leaves are the new leaves, linked with exactly
//! those that touch: [`laws`] has these facts.
#![tactic(auto)]

mod gathering;
mod joining;
pub mod laws;
mod making;
mod proxy;
mod sources;

pub use bf_case::Target;
pub use bf_links::{Link, Links, Memory};
pub use gathering::gather;
pub use joining::join;
pub use making::make;
pub use proxy::Proxy;
pub use sources::Sources;
