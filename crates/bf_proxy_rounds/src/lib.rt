//! The two rounds of a regrid in which ranks make the proxies of the leaves to come, over any members and any owners of the
//! leaves.
//!
//! A rank knows what becomes of its leaves and of those that touch them. In the round of homes it tells its neighbours, of
//! each of its merging leaves, the rank that has the first of the octet, where the octet's proxy is made. Then it makes the
//! proxies that come of its leaves, with links to those that come of linked leaves. In the round of siblings it tells the
//! outer links of its other merging leaves to the ranks that have the first ones, so that each proxy is linked with all that
//! touch it.
//!
//! A rank plays the round of homes by [`own_homes`], [`hear_homes`] and [`make_all`], and that of siblings by [`outer_told`] and
//! [`gather_all`]. [`own_targets`] are then the proxies into which its leaves go. [`laws`] has what the rounds lead to.
#![tactic(auto)]

mod gathering;
mod going;
mod homes;
pub mod laws;
mod making;
mod near;
mod outer;
mod targets;
mod telling;

pub use bf_links::{Link, Memory};
pub use gathering::gather_all;
pub use homes::own_homes;
pub use making::make_all;
pub use outer::Outer;
pub use targets::own_targets;
pub use telling::outer_told;
