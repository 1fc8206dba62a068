//! The plain run: one map at a time, stepped and regridded by one process, with no ranks and no
//! messages. Each call gives exactly what the model says.
//!
//! [`one_run`] is what the program calls. [`regridded`] and [`stepped`] are one move each, for whoever looks at a map between
//! two moves; they copy the map first, as the run doesn't.
#![tactic(auto)]

mod atlas;
mod beginning;
mod copies;
mod faces;
mod marks;
mod merging;
mod rebuild;
mod refining;
mod regridding;
mod run;
mod step;
mod targets;
#[cfg(test)]
mod tests;
mod walls;

pub use bf_edge::Memory;
pub use bf_map_text::{write_end, write_leaf};
pub use regridding::regridded;
pub use run::one_run;
pub use step::stepped;
