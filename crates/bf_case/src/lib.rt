//! Cases, and the model of a simulation: which map it has at each time.
//!
//! The model is a definition. It has one map of leaves for each time and knows of no ranks and no
//! messages. [`laws`] has what is proved of maps, and [`rows`] has small cases whose maps are
//! written out.
//!
//! All of it is about valid cases. [`Case::valid`] is for whoever makes a case of numbers, and
//! tests it once; a case that was read from a text is valid, by the law of its reader.
#![tactic(auto)]

mod case;
mod filling;
mod halves;
pub mod laws;
mod leaf;
mod map;
mod neighbours;
pub mod rows;
mod target;
mod validity;

pub use bf_items::Items;
pub use case::{CELL_LIMIT, Case, Fill};
pub use filling::{fill_root, filled_root};
pub use halves::halves_along;
pub use leaf::AsLeaf;
pub use map::Map;
pub use neighbours::{RootCells, surround};
pub use target::Target;
pub use validity::cells_of;
