//! The state machine of a run: which events are legal, what each changes, and how an epoch is decided.
#![tactic(auto)]

mod core_state;
mod decision;
mod event;
pub mod laws;
mod outcome;
mod place;
mod roll;
mod standing;

pub use core_state::CoreState;
pub use decision::Decision;
pub use event::{Event, How};
pub use outcome::Outcome;
pub use place::Place;
pub use standing::{Stage, Standing};
