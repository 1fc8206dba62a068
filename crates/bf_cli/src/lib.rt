//! The top call: what is answered to words and an input.
//!
//! [`plain`] is the whole of it, over any source and sink: what it writes and why stands in its contract. Under it the
//! text is read as a case, one process or ranks on this thread run it, and the leaves are written with no further call for
//! memory.
#![tactic(auto)]

mod answer;
mod command;
mod input;
mod status;
mod top;

pub use status::{Ended, Status};
pub use top::plain;

#[cfg(test)]
mod tests;
