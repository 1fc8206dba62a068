//! The text of a case, as people write it: read exactly, and written in its one canonical form.
//!
//! [`read_case`] gives the case that the bytes spell, or the first line that is at fault with the
//! cause that comes first there; both are what one definition says of the bytes. [`write_case`]
//! writes the canonical text, which is read back as the same case; the program has no command that writes
//! one, so it is for tools that make cases.
#![tactic(auto)]

mod code;
mod draft;
mod form;
mod head;
pub mod laws;
mod lines;
mod numbers;
mod outline;
mod reader;
#[cfg(test)]
mod tests;
mod writer;

pub use bf_edge::Memory;
pub use code::{CaseFault, Code, Refusal};
pub use reader::{INPUT_LIMIT, read_case};
pub use writer::write_case;
