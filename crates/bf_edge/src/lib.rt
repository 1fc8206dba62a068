//! Where the program meets the outside: what it reads from and what it writes to.
//!
//! A `Source` gives bytes and a `Sink` takes them. Each keeps a count of its own failures, which no
//! caller can raise, so an error that is handed on always has a cause outside the program. The forms
//! in memory tell their bytes and fail exactly where they are told to. The forms over std's readers
//! and writers tell no bytes, since nothing can be proved of a real file; they only count.
#![tactic(auto)]

mod counts;
mod mem_sink;
mod mem_source;
mod page;
mod sheet;
mod sink;
mod source;
mod standard;
#[cfg(test)]
mod tests;

pub use counts::Failed;
pub use mem_sink::MemSink;
pub use mem_source::MemSource;
pub use page::PAGE_SIZE;
pub use sheet::{Sheet, finish, print, print_number, print_numbers};
pub use sink::{Sink, write_all};
pub use source::{ReadEnd, Source, read_up_to};
pub use standard::{StdSink, StdSource};
pub use std::alloc::AllocError as Memory;
