//! Reading a case.
ghost use Rattle.std.specs.Prelude.{◌≤◌, length};
ghost use Rattle.bf_text.specs.Lines.{lines_of};
ghost use Rattle.bf_text.specs.Reading.{input_limit, reading, reading_of_lines, IsReadingOf};

use crate::code::{CaseFault, Code};
use crate::draft::{Draft, refused};
use crate::lines::next_line;
use bf_case::Case;
use std::alloc::Global;

/// The greatest length of an input, in bytes.
pub const INPUT_LIMIT: u32 = 1_048_576;

fn read_lines(alloc: Global, bytes: &[u8]) -> Result<Case, CaseFault>
    requires { length bytes.now ≤ input_limit }
    ensures { IsReadingOf (reading_of_lines (lines_of bytes.now)) result }
{
    let mut draft = Draft::new(alloc);
    let mut number = 0;
    let mut rest = bytes;
    while let Some((line, others)) = next_line(rest) {
        number += 1;
        draft.take_line(alloc, number, line)?;
        rest = others;
    }
    draft.finish(alloc, number + 1)
}

/// Reads an input once, from its first byte to its last: the case that it spells, or where and why it
/// is refused.
pub fn read_case(alloc: Global, bytes: &[u8]) -> Result<Case, CaseFault>
    ensures { IsReadingOf (reading bytes.now) result }
{
    if bytes.len() > INPUT_LIMIT as usize {
        return Err(refused(0, Code::TooLong));
    }
    read_lines(alloc, bytes)
}
