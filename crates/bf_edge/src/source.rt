//! Sources of bytes, and reading up to a limit.
ghost use Rattle.std.specs.Prelude.{◌≡◌, ℕ, ◌+◌, ◌<◌, ◌≤◌, ◌++◌, List, Option, length, take, IfOk, OnOk, OnErr, IsErrOf};
ghost use Rattle.bf_edge.specs.Faults.{Rose};
ghost use Rattle.bf_edge.specs.Source.{left_after, Gives, GivesUpTo, IsAtEnd, Passes};
ghost use Rattle.bf_edge.specs.declared.source.ReadEnd.{ReadEnd};

use crate::Memory;
use crate::counts::Failed;
use std::alloc::Global;

// The most bytes that one call is asked for.
const CHUNK: usize = 8192;

/// What the program reads from.
pub trait Source {
    /// The bytes still to come, where they are told.
    ghost left: { Self → Option (List ℕ) };

    /// How often it has failed. The count stands still at 2^64 - 1.
    ghost faults: { Self → ℕ };

    /// Fills the front of `into`, with as many bytes as the result says.
    fn read(&mut self, into: &mut [u8]) -> Result<usize, Failed>
        ensures within { IfOk result (λ n. n ≤ length into.new) }
        ensures given { IfOk result (λ n. Gives (left self.old) n into.new) }
        ensures rest { IfOk result (λ n. left self.new ≡ left_after (left self.old) n) }
        ensures end { IfOk result (λ n. n ≡ 0 → 0 < length into.new → IsAtEnd (left self.old)) }
        ensures steady { OnOk result (faults self.new ≡ faults self.old) }

        ensures rose { OnErr result (Rose (faults self.old) (faults self.new)) }
        ensures kept { OnErr result (left self.new ≡ left self.old) }
        ensures never_falls { faults self.old ≤ faults self.new };
}

/// Why `read_up_to` has no bytes to give.
#[derive(Clone, Copy, Debug, PartialEq, Eq)]
pub enum ReadEnd {
    /// The source failed.
    Fault,
    /// There was no memory for the bytes.
    Memory,
}

impl From<Failed> for ReadEnd {
    ghost from_gives = { λ _ end. end ≡ ReadEnd.Fault };

    fn from(_failed: Failed) -> ReadEnd {
        ReadEnd::Fault
    }
}

impl From<Memory> for ReadEnd {
    ghost from_gives = { λ _ end. end ≡ ReadEnd.Memory };

    fn from(_refused: Memory) -> ReadEnd {
        ReadEnd::Memory
    }
}

/// Reads to the end of the source, or up to one byte past the limit where the source gives more.
/// So at most `limit` bytes are all that there were, and one more says that there may be others.
/// After an error, some bytes may be gone from the front of the source.
pub fn read_up_to<R: Source>(alloc: Global, source: &mut R, limit: u32) -> Result<Vec<u8>, ReadEnd>
    ensures taken { IfOk result (λ bytes. GivesUpTo (R.left source.old) (limit + 1) bytes.items) }
    ensures bounded { IfOk result (λ bytes. length bytes.items ≤ limit + 1) }
    ensures rest { OnOk result (R.left source.new ≡ left_after (R.left source.old) (limit + 1)) }
    ensures steady { OnOk result (R.faults source.new ≡ R.faults source.old) }

    ensures fault { IsErrOf result ReadEnd.Fault → Rose (R.faults source.old) (R.faults source.new) }
    ensures memory { IsErrOf result ReadEnd.Memory → R.faults source.new ≡ R.faults source.old }
    ensures passed { OnErr result (Passes (R.left source.old) (R.left source.new) (limit + 1)) }
    ensures never_falls { R.faults source.old ≤ R.faults source.new }
{
    let most = limit as usize + 1;
    let mut chunk = [0; CHUNK];
    let mut bytes = Vec::new(alloc);
    while bytes.len() < most {
        let room = CHUNK.min(most - bytes.len());
        let given = append_read(source, &mut chunk[..room], &mut bytes)?;
        if given == 0 {
            return Ok(bytes);
        }
    }
    Ok(bytes)
}

// One call of the source, through `chunk` to the end of `bytes`.
fn append_read<R: Source>(
    source: &mut R,
    chunk: &mut [u8],
    bytes: &mut Vec<u8>,
) -> Result<usize, ReadEnd>
    ensures within { IfOk result (λ n. n ≤ length chunk.new) }
    ensures given { IfOk result (λ n. Gives (R.left source.old) n chunk.new) }
    ensures appended { IfOk result (λ n. bytes.new.items ≡ bytes.old.items ++ take n chunk.new) }
    ensures rest { IfOk result (λ n. R.left source.new ≡ left_after (R.left source.old) n) }
    ensures end { IfOk result (λ n. n ≡ 0 → 0 < length chunk.new → IsAtEnd (R.left source.old)) }
    ensures steady { OnOk result (R.faults source.new ≡ R.faults source.old) }

    ensures fault { IsErrOf result ReadEnd.Fault → Rose (R.faults source.old) (R.faults source.new) }
    ensures memory { IsErrOf result ReadEnd.Memory → R.faults source.new ≡ R.faults source.old }
    ensures passed { OnErr result (Passes (R.left source.old) (R.left source.new) (length chunk.new)) }
    ensures never_falls { R.faults source.old ≤ R.faults source.new }
{
    let given = source.read(chunk)?;
    bytes.extend_from_slice(&chunk[..given])?;
    Ok(given)
}
