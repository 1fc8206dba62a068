//! Sinks of bytes, and writing all of a text.
ghost use Rattle.std.specs.Prelude.{◌≡◌, ℕ, ◌+◌, ◌<◌, ◌≤◌, List, Option, length, take, IfOk, OnOk, OnErr};
ghost use Rattle.bf_edge.specs.Faults.{Rose};
ghost use Rattle.bf_edge.specs.Sink.{appended, AppendsPrefix};

use crate::counts::Failed;

/// What the program writes to.
pub trait Sink {
    /// The bytes taken so far, where they are told.
    ghost written: { Self → Option (List ℕ) };

    /// How often it has failed. The count stands still at 2^64 - 1.
    ghost faults: { Self → ℕ };

    /// Takes the front of `bytes`, as many as the result says. Taking none of some is a failure.
    fn write(&mut self, bytes: &[u8]) -> Result<usize, Failed>
        ensures within { IfOk result (λ n. n ≤ length bytes.now) }
        ensures some { IfOk result (λ n. 0 < length bytes.now → 1 ≤ n) }
        ensures taken { IfOk result (λ n. written self.new ≡ appended (written self.old) (take n bytes.now)) }
        ensures steady { OnOk result (faults self.new ≡ faults self.old) }

        ensures rose { OnErr result (Rose (faults self.old) (faults self.new)) }
        ensures kept { OnErr result (written self.new ≡ written self.old) }
        ensures never_falls { faults self.old ≤ faults self.new };
}

/// Writes all the bytes, in as many calls as the sink needs.
pub fn write_all<W: Sink>(sink: &mut W, bytes: &[u8]) -> Result<(), Failed>
    ensures all { OnOk result (W.written sink.new ≡ appended (W.written sink.old) bytes.now) }
    ensures steady { OnOk result (W.faults sink.new ≡ W.faults sink.old) }

    ensures rose { OnErr result (Rose (W.faults sink.old) (W.faults sink.new)) }
    ensures prefix { OnErr result (AppendsPrefix (W.written sink.old) (W.written sink.new) bytes.now) }
    ensures never_falls { W.faults sink.old ≤ W.faults sink.new }
{
    let mut done = 0;
    while done < bytes.len() {
        done += sink.write(&bytes[done..])?;
    }
    Ok(())
}
