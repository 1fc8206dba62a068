//! A sink in memory, for tests: it fails at the calls that it is told to, and where it is full.
ghost use Rattle.std.specs.Prelude.{◌≡◌, ◌↔◌, [], ◌+◌, ◌<◌, ◌≤◌, ◌++◌, Some, length, take, vec_capacity, IfOk, OnOk, OnErr, IsErr};
ghost use Rattle.bf_edge.specs.Faults.{Rose};
ghost use Rattle.bf_edge.specs.Sink.{appended};
ghost use Rattle.bf_edge.specs.MemSink.{Store, RefusesNext, taken_length, store_after, failed_store};

use crate::Memory;
use crate::counts::{Failed, counted, is_failing};
use crate::sink::Sink;
use std::alloc::Global;
use std::marker::Model;

/// Keeps the bytes that it takes, at most a piece of them in a call and so many in all as it has room for.
#[derive(Drop)]
pub struct MemSink {
    taken: Vec<u8>,
    piece: u32,
    room: u32,
    failing: Vec<u32>,
    calls: u64,
    faults: u64,
}

impl Model for MemSink {
    ghost use Rattle.std.specs.Prelude.{◌≤◌, length, vec_capacity};
    ghost use Rattle.bf_edge.specs.MemSink.{Store};

    ghost Value = { Store };

    ghost view = { λ s. record { written = s.taken.items; piece = s.piece; room = s.room; failing = s.failing.items; calls = s.calls; faults = s.faults } };

    // The memory for all of the room is there from the start, so no write can lack it.
    ghost invariant = { λ s. record { within : length s.taken.items ≤ s.room; reserved : s.room ≤ vec_capacity s.taken; some : 1 ≤ s.piece } };
}

impl MemSink {
    /// The calls whose numbers, counted from 1, are in `failing` fail, and those that find no room.
    pub fn new(alloc: Global, piece: u32, room: u32, failing: Vec<u32>) -> Result<MemSink, Memory>
        requires { 1 ≤ piece }
        ensures { IfOk result (λ sink. sink ≡ record { written = []; piece = piece; room = room; failing = failing.items; calls = 0; faults = 0 }) }
    {
        Ok(MemSink {
            taken: Vec::with_capacity(alloc, room as usize)?,
            piece,
            room,
            failing,
            calls: 0,
            faults: 0,
        })
    }

    /// The bytes taken so far.
    pub fn written(&self) -> &[u8]
        ensures bytes { result.now ≡ self.now.written }
        ensures within { length self.now.written ≤ self.now.room }
    {
        &self.taken
    }

    /// How many calls have failed.
    pub fn faults(&self) -> u64
        ensures { result ≡ self.now.faults }
    {
        self.faults
    }
}

impl Sink for MemSink {
    ghost written = { λ s. Some s.written };

    ghost faults = { λ s. s.faults };

    fn write(&mut self, bytes: &[u8]) -> Result<usize, Failed>
        ensures within { IfOk result (λ n. n ≤ length bytes.now) }
        ensures some { IfOk result (λ n. 0 < length bytes.now → 1 ≤ n) }
        ensures taken { IfOk result (λ n. Some self.new.written ≡ appended (Some self.old.written) (take n bytes.now)) }
        ensures steady { OnOk result (self.new.faults ≡ self.old.faults) }

        ensures rose { OnErr result (Rose self.old.faults self.new.faults) }
        ensures kept { OnErr result (Some self.new.written ≡ Some self.old.written) }
        ensures never_falls { self.old.faults ≤ self.new.faults }

        // Beyond what each sink promises: which call fails, and how much another takes.
        ensures fails { IsErr result ↔ RefusesNext self.old (length bytes.now) }
        ensures most { IfOk result (λ n. n ≡ taken_length self.old (length bytes.now)) }
        ensures took { IfOk result (λ n. self.new ≡ store_after self.old (take n bytes.now)) }
        ensures failed { OnErr result (self.new ≡ failed_store self.old) }
    {
        self.calls = counted(self.calls);
        let free = self.room as usize - self.taken.len();
        if is_failing(&self.failing, self.calls) || (free == 0 && !bytes.is_empty()) {
            self.faults = counted(self.faults);
            return Err(Failed);
        }
        let count = (self.piece as usize).min(bytes.len().min(free));
        append_reserved(&mut self.taken, &bytes[..count]);
        Ok(count)
    }
}

// Appends the bytes where the memory for them is there.
fn append_reserved(taken: &mut Vec<u8>, bytes: &[u8])
    requires { length taken.old.items + length bytes.now ≤ vec_capacity taken.old }
    ensures items { taken.new.items ≡ taken.old.items ++ bytes.now }
    ensures capacity { vec_capacity taken.old ≤ vec_capacity taken.new }
{
    if taken.extend_from_slice(bytes).is_err() {
        unreachable!();
    }
}
