//! A source in memory, for tests: it fails at the calls that it is told to.
ghost use Rattle.std.specs.Prelude.{◌≡◌, ◌↔◌, ◌<◌, ◌≤◌, ◌++◌, Some, length, min, take, drop, IfOk, OnOk, OnErr, IsErr};
ghost use Rattle.bf_edge.specs.Faults.{Rose};
ghost use Rattle.bf_edge.specs.Source.{left_after, Gives, IsAtEnd};
ghost use Rattle.bf_edge.specs.MemSource.{Supply, FailsNext, next_length, supply_after, failed_supply};

use crate::counts::{Failed, counted, is_failing};
use crate::source::Source;
use std::marker::Model;

/// Gives the bytes that it was made with, at most a piece of them in a call.
#[derive(Drop)]
pub struct MemSource {
    bytes: Vec<u8>,
    at: usize,
    piece: u32,
    failing: Vec<u32>,
    calls: u64,
    faults: u64,
}

impl Model for MemSource {
    ghost use Rattle.std.specs.Prelude.{◌≤◌, length, drop};
    ghost use Rattle.bf_edge.specs.MemSource.{Supply};

    ghost Value = { Supply };

    ghost view = { λ s. record { left = drop s.at s.bytes.items; piece = s.piece; failing = s.failing.items; calls = s.calls; faults = s.faults } };

    ghost invariant = { λ s. (s.at ≤ length s.bytes.items) × (1 ≤ s.piece) };
}

impl MemSource {
    /// The calls whose numbers, counted from 1, are in `failing` fail, and no others.
    pub fn new(bytes: Vec<u8>, piece: u32, failing: Vec<u32>) -> MemSource
        requires { 1 ≤ piece }
        ensures { result ≡ record { left = bytes.items; piece = piece; failing = failing.items; calls = 0; faults = 0 } }
    {
        MemSource {
            bytes,
            at: 0,
            piece,
            failing,
            calls: 0,
            faults: 0,
        }
    }

    /// The bytes still to come.
    pub fn left(&self) -> &[u8]
        ensures { result.now ≡ self.now.left }
    {
        &self.bytes[self.at..]
    }

    /// How many calls have failed.
    pub fn faults(&self) -> u64
        ensures { result ≡ self.now.faults }
    {
        self.faults
    }
}

impl Source for MemSource {
    ghost left = { λ s. Some s.left };

    ghost faults = { λ s. s.faults };

    fn read(&mut self, into: &mut [u8]) -> Result<usize, Failed>
        ensures within { IfOk result (λ n. n ≤ length into.new) }
        ensures given { IfOk result (λ n. Gives (Some self.old.left) n into.new) }
        ensures rest { IfOk result (λ n. Some self.new.left ≡ left_after (Some self.old.left) n) }
        ensures end { IfOk result (λ n. n ≡ 0 → 0 < length into.new → IsAtEnd (Some self.old.left)) }
        ensures steady { OnOk result (self.new.faults ≡ self.old.faults) }

        ensures rose { OnErr result (Rose self.old.faults self.new.faults) }
        ensures kept { OnErr result (Some self.new.left ≡ Some self.old.left) }
        ensures never_falls { self.old.faults ≤ self.new.faults }

        // Beyond what each source promises: which call fails, and how much another gives.
        ensures fails { IsErr result ↔ FailsNext self.old }
        ensures most { IfOk result (λ n. n ≡ next_length self.old (length into.new)) }
        ensures gave { IfOk result (λ n. self.new ≡ supply_after self.old n) }
        ensures failed { OnErr result (self.new ≡ failed_supply self.old) }
        ensures others { IfOk result (λ n. into.new ≡ take n self.old.left ++ drop n into.old) }
        ensures untouched { OnErr result (into.new ≡ into.old) }
    {
        self.calls = counted(self.calls);
        if is_failing(&self.failing, self.calls) {
            self.faults = counted(self.faults);
            return Err(Failed);
        }
        let count = copy_front(&self.bytes[self.at..], into, self.piece as usize);
        self.at += count;
        Ok(count)
    }
}

// Copies as many bytes as both slices have, but no more than `most`, and returns how many.
fn copy_front(from: &[u8], into: &mut [u8], most: usize) -> usize
    ensures count { result ≡ min most (min (length into.old) (length from.now)) }
    ensures copied { into.new ≡ take result from.now ++ drop result into.old }
{
    let count = most.min(into.len().min(from.len()));
    into[..count].copy_from_slice(&from[..count]);
    count
}
