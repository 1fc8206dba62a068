ghost use Rattle.std.specs.Prelude.{◌≡◌, ◌+◌, ◌^◌, ◌<◌, ◌≤◌, [], ◌∷◌, ◌++◌, length, max, IsOk, OnOk, OnErr};

use bf_core::Event;
use bf_program::Memory;
use std::alloc::Global;
use std::marker::Model;

/// A list of events, with memory kept for some more.
#[derive(Drop)]
pub(crate) struct Journal {
    events: Vec<Event>,
    room: usize,
}

impl Model for Journal {
    ghost use Rattle.std.specs.Prelude.{◌+◌, ◌≤◌, vec_len, vec_capacity};
    ghost use Rattle.bf_world.specs.Journals.{Noted};

    ghost Value = { Noted };

    ghost view = { λ j. record { events = j.events.items; room = j.room } };

    ghost invariant = { λ j. vec_len j.events + j.room ≤ vec_capacity j.events };
}

impl Journal {
    /// No event, and room for none.
    pub(crate) fn new(alloc: Global) -> Self
        ensures events { result.events ≡ [] }
        ensures room { result.room ≡ 0 }
    {
        Journal {
            events: Vec::new(alloc),
            room: 0,
        }
    }

    /// Makes room for so many more events, if there is less. Without memory nothing changes. The memory at least doubles
    /// when it grows, so over a run an event costs constant time.
    pub(crate) fn reserve(&mut self, more: usize) -> Result<(), Memory>
        ensures events { self.new.events ≡ self.old.events }
        ensures room { OnOk result (self.new.room ≡ max self.old.room more) }
        ensures err { OnErr result (self.new.room ≡ self.old.room) }
        ensures succeeds { more ≤ self.old.room → IsOk result }
    {
        if self.room < more {
            self.events.reserve(more)?;
            self.room = more;
        }
        Ok(())
    }

    /// Adds an event, for which there is room.
    pub(crate) fn note(&mut self, event: Event)
        requires { 0 < self.old.room }
        ensures events { self.new.events ≡ self.old.events ++ event ∷ [] }
        ensures room { self.new.room + 1 ≡ self.old.room }
    {
        self.events.push_reserved(event);
        self.room -= 1;
    }

    /// The events, the first one first.
    pub(crate) fn events(&self) -> &[Event]
        ensures { result.now ≡ self.now.events }
    {
        self.events.as_slice()
    }

    /// How many events there are.
    pub(crate) fn len(&self) -> usize
        ensures len { result ≡ length self.now.events }
        ensures small { result < 2 ^ 63 }
    {
        self.events.len()
    }

    /// For how many more events there is room.
    pub(crate) fn room(&self) -> usize
        ensures { result ≡ self.now.room }
    {
        self.room
    }
}
