ghost use Rattle.std.specs.Prelude.{◌≡◌, All, IfOk};
ghost use Rattle.bf_parts.specs.Merges.{regained};
ghost use Rattle.bf_parts.specs.Sides.{bare, has_items};
ghost use Rattle.bf_snap.specs.Buffers.{cleared, heard, swapped, written};

use bf_buddy::Members;
use bf_items::Items;
use bf_parts::{Linked, Side, regained};
use bf_program::Memory;
use std::alloc::Global;
use std::marker::Model;
use std::mem;

/// A rank's two sides of snapshots: the agreed one, to which a restore goes back, and the spare one.
#[derive(Drop)]
pub struct Buffers<T> {
    active: Side<T>,
    spare: Side<T>,
}

impl<T> Model for Buffers<T> {
    ghost use Rattle.bf_snap.specs.Buffers.{TwoSides};

    ghost Value = { TwoSides T };

    ghost view = { λ b. record { active = b.active; spare = b.spare } };
}

impl<T> Buffers<T> {
    /// An agreed snapshot, with no new one yet.
    pub fn first(alloc: Global, agreed: Side<T>) -> Self
        ensures { result ≡ record { active = agreed; spare = bare } }
    {
        Buffers {
            active: agreed,
            spare: Side::bare(alloc),
        }
    }

    /// The agreed side.
    pub fn active(&self) -> &Side<T>
        ensures { result.now ≡ self.now.active }
    {
        &self.active
    }

    /// Whether the own part of the new snapshot has an item.
    pub fn is_filled(&self) -> bool
        ensures { result ≡ has_items self.now.spare.own }
    {
        self.spare.own.len() != 0
    }
}

impl<T: Drop> Buffers<T> {
    /// Keeps the predecessor's part of the new snapshot.
    pub fn hear_other(&mut self, part: Items<T>)
        ensures { self.new ≡ heard part self.old }
    {
        self.spare.other = part;
    }

    /// Makes the new snapshot of the own part, beside the part that was heard of the source.
    pub fn write_spare(&mut self, time: u32, homes: Members, source: u32, own: Items<T>)
        ensures { self.new ≡ written time homes source own self.old }
    {
        self.spare.time = time;
        self.spare.homes = homes;
        self.spare.source = source;
        self.spare.own = own;
    }

    /// Lets the new snapshot go.
    pub fn clear_spare(&mut self)
        ensures { self.new ≡ cleared self.old }
    {
        self.spare.clear();
    }

    /// Makes the new snapshot the agreed one, and lets the one agreed before go.
    pub fn swap(&mut self)
        ensures { self.new ≡ swapped self.old }
    {
        mem::swap(&mut self.active, &mut self.spare);
        self.spare.clear();
    }
}

impl<T: Linked + Drop> Buffers<T> {
    /// Copies of the items of the agreed snapshot with which a rank goes on beside these live members: its own part, and
    /// its predecessor's where that is dead, in rising order, with dead owners in links replaced by their buddies.
    pub fn restore(&self, alloc: Global, live: Members, shift: u32) -> Result<Items<T>, Memory>
        requires own { All (T.is_among self.now.active.homes) self.now.active.own }
        requires other { All (T.is_among self.now.active.homes) self.now.active.other }
        ensures { IfOk result (λ items. items ≡ regained T.kind self.now.active shift live) }
    {
        regained(alloc, &self.active, live, shift)
    }
}
