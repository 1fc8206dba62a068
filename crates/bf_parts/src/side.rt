ghost use Rattle.std.specs.Prelude.{◌≡◌};
ghost use Rattle.bf_parts.specs.Sides.{bare, gives, source_of};

use crate::Items;
use bf_buddy::Members;
use std::alloc::Global;

/// One rank's side of a snapshot: its own part, and that of the home whose buddy it is.
#[derive(Drop)]
pub struct Side<T> {
    /// The time of the snapshot.
    pub time: u32,
    /// The members that made it.
    pub homes: Members,
    /// The home whose part is the other.
    pub source: u32,
    pub own: Items<T>,
    pub other: Items<T>,
}

impl<T> Side<T> {
    /// A side without a snapshot.
    pub fn bare(alloc: Global) -> Self
        ensures { result ≡ bare }
    {
        Side {
            time: 0,
            homes: Members::all(0),
            source: 0,
            own: Items::new(alloc),
            other: Items::new(alloc),
        }
    }
}

impl<T: Drop> Side<T> {
    /// Lets the snapshot go.
    pub fn clear(&mut self)
        ensures { self.new ≡ bare }
    {
        self.time = 0;
        self.homes = Members::all(0);
        self.source = 0;
        self.own.clear();
        self.other.clear();
    }
}

/// Whether a rank is the buddy of another, which is a member.
#[tactic(auto, unfolding(crate::specs::Sides::gives))]
pub fn gives(members: Members, shift: u32, from: u32, to: u32) -> bool
    ensures { result ≡ gives members shift from to }
{
    members.has(from) && members.buddy(from, shift) == to
}

/// The member whose part a rank has beside its own; a stranger names itself.
#[tactic(auto, unfolding(crate::specs::Sides::source_of))]
pub fn source_of(members: Members, shift: u32, rank: u32) -> u32
    ensures { result ≡ source_of members shift rank }
{
    if members.has(rank) {
        members.predecessor(rank, shift)
    } else {
        rank
    }
}
