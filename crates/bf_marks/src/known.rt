//! What is known of leaves, with the tests of the rounds.
ghost use Rattle.std.specs.Prelude.{if◌then◌else◌, ◌≡◌, ◌<◌, ◌==◌, ◌&&◌, length, map, slice_get, AllPairs, IfOk, OnErr, OnOk, Some};
ghost use Rattle.std.specs.List.{list_all, list_any};
ghost use Rattle.bf_case.specs.Refinement.{is_among};
ghost use Rattle.bf_id.specs.Id.{children_of, level_of, BlockId};
ghost use Rattle.bf_id.specs.Walk.{IsBefore};
ghost use Rattle.bf_links.specs.declared.link.Link.{Link};
ghost use Rattle.bf_marks.specs.FlagFields.{with_flag};
ghost use Rattle.bf_marks.specs.Flags.{is_flagged};
ghost use Rattle.bf_marks.specs.Marks.{first_marks, flagged_in, marks_heard, with_own};
ghost use Rattle.bf_marks.specs.Wishes.{is_coarsen, is_refine};
ghost use Rattle.bf_marks.specs.Rounds.{finer_merge, is_calm, is_forced, may_merge, octet_may};

use crate::flag::Flag;
use crate::flags::Flags;
use crate::has_links::HasLinks;
use crate::hints::Hints;
use crate::wishes::Wish;
use bf_block::Memory;
use bf_id::Id;
use bf_links::Link;
use std::alloc::Global;
use std::marker::Model;

/// The own leaves by rising id, what they wish, and the flags of them and of leaves that are linked with them.
#[derive(Drop)]
pub(crate) struct Known {
    leaves: Vec<Id>,
    hints: Hints,
    coarser: Vec<bool>,
    refined: Flags,
    may: Flags,
    merging: Flags,
}

impl Model for Known {
    ghost use Rattle.bf_marks.specs.Marks.{MarksValue};

    ghost Value = { MarksValue };

    ghost use Rattle.bf_marks.specs.KnownFields.{marks_in, IsAligned};

    ghost view = { marks_in };

    ghost invariant = { IsAligned };
}

// Which of some leaves wish to be refined.
fn refined_wishes(alloc: Global, wishes: &[Wish]) -> Result<Vec<bool>, Memory>
    ensures { IfOk result (λ flags. flags.items ≡ map is_refine wishes.now) }
{
    wishes.iter().map(|wish| wish.is_refine()).collect(alloc)
}

// Which of them wish to be coarsened.
fn coarser_wishes(alloc: Global, wishes: &[Wish]) -> Result<Vec<bool>, Memory>
    ensures { IfOk result (λ flags. flags.items ≡ map is_coarsen wishes.now) }
{
    wishes.iter().map(|wish| wish.is_coarsen()).collect(alloc)
}

// The leaves whose flag is set.
fn flagged(alloc: Global, leaves: &[Id], own: &[bool]) -> Result<Vec<Id>, Memory>
    requires { length own.now ≡ length leaves.now }
    ensures { IfOk result (λ ids. ids.items ≡ with_flag leaves.now own.now) }
{
    leaves
        .iter()
        .zip(own.iter())
        .filter(|leaf| *leaf.1)
        .map(|leaf| *leaf.0)
        .collect(alloc)
}

impl Known {
    /// The leaves that wish it are refined.
    pub(crate) fn start(alloc: Global, leaves: &[Id], wishes: &[Wish]) -> Result<Known, Memory>
        requires rising { AllPairs IsBefore leaves.now }
        requires aligned { length wishes.now ≡ length leaves.now }
        ensures { IfOk result (λ known. known ≡ first_marks leaves.now wishes.now) }
    {
        let refined = refined_wishes(alloc, wishes)?;
        let coarser = coarser_wishes(alloc, wishes)?;
        let may = vec![in alloc; false; leaves.len()]?;
        let merging = vec![in alloc; false; leaves.len()]?;
        Ok(Known {
            leaves: Vec::from_slice(alloc, leaves)?,
            hints: Hints::of(alloc, leaves)?,
            coarser,
            refined: Flags::of_own(alloc, refined),
            may: Flags::of_own(alloc, may),
            merging: Flags::of_own(alloc, merging),
        })
    }

    /// The own leaves.
    pub(crate) fn leaves(&self) -> &[Id]
        ensures leaves { result.now ≡ self.now.leaves }
        ensures rising { AllPairs IsBefore self.now.leaves }
    {
        self.leaves.as_slice()
    }

    /// Whether a flag is known of a leaf.
    pub(crate) fn has(&self, flag: Flag, id: Id) -> bool
        ensures { result ≡ is_flagged (flagged_in flag self.now) id }
    {
        let leaves = self.leaves.as_slice();
        let place = self.hints.place_of(id);
        match flag {
            Flag::Refined => self.refined.has(leaves, id, place),
            Flag::May => self.may.has(leaves, id, place),
            Flag::Merges => self.merging.has(leaves, id, place),
        }
    }

    /// Whether the own leaf at a place has a flag.
    pub(crate) fn has_at(&self, flag: Flag, place: usize) -> bool
        requires { place < length self.now.leaves }
        ensures { (i : BlockId) → slice_get self.now.leaves place ≡ Some i → result ≡ is_among (flagged_in flag self.now).own i }
    {
        match flag {
            Flag::Refined => self.refined.own[place],
            Flag::May => self.may.own[place],
            Flag::Merges => self.merging.own[place],
        }
    }

    /// Whether the own leaf at a place wishes to be coarsened.
    fn coarsens_at(&self, place: usize) -> bool
        requires { place < length self.now.leaves }
        ensures { (i : BlockId) → slice_get self.now.leaves place ≡ Some i → result ≡ is_among self.now.coarser i }
    {
        self.coarser[place]
    }

    /// The own leaves that have a flag.
    pub(crate) fn own_with(&self, alloc: Global, flag: Flag) -> Result<Vec<Id>, Memory>
        ensures { IfOk result (λ ids. ids.items ≡ (flagged_in flag self.now).own) }
    {
        let own = match flag {
            Flag::Refined => self.refined.own.as_slice(),
            Flag::May => self.may.own.as_slice(),
            Flag::Merges => self.merging.own.as_slice(),
        };
        flagged(alloc, self.leaves.as_slice(), own)
    }

    /// Hears a flag of a leaf.
    pub(crate) fn hear(&mut self, flag: Flag, id: Id) -> Result<(), Memory>
        ensures ok { OnOk result (self.new ≡ marks_heard flag id self.old) }
        ensures err { OnErr result (self.new ≡ self.old) }
    {
        match flag {
            Flag::Refined => self.refined.hear(id),
            Flag::May => self.may.hear(id),
            Flag::Merges => self.merging.hear(id),
        }
    }

    /// Takes other flags of the own leaves, and gives those that they had.
    pub(crate) fn swap_own(&mut self, flag: Flag, own: &mut Vec<bool>)
        requires { length own.old.items ≡ length self.old.leaves }
        ensures marks { self.new ≡ with_own flag (with_flag self.old.leaves own.old.items) self.old }
        ensures room { length own.new.items ≡ length self.old.leaves }
    {
        match flag {
            Flag::Refined => self.refined.swap_own(own),
            Flag::May => self.may.swap_own(own),
            Flag::Merges => self.merging.swap_own(own),
        }
    }

    // Whether a leaf of a level is refined that is linked with the leaf beside it. Where no leaf is refined, no link is
    // looked at.
    fn is_refined_beside<L: HasLinks>(&self, level: u32, beside: &L) -> bool
        ensures { result
            ≡ list_any (λ (link : Link). level_of link.id == level && is_flagged self.now.refined link.id) (L.linked beside.now) }
    {
        if self.refined.is_unset() && self.refined.is_unheard() {
            return false;
        }
        beside.links().iter().any(|link| link.id.level() == level
            && self.has(Flag::Refined, link.id))
    }

    /// Whether a leaf one level finer is refined that is linked with this one.
    pub(crate) fn is_forced<L: HasLinks>(&self, id: Id, beside: &L) -> bool
        ensures { result ≡ is_forced self.now.refined id (L.linked beside.now) }
    {
        self.is_refined_beside(id.level() + 1, beside)
    }

    // Whether no linked leaf of its level is refined.
    fn is_calm<L: HasLinks>(&self, id: Id, beside: &L) -> bool
        ensures { result ≡ is_calm self.now.refined id (L.linked beside.now) }
    {
        !self.is_refined_beside(id.level(), beside)
    }

    // Whether each linked leaf one level finer merges.
    fn finer_merge(&self, id: Id, links: &[Link]) -> bool
        ensures { result ≡ finer_merge self.now.merging id links.now }
    {
        let level = id.level() + 1;
        links.iter().all(|link| !(link.id.level() == level) || self.has(Flag::Merges, link.id))
    }

    /// Whether the own leaf at a place, which has these links, may merge.
    pub(crate) fn may_merge<L: HasLinks>(&self, place: usize, id: Id, beside: &L) -> bool
        requires { slice_get self.now.leaves place ≡ Some id }
        ensures { result ≡ may_merge self.now id (L.linked beside.now) }
    {
        self.coarsens_at(place)
            && !self.has_at(Flag::Refined, place)
            && self.is_calm(id, beside)
            && self.finer_merge(id, beside.links())
    }

    // Whether a leaf may merge, which is looked for at a place first.
    fn may_near(&self, id: Id, place: usize) -> bool
        ensures { result ≡ is_flagged self.now.may id }
    {
        self.may.has(self.leaves.as_slice(), id, place)
    }

    // Whether the eight children of a block all may merge. Mostly they stand together from a place on.
    fn children_may(&self, parent: Id, first: usize) -> bool
        requires { level_of parent < 4 }
        ensures { result ≡ list_all (is_flagged self.now.may) (children_of parent) }
    {
        for octant in 0..8 {
            let place = first.saturating_add(octant as usize);
            if !self.may_near(parent.child(octant), place) {
                return false;
            }
        }
        true
    }

    // Whether a leaf, which stands at a place, and its seven siblings all may merge. A root has no siblings.
    fn octet_may(&self, id: Id, place: usize) -> bool
        ensures { result ≡ octet_may self.now.may id }
    {
        match (id.parent(), id.octant()) {
            (Some(parent), Some(octant)) => {
                self.children_may(parent, place.saturating_sub(octant as usize))
            }
            _ => false,
        }
    }

    /// Whether the own leaf at a place merges after the rounds of a level.
    pub(crate) fn merges_after(&self, level: u32, place: usize, id: Id) -> bool
        requires { slice_get self.now.leaves place ≡ Some id }
        ensures { result ≡ (if level_of id == level then octet_may self.now.may id else is_among self.now.merging.own id) }
    {
        if id.level() == level {
            self.octet_may(id, place)
        } else {
            self.has_at(Flag::Merges, place)
        }
    }
}
