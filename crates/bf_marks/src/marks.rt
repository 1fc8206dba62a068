ghost use Rattle.std.specs.Prelude.{◌≡◌, ◌<◌, length, map, slice_get, AllPairs, IfOk, OnErr, OnOk, Some};
ghost use Rattle.bf_case.specs.Refinement.{is_among};
ghost use Rattle.bf_id.specs.Id.{BlockId};
ghost use Rattle.bf_id.specs.Walk.{IsBefore};
ghost use Rattle.bf_marks.specs.Flags.{is_flagged};
ghost use Rattle.bf_marks.specs.Marks.{first_marks, flagged_in, marks_heard, target_by};
ghost use Rattle.bf_marks.specs.Rounds.{forced_marks, may_marks, merging_marks};

use crate::flag::Flag;
use crate::has_links::HasLinks;
use crate::known::Known;
use crate::rounds::{mark_forced, mark_may, mark_merging};
use crate::wishes::Wish;
use bf_block::Memory;
use bf_case::Target;
use bf_id::Id;
use std::alloc::Global;
use std::marker::Model;

/// The marks of a rank's own leaves, and the flags that it heard of leaves that are linked with them.
///
/// As many force rounds are played as the case has levels. Then each level has two rounds, from the finest to level 1:
/// which of its leaves may merge, and which do. Before a force round ends, the ranks tell each other which leaves are
/// refined; once the flags of a level are found, they tell each other these. The calls that find flags take no memory.
#[derive(Drop)]
pub struct Marks {
    known: Known,
    // Room for the next flags of the own leaves.
    spare: Vec<bool>,
}

impl Model for Marks {
    ghost use Rattle.std.specs.Prelude.{◌≡◌, length};
    ghost use Rattle.bf_marks.specs.Marks.{MarksValue};

    ghost Value = { MarksValue };

    ghost view = { λ m. m.known };

    ghost invariant = { λ m. length m.spare.items ≡ length m.known.leaves };
}

impl Marks {
    /// The marks before the rounds, by what each leaf wishes. All room that the rounds need is made here.
    pub fn start(alloc: Global, leaves: &[Id], wishes: &[Wish]) -> Result<Marks, Memory>
        requires rising { AllPairs IsBefore leaves.now }
        requires aligned { length wishes.now ≡ length leaves.now }
        ensures { IfOk result (λ marks. marks ≡ first_marks leaves.now wishes.now) }
    {
        let known = Known::start(alloc, leaves, wishes)?;
        let spare = vec![in alloc; false; leaves.len()]?;
        Ok(Marks { known, spare })
    }

    /// The own leaves.
    pub fn leaves(&self) -> &[Id]
        ensures { result.now ≡ self.now.leaves }
    {
        self.known.leaves()
    }

    /// Hears a flag of a leaf that is linked with an own one.
    pub fn hear(&mut self, id: Id, flag: Flag) -> Result<(), Memory>
        ensures ok { OnOk result (self.new ≡ marks_heard flag id self.old) }
        ensures err { OnErr result (self.new ≡ self.old) }
    {
        self.known.hear(flag, id)
    }

    /// Ends a force round: a leaf becomes refined where a linked leaf one level finer was refined at the round's
    /// beginning. The links are those of the own leaves, in the order of these.
    pub fn force_round<L: HasLinks>(&mut self, links: &[L])
        requires { length links.now ≡ length self.old.leaves }
        ensures { self.new ≡ forced_marks (map L.linked links.now) self.old }
    {
        mark_forced(&mut self.spare, &self.known, links);
        self.known.swap_own(Flag::Refined, &mut self.spare);
    }

    /// Finds out which leaves of a level may merge, where the merging ones of the next finer level are known. The links are
    /// those of the own leaves, in the order of these.
    pub fn may_round<L: HasLinks>(&mut self, links: &[L], level: u32)
        requires { length links.now ≡ length self.old.leaves }
        ensures { self.new ≡ may_marks level (map L.linked links.now) self.old }
    {
        mark_may(&mut self.spare, &self.known, links, level);
        self.known.swap_own(Flag::May, &mut self.spare);
    }

    /// Finds out which leaves of a level merge, where it is known which of them may.
    pub fn merge_round(&mut self, level: u32)
        ensures { self.new ≡ merging_marks level self.old }
    {
        mark_merging(&mut self.spare, &self.known, level);
        self.known.swap_own(Flag::Merges, &mut self.spare);
    }

    /// Whether a leaf has a flag, as far as is known: an own leaf by the rounds, another by what was heard.
    pub fn has(&self, id: Id, flag: Flag) -> bool
        ensures { result ≡ is_flagged (flagged_in flag self.now) id }
    {
        self.known.has(flag, id)
    }

    /// Whether the own leaf at a place has a flag.
    pub fn has_own_at(&self, place: usize, flag: Flag) -> bool
        requires { place < length self.now.leaves }
        ensures { (i : BlockId) → slice_get self.now.leaves place ≡ Some i → result ≡ is_among (flagged_in flag self.now).own i }
    {
        self.known.has_at(flag, place)
    }

    /// What becomes of a leaf, as far as is known.
    pub fn target(&self, id: Id) -> Target
        ensures { result ≡ target_by self.now id }
    {
        if self.has(id, Flag::Refined) {
            Target::Refine
        } else if self.has(id, Flag::Merges) {
            Target::Merge
        } else {
            Target::Keep
        }
    }

    /// The own leaves that have a flag, by rising id.
    pub fn own_with(&self, alloc: Global, flag: Flag) -> Result<Vec<Id>, Memory>
        ensures { IfOk result (λ ids. ids.items ≡ (flagged_in flag self.now).own) }
    {
        self.known.own_with(alloc, flag)
    }
}
