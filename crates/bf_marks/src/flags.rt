ghost use Rattle.std.specs.Prelude.{◌≡◌};
ghost use Rattle.std.specs.List.{list_any};

use bf_block::Memory;
use bf_id::Id;
use std::alloc::Global;
use std::collections::BTreeSet;
use std::mem;

/// The flags of one kind: whether each own leaf has it, by the leaf's place, and the leaves of others of which it was heard.
#[derive(Drop)]
pub(crate) struct Flags {
    pub(crate) own: Vec<bool>,
    // Whether an own leaf has it. Mostly none does, and then none is looked for.
    some: bool,
    pub(crate) heard: BTreeSet<Id>,
    ghost told: { some ≡ list_any (λ flag. flag) own.items },
}

// Whether a flag is set.
fn has_some(flags: &[bool]) -> bool
    ensures { result ≡ list_any (λ flag. flag) flags.now }
{
    flags.iter().any(|flag| *flag)
}

impl Flags {
    ghost use Rattle.std.specs.Prelude.{[], length, AllPairs, IsTrue, List, OnOk, OnErr};
    ghost use Rattle.std.specs.BTreeSet.{insert_key};
    ghost use Rattle.bf_case.specs.Refinement.{is_among};
    ghost use Rattle.bf_id.specs.Id.{id_cmp, BlockId};
    ghost use Rattle.bf_id.specs.Walk.{IsBefore};
    ghost use Rattle.bf_marks.specs.FlagFields.{flagged_by, with_flag};
    ghost use Rattle.bf_marks.specs.Flags.{is_flagged};

    /// These flags of own leaves, and none of others.
    pub(crate) fn of_own(alloc: Global, own: Vec<bool>) -> Flags
        ensures own { result.own ≡ own }
        ensures heard { result.heard.keys ≡ [] }
    {
        let some = has_some(own.as_slice());
        Flags {
            own,
            some,
            heard: BTreeSet::new(alloc),
        }
    }

    // Whether a leaf is an own one that has the flag.
    fn is_own(&self, leaves: &[Id], id: Id) -> bool
        requires rising { AllPairs IsBefore leaves.now }
        requires aligned { length self.now.own.items ≡ length leaves.now }
        ensures { result ≡ is_among (with_flag leaves.now self.now.own.items) id }
    {
        if !self.some {
            return false;
        }
        match leaves.binary_search(&id) {
            Ok(place) => self.own[place],
            Err(_) => false,
        }
    }

    // The same, where the leaf is looked for at a place first.
    fn is_own_near(&self, leaves: &[Id], id: Id, place: usize) -> bool
        requires rising { AllPairs IsBefore leaves.now }
        requires aligned { length self.now.own.items ≡ length leaves.now }
        ensures { result ≡ is_among (with_flag leaves.now self.now.own.items) id }
    {
        if place < leaves.len() && leaves[place] == id {
            self.own[place]
        } else {
            self.is_own(leaves, id)
        }
    }

    // Whether the flag was heard of a leaf.
    fn is_heard(&self, id: Id) -> bool
        ensures { result ≡ is_among self.now.heard.keys id }
    {
        self.heard.contains(&id)
    }

    /// Whether a leaf has the flag, as far as is known. The own leaves are given by rising id, and the leaf is looked for at
    /// a place first.
    pub(crate) fn has(&self, leaves: &[Id], id: Id, place: usize) -> bool
        requires rising { AllPairs IsBefore leaves.now }
        requires aligned { length self.now.own.items ≡ length leaves.now }
        ensures { result ≡ is_flagged (flagged_by leaves.now self.now) id }
    {
        self.is_own_near(leaves, id, place) || self.is_heard(id)
    }

    /// Whether no own leaf has the flag.
    pub(crate) fn is_unset(&self) -> bool
        ensures { IsTrue result → (leaves : List BlockId) → with_flag leaves self.now.own.items ≡ [] }
    {
        !self.some
    }

    /// Whether the flag was heard of no leaf.
    pub(crate) fn is_unheard(&self) -> bool
        ensures { IsTrue result → self.now.heard.keys ≡ [] }
    {
        self.heard.is_empty()
    }

    /// Takes other flags of the own leaves, and gives those that they had.
    pub(crate) fn swap_own(&mut self, own: &mut Vec<bool>)
        ensures taken { self.new.own ≡ own.old }
        ensures given { own.new ≡ self.old.own }
        ensures heard { self.new.heard ≡ self.old.heard }
    {
        mem::swap(&mut self.own, own);
        self.some = has_some(self.own.as_slice());
    }

    /// Hears the flag of one leaf more.
    pub(crate) fn hear(&mut self, id: Id) -> Result<(), Memory>
        ensures own { self.new.own ≡ self.old.own }
        ensures ok { OnOk result (self.new.heard.keys ≡ insert_key id_cmp self.old.heard.keys id) }
        ensures err { OnErr result (self.new.heard.keys ≡ self.old.heard.keys) }
    {
        self.heard.insert(id)?;
        Ok(())
    }
}
