//! What a rank goes on with after a restore, in one pass over both parts of its side.
ghost use Rattle.std.specs.Prelude.{◌≡◌, ◌≤◌, ℕ, List, IsTrue, IfOk, OnOk, All, map, length, ◌++◌};
ghost use Rattle.bf_buddy.specs.Members.{is_member};
ghost use Rattle.bf_program.specs.Restores.{heir_of};
ghost use Rattle.bf_parts.specs.Leaves.{Kind};
ghost use Rattle.bf_parts.specs.Merges.{merged, passed, regained};

use crate::{Items, Side};
use bf_buddy::Members;
use bf_program::Memory;
use std::alloc::Global;

/// An item with links to others, of which each has an owner.
pub trait Linked {
    ghost use Rattle.std.specs.Prelude.{◌≡◌, ℕ, List, IfOk};
    ghost use Rattle.bf_program.specs.Restores.{heir_of};
    ghost use Rattle.bf_parts.specs.Leaves.{Kind};

    ghost kind: { Kind Self };

    // each owner in its links is among these
    ghost is_among: { List ℕ → Self → Type 0 };

    /// Whether it comes before another.
    fn comes_first(&self, other: &Self) -> bool
        ensures { result ≡ kind.first self.now other.now };

    /// A copy in which dead owners are replaced by their buddies.
    fn with_heirs(
        &self,
        alloc: Global,
        homes: Members,
        live: Members,
        shift: u32,
    ) -> Result<Self, Memory>
        requires { is_among homes self.now }
        ensures { IfOk result (λ item. item ≡ kind.remap (λ owner. heir_of homes live shift owner) self.now) };
}

/// Who goes on for an owner: itself where it lives, else its buddy among the homes.
pub fn heir(homes: Members, live: Members, shift: u32, owner: u32) -> u32
    requires { IsTrue (is_member homes owner) }
    ensures { result ≡ heir_of homes live shift owner }
{
    if live.has(owner) {
        owner
    } else {
        homes.buddy(owner, shift)
    }
}

// How many of some items don't come after one.
fn passed<T: Linked>(item: &T, others: &[T]) -> usize
    ensures passed { result ≡ passed T.kind.first item.now others.now }
    ensures within { result ≤ length others.now }
{
    for (place, other) in others.iter().enumerate() {
        if item.comes_first(other) {
            return place;
        }
    }
    others.len()
}

// Copies of items in which dead owners are replaced, after others.
fn append_heirs<T: Linked + Drop>(
    alloc: Global,
    all: &mut Vec<T>,
    items: &[T],
    homes: Members,
    live: Members,
    shift: u32,
) -> Result<(), Memory>
    requires { All (T.is_among homes) items.now }
    ensures { OnOk result (all.new.items ≡ all.old.items ++ (map (T.kind.remap (λ owner. heir_of homes live shift owner)) items.now)) }
{
    for item in items {
        all.push(item.with_heirs(alloc, homes, live, shift)?)?;
    }
    Ok(())
}

// Copies of two parts in one rising list.
fn merged_heirs<T: Linked + Drop>(
    alloc: Global,
    own: &[T],
    other: &[T],
    homes: Members,
    live: Members,
    shift: u32,
) -> Result<Vec<T>, Memory>
    requires own { All (T.is_among homes) own.now }
    requires other { All (T.is_among homes) other.now }
    ensures { IfOk result (λ all. all.items ≡ map (T.kind.remap (λ owner. heir_of homes live shift owner)) (merged T.kind.first own.now other.now)) }
{
    let mut all = Vec::new(alloc);
    let mut rest = other;
    for item in own {
        let (before, after) = rest.split_at(passed(item, rest));
        append_heirs(alloc, &mut all, before, homes, live, shift)?;
        all.push(item.with_heirs(alloc, homes, live, shift)?)?;
        rest = after;
    }
    append_heirs(alloc, &mut all, rest, homes, live, shift)?;
    Ok(all)
}

/// The items that a rank goes on with: its own part, and its predecessor's where that is dead, in rising order, with dead
/// owners in links replaced by their buddies.
#[tactic(auto, unfolding(crate::specs::Merges::regained))]
pub fn regained<T: Linked + Drop>(
    alloc: Global,
    side: &Side<T>,
    live: Members,
    shift: u32,
) -> Result<Items<T>, Memory>
    requires own { All (T.is_among side.now.homes) side.now.own }
    requires other { All (T.is_among side.now.homes) side.now.other }
    ensures { IfOk result (λ items. items ≡ regained T.kind side.now shift live) }
{
    if live.has(side.source) {
        let mut all = Vec::new(alloc);
        append_heirs(
            alloc,
            &mut all,
            side.own.as_slice(),
            side.homes,
            live,
            shift,
        )?;
        Ok(Items::of(all))
    } else {
        Ok(Items::of(merged_heirs(
            alloc,
            side.own.as_slice(),
            side.other.as_slice(),
            side.homes,
            live,
            shift,
        )?))
    }
}
