//! Whom a rank tells of its marks in a round, and of what.
ghost use Rattle.std.specs.Prelude.{◌≡◌, ◌<◌, ◌==◌, ◌&&◌, not, ℕ, length, map, slice_get, IfOk, List, OnOk, Some};
ghost use Rattle.std.specs.List.{list_any};
ghost use Rattle.bf_id.specs.Id.{BlockId};
ghost use Rattle.bf_case.specs.Refinement.{is_among};
ghost use Rattle.bf_links.specs.Links.{is_owner};
ghost use Rattle.bf_links.specs.declared.link.Link.{Link};
ghost use Rattle.bf_mark_rounds.specs.Plays.{force_told, hear_all, level_told};

use bf_id::Id;
use bf_items::Items;
use bf_marks::{Flag, HasLinks, Marks, Memory};
use std::alloc::Global;

// Whether a rank owns one of the leaves that are linked with a leaf.
fn is_linked_with<L: HasLinks>(beside: &L, rank: u32) -> bool
    ensures { result ≡ is_owner (L.linked beside.now) rank }
{
    beside.links().iter().any(|link| link.owner == rank)
}

// Whether a rank owns one of the leaves that are linked with some leaves.
fn are_linked_with<L: HasLinks>(links: &[L], rank: u32) -> bool
    ensures { result ≡ list_any (λ beside. is_owner (L.linked beside) rank) links.now }
{
    links.iter().any(|beside| is_linked_with(beside, rank))
}

/// Whether another rank is told in the rounds, by the links of the own leaves: it owns a linked leaf. None tells itself,
/// though its own leaves are linked with each other.
pub fn is_peer<L: HasLinks>(rank: u32, links: &[L], other: u32) -> bool
    ensures { result ≡ not (other == rank) && list_any (λ beside. is_owner beside other) (map L.linked links.now) }
{
    other != rank && are_linked_with(links, other)
}

// Whether the own leaf at a place, which has these links, is refined and linked with one of a rank's. Of most leaves no link
// is looked at.
fn is_refined_beside<L: HasLinks>(marks: &Marks, place: usize, beside: &L, to: u32) -> bool
    requires { place < length marks.now.leaves }
    ensures { (i : BlockId) → slice_get marks.now.leaves place ≡ Some i
        → result ≡ is_among marks.now.refined.own i && is_owner (L.linked beside.now) to }
{
    marks.has_own_at(place, Flag::Refined) && is_linked_with(beside, to)
}

/// What a rank tells another in a force round: its refined leaves that are linked with one of the other's, by rising id.
/// The links are those of the own leaves, in the order of these.
pub fn force_told<L: HasLinks>(
    alloc: Global,
    marks: &Marks,
    links: &[L],
    to: u32,
) -> Result<Items<Id>, Memory>
    requires { length links.now ≡ length marks.now.leaves }
    ensures { IfOk result (λ ids. (rank : ℕ)
        → ids ≡ force_told (record { rank = rank; links = map L.linked links.now; marks = marks.now }) to) }
{
    let mut told = Vec::new(alloc);
    for (place, id) in marks.leaves().iter().enumerate() {
        if is_refined_beside(marks, place, &links[place], to) {
            told.push(*id)?;
        }
    }
    Ok(Items::of(told))
}

/// What a rank tells each peer in a round of a level: its leaves of that level that have a flag, by rising id.
pub fn level_told(alloc: Global, marks: &Marks, flag: Flag, level: u32) -> Result<Items<Id>, Memory>
    ensures { IfOk result (λ ids. (rank : ℕ) (links : List (List Link)) (to : ℕ)
        → ids ≡ level_told flag level (record { rank = rank; links = links; marks = marks.now }) to) }
{
    let mut told = marks.own_with(alloc, flag)?;
    told.retain(|id| id.level() == level);
    Ok(Items::of(told))
}

/// Hears all that another rank told.
pub fn hear_all(marks: &mut Marks, flag: Flag, ids: &[Id]) -> Result<(), Memory>
    ensures { OnOk result (marks.new ≡ hear_all flag ids.now marks.old) }
{
    for id in ids {
        marks.hear(*id, flag)?;
    }
    Ok(())
}
