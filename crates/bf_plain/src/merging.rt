//! Which octets of leaves merge. A leaf that may not merge is held, and an octet merges where all its eight blocks are
//! leaves and none is held. A leaf one level finer that does not merge holds what it touches, so the levels are settled
//! one by one, from the finest on.
ghost use Rattle.std.specs.Prelude.{◌≡◌, ◌<◌, ◌≤◌, ◌+◌, ◌||◌, ◌↔◌, ℕ, length, map, not, All, Bool, IfOk, IsTrue, List};
ghost use Rattle.std.specs.Result.{OnOk};
ghost use Rattle.bf_id.specs.Id.{level_of, BlockId};
ghost use Rattle.bf_case.specs.Map.{ids_of};
ghost use Rattle.bf_case.specs.Refinement.{is_among, refined_ids};
ghost use Rattle.bf_case.specs.Wishes.{Wishes};
ghost use Rattle.bf_plain.specs.Atlas.{id_at};
ghost use Rattle.bf_plain.specs.Marks.{is_reached, IsSurveyed};
ghost use Rattle.bf_plain.specs.Octets.{is_barred, is_free, is_held, leaf_merges, stays_at, AreInOrder, StandsFree};

use crate::atlas::Atlas;
use crate::marks::mark_reached;
use bf_case::Case;
use bf_cells::Cells;
use bf_edge::Memory;
use bf_id::{Id, Shape};
use std::alloc::Global;

/// Whether this child of a block stands at a place among the leaves, and is not held.
fn stands_free(leaves: &[(Id, Cells)], held: &[bool], parent: Id, octant: u32, place: usize) -> bool
    requires shallow { level_of parent < 4 }
    requires octal { octant < 8 }
    requires full { length held.now ≡ length leaves.now }
    ensures { IsTrue result ↔ StandsFree (ids_of leaves.now) held.now parent octant place }
{
    if place >= leaves.len() {
        return false;
    }
    let (id, _) = &leaves[place];
    *id == parent.child(octant) && !held[place]
}

/// Whether the eight children of a block stand together from a place on, and none is held.
fn all_stand_free(leaves: &[(Id, Cells)], held: &[bool], parent: Id, first: usize) -> bool
    requires shallow { level_of parent < 4 }
    requires first_in { first < length leaves.now }
    requires full { length held.now ≡ length leaves.now }
    ensures { IsTrue result ↔ ((octant : ℕ) → octant < 8 → StandsFree (ids_of leaves.now) held.now parent octant (first + octant)) }
{
    for octant in 0..8 {
        if !stands_free(leaves, held, parent, octant, first + octant as usize) {
            return false;
        }
    }
    true
}

/// Whether the octet of a leaf is free to merge.
fn is_free(leaves: &[(Id, Cells)], held: &[bool], leaf: usize) -> bool
    requires leaves { AreInOrder (ids_of leaves.now) }
    requires leaf_in { leaf < length leaves.now }
    requires full { length held.now ≡ length leaves.now }
    ensures { (p : BlockId → Bool) → held.now ≡ map p (ids_of leaves.now)
        → result ≡ is_free (ids_of leaves.now) p (id_at (ids_of leaves.now) leaf) }
{
    let (id, _) = &leaves[leaf];
    match (id.parent(), id.octant()) {
        (Some(parent), Some(octant)) => {
            let before = octant as usize;
            before <= leaf && all_stand_free(leaves, held, parent, leaf - before)
        }
        _ => false,
    }
}

/// Whether a leaf is of this level and its octet is not free to merge.
fn stays_at(leaves: &[(Id, Cells)], held: &[bool], level: u32, leaf: usize) -> bool
    requires leaves { AreInOrder (ids_of leaves.now) }
    requires leaf_in { leaf < length leaves.now }
    requires full { length held.now ≡ length leaves.now }
    ensures { (p : BlockId → Bool) → held.now ≡ map p (ids_of leaves.now)
        → result ≡ stays_at (ids_of leaves.now) p level (id_at (ids_of leaves.now) leaf) }
{
    let (id, _) = &leaves[leaf];
    id.level() == level && !is_free(leaves, held, leaf)
}

/// Marks the leaves whose octets are free to merge.
fn free_marks(alloc: Global, leaves: &[(Id, Cells)], held: &[bool]) -> Result<Vec<bool>, Memory>
    requires leaves { AreInOrder (ids_of leaves.now) }
    requires full { length held.now ≡ length leaves.now }
    ensures marks { IfOk result (λ marks. (p : BlockId → Bool) → held.now ≡ map p (ids_of leaves.now)
        → marks.items ≡ map (is_free (ids_of leaves.now) p) (ids_of leaves.now)) }
    ensures full { IfOk result (λ marks. length marks.items ≡ length leaves.now) }
{
    let mut marks = Vec::with_capacity(alloc, leaves.len())?;
    for leaf in 0..leaves.len() {
        marks.push(is_free(leaves, held, leaf))?;
    }
    Ok(marks)
}

/// Marks the leaves of a level whose octets are not free to merge.
fn staying_marks(
    alloc: Global,
    leaves: &[(Id, Cells)],
    held: &[bool],
    level: u32,
) -> Result<Vec<bool>, Memory>
    requires leaves { AreInOrder (ids_of leaves.now) }
    requires full { length held.now ≡ length leaves.now }
    ensures marks { IfOk result (λ marks. (p : BlockId → Bool) → held.now ≡ map p (ids_of leaves.now)
        → marks.items ≡ map (stays_at (ids_of leaves.now) p level) (ids_of leaves.now)) }
    ensures full { IfOk result (λ marks. length marks.items ≡ length leaves.now) }
{
    let mut marks = Vec::with_capacity(alloc, leaves.len())?;
    for leaf in 0..leaves.len() {
        marks.push(stays_at(leaves, held, level, leaf))?;
    }
    Ok(marks)
}

/// Marks the leaves that do not wish to be coarsened or are refined.
fn unwilling_marks(alloc: Global, coarser: &[bool], refined: &[bool]) -> Result<Vec<bool>, Memory>
    requires full { length refined.now ≡ length coarser.now }
    ensures marks { IfOk result (λ marks. (ids : List BlockId) (c r : BlockId → Bool) → coarser.now ≡ map c ids → refined.now ≡ map r ids
        → marks.items ≡ map (λ i. not (c i) || r i) ids) }
    ensures full { IfOk result (λ marks. length marks.items ≡ length coarser.now) }
{
    let mut marks = Vec::with_capacity(alloc, coarser.len())?;
    for (leaf, &wishes) in coarser.iter().enumerate() {
        marks.push(!wishes | refined[leaf])?;
    }
    Ok(marks)
}

/// Marks the leaves that wishes and refined leaves bar from merging.
fn barred_marks(
    alloc: Global,
    shape: Shape,
    leaves: &[(Id, Cells)],
    atlas: &Atlas,
    coarser: &[bool],
    refined: &[bool],
) -> Result<Vec<bool>, Memory>
    requires surveyed { IsSurveyed shape (ids_of leaves.now) atlas.now }
    requires coarser_full { length coarser.now ≡ length leaves.now }
    requires refined_full { length refined.now ≡ length leaves.now }
    ensures marks { IfOk result (λ marks. (c r : BlockId → Bool) → coarser.now ≡ map c (ids_of leaves.now)
        → refined.now ≡ map r (ids_of leaves.now)
        → marks.items ≡ map (is_barred shape (ids_of leaves.now) c r) (ids_of leaves.now)) }
    ensures full { IfOk result (λ marks. length marks.items ≡ length leaves.now) }
{
    let mut held = unwilling_marks(alloc, coarser, refined)?;
    mark_reached(&mut held, refined, shape, leaves, atlas, 0);
    Ok(held)
}

/// Holds, too, each leaf one level coarser that a leaf of this level touches whose octet is not free. After an error
/// the marks are as they were.
fn hold_beside(
    alloc: Global,
    held: &mut [bool],
    shape: Shape,
    leaves: &[(Id, Cells)],
    atlas: &Atlas,
    level: u32,
) -> Result<(), Memory>
    requires surveyed { IsSurveyed shape (ids_of leaves.now) atlas.now }
    requires full { length held.old ≡ length leaves.now }
    ensures held { OnOk result ((p : BlockId → Bool) → held.old ≡ map p (ids_of leaves.now)
        → held.new ≡ map (λ i. p i || is_reached shape 1 (stays_at (ids_of leaves.now) p level) (ids_of leaves.now) i) (ids_of leaves.now)) }
    ensures full { length held.new ≡ length leaves.now }
{
    let staying = staying_marks(alloc, leaves, held, level)?;
    mark_reached(held, &staying, shape, leaves, atlas, 1);
    Ok(())
}

/// Holds, too, each leaf that finer ones hold, where barred leaves are held already. After an error some levels may be
/// missing.
fn hold_by_finer(
    alloc: Global,
    held: &mut [bool],
    case: &Case,
    leaves: &[(Id, Cells)],
    atlas: &Atlas,
) -> Result<(), Memory>
    requires surveyed { IsSurveyed case.now.roots (ids_of leaves.now) atlas.now }
    requires full { length held.old ≡ length leaves.now }
    ensures held { OnOk result ((w : Wishes)
        → held.old ≡ map (is_held case.now.roots (ids_of leaves.now) w (refined_ids case.now.roots (ids_of leaves.now) w) case.now.levels) (ids_of leaves.now)
        → held.new ≡ map (is_held case.now.roots (ids_of leaves.now) w (refined_ids case.now.roots (ids_of leaves.now) w) 0) (ids_of leaves.now)) }
    ensures full { length held.new ≡ length leaves.now }
{
    for settled in 0..case.levels {
        hold_beside(
            alloc,
            held,
            case.roots,
            leaves,
            atlas,
            case.levels - settled,
        )?;
    }
    Ok(())
}

/// Marks the leaves of octets that merge. Of each leaf in its order it is given whether it wishes to be coarsened and
/// whether it is refined.
pub(crate) fn merging_marks(
    alloc: Global,
    case: &Case,
    leaves: &[(Id, Cells)],
    atlas: &Atlas,
    coarser: &[bool],
    refined: &[bool],
) -> Result<Vec<bool>, Memory>
    requires surveyed { IsSurveyed case.now.roots (ids_of leaves.now) atlas.now }
    requires shallow { All (λ i. level_of i ≤ case.now.levels) (ids_of leaves.now) }
    requires coarser_full { length coarser.now ≡ length leaves.now }
    requires refined_full { length refined.now ≡ length leaves.now }
    ensures marks { IfOk result (λ marks. (w : Wishes) → coarser.now ≡ map w.coarser (ids_of leaves.now)
        → refined.now ≡ map (is_among (refined_ids case.now.roots (ids_of leaves.now) w)) (ids_of leaves.now)
        → marks.items ≡ map (leaf_merges case.now.roots (ids_of leaves.now) w (refined_ids case.now.roots (ids_of leaves.now) w)) (ids_of leaves.now)) }
    ensures full { IfOk result (λ marks. length marks.items ≡ length leaves.now) }
{
    let mut held = barred_marks(alloc, case.roots, leaves, atlas, coarser, refined)?;
    hold_by_finer(alloc, &mut held, case, leaves, atlas)?;
    free_marks(alloc, leaves, &held)
}
