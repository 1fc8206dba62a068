//! Marks of leaves, one for each in their order, and what a leaf marks around it.
ghost use Rattle.std.specs.Prelude.{◌≡◌, ℕ, ◌+◌, ◌<◌, ◌≤◌, ◌&&◌, ◌||◌, Bool, length, map, IfOk};
ghost use Rattle.bf_id.specs.Id.{BlockId};
ghost use Rattle.bf_case.specs.Map.{ids_of};
ghost use Rattle.bf_plain.specs.Atlas.{id_at};
ghost use Rattle.bf_plain.specs.Marks.{is_finer, is_reached, reaches, IsSurveyed};

use crate::atlas::Atlas;
use bf_cells::Cells;
use bf_edge::Memory;
use bf_id::{Id, Shape};
use std::alloc::Global;

/// Whether two numbers are those of two leaves, of which the first is so many levels finer.
fn is_finer(leaves: &[(Id, Cells)], finer: u32, leaf: usize, other: usize) -> bool
    requires few { finer ≤ 1 }
    requires leaf_in { leaf < length leaves.now }
    requires other_in { other < length leaves.now }
    ensures { result ≡ is_finer (ids_of leaves.now) finer leaf other }
{
    let (id, _) = &leaves[leaf];
    let (other_id, _) = &leaves[other];
    other != leaf && id.level() == other_id.level() + finer
}

/// Marks each leaf that touches this one, if this one is so many levels finer.
fn mark_around(
    marks: &mut [bool],
    shape: Shape,
    leaves: &[(Id, Cells)],
    atlas: &Atlas,
    finer: u32,
    leaf: usize,
)
    requires few { finer ≤ 1 }
    requires surveyed { IsSurveyed shape (ids_of leaves.now) atlas.now }
    requires leaf_in { leaf < length leaves.now }
    requires full { length marks.old ≡ length leaves.now }
    ensures marks { (p : BlockId → Bool) → marks.old ≡ map p (ids_of leaves.now)
        → marks.new ≡ map (λ i. p i || reaches shape finer (id_at (ids_of leaves.now) leaf) i) (ids_of leaves.now) }
    ensures full { length marks.new ≡ length leaves.now }
{
    let (id, _) = &leaves[leaf];
    let cube = id.cube(shape);
    for step in 0..27 {
        let found = atlas.leaf_at(cube.beside(shape, step));
        marks[found] |= is_finer(leaves, finer, leaf, found);
    }
}

/// Marks each leaf that one of these sources touches, if the source is so many levels finer.
pub(crate) fn mark_reached(
    marks: &mut [bool],
    sources: &[bool],
    shape: Shape,
    leaves: &[(Id, Cells)],
    atlas: &Atlas,
    finer: u32,
)
    requires few { finer ≤ 1 }
    requires surveyed { IsSurveyed shape (ids_of leaves.now) atlas.now }
    requires full { length marks.old ≡ length leaves.now }
    requires sources_full { length sources.now ≡ length leaves.now }
    ensures marks { (p source : BlockId → Bool) → marks.old ≡ map p (ids_of leaves.now) → sources.now ≡ map source (ids_of leaves.now)
        → marks.new ≡ map (λ i. p i || is_reached shape finer source (ids_of leaves.now) i) (ids_of leaves.now) }
    ensures full { length marks.new ≡ length leaves.now }
{
    for (leaf, &source) in sources.iter().enumerate() {
        if source {
            mark_around(marks, shape, leaves, atlas, finer, leaf);
        }
    }
}

/// The marks with those of the leaves that one of the sources touches, if the source is so many levels finer.
pub(crate) fn with_reached(
    alloc: Global,
    marks: &[bool],
    sources: &[bool],
    shape: Shape,
    leaves: &[(Id, Cells)],
    atlas: &Atlas,
    finer: u32,
) -> Result<Vec<bool>, Memory>
    requires few { finer ≤ 1 }
    requires surveyed { IsSurveyed shape (ids_of leaves.now) atlas.now }
    requires full { length marks.now ≡ length leaves.now }
    requires sources_full { length sources.now ≡ length leaves.now }
    ensures marks { IfOk result (λ after. (p source : BlockId → Bool) → marks.now ≡ map p (ids_of leaves.now) → sources.now ≡ map source (ids_of leaves.now)
        → after.items ≡ map (λ i. p i || is_reached shape finer source (ids_of leaves.now) i) (ids_of leaves.now)) }
    ensures full { IfOk result (λ after. length after.items ≡ length leaves.now) }
{
    let mut after = marks.to_vec(alloc)?;
    mark_reached(&mut after, sources, shape, leaves, atlas, finer);
    Ok(after)
}
