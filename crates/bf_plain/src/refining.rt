//! Which leaves are refined.
ghost use Rattle.std.specs.Prelude.{◌≡◌, ◌≤◌, length, map, All, IfOk};
ghost use Rattle.bf_id.specs.Id.{level_of};
ghost use Rattle.bf_case.specs.Map.{ids_of};
ghost use Rattle.bf_case.specs.Refinement.{is_among, refined_ids};
ghost use Rattle.bf_case.specs.Wishes.{Wishes};
ghost use Rattle.bf_plain.specs.Marks.{IsSurveyed};

use crate::atlas::Atlas;
use crate::marks::with_reached;
use bf_cells::Cells;
use bf_edge::Memory;
use bf_id::{Id, Shape};
use std::alloc::Global;

/// Marks the refined leaves, where those are marked that wish it: in each round, refined leaves force those that they touch and
/// that are one level coarser. Four rounds are all, since no leaf lies more than four levels deep.
pub(crate) fn refined_marks(
    alloc: Global,
    finer: Vec<bool>,
    shape: Shape,
    leaves: &[(Id, Cells)],
    atlas: &Atlas,
) -> Result<Vec<bool>, Memory>
    requires surveyed { IsSurveyed shape (ids_of leaves.now) atlas.now }
    requires full { length finer.items ≡ length leaves.now }
    ensures marks { IfOk result (λ marks. (w : Wishes) → finer.items ≡ map w.finer (ids_of leaves.now)
        → marks.items ≡ map (is_among (refined_ids shape (ids_of leaves.now) w)) (ids_of leaves.now)) }
    ensures full { IfOk result (λ marks. length marks.items ≡ length leaves.now) }
{
    let mut marks = finer;
    for _round in 0..4u32 {
        marks = with_reached(alloc, &marks, &marks, shape, leaves, atlas, 1)?;
    }
    Ok(marks)
}
