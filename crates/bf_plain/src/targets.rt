//! What becomes of each leaf at a regrid.
ghost use Rattle.std.specs.Prelude.{◌≡◌, ◌<◌, ◌≤◌, ◌&&◌, nat_lt, nat_le, if◌then◌else◌, Bool, List, length, map, IfOk};
ghost use Rattle.bf_id.specs.Id.{level_of, BlockId};
ghost use Rattle.bf_case.specs.Case.{IsValid};
ghost use Rattle.bf_case.specs.Map.{ids_of, IsBalancedMap};
ghost use Rattle.bf_case.specs.Regrid.{target_of};
ghost use Rattle.bf_case.specs.Wishes.{wishes_of};
ghost use Rattle.bf_case.specs.declared.target.Target.{Target};
ghost use Rattle.bf_case.specs.declared.target.Target.TheVariants.{Keep, Merge, Refine};
ghost use Rattle.bf_plain.specs.Atlas.{Charts};

use crate::atlas::Atlas;
use crate::merging::merging_marks;
use crate::refining::refined_marks;
use bf_case::{Case, Target};
use bf_cells::Cells;
use bf_edge::Memory;
use bf_id::Id;
use std::alloc::Global;

/// Marks of the leaves that wish to be refined, and of those that wish to be coarsened.
#[derive(Drop)]
struct WishMarks {
    finer: Vec<bool>,
    coarser: Vec<bool>,
}

fn wishes_finer(case: &Case, id: Id, spread: u32) -> bool
    ensures { result ≡ (nat_lt case.now.refine spread && nat_lt (level_of id) case.now.levels) }
{
    case.refine < spread && id.level() < case.levels
}

fn wishes_coarser(case: &Case, id: Id, spread: u32) -> bool
    ensures { result ≡ (nat_le spread case.now.coarsen && nat_lt 0 (level_of id)) }
{
    spread <= case.coarsen && 0 < id.level()
}

/// Marks what the leaves wish by their cells.
fn wish_marks(alloc: Global, case: &Case, leaves: &[(Id, Cells)]) -> Result<WishMarks, Memory>
    requires { IsBalancedMap case.now leaves.now }
    ensures finer { IfOk result (λ marks. marks.finer.items ≡ map (wishes_of case.now leaves.now).finer (ids_of leaves.now)) }
    ensures coarser { IfOk result (λ marks. marks.coarser.items ≡ map (wishes_of case.now leaves.now).coarser (ids_of leaves.now)) }
{
    let mut finer = Vec::with_capacity(alloc, leaves.len())?;
    let mut coarser = Vec::with_capacity(alloc, leaves.len())?;
    for (id, cells) in leaves {
        let spread = cells.spread();
        finer.push(wishes_finer(case, *id, spread))?;
        coarser.push(wishes_coarser(case, *id, spread))?;
    }
    Ok(WishMarks { finer, coarser })
}

fn target(refined: bool, merging: bool) -> Target
    ensures { result ≡ (if refined then Refine else (if merging then Merge else Keep)) }
{
    if refined {
        Target::Refine
    } else if merging {
        Target::Merge
    } else {
        Target::Keep
    }
}

/// The targets of leaves that have these marks.
fn told(alloc: Global, refined: &[bool], merging: &[bool]) -> Result<Vec<Target>, Memory>
    requires { length refined.now ≡ length merging.now }
    ensures { IfOk result (λ targets. (ids : List BlockId) (p q : BlockId → Bool) → refined.now ≡ map p ids → merging.now ≡ map q ids
        → targets.items ≡ map (λ i. if p i then Refine else (if q i then Merge else Keep)) ids) }
{
    let mut targets = Vec::with_capacity(alloc, refined.len())?;
    for (leaf, &is_refined) in refined.iter().enumerate() {
        targets.push(target(is_refined, merging[leaf]))?;
    }
    Ok(targets)
}

/// What becomes of each leaf of a map, in their order.
pub(crate) fn targets_of(
    alloc: Global,
    case: &Case,
    leaves: &[(Id, Cells)],
    atlas: &Atlas,
) -> Result<Vec<Target>, Memory>
    requires valid { IsValid case.now }
    requires map { IsBalancedMap case.now leaves.now }
    requires charts { Charts case.now.roots (ids_of leaves.now) atlas.now }
    ensures { IfOk result (λ targets. targets.items
        ≡ map (target_of case.now.roots (ids_of leaves.now) (wishes_of case.now leaves.now)) (ids_of leaves.now)) }
{
    let WishMarks { finer, coarser } = wish_marks(alloc, case, leaves)?;
    let refined = refined_marks(alloc, finer, case.roots, leaves, atlas)?;
    let merging = merging_marks(alloc, case, leaves, atlas, &coarser, &refined)?;
    told(alloc, &refined, &merging)
}

#[cfg(test)]
mod tests;
