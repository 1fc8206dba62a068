//! The leaves after a regrid, built out of those before it.
ghost use Rattle.std.specs.Prelude.{◌≡◌, ◌≢◌, ◌+◌, ◌-◌, ◌%◌, ◌^◌, ◌<◌, ◌≤◌, ◌++◌, length, map, min, IfOk, OnOk};
ghost use Rattle.std.specs.List.{zip};
ghost use Rattle.bf_id.specs.Id.{level_of, octant_of};
ghost use Rattle.bf_case.specs.declared.target.Target.TheVariants.{Merge};
ghost use Rattle.bf_case.specs.Case.{IsValid};
ghost use Rattle.bf_case.specs.Map.{ids_of, IsMap};
ghost use Rattle.bf_case.specs.Regrid.{heirs_by, regrid, target_in};
ghost use Rattle.bf_plain.specs.Rebuild.{heirs_of_all, last_of, mean_in_last, octants_of, with_heirs, with_parent, CanPlace, IsSide};

use bf_case::{Case, Target};
use bf_cells::Cells;
use bf_edge::Memory;
use bf_id::Id;
use std::alloc::Global;

/// Adds a leaf's eight children, by rising octant.
fn split_into(id: Id, cells: &Cells, new: &mut Vec<(Id, Cells)>) -> Result<(), Memory>
    requires { level_of id < 4 }
    ensures { OnOk result (new.new.items ≡ new.old.items ++ octants_of (id, cells.now)) }
{
    for octant in 0..8 {
        new.push((id.child(octant), cells.octant_copy(octant)?))?;
    }
    Ok(())
}

/// Adds the parent of a block that is the first of its octet, with cells that are to be written.
fn add_parent(alloc: Global, side: u32, id: Id, new: &mut Vec<(Id, Cells)>) -> Result<(), Memory>
    requires side { IsSide side }
    requires below { 0 < level_of id }
    ensures { OnOk result (new.new.items ≡ with_parent side id new.old.items) }
{
    if let (Some(parent), Some(0)) = (id.parent(), id.octant()) {
        new.push((parent, Cells::filled(alloc, side, 0)?))?;
    }
    Ok(())
}

/// Writes the means of a leaf's cells into an octant of the last of the new leaves.
fn write_mean(cells: &Cells, octant: u32, new: &mut [(Id, Cells)])
    requires octal { octant < 8 }
    requires some { 0 < length new.old }
    requires sides { (last_of new.old).1.side ≡ cells.now.side }
    ensures { new.new ≡ mean_in_last octant cells.now new.old }
{
    let last = new.len() - 1;
    let (_, into) = &mut new[last];
    cells.octant_mean(octant, into);
}

/// Writes a leaf's part in the parent of its octet. The first of the eight adds the parent.
fn merge_into(
    alloc: Global,
    side: u32,
    id: Id,
    cells: &Cells,
    new: &mut Vec<(Id, Cells)>,
) -> Result<(), Memory>
    requires side { IsSide side }
    requires fits { cells.now.side ≡ side }
    requires below { 0 < level_of id }
    requires begun { octant_of id ≢ 0 → 0 < length new.old.items }
    requires sides { octant_of id ≢ 0 → (last_of new.old.items).1.side ≡ side }
    ensures { OnOk result (new.new.items ≡ with_heirs side Merge (id, cells.now) new.old.items) }
{
    add_parent(alloc, side, id, new)?;
    if let Some(octant) = id.octant() {
        write_mean(cells, octant, new.as_mut_slice());
    }
    Ok(())
}

/// Adds what comes of one more old leaf.
fn place_heirs(
    alloc: Global,
    side: u32,
    leaf: (Id, Cells),
    target: Target,
    new: &mut Vec<(Id, Cells)>,
) -> Result<(), Memory>
    requires { CanPlace side target leaf new.old.items }
    ensures { OnOk result (new.new.items ≡ with_heirs side target leaf new.old.items) }
{
    match target {
        Target::Keep => new.push(leaf)?,
        Target::Refine => {
            let (id, cells) = leaf;
            split_into(id, &cells, new)?;
        }
        Target::Merge => {
            let (id, cells) = leaf;
            merge_into(alloc, side, id, &cells, new)?;
        }
    }
    Ok(())
}

/// How many new leaves stand where a leaf of this target stood.
fn heir_count(id: Id, target: Target) -> usize
    ensures { result ≡ length (heirs_by target id) }
{
    match target {
        Target::Keep => 1,
        Target::Refine => 8,
        Target::Merge => usize::from(id.octant().unwrap_or(0) == 0),
    }
}

/// How many new leaves there are, or the greatest number of a `usize` where that is less.
fn new_count(leaves: &[(Id, Cells)], targets: &[Target]) -> usize
    ensures { result ≡ min (length (heirs_of_all (zip leaves.now targets.now))) (2 ^ 64 - 1) }
{
    let mut count = 0usize;
    for ((id, _), target) in leaves.iter().zip(targets) {
        count = heir_count(*id, *target).saturating_add(count);
    }
    count
}

/// The leaves after a regrid. The cells of kept leaves are moved, not copied.
pub(crate) fn rebuild(
    alloc: Global,
    case: &Case,
    leaves: Vec<(Id, Cells)>,
    targets: Vec<Target>,
) -> Result<Vec<(Id, Cells)>, Memory>
    requires valid { IsValid case.now }
    requires forest { IsMap case.now.roots case.now.side leaves.items }
    requires targets { targets.items ≡ map (target_in case.now leaves.items) (ids_of leaves.items) }
    ensures { IfOk result (λ new. new.items ≡ regrid case.now leaves.items) }
{
    let count = new_count(leaves.as_slice(), targets.as_slice());
    let mut new = Vec::with_capacity(alloc, count)?;
    for (leaf, target) in leaves.into_iter().zip(targets) {
        place_heirs(alloc, case.side, leaf, target, &mut new)?;
    }
    Ok(new)
}
