//! One step of a map: of each leaf, between the walls around it.
ghost use Rattle.std.specs.Prelude.{◌≡◌, ℕ, ◌+◌, ◌*◌, ◌%◌, ◌<◌, ◌≤◌, length, slice_index, map, IfOk};
ghost use Rattle.bf_cells.specs.Rows.{piece_at};
ghost use Rattle.bf_case.specs.Case.{IsValid};
ghost use Rattle.bf_case.specs.Map.{ids_of, IsBalancedMap};
ghost use Rattle.bf_case.specs.Stencil.{stencil};
ghost use Rattle.bf_plain.specs.Atlas.{id_at};
ghost use Rattle.bf_plain.specs.Step.{cube_of, stepped_cells, AreLoaded, HaveSide, HoldsStep};
ghost use Rattle.bf_plain.specs.Survey.{IsCharted};

use crate::atlas::Atlas;
use crate::copies::copied;
use crate::walls::{Site, Survey};
use bf_case::{Case, Map};
use bf_cells::{Cells, Shell};
use bf_edge::Memory;
use bf_id::Id;
use bf_items::Items;
use std::alloc::Global;

/// One step of a leaf's cells, written to `into`. The shell is working space.
fn step_leaf(survey: Survey<'_>, own: usize, shell: &mut Shell, into: &mut Cells)
    requires charted { IsCharted survey.case.now survey.leaves.now survey.atlas.now }
    requires own_in { own < length survey.leaves.now }
    requires side { shell.old.side ≡ survey.case.now.side }
    requires into_side { into.old.side ≡ survey.case.now.side }
    ensures cells { let s = survey.entry in
        into.new ≡ stepped_cells s.case.now.roots s.case.now.side s.leaves.now (id_at (ids_of s.leaves.now) own) }
    ensures side { shell.new.side ≡ shell.old.side }
    ensures into_side { into.new.side ≡ into.old.side }
{
    let (id, cells) = &survey.leaves[own];
    let cube = id.cube(survey.case.roots);
    let site = Site {
        id: *id,
        cells,
        cube,
    };
    survey.surround(shell, &site);
    cells.kernel(shell, into);
}

/// The values of all leaves after a step, one leaf after another. The shell and `scratch` are working space.
fn step_values(survey: Survey<'_>, shell: &mut Shell, scratch: &mut Cells, fresh: &mut [u32])
    requires charted { IsCharted survey.case.now survey.leaves.now survey.atlas.now }
    requires side { shell.old.side ≡ survey.case.now.side }
    requires scratch_side { scratch.old.side ≡ survey.case.now.side }
    requires room { length fresh.old ≡ cube_of survey.case.now.side * length survey.leaves.now }
    ensures fresh { let s = survey.entry in HoldsStep s.case.now.roots s.case.now.side s.leaves.now fresh.new }
    ensures side { shell.new.side ≡ shell.old.side }
    ensures scratch_side { scratch.new.side ≡ scratch.old.side }
{
    let side = survey.case.side as usize;
    let size = side * side * side;
    for own in 0..survey.leaves.len() {
        step_leaf(survey, own, shell, scratch);
        let start = size * own;
        fresh[start..start + size].copy_from_slice(scratch.values());
    }
}

/// Gives the leaves these values, one leaf after another.
fn load_values(leaves: &mut [(Id, Cells)], side: u32, fresh: &[u32])
    requires narrow { side ≤ 16 }
    requires sides { HaveSide side leaves.old }
    requires room { length fresh.now ≡ cube_of side * length leaves.old }
    ensures { AreLoaded side leaves.old leaves.new fresh.now (length leaves.old) }
{
    let side = side as usize;
    let size = side * side * side;
    for own in 0..leaves.len() {
        let start = size * own;
        let (_, cells) = &mut leaves[own];
        cells.load(&fresh[start..start + size]);
    }
}

/// One step of a map, in place. The shell, `scratch` and `fresh`, which has a place for each cell, are working space.
pub(crate) fn step(
    case: &Case,
    leaves: &mut [(Id, Cells)],
    atlas: &Atlas,
    shell: &mut Shell,
    scratch: &mut Cells,
    fresh: &mut [u32],
)
    requires charted { IsCharted case.now leaves.old atlas.now }
    requires side { shell.old.side ≡ case.now.side }
    requires scratch_side { scratch.old.side ≡ case.now.side }
    requires room { length fresh.old ≡ cube_of case.now.side * length leaves.old }
    ensures leaves { leaves.new ≡ stencil case.now.roots case.now.side leaves.old }
    ensures side { shell.new.side ≡ shell.old.side }
    ensures scratch_side { scratch.new.side ≡ scratch.old.side }
    ensures room { length fresh.new ≡ length fresh.old }
{
    let survey = Survey {
        case,
        leaves,
        atlas,
    };
    step_values(survey, shell, scratch, fresh);
    load_values(leaves, case.side, fresh);
}

/// A place for each cell of so many leaves.
pub(crate) fn blank_values(alloc: Global, side: u32, count: usize) -> Result<Vec<u32>, Memory>
    requires narrow { side ≤ 16 }
    ensures { IfOk result (λ values. length values.items ≡ cube_of side * count) }
{
    let size = (side * side * side) as usize;
    match size.checked_mul(count) {
        Some(room) => vec![in alloc; 0u32; room],
        None => Err(Memory),
    }
}

/// The map after a step.
pub fn stepped(alloc: Global, case: &Case, map: &Map) -> Result<Map, Memory>
    requires valid { IsValid case.now }
    requires forest { IsBalancedMap case.now map.now.leaves }
    ensures leaves { IfOk result (λ m. m.leaves ≡ stencil case.now.roots case.now.side map.now.leaves) }
    ensures side { IfOk result (λ m. m.side ≡ case.now.side) }
{
    let mut leaves = copied(alloc, map.leaves.as_slice())?;
    let atlas = Atlas::of(alloc, case, leaves.as_slice())?;
    let mut shell = Shell::blank(alloc, case.side)?;
    let mut scratch = Cells::filled(alloc, case.side, 0)?;
    let mut fresh = blank_values(alloc, case.side, leaves.len())?;
    step(
        case,
        leaves.as_mut_slice(),
        &atlas,
        &mut shell,
        &mut scratch,
        fresh.as_mut_slice(),
    );
    Ok(Map {
        side: case.side,
        leaves: Items::of(leaves),
    })
}
