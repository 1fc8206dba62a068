//! Blocks over a regrid and a step: two levels beside each other, and eight leaves that merge again.
ghost use Rattle.std.specs.Prelude.{◌≡◌, ◌<◌, ◌≤◌, All, IfOk, map};
ghost use Rattle.bf_id.specs.Id.{children_of, root_id, InShape};
ghost use Rattle.bf_id.specs.Shape.{root_count};
ghost use Rattle.bf_cells.specs.Grid.{spread_of};
ghost use Rattle.bf_case.specs.declared.target.Target.TheVariants.{Merge};
ghost use Rattle.bf_case.specs.Model.{model};
ghost use Rattle.bf_case.specs.Regrid.{heirs_by, target_in};
ghost use Rattle.bf_block.specs.Block.{after_regrid, before_regrid, BlockValue, IsModels, IsRegriddedTo};
ghost use Rattle.bf_block.specs.Eighth.{eighth_of};
ghost use Rattle.bf_block.specs.Setup.{case_of};
ghost use Rattle.bf_ghost.specs.Telling.{strips_by, AreAllLeaves};

use super::Fail;
use super::blocks::{opened, row_of_roots};
use crate::laws::strips_of_all_leaves_are_all;
use crate::{Memory, Strip, step, strip_to};
use bf_block::laws::{
    a_block_that_is_kept_stays, a_block_that_spreads_is_refined,
    at_the_beginning_a_block_that_does_not_spread_is_kept, eighths_of_siblings_are_an_octet,
    siblings_of_the_finest_level_that_spread_little_merge,
};
use bf_block::{Block, Eighth, Opening, Point, Setup};
use bf_case::{Case, Fill, Items};
use bf_cells::Shell;
use bf_id::Id;
use std::alloc::Global;
use std::process::Abort;

fn cell(place: [u32; 3], value: u32) -> Fill {
    Fill {
        low: place,
        high: place,
        value,
    }
}

// A row of roots that regrids at each time, to level 1 at most.
fn regridding(
    alloc: Global,
    count: u32,
    refine: u32,
    coarsen: u32,
    fills: Vec<Fill>,
) -> Result<Case, Memory> {
    let mut case = row_of_roots(alloc, count, cell([0, 0, 0], 0))?;
    case.levels = 1;
    case.regrid = 1;
    case.refine = refine;
    case.coarsen = coarsen;
    case.fills = Items::of(fills);
    Ok(case)
}

// What is known of each of some blocks.
fn all_known(blocks: &[Block])
    ensures { All IsModels blocks.now }
{
    for block in blocks {
        let _model = block.cells();
    }
}

// What the regrid of time 0 makes of a root: its children where it spreads too far, and else itself.
fn regridded(
    rt: &impl Abort,
    alloc: Global,
    opening: &Opening,
    setup: &Setup,
    root: u32,
) -> Result<Vec<Block>, Memory>
    requires same { opening.now ≡ case_of setup.now }
    requires below { root < root_count (case_of setup.now).roots }
    ensures ids { IfOk result (λ blocks. map (λ (b : BlockValue). b.id) blocks.items
        ≡ heirs_by (target_in (case_of setup.now) (model (case_of setup.now) 0) (root_id root)) (root_id root)) }
    ensures cases { IfOk result (λ blocks. All (λ (b : BlockValue). b.case ≡ case_of setup.now) blocks.items) }
    ensures points { IfOk result (λ blocks. All (λ (b : BlockValue). b.point ≡ after_regrid 0) blocks.items) }
{
    assert!(rt; setup.regrid() == 1);
    assert!(rt; setup.levels() > 0);
    let block = Block::initial(alloc, opening, root)?;
    if block.cells().spread() <= setup.refine() {
        at_the_beginning_a_block_that_does_not_spread_is_kept();
        a_block_that_is_kept_stays();
        return Ok(vec![in alloc; block.kept()]?);
    }
    a_block_that_spreads_is_refined();
    match block.split(alloc) {
        Ok(blocks) => Ok(blocks),
        Err(_) => Err(Memory),
    }
}

// All leaves of a case after the regrid of time 0.
fn first_leaves(
    rt: &impl Abort,
    alloc: Global,
    opening: &Opening,
    setup: &Setup,
) -> Result<Vec<Block>, Memory>
    requires { opening.now ≡ case_of setup.now }
    ensures { IfOk result (λ blocks. AreAllLeaves (case_of setup.now) (after_regrid 0) blocks.items) }
{
    assert!(rt; setup.regrid() == 1);
    let mut blocks = Vec::new(alloc);
    for root in 0..setup.root_count() {
        let mut heirs = regridded(rt, alloc, opening, setup, root)?;
        blocks.append(&mut heirs)?;
    }
    all_known(blocks.as_slice());
    Ok(blocks)
}

// What some blocks tell another one.
fn told_by(alloc: Global, blocks: &[Block], target: Id) -> Result<Vec<Strip>, Memory>
    requires { All (λ (b : BlockValue). InShape b.case.roots target) blocks.now }
    ensures { IfOk result (λ strips. strips.items ≡ strips_by blocks.now target) }
{
    let mut strips = Vec::new(alloc);
    for block in blocks {
        if let Some(strip) = strip_to(alloc, block, target)? {
            strips.push(strip)?;
        }
    }
    Ok(strips)
}

// All leaves after the first step.
fn stepped(alloc: Global, setup: &Setup, blocks: &[Block]) -> Result<Vec<Block>, Memory>
    requires all { AreAllLeaves (case_of setup.now) (after_regrid 0) blocks.now }
    requires steps { 0 < (case_of setup.now).steps }
    ensures cases { IfOk result (λ next. All (λ (b : BlockValue). b.case ≡ case_of setup.now) next.items) }
    ensures points { IfOk result (λ next. All (λ (b : BlockValue). b.point ≡ before_regrid 1) next.items) }
{
    let mut shell = Shell::blank(alloc, setup.side())?;
    let mut next = Vec::new(alloc);
    strips_of_all_leaves_are_all();
    for block in blocks {
        let strips = told_by(alloc, blocks, block.id())?;
        match step(alloc, &mut shell, block.copy()?, strips.as_slice()) {
            Ok(block) => next.push(block)?,
            Err(_) => return Err(Memory),
        }
    }
    Ok(next)
}

// All leaves of a case after the regrid of time 0 and one step.
fn after_one_step(rt: &impl Abort, alloc: Global, case: Case) -> Result<(Setup, Vec<Block>), Memory>
    ensures cases { IfOk result (λ run. All (λ (b : BlockValue). b.case ≡ case_of run.0) run.1.items) }
    ensures points { IfOk result (λ run. All (λ (b : BlockValue). b.point ≡ before_regrid 1) run.1.items) }
{
    let (opening, setup) = opened(rt, alloc, case)?;
    assert!(rt; setup.steps() == 1);
    let blocks = first_leaves(rt, alloc, &opening, &setup)?;
    let next = stepped(alloc, &setup, blocks.as_slice())?;
    Ok((setup, next))
}

// Two roots, of which the first spreads too far, and the second as far as it may.
fn two_levels(alloc: Global) -> Result<Case, Memory> {
    let fills = vec![in alloc; cell([0, 0, 0], 800), cell([3, 1, 1], 400)]?;
    regridding(alloc, 2, 400, 0, fills)
}

// By the stencil, where a mean of eight cells stands for those of a finer block, and one cell for four of a coarser one.
const AFTER_ONE_STEP: [(&str, [u32; 8]); 9] = [
    ("0.0", [800, 700, 700, 600, 700, 600, 600, 500]),
    ("0.1", [100, 0, 100, 0, 100, 0, 100, 0]),
    ("0.2", [100, 100, 0, 0, 100, 100, 0, 0]),
    ("0.3", [0; 8]),
    ("0.4", [100, 100, 100, 100, 0, 0, 0, 0]),
    ("0.5", [0; 8]),
    ("0.6", [0; 8]),
    ("0.7", [0; 8]),
    ("1", [0, 0, 0, 50, 0, 50, 50, 250]),
];

#[test]
fn a_step_goes_across_two_levels(rt: HostRuntime) -> Result<(), Fail> {
    let (_, blocks) = after_one_step(&rt, rt.alloc(), two_levels(rt.alloc())?)?;
    assert_eq!(rt; blocks.len(), 9);
    for (block, (id, cells)) in blocks.iter().zip(AFTER_ONE_STEP) {
        assert_eq!(rt; Some(block.id()), Id::parse(id));
        assert_eq!(rt; block.cells().values(), cells.as_slice(), "of block {id}");
    }
    Ok(())
}

// A lone root whose cells rise by 8 from one to the next. After a step each of its children spreads by 7, as far as it may to
// merge.
fn rising_root(alloc: Global) -> Result<Case, Memory> {
    let mut fills = Vec::with_capacity(alloc, 8)?;
    for octant in 0..8 {
        let place = [octant % 2, octant / 2 % 2, octant / 4];
        fills.push(cell(place, 8 * octant))?;
    }
    regridding(alloc, 1, 55, 7, fills)
}

// Its cells after it has merged again: the means of the children's cells, rounded down.
const MERGED: [u32; 8] = [3, 10, 17, 24, 31, 38, 45, 52];

fn expect_children_of_first(rt: &impl Abort, blocks: &[Block])
    ensures { map (λ (b : BlockValue). b.id) blocks.now ≡ children_of (root_id 0) }
{
    assert_eq!(rt; blocks.len(), 8);
    for octant in 0..8 {
        let child = Id::root_of(0).child(octant as u32);
        assert!(rt; blocks[octant].id() == child);
    }
}

fn expect_spreads(rt: &impl Abort, blocks: &[Block], limit: u32)
    ensures { All (λ (b : BlockValue). spread_of b.cells ≤ limit) blocks.now }
{
    for block in blocks {
        assert!(rt; block.cells().spread() <= limit);
    }
}

fn eighths(alloc: Global, blocks: &[Block]) -> Result<Vec<Eighth>, Memory>
    requires { All (λ (b : BlockValue). IsRegriddedTo Merge b.case b.point b.id) blocks.now }
    ensures { IfOk result (λ parts. parts.items ≡ map eighth_of blocks.now) }
{
    let mut parts = Vec::new(alloc);
    for block in blocks {
        parts.push(block.eighth()?)?;
    }
    Ok(parts)
}

// An eighth of a block of two cells along an edge is one mean, so its sum is that.
fn expect_means(rt: &impl Abort, parts: &[Eighth]) {
    for (part, mean) in parts.iter().zip(MERGED) {
        assert_eq!(rt; part.sum(), u64::from(mean));
    }
}

// The first root, into which the regrid of time 1 merges its children. They are of the finest level.
fn merged(rt: &impl Abort, alloc: Global, setup: &Setup, blocks: &[Block]) -> Result<Block, Memory>
    requires cases { All (λ (b : BlockValue). b.case ≡ case_of setup.now) blocks.now }
    requires points { All (λ (b : BlockValue). b.point ≡ before_regrid 1) blocks.now }
{
    expect_children_of_first(rt, blocks);
    expect_spreads(rt, blocks, setup.coarsen());
    assert!(rt; setup.regrid() == 1);
    assert!(rt; setup.levels() == 1);
    all_known(blocks);
    siblings_of_the_finest_level_that_spread_little_merge();
    eighths_of_siblings_are_an_octet();
    let parts = eighths(alloc, blocks)?;
    expect_means(rt, parts.as_slice());
    match Block::merged(alloc, parts) {
        Ok(block) => Ok(block),
        Err(_) => Err(Memory),
    }
}

#[test]
fn eight_children_merge_again(rt: HostRuntime) -> Result<(), Fail> {
    let (setup, blocks) = after_one_step(&rt, rt.alloc(), rising_root(rt.alloc())?)?;
    let root = merged(&rt, rt.alloc(), &setup, blocks.as_slice())?;
    assert_eq!(rt; root.id(), Id::root_of(0));
    assert_eq!(rt;
        root.point(),
        Point {
            time: 1,
            regridded: true
        }
    );
    assert_eq!(rt; root.cells().values(), MERGED.as_slice());
    Ok(())
}
