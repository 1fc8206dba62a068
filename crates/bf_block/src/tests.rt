//! A lone root: one of whose cells spreads, and one that a regrid splits.
ghost use Rattle.std.specs.Prelude.{◌≡◌, ◌<◌, ◌≤◌, true, IfOk};
ghost use Rattle.bf_id.specs.Id.{root_id};
ghost use Rattle.bf_id.specs.Shape.{root_count};
ghost use Rattle.bf_block.specs.Block.{after_regrid};
ghost use Rattle.bf_block.specs.Setup.{case_of};

use crate::laws::{
    a_block_that_spreads_is_refined, the_walls_around_a_root_hold_samples,
    where_nothing_regrids_each_block_is_kept,
};
use crate::{Block, Memory, Opening, Point, Setup};
use bf_case::{Case, Fill, RootCells, surround};
use bf_cells::{Cells, Shell};
use bf_id::{Id, Shape};
use bf_items::Items;
use std::alloc::Global;
use std::process::Abort;
use std::test::Fail;

// The first cell has 8, the others 0; three steps, and no regrid, whatever level one might reach.
fn one_drop(alloc: Global) -> Result<Case, Memory> {
    let drop = Fill {
        low: [0, 0, 0],
        high: [0, 0, 0],
        value: 8,
    };
    Ok(Case {
        roots: Shape {
            nx: 1,
            ny: 1,
            nz: 1,
        },
        side: 2,
        levels: 2,
        ranks: 2,
        steps: 3,
        snapshot: 4,
        regrid: 0,
        refine: 7,
        coarsen: 6,
        flow: 8,
        turns: 1,
        shift: 9,
        fills: Items::of(vec![in alloc; drop]?),
        dies: Items::of(vec![in alloc; (1, 17)]?),
        order: Items::of(vec![in alloc; 1, 0]?),
    })
}

// The cells of a lone root, which all roots of its domain have.
#[derive(Drop)]
struct Lone<'a> {
    cells: &'a Cells,
}

impl<'a> RootCells for Lone<'a> {
    ghost has = { λ lone k. Unit {0} };

    ghost grid_of = { λ lone k. lone.cells.now };

    fn cells(&self, root: usize) -> &Cells {
        self.cells
    }
}

// A lone root one step later.
fn step_alone(alloc: Global, setup: &Setup, block: Block) -> Result<Block, Memory>
    requires case { block.case ≡ case_of setup.now }
    requires point { block.point ≡ after_regrid 0 }
    requires id { block.id ≡ root_id 0 }
    requires lone { root_count (case_of setup.now).roots ≡ 1 }
    requires steps { 0 < (case_of setup.now).steps }
    requires rests { (case_of setup.now).regrid ≡ 0 }
{
    let mut shell = Shell::blank(alloc, setup.side())?;
    surround(
        &mut shell,
        setup.roots(),
        &Lone {
            cells: block.cells(),
        },
        0,
    );
    the_walls_around_a_root_hold_samples();
    match block.stepped(alloc, &shell) {
        Ok(block) => Ok(block),
        Err(_) => Err(Memory),
    }
}

fn opened(rt: &impl Abort, alloc: Global) -> Result<(Opening, Setup), Memory>
    ensures { IfOk result (λ pair. pair.0 ≡ case_of pair.1) }
{
    let case = one_drop(alloc)?;
    assert!(rt; case.valid());
    Opening::of(alloc, case)
}

// The lone root at the beginning, kept by the regrid of time 0.
fn kept_first(alloc: Global, opening: &Opening, setup: &Setup) -> Result<Block, Memory>
    requires case { opening.now ≡ case_of setup.now }
    requires rests { (case_of setup.now).regrid ≡ 0 }
    ensures case { IfOk result (λ block. block.case ≡ case_of setup.now) }
    ensures point { IfOk result (λ block. block.point ≡ after_regrid 0) }
    ensures id { IfOk result (λ block. block.id ≡ root_id 0) }
{
    let _some = setup.root_count();
    let block = Block::initial(alloc, opening, 0)?;
    let _cells = block.cells();
    where_nothing_regrids_each_block_is_kept();
    Ok(block.kept())
}

fn expect_cells(rt: &impl Abort, block: &Block, values: &[u32]) {
    assert_eq!(rt; block.cells().values(), values);
}

fn expect_first_root(rt: &impl Abort, block: &Block, time: u32, regridded: bool) {
    assert_eq!(rt; block.point(), Point { time, regridded });
    assert_eq!(rt; block.id(), Id::root_of(0));
}

#[test]
fn a_drop_spreads(rt: HostRuntime) -> Result<(), Fail> {
    let (opening, setup) = opened(&rt, rt.alloc())?;
    assert!(rt; setup.regrid() == 0);
    let block = kept_first(rt.alloc(), &opening, &setup)?;
    expect_first_root(&rt, &block, 0, true);
    expect_cells(&rt, &block, [8, 0, 0, 0, 0, 0, 0, 0].as_slice());
    assert!(rt; setup.root_count() == 1);
    assert!(rt; setup.steps() == 3);
    let next = step_alone(rt.alloc(), &setup, block)?.copy()?;
    expect_first_root(&rt, &next, 1, false);
    expect_cells(&rt, &next, [5, 1, 1, 0, 1, 0, 0, 0].as_slice());
    Ok(())
}

// A lone root that regrids at once. Eight of its cells count from 1, from `low` on along each axis, and the others are 0.
fn counted(alloc: Global, side: u32, low: u32) -> Result<Case, Memory>
    requires { low ≤ 2 }
{
    let mut fills = Vec::with_capacity(alloc, 8)?;
    for octant in 0..8 {
        let at = [low + octant % 2, low + octant / 2 % 2, low + octant / 4];
        let fill = Fill {
            low: at,
            high: at,
            value: octant + 1,
        };
        fills.push(fill)?;
    }
    let mut case = one_drop(alloc)?;
    case.side = side;
    case.regrid = 1;
    case.refine = 6;
    case.fills = Items::of(fills);
    Ok(case)
}

// The children of the lone root of a case, which spreads.
fn split_root(rt: &impl Abort, alloc: Global, case: Case) -> Result<Vec<Block>, Memory> {
    assert!(rt; case.valid());
    let (opening, setup) = Opening::of(alloc, case)?;
    let _some = setup.root_count();
    let block = Block::initial(alloc, &opening, 0)?;
    assert!(rt; setup.regrid() == 1);
    assert!(rt; setup.levels() > 0);
    assert!(rt; setup.refine() < block.cells().spread());
    a_block_that_spreads_is_refined();
    match block.split(alloc) {
        Ok(blocks) => Ok(blocks),
        Err(_) => Err(Memory),
    }
}

fn expect_child(rt: &impl Abort, blocks: &[Block], octant: usize, values: &[u32]) {
    assert_eq!(rt; blocks.len(), 8);
    assert!(rt; octant < 8);
    let block = &blocks[octant];
    assert_eq!(rt; block.id(), Id::root_of(0).child(octant as u32));
    assert_eq!(rt;
        block.point(),
        Point {
            time: 0,
            regridded: true
        }
    );
    expect_cells(rt, block, values);
}

#[test]
fn a_root_of_eight_cells_is_split(rt: HostRuntime) -> Result<(), Fail> {
    let blocks = split_root(&rt, rt.alloc(), counted(rt.alloc(), 2, 0)?)?;
    expect_child(&rt, blocks.as_slice(), 0, [1; 8].as_slice());
    expect_child(&rt, blocks.as_slice(), 3, [4; 8].as_slice());
    expect_child(&rt, blocks.as_slice(), 6, [7; 8].as_slice());
    Ok(())
}

const LAST_OCTANT: [u32; 64] = [
    1, 1, 2, 2, 1, 1, 2, 2, 3, 3, 4, 4, 3, 3, 4, 4, //
    1, 1, 2, 2, 1, 1, 2, 2, 3, 3, 4, 4, 3, 3, 4, 4, //
    5, 5, 6, 6, 5, 5, 6, 6, 7, 7, 8, 8, 7, 7, 8, 8, //
    5, 5, 6, 6, 5, 5, 6, 6, 7, 7, 8, 8, 7, 7, 8, 8,
];

#[test]
fn a_root_of_64_cells_is_split(rt: HostRuntime) -> Result<(), Fail> {
    let blocks = split_root(&rt, rt.alloc(), counted(rt.alloc(), 4, 2)?)?;
    expect_child(&rt, blocks.as_slice(), 0, [0; 64].as_slice());
    expect_child(&rt, blocks.as_slice(), 7, LAST_OCTANT.as_slice());
    Ok(())
}

#[test]
fn a_setup_shows_its_case(rt: HostRuntime) -> Result<(), Fail> {
    let (_, first) = opened(&rt, rt.alloc())?;
    let setup = first.share()?;
    let numbers = [
        setup.side(),
        setup.levels(),
        setup.ranks(),
        setup.snapshot(),
        setup.regrid(),
        setup.refine(),
        setup.coarsen(),
        setup.flow(),
        setup.turns(),
        setup.shift(),
    ];
    assert_eq!(rt; numbers, [2, 2, 2, 4, 0, 7, 6, 8, 1, 9]);
    assert_eq!(rt; setup.dies(), [(1, 17)].as_slice());
    assert_eq!(rt; setup.order(), [1, 0].as_slice());
    Ok(())
}
