//! Blocks of a run: what two roots tell each other, and a lone root that is told nothing.
ghost use Rattle.std.specs.Prelude.{◌≡◌, ◌<◌, IfOk};
ghost use Rattle.bf_id.specs.Id.{root_id, InShape};
ghost use Rattle.bf_id.specs.Shape.{root_count};
ghost use Rattle.bf_block.specs.Block.{after_regrid};
ghost use Rattle.bf_block.specs.Setup.{case_of};

use super::Fail;
use crate::laws::what_a_block_tells_is_a_strip_for_it;
use crate::{Memory, Strip, fill, mirror, step, strip_for, strip_to};
use bf_block::laws::where_nothing_regrids_each_block_is_kept;
use bf_block::{Block, Opening, Setup};
use bf_case::laws::where_nothing_regrids_the_roots_stay;
use bf_case::{Case, Fill, Items};
use bf_cells::{Cells, Shell};
use bf_face::Face;
use bf_id::{Id, Shape};
use std::alloc::Global;
use std::process::Abort;

// A row of roots of two cells along an edge, with this fill, and one step.
pub(super) fn row_of_roots(alloc: Global, count: u32, fill: Fill) -> Result<Case, Memory> {
    Ok(Case {
        roots: Shape {
            nx: count,
            ny: 1,
            nz: 1,
        },
        side: 2,
        levels: 0,
        ranks: 1,
        steps: 1,
        snapshot: 1,
        regrid: 0,
        refine: 7,
        coarsen: 6,
        flow: 0,
        turns: 0,
        shift: 0,
        fills: Items::of(vec![in alloc; fill]?),
        dies: Items::of(Vec::new(alloc)),
        order: Items::of(Vec::new(alloc)),
    })
}

pub(super) fn opened(rt: &impl Abort, alloc: Global, case: Case) -> Result<(Opening, Setup), Memory>
    ensures { IfOk result (λ pair. pair.0 ≡ case_of pair.1) }
{
    assert!(rt; case.valid());
    Opening::of(alloc, case)
}

// A root at the beginning, kept by the regrid of time 0.
fn kept_first(
    rt: &impl Abort,
    alloc: Global,
    opening: &Opening,
    setup: &Setup,
    root: u32,
) -> Result<Block, Memory>
    requires { opening.now ≡ case_of setup.now }
    ensures case { IfOk result (λ block. block.case ≡ case_of setup.now) }
    ensures point { IfOk result (λ block. block.point ≡ after_regrid 0) }
    ensures id { IfOk result (λ block. block.id ≡ root_id root) }
    ensures inside { IfOk result (λ block. InShape (case_of setup.now).roots block.id) }
{
    assert!(rt; root < setup.root_count());
    assert!(rt; setup.regrid() == 0);
    let block = Block::initial(alloc, opening, root)?;
    let _model = block.cells();
    where_nothing_regrids_each_block_is_kept();
    Ok(block.kept())
}

// The strip that one block tells another, laid round the other one, whose own cells stand beside its other faces.
fn told(alloc: Global, setup: &Setup, target: &Block, source: &Block) -> Result<Shell, Memory>
    requires case { target.now.case ≡ case_of setup.now }
    requires same { source.now.case ≡ case_of setup.now }
    requires points { source.now.point ≡ target.now.point }
    requires inside { InShape (case_of setup.now).roots target.now.id }
    requires its_inside { InShape (case_of setup.now).roots source.now.id }
    ensures { IfOk result (λ shell. shell.side ≡ target.now.cells.side) }
{
    let mut shell = Shell::blank(alloc, setup.side())?;
    let _own = target.cells();
    let _its = source.cells();
    for face in Face::ALL {
        mirror(&mut shell, target, face);
    }
    what_a_block_tells_is_a_strip_for_it();
    if let Some(strip) = strip_to(alloc, source, target.id())? {
        fill(&mut shell, target, &strip);
    }
    Ok(shell)
}

// The strip between two roots, by the call that asks for one.
fn asked(rt: &impl Abort, alloc: Global, target: &Block, source: &Block) -> Result<Strip, Memory>
    requires inside { InShape source.now.case.roots target.now.id }
    requires its_inside { InShape source.now.case.roots source.now.id }
{
    let shape = source.shape();
    assert!(rt; target.id().face(source.id(), shape) == Some(Face::XLow));
    strip_for(alloc, source, target.id())
}

// The block one step later, between the walls of the shell.
fn after(alloc: Global, block: &Block, shell: &Shell) -> Result<Cells, Memory>
    requires { shell.now.side ≡ block.now.cells.side }
{
    let cells = block.cells();
    let mut next = Cells::filled(alloc, cells.side(), 0)?;
    cells.kernel(shell, &mut next);
    Ok(next)
}

// The two roots of a row, of which the first is full.
fn two_roots(rt: &impl Abort, alloc: Global) -> Result<(Setup, Block, Block), Memory>
    ensures case { IfOk result (λ row. row.1.case ≡ case_of row.0) }
    ensures same { IfOk result (λ row. row.2.case ≡ case_of row.0) }
    ensures points { IfOk result (λ row. row.1.point ≡ row.2.point) }
    ensures inside { IfOk result (λ row. InShape (case_of row.0).roots row.1.id) }
    ensures its_inside { IfOk result (λ row. InShape (case_of row.0).roots row.2.id) }
{
    let full = Fill {
        low: [0, 0, 0],
        high: [1, 1, 1],
        value: 80,
    };
    let case = row_of_roots(alloc, 2, full)?;
    let (opening, setup) = opened(rt, alloc, case)?;
    let first = kept_first(rt, alloc, &opening, &setup, 0)?;
    let second = kept_first(rt, alloc, &opening, &setup, 1)?;
    Ok((setup, first, second))
}

#[test]
fn a_root_hears_the_other(rt: HostRuntime) -> Result<(), Fail> {
    let (setup, first, second) = two_roots(&rt, rt.alloc())?;
    let shell = told(rt.alloc(), &setup, &first, &second)?;
    let next = after(rt.alloc(), &first, &shell)?;
    assert_eq!(rt; next.values(), [80, 70, 80, 70, 80, 70, 80, 70].as_slice());
    Ok(())
}

#[test]
fn a_strip_is_asked_for(rt: HostRuntime) -> Result<(), Fail> {
    let (_, first, second) = two_roots(&rt, rt.alloc())?;
    let strip = asked(&rt, rt.alloc(), &second, &first)?;
    assert_eq!(rt; strip.values(), [80; 4].as_slice());
    Ok(())
}

// A lone root one step later: it is told nothing.
fn step_alone(alloc: Global, setup: &Setup, block: Block) -> Result<Block, Memory>
    requires case { block.case ≡ case_of setup.now }
    requires point { block.point ≡ after_regrid 0 }
    requires id { block.id ≡ root_id 0 }
    requires lone { root_count (case_of setup.now).roots ≡ 1 }
    requires steps { 0 < (case_of setup.now).steps }
    requires rests { (case_of setup.now).regrid ≡ 0 }
{
    let mut shell = Shell::blank(alloc, setup.side())?;
    where_nothing_regrids_the_roots_stay();
    let strips: Vec<Strip> = Vec::new(alloc);
    match step(alloc, &mut shell, block, strips.as_slice()) {
        Ok(block) => Ok(block),
        Err(_) => Err(Memory),
    }
}

fn lone_root(rt: &impl Abort, alloc: Global) -> Result<Block, Memory> {
    let drop = Fill {
        low: [0, 0, 0],
        high: [0, 0, 0],
        value: 8,
    };
    let case = row_of_roots(alloc, 1, drop)?;
    let (opening, setup) = opened(rt, alloc, case)?;
    let block = kept_first(rt, alloc, &opening, &setup, 0)?;
    assert!(rt; setup.root_count() == 1);
    assert!(rt; setup.steps() == 1);
    assert!(rt; setup.regrid() == 0);
    step_alone(alloc, &setup, block)
}

#[test]
fn a_lone_root_steps(rt: HostRuntime) -> Result<(), Fail> {
    let next = lone_root(&rt, rt.alloc())?;
    assert_eq!(rt; next.cells().values(), [5, 1, 1, 0, 1, 0, 0, 0].as_slice());
    Ok(())
}
