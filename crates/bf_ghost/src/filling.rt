//! Shells round blocks, filled with what lies beside them in the model.
ghost use Rattle.std.specs.Prelude.{◌≡◌, ◌<◌, ◌+◌, All, IsTrue, IfOk, IfErr};
ghost use Rattle.bf_block.specs.Block.{before_regrid, map_at};
ghost use Rattle.bf_cells.specs.Shell.{face_values, with_wall};
ghost use Rattle.bf_case.specs.Beside.{HoldSamples};
ghost use Rattle.bf_ghost.specs.Filling.{AreStripsFor, HoldEdges, HoldsPart, IsStripFor, KeepsRest};

use crate::strip::{Strip, lay};
use bf_block::{Block, Kept};
use bf_cells::Shell;
use bf_face::Face;
use std::alloc::Global;

/// Lays a strip for a block beside the part of the block's face that it is for.
pub fn fill(shell: &mut Shell, block: &Block, strip: &Strip)
    requires side { shell.old.side ≡ block.now.case.side }
    requires strip { IsStripFor block.now.case.roots (map_at block.now.case block.now.point) block.now.id strip.now }
    ensures part { HoldsPart block.now.case.roots (map_at block.now.case block.now.point) block.now.id block.now.cells shell.new strip.now }
    ensures rest { KeepsRest block.now.case.side block.now.id strip.now shell.old shell.new }
    ensures side { shell.new.side ≡ shell.old.side }
{
    let _model = block.cells();
    lay(shell, strip);
}

/// Lays a block's own cells beside one of its faces.
pub fn mirror(shell: &mut Shell, block: &Block, face: Face)
    requires { shell.old.side ≡ block.now.cells.side }
    ensures wall { shell.new ≡ with_wall shell.old face (face_values block.now.cells face) }
    ensures side { shell.new.side ≡ shell.old.side }
{
    shell.set_wall(face, block.cells(), face);
}

// Lays a block's own cells beside each face at the domain's edge.
fn mirror_edges(shell: &mut Shell, block: &Block)
    requires side { shell.old.side ≡ block.now.case.side }
    ensures edges { HoldEdges block.now.case.roots (map_at block.now.case block.now.point) block.now.id block.now.cells shell.new }
    ensures side { shell.new.side ≡ shell.old.side }
{
    let _model = block.cells();
    let shape = block.shape();
    let cube = block.id().cube(shape);
    for face in Face::ALL {
        if cube.is_at_edge(shape, face) {
            mirror(shell, block, face);
        }
    }
}

// Lays strips for a block, in whatever order.
fn fill_all(shell: &mut Shell, block: &Block, strips: &[Strip])
    requires side { shell.old.side ≡ block.now.case.side }
    requires strips { All (IsStripFor block.now.case.roots (map_at block.now.case block.now.point) block.now.id) strips.now }
    ensures parts { All (HoldsPart block.now.case.roots (map_at block.now.case block.now.point) block.now.id block.now.cells shell.new) strips.now }
    ensures edges { HoldEdges block.now.case.roots (map_at block.now.case block.now.point) block.now.id block.now.cells shell.old
        → HoldEdges block.now.case.roots (map_at block.now.case block.now.point) block.now.id block.now.cells shell.new }
    ensures side { shell.new.side ≡ shell.old.side }
{
    let _model = block.cells();
    for strip in strips {
        fill(shell, block, strip);
    }
}

/// Lays all that lies beside a block: the strips of the leaves that share a face with it, in whatever order, and its own cells at
/// the domain's edge.
pub fn surround(shell: &mut Shell, block: &Block, strips: &[Strip])
    requires side { shell.old.side ≡ block.now.case.side }
    requires strips { AreStripsFor block.now.case.roots (map_at block.now.case block.now.point) block.now.id strips.now }
    ensures samples { HoldSamples block.now.case.roots (map_at block.now.case block.now.point) block.now.id block.now.cells shell.new }
    ensures side { shell.new.side ≡ shell.old.side }
{
    let _model = block.cells();
    mirror_edges(shell, block);
    fill_all(shell, block, strips);
}

/// One step of a block between the strips that it was told. Where there is no memory for its new cells, the block comes back as it
/// was.
pub fn step(
    alloc: Global,
    shell: &mut Shell,
    block: Block,
    strips: &[Strip],
) -> Result<Block, Kept<Block>>
    requires regridded { IsTrue block.point.regridded }
    requires time { block.point.time < block.case.steps }
    requires side { shell.old.side ≡ block.case.side }
    requires strips { AreStripsFor block.case.roots (map_at block.case block.point) block.id strips.now }
    ensures id { IfOk result (λ next. next.id ≡ block.id) }
    ensures point { IfOk result (λ next. next.point ≡ before_regrid (block.point.time + 1)) }
    ensures case { IfOk result (λ next. next.case ≡ block.case) }
    ensures kept { IfErr result (λ kept. kept.value ≡ block) }
    ensures side { shell.new.side ≡ shell.old.side }
{
    surround(shell, &block, strips);
    let _fits = block.cells();
    block.stepped(alloc, shell)
}
