//! A root at the beginning: its cells, filled.
ghost use Rattle.std.specs.Prelude.{◌≡◌, ℕ, ◌+◌, ◌-◌, ◌*◌, ◌/◌, ◌%◌, ◌^◌, ◌<◌, ◌≤◌, slice_index, All, IfOk};
ghost use Rattle.bf_id.specs.Shape.{IsShape, root_count};
ghost use Rattle.bf_cells.specs.Grid.{filled_with, IsGrid};
ghost use Rattle.bf_case.specs.Case.{IsFill, IsValid};
ghost use Rattle.bf_case.specs.Model.{filled_root, first_cell, is_between};
ghost use Rattle.bf_case.specs.Filling.{is_within, with_box, with_fill, filled_grid, voxel_at, HasRoom};

use crate::case::{Case, Fill};
use bf_cells::Cells;
use bf_id::Shape;
use std::alloc::{AllocError as Memory, Global};

/// Some cells of a block along one axis: from one up to another, which is not among them.
#[derive(Clone, Copy)]
struct Stretch {
    from: u32,
    end: u32,
}

/// A box of a block's cells.
#[derive(Clone, Copy)]
struct Region {
    along_x: Stretch,
    along_y: Stretch,
    along_z: Stretch,
}

impl Stretch {
    /// What the stretch from `low` to `high`, both included, has of the cells of a block that begins at `first`.
    fn of_block(low: u32, high: u32, first: u32, side: u32) -> Stretch
        requires high_fits { high + 1 < 2 ^ 32 }
        ensures ordered { result.from ≤ result.end }
        ensures inside { result.end ≤ side }
        ensures cells { (cell : ℕ) → cell < side → is_within result.from result.end cell ≡ is_between low high (first + cell) }
    {
        let end = (high + 1).saturating_sub(first).min(side);
        Stretch {
            from: low.saturating_sub(first).min(end),
            end,
        }
    }
}

/// Gives one value to the cells of a box in one layer.
fn paint_layer(cells: &mut Cells, region: Region, z: u32, value: u32)
    requires grid { IsGrid cells.old }
    requires x_ordered { region.along_x.from ≤ region.along_x.end }
    requires x_inside { region.along_x.end ≤ cells.old.side }
    requires y_ordered { region.along_y.from ≤ region.along_y.end }
    requires y_inside { region.along_y.end ≤ cells.old.side }
    requires z_inside { z < cells.old.side }
    ensures { cells.new
        ≡ with_box cells.old region.along_x.from region.along_x.end region.along_y.from region.along_y.end z (z + 1) value }
{
    for y in region.along_y.from..region.along_y.end {
        cells.put_row(region.along_x.from, region.along_x.end, y, z, value);
    }
}

/// Gives one value to the cells of a box.
fn paint_region(cells: &mut Cells, region: Region, value: u32)
    requires grid { IsGrid cells.old }
    requires x_ordered { region.along_x.from ≤ region.along_x.end }
    requires x_inside { region.along_x.end ≤ cells.old.side }
    requires y_ordered { region.along_y.from ≤ region.along_y.end }
    requires y_inside { region.along_y.end ≤ cells.old.side }
    requires z_ordered { region.along_z.from ≤ region.along_z.end }
    requires z_inside { region.along_z.end ≤ cells.old.side }
    ensures { cells.new
        ≡ with_box cells.old region.along_x.from region.along_x.end region.along_y.from region.along_y.end
        region.along_z.from region.along_z.end value }
{
    for z in region.along_z.from..region.along_z.end {
        paint_layer(cells, region, z, value);
    }
}

/// Paints what a fill has of a block that begins at `first`.
fn paint(cells: &mut Cells, first: [u32; 3], fill: &Fill)
    requires { HasRoom fill.now }
    ensures { cells.new ≡ with_fill cells.old (voxel_at first) fill.now }
{
    let side = cells.side();
    let region = Region {
        along_x: Stretch::of_block(fill.low[0], fill.high[0], first[0], side),
        along_y: Stretch::of_block(fill.low[1], fill.high[1], first[1], side),
        along_z: Stretch::of_block(fill.low[2], fill.high[2], first[2], side),
    };
    paint_region(cells, region, fill.value);
}

/// The cells of a block that begins at `first`, after all fills in turn.
fn filled_cells(alloc: Global, side: u32, first: [u32; 3], fills: &[Fill]) -> Result<Cells, Memory>
    requires even { side % 2 ≡ 0 }
    requires wide { 2 ≤ side }
    requires narrow { side ≤ 16 }
    requires fills { All HasRoom fills.now }
    ensures { IfOk result (λ cells. cells ≡ filled_grid side (voxel_at first) fills.now) }
{
    let mut cells = Cells::filled(alloc, side, 0)?;
    for fill in fills {
        paint(&mut cells, first, fill);
    }
    Ok(cells)
}

/// Where a root begins, in cells of level 0.
fn beginning_of(shape: Shape, side: u32, root: u32) -> [u32; 3]
    requires shape { IsShape shape }
    requires narrow { side ≤ 16 }
    requires root { root < root_count shape }
    ensures { voxel_at result ≡ first_cell shape side root }
{
    [
        side * (root % shape.nx),
        side * (root / shape.nx % shape.ny),
        side * (root / shape.nx / shape.ny),
    ]
}

/// The cells of a root at the beginning: 0, or the value of the last fill that has the cell.
pub fn filled_root(alloc: Global, case: &Case, root: u32) -> Result<Cells, Memory>
    requires valid { IsValid case.now }
    requires in_shape { root < root_count case.now.roots }
    ensures { IfOk result (λ cells. cells ≡ (filled_root case.now root).1) }
{
    let first = beginning_of(case.roots, case.side, root);
    filled_cells(alloc, case.side, first, case.fills.as_slice())
}

/// Paints what a fill has of a root.
pub fn fill_root(cells: &mut Cells, case: &Case, root: u32, fill: &Fill)
    requires valid { IsValid case.now }
    requires in_shape { root < root_count case.now.roots }
    requires fill { IsFill case.now.roots case.now.side fill.now }
    ensures { cells.new ≡ with_fill cells.old (first_cell case.now.roots case.now.side root) fill.now }
{
    paint(cells, beginning_of(case.roots, case.side, root), fill);
}
