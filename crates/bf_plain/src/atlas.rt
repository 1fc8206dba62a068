//! Which leaf has a place of the domain.
ghost use Rattle.std.specs.Prelude.{◌≡◌, ℕ, ◌+◌, ◌*◌, ◌/◌, ◌%◌, ◌^◌, ◌<◌, ◌≤◌, length, slice_index, All, IfOk};
ghost use Rattle.bf_id.specs.Cube.{Cube, Holds, Voxel};
ghost use Rattle.bf_id.specs.Id.{box_of, level_of, InShape, IsId};
ghost use Rattle.bf_id.specs.Shape.{IsShape, InDomain};
ghost use Rattle.bf_case.specs.Case.{IsValid};
ghost use Rattle.bf_case.specs.Map.{ids_of, IsBalancedMap};
ghost use Rattle.bf_case.specs.Sample.{scale_of};
ghost use Rattle.bf_plain.specs.Atlas.{
  boxes_along,
  box_at,
  box_in,
  box_with,
  chart_place,
  id_at,
  number_at,
  place_of,
  Charts,
  HasUnit,
};

use bf_case::Case;
use bf_cells::Cells;
use bf_edge::Memory;
use bf_id::{Cube, Id, Shape, Voxel};
use std::alloc::Global;
use std::marker::Model;

/// For each box of the finest level, the number of the leaf that has it.
#[derive(Drop)]
pub struct Atlas {
    shape: Shape,
    level: u32,
    numbers: Vec<u32>,
}

impl Model for Atlas {
    ghost use Rattle.bf_id.specs.Shape.{IsShape};
    ghost use Rattle.bf_plain.specs.Atlas.{boxes_along, Chart};
    ghost use Rattle.std.specs.Prelude.{◌≡◌, ◌*◌, ◌≤◌, length};

    ghost Value = { Chart };

    ghost view = { λ a. record { shape = a.shape; level = a.level; numbers = a.numbers.items } };

    ghost invariant = { λ a. record {
      shape : IsShape a.shape;
      level : a.level ≤ 4;
      full : length a.numbers.items
          ≡ boxes_along a.shape.nx a.level * (boxes_along a.shape.ny a.level * boxes_along a.shape.nz a.level);
    } };
}

/// How many boxes of a level there are along so many roots.
fn boxes_along(roots: u32, level: u32) -> usize
    requires few { roots ≤ 16 }
    requires shallow { level ≤ 4 }
    ensures exact { result ≡ boxes_along roots level }
    ensures few { result ≤ 256 }
{
    (roots as usize) << level
}

/// How many boxes there are along x and along y in the whole domain.
#[derive(Clone, Copy)]
struct Rows {
    wide: usize,
    deep: usize,
}

/// Where the list has the number of a box.
fn place_of(rows: Rows, x: usize, y: usize, z: usize) -> usize
    requires wide { rows.wide ≤ 256 }
    requires deep { rows.deep ≤ 256 }
    requires x_in { x < 256 }
    requires y_in { y < 256 }
    requires z_in { z < 256 }
    ensures exact { result ≡ place_of rows.wide rows.deep (record { x = x; y = y; z = z }) }
    ensures small { result < 2 ^ 32 }
{
    x + rows.wide * (y + rows.deep * z)
}

/// Where the list of a domain's boxes of a level has the number for a unit.
fn chart_place(shape: Shape, level: u32, unit: Voxel) -> usize
    requires domain { IsShape shape }
    requires shallow { level ≤ 4 }
    requires inside { InDomain shape unit }
    ensures { result ≡ chart_place shape level unit }
{
    let rows = Rows {
        wide: boxes_along(shape.nx, level),
        deep: boxes_along(shape.ny, level),
    };
    let shift = 4 - level;
    place_of(
        rows,
        (unit.x >> shift) as usize,
        (unit.y >> shift) as usize,
        (unit.z >> shift) as usize,
    )
}

/// Where the list has the number of one of an extent's boxes, which are taken in turn. Extents are told in boxes.
fn place_in(rows: Rows, extent: Cube, step: usize) -> usize
    requires wide { rows.wide ≤ 256 }
    requires deep { rows.deep ≤ 256 }
    requires along_x { extent.x + extent.edge ≤ rows.wide }
    requires along_y { extent.y + extent.edge ≤ rows.deep }
    requires along_z { extent.z + extent.edge ≤ 256 }
    requires step { step < extent.edge * (extent.edge * extent.edge) }
    ensures exact { result ≡ place_of rows.wide rows.deep (box_in extent step) }
    ensures small { result < 2 ^ 32 }
{
    let [x, y, z] = extent.corner();
    let edge = extent.edge() as usize;
    place_of(
        rows,
        x as usize + step % edge,
        y as usize + step / edge % edge,
        z as usize + step / edge / edge,
    )
}

/// Gives each box of an extent this number.
fn paint(numbers: &mut [u32], rows: Rows, extent: Cube, number: u32)
    requires wide { rows.wide ≤ 256 }
    requires deep { rows.deep ≤ 256 }
    requires along_x { extent.x + extent.edge ≤ rows.wide }
    requires along_y { extent.y + extent.edge ≤ rows.deep }
    requires along_z { extent.z + extent.edge ≤ 256 }
    requires room { rows.wide * (rows.deep * (extent.z + extent.edge)) ≤ length numbers.old }
    ensures painted { (place : ℕ) → Holds extent (box_at rows.wide rows.deep place) → slice_index numbers.new place ≡ number }
    ensures kept { (place : ℕ) → (Holds extent (box_at rows.wide rows.deep place) → ⊥) → slice_index numbers.new place ≡ slice_index numbers.old place }
    ensures length { length numbers.new ≡ length numbers.old }
{
    let edge = extent.edge() as usize;
    for step in 0..edge * edge * edge {
        numbers[place_in(rows, extent, step)] = number;
    }
}

/// Gives each box the number of the leaf that has it. Boxes in no leaf keep their numbers.
fn number_boxes(numbers: &mut [u32], shape: Shape, level: u32, leaves: &[(Id, Cells)])
    requires domain { IsShape shape }
    requires shallow { level ≤ 4 }
    requires ids { All IsId (ids_of leaves.now) }
    requires in_shape { All (InShape shape) (ids_of leaves.now) }
    requires coarse { All (λ i. level_of i ≤ level) (ids_of leaves.now) }
    requires few { length leaves.now < 2 ^ 32 }
    requires full { length numbers.old ≡ boxes_along shape.nx level * (boxes_along shape.ny level * boxes_along shape.nz level) }
    ensures leaves { (v : Voxel) (k : ℕ) → InDomain shape v → k < length leaves.now → Holds (box_of shape (id_at (ids_of leaves.now) k)) v
        → HasUnit shape (ids_of leaves.now) v (slice_index numbers.new (chart_place shape level v)) }
    ensures length { length numbers.new ≡ length numbers.old }
{
    let rows = Rows {
        wide: boxes_along(shape.nx, level),
        deep: boxes_along(shape.ny, level),
    };
    for (number, (id, _)) in leaves.iter().enumerate() {
        let extent = id.cube(shape).in_boxes(level);
        paint(numbers, rows, extent, number as u32);
    }
}

impl Atlas {
    /// The atlas of a map.
    pub fn of(alloc: Global, case: &Case, leaves: &[(Id, Cells)]) -> Result<Atlas, Memory>
        requires valid { IsValid case.now }
        requires map { IsBalancedMap case.now leaves.now }
        ensures { IfOk result (Charts case.now.roots (ids_of leaves.now)) }
    {
        let shape = case.roots;
        let level = case.levels;
        let count = boxes_along(shape.nx, level)
            * (boxes_along(shape.ny, level) * boxes_along(shape.nz, level));
        let mut numbers = vec![in alloc; 0u32; count]?;
        number_boxes(&mut numbers, shape, level, leaves);
        Ok(Atlas {
            shape,
            level,
            numbers,
        })
    }

    /// The number of the leaf that has a unit.
    pub fn leaf_at(&self, unit: Voxel) -> usize
        requires { InDomain self.now.shape unit }
        ensures { result ≡ number_at self.now unit }
    {
        self.numbers[chart_place(self.shape, self.level, unit)] as usize
    }
}
