//! The beginning of a run: the roots, filled.
ghost use Rattle.std.specs.Prelude.{◌≡◌, [], ℕ, ◌+◌, ◌*◌, ◌/◌, ◌<◌, ◌≤◌, length, IfOk};
ghost use Rattle.bf_id.specs.Shape.{IsShape, root_count};
ghost use Rattle.bf_case.specs.Case.{IsFill, IsStretch, IsValid};
ghost use Rattle.bf_case.specs.Model.{initial};
ghost use Rattle.bf_plain.specs.Atlas.{place_of};
ghost use Rattle.bf_plain.specs.Beginning.{roots_after, IsMetBy, IsMetInLayer, IsMetInRow, Paints};

use bf_case::{Case, Fill, fill_root};
use bf_cells::Cells;
use bf_edge::Memory;
use bf_id::{Id, Shape};
use std::alloc::Global;

/// Some roots along one axis: from one up to another, which is not among them.
#[derive(Clone, Copy)]
struct Stretch {
    from: u32,
    end: u32,
}

impl Stretch {
    /// The roots that have some of the cells from `low` to `high`, both included.
    fn of_cells(low: u32, high: u32, side: u32, roots: u32) -> Stretch
        requires side { 0 < side }
        requires inside { IsStretch low high (roots * side) }
        ensures from { result.from ≡ low / side }
        ensures end { result.end ≡ high / side + 1 }
        ensures ordered { result.from ≤ result.end }
        ensures inside { result.end ≤ roots }
    {
        Stretch {
            from: low / side,
            end: high / side + 1,
        }
    }
}

/// The number of the root that stands at a place among the roots.
fn root_at(shape: Shape, x: u32, y: u32, z: u32) -> u32
    requires shape { IsShape shape }
    requires x_in { x < shape.nx }
    requires y_in { y < shape.ny }
    requires z_in { z < shape.nz }
    ensures exact { result ≡ place_of shape.nx shape.ny (record { x = x; y = y; z = z }) }
    ensures in_shape { result < root_count shape }
{
    x + shape.nx * (y + shape.ny * z)
}

/// Paints a fill into the roots of one row that it meets.
fn paint_row(leaves: &mut [(Id, Cells)], case: &Case, fill: &Fill, y: u32, z: u32)
    requires valid { IsValid case.now }
    requires fill { IsFill case.now.roots case.now.side fill.now }
    requires y_in { y < case.now.roots.ny }
    requires z_in { z < case.now.roots.nz }
    requires full { length leaves.old ≡ root_count case.now.roots }
    ensures { Paints case.now fill.now (IsMetInRow case.now fill.now y z) leaves.old leaves.new }
{
    let along = Stretch::of_cells(fill.low[0], fill.high[0], case.side, case.roots.nx);
    for x in along.from..along.end {
        let root = root_at(case.roots, x, y, z);
        let (_, cells) = &mut leaves[root as usize];
        fill_root(cells, case, root, fill);
    }
}

/// Paints a fill into the roots of one layer that it meets.
fn paint_layer(leaves: &mut [(Id, Cells)], case: &Case, fill: &Fill, z: u32)
    requires valid { IsValid case.now }
    requires fill { IsFill case.now.roots case.now.side fill.now }
    requires z_in { z < case.now.roots.nz }
    requires full { length leaves.old ≡ root_count case.now.roots }
    ensures { Paints case.now fill.now (IsMetInLayer case.now fill.now z) leaves.old leaves.new }
{
    let along = Stretch::of_cells(fill.low[1], fill.high[1], case.side, case.roots.ny);
    for y in along.from..along.end {
        paint_row(leaves, case, fill, y, z);
    }
}

/// Paints a fill into the roots that it meets.
fn paint_fill(leaves: &mut [(Id, Cells)], case: &Case, fill: &Fill)
    requires valid { IsValid case.now }
    requires fill { IsFill case.now.roots case.now.side fill.now }
    requires full { length leaves.old ≡ root_count case.now.roots }
    ensures { Paints case.now fill.now (IsMetBy case.now fill.now) leaves.old leaves.new }
{
    let along = Stretch::of_cells(fill.low[2], fill.high[2], case.side, case.roots.nz);
    for z in along.from..along.end {
        paint_layer(leaves, case, fill, z);
    }
}

/// Paints all fills in turn.
fn paint_fills(leaves: &mut [(Id, Cells)], case: &Case)
    requires valid { IsValid case.now }
    requires blank { leaves.old ≡ roots_after case.now [] }
    ensures { leaves.new ≡ initial case.now }
{
    for fill in case.fills.as_slice() {
        paint_fill(leaves, case, fill);
    }
}

/// The roots in their order, with cells of 0.
fn blank_roots(alloc: Global, case: &Case) -> Result<Vec<(Id, Cells)>, Memory>
    requires { IsValid case.now }
    ensures { IfOk result (λ leaves. leaves.items ≡ roots_after case.now []) }
{
    let count = case.root_count();
    let mut leaves = Vec::with_capacity(alloc, count as usize)?;
    for root in 0..count {
        leaves.push((Id::root_of(root), Cells::filled(alloc, case.side, 0)?))?;
    }
    Ok(leaves)
}

/// The leaves of a case at time 0. Each fill goes only to the roots that it meets.
pub(crate) fn beginning(alloc: Global, case: &Case) -> Result<Vec<(Id, Cells)>, Memory>
    requires { IsValid case.now }
    ensures { IfOk result (λ leaves. leaves.items ≡ initial case.now) }
{
    let mut leaves = blank_roots(alloc, case)?;
    paint_fills(leaves.as_mut_slice(), case);
    Ok(leaves)
}
