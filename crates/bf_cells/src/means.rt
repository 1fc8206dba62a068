ghost use Rattle.std.specs.Prelude.{◌≡◌, ℕ, ◌+◌, ◌*◌, ◌/◌, ◌%◌, ◌<◌, ◌≤◌, length, slice_index};
ghost use Rattle.bf_cells.specs.Grid.{cell_at, grid_with};
ghost use Rattle.bf_cells.specs.Octant.{part_mean, part_value};
ghost use Rattle.bf_cells.specs.Rows.{piece_at};

use crate::octants::{crosses, mean_cells};
use crate::pieces::piece;

// The means of all cubes of eight cells, row by row.
pub(crate) fn mean_all(values: &[u32], side: usize, into: &mut [u32])
    requires even { side % 2 ≡ 0 }
    requires low { 2 ≤ side }
    requires high { side ≤ 16 }
    requires values { length values.now ≡ side * side * side }
    requires into { length into.old ≡ side / 2 * (side / 2) * (side / 2) }
    ensures { (k row : ℕ) → k < side / 2 → row < side / 2 * (side / 2)
        → piece_at into.new (side / 2) row k ≡ part_mean side values.now k (row % (side / 2)) (row / (side / 2)) }
{
    let half = side / 2;
    for row in 0..half * half {
        let start = half * row;
        mean_cells(
            values,
            side,
            row % half,
            row / half,
            &mut into[start..start + half],
        );
    }
}

// One row of a cube, where it crosses a part that takes other values.
#[inline]
fn load_part_row(
    part: &[u32],
    side: usize,
    x0: usize,
    y0: usize,
    z0: usize,
    row: usize,
    into: &mut [u32],
)
    requires even { side % 2 ≡ 0 }
    requires low { 2 ≤ side }
    requires high { side ≤ 16 }
    requires x_fits { x0 + side / 2 ≤ side }
    requires y_fits { y0 + side / 2 ≤ side }
    requires z_fits { z0 + side / 2 ≤ side }
    requires part { length part.now ≡ side / 2 * (side / 2) * (side / 2) }
    requires into { length into.old ≡ side }
    ensures { (k : ℕ) → k < side → slice_index into.new k
        ≡ part_value side (cell_at (grid_with (side / 2) part.now)) x0 y0 z0 (slice_index into.old k) k (row % side) (row / side) }
{
    let half = side / 2;
    let y = row % side;
    let z = row / side;
    if crosses(half, y0, z0, y, z) {
        into[x0..x0 + half].copy_from_slice(piece(part, half, y - y0 + half * (z - z0)));
    }
}

// A cube with a part that takes other values.
pub(crate) fn load_part(
    part: &[u32],
    side: usize,
    x0: usize,
    y0: usize,
    z0: usize,
    into: &mut [u32],
)
    requires even { side % 2 ≡ 0 }
    requires low { 2 ≤ side }
    requires high { side ≤ 16 }
    requires x_fits { x0 + side / 2 ≤ side }
    requires y_fits { y0 + side / 2 ≤ side }
    requires z_fits { z0 + side / 2 ≤ side }
    requires part { length part.now ≡ side / 2 * (side / 2) * (side / 2) }
    requires into { length into.old ≡ side * side * side }
    ensures { (k row : ℕ) → k < side → row < side * side → piece_at into.new side row k
        ≡ part_value side (cell_at (grid_with (side / 2) part.now)) x0 y0 z0 (piece_at into.old side row k) k (row % side) (row / side) }
{
    for row in 0..side * side {
        let start = side * row;
        load_part_row(part, side, x0, y0, z0, row, &mut into[start..start + side]);
    }
}
