ghost use Rattle.std.specs.Prelude.{◌≡◌, ℕ, ◌+◌, ◌*◌, ◌<◌, ◌≤◌, length, slice_index};
ghost use Rattle.bf_cells.specs.Rows.{row_cell, plane_cell, piece_at};

use crate::pieces::{piece, piece_above, piece_below};
use crate::rows::{Row, relax_row};

// A plane of cells at one z and what stands next to it: rows at x and y, planes at z.
#[derive(Clone, Copy)]
pub(crate) struct Plane<'a> {
    pub(crate) side: usize,
    pub(crate) cells: &'a [u32],
    pub(crate) x_low: &'a [u32],
    pub(crate) x_high: &'a [u32],
    pub(crate) y_low: &'a [u32],
    pub(crate) y_high: &'a [u32],
    pub(crate) z_below: &'a [u32],
    pub(crate) z_above: &'a [u32],
    ghost low: { 2 ≤ side },
    ghost high: { side ≤ 16 },
    ghost cells_fit: { length cells.now ≡ side * side },
    ghost x_low_fits: { length x_low.now ≡ side },
    ghost x_high_fits: { length x_high.now ≡ side },
    ghost y_low_fits: { length y_low.now ≡ side },
    ghost y_high_fits: { length y_high.now ≡ side },
    ghost z_below_fits: { length z_below.now ≡ side * side },
    ghost z_above_fits: { length z_above.now ≡ side * side },
}

// A step of one row of a plane.
#[inline]
fn relax_row_at(plane: Plane, y: usize, into: &mut [u32])
    requires y_below { y < plane.side }
    requires into_fits { length into.old ≡ plane.side }
    ensures { let p = plane.entry in (x : ℕ) → x < p.side → slice_index into.new x
        ≡ plane_cell p.side p.cells.now p.x_low.now p.x_high.now p.y_low.now p.y_high.now p.z_below.now p.z_above.now x y }
{
    let row = Row {
        cells: piece(plane.cells, plane.side, y),
        left: plane.x_low[y],
        right: plane.x_high[y],
        y_below: piece_below(plane.cells, plane.y_low, plane.side, y),
        y_above: piece_above(plane.cells, plane.y_high, plane.side, plane.side, y),
        z_below: piece(plane.z_below, plane.side, y),
        z_above: piece(plane.z_above, plane.side, y),
    };
    relax_row(row, into);
}

// A step of a plane.
#[inline]
pub(crate) fn relax_plane(plane: Plane, into: &mut [u32])
    requires { length into.old ≡ plane.side * plane.side }
    ensures { let p = plane.entry in (x y : ℕ) → x < p.side → y < p.side → piece_at into.new p.side y x
        ≡ plane_cell p.side p.cells.now p.x_low.now p.x_high.now p.y_low.now p.y_high.now p.z_below.now p.z_above.now x y }
{
    let side = plane.side;
    for y in 0..side {
        let start = side * y;
        relax_row_at(plane, y, &mut into[start..start + side]);
    }
}
