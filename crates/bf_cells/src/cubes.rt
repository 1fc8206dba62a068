ghost use Rattle.std.specs.Prelude.{◌≡◌, ℕ, ◌+◌, ◌*◌, ◌/◌, ◌%◌, ◌<◌, ◌≤◌, length, slice_index};
ghost use Rattle.bf_cells.specs.Rows.{cube_cell, piece_at};

use crate::pieces::{piece, piece_above, piece_below};
use crate::planes::{Plane, relax_plane};

// A cube of cells and the squares that stand next to its faces.
#[derive(Clone, Copy)]
pub(crate) struct Cube<'a> {
    pub(crate) side: usize,
    pub(crate) cells: &'a [u32],
    pub(crate) x_low: &'a [u32],
    pub(crate) x_high: &'a [u32],
    pub(crate) y_low: &'a [u32],
    pub(crate) y_high: &'a [u32],
    pub(crate) z_low: &'a [u32],
    pub(crate) z_high: &'a [u32],
    ghost low: { 2 ≤ side },
    ghost high: { side ≤ 16 },
    ghost cells_fit: { length cells.now ≡ side * side * side },
    ghost x_low_fits: { length x_low.now ≡ side * side },
    ghost x_high_fits: { length x_high.now ≡ side * side },
    ghost y_low_fits: { length y_low.now ≡ side * side },
    ghost y_high_fits: { length y_high.now ≡ side * side },
    ghost z_low_fits: { length z_low.now ≡ side * side },
    ghost z_high_fits: { length z_high.now ≡ side * side },
}

// A step of one plane of a cube.
#[inline]
fn relax_plane_at(cube: Cube, z: usize, into: &mut [u32])
    requires z_below { z < cube.side }
    requires into_fits { length into.old ≡ cube.side * cube.side }
    ensures { let c = cube.entry in (x y : ℕ) → x < c.side → y < c.side → piece_at into.new c.side y x
        ≡ cube_cell c.side c.cells.now c.x_low.now c.x_high.now c.y_low.now c.y_high.now c.z_low.now c.z_high.now x y z }
{
    let side = cube.side;
    let square = side * side;
    let plane = Plane {
        side,
        cells: piece(cube.cells, square, z),
        x_low: piece(cube.x_low, side, z),
        x_high: piece(cube.x_high, side, z),
        y_low: piece(cube.y_low, side, z),
        y_high: piece(cube.y_high, side, z),
        z_below: piece_below(cube.cells, cube.z_low, square, z),
        z_above: piece_above(cube.cells, cube.z_high, square, side, z),
    };
    relax_plane(plane, into);
}

// A step of a cube.
pub(crate) fn relax_cube(cube: Cube, into: &mut [u32])
    requires { length into.old ≡ cube.side * cube.side * cube.side }
    ensures { let c = cube.entry in (k z : ℕ) → k < c.side * c.side → z < c.side
        → piece_at into.new (c.side * c.side) z k
        ≡ cube_cell c.side c.cells.now c.x_low.now c.x_high.now c.y_low.now c.y_high.now c.z_low.now c.z_high.now
        (k % c.side) (k / c.side) z }
{
    let square = cube.side * cube.side;
    for z in 0..cube.side {
        let start = square * z;
        relax_plane_at(cube, z, &mut into[start..start + square]);
    }
}
