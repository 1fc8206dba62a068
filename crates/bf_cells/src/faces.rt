ghost use Rattle.std.specs.Prelude.{◌≡◌, ℕ, ◌+◌, ◌-◌, ◌*◌, ◌<◌, ◌≤◌, length, slice_index};
ghost use Rattle.bf_cells.specs.Shell.{face_values};

use crate::pieces::piece;
use bf_face::Face;

// Copies the cells of one x into a square.
fn copy_at_x(values: &[u32], side: usize, x: usize, into: &mut [u32])
    requires high { side ≤ 16 }
    requires x_below { x < side }
    requires values { length values.now ≡ side * side * side }
    requires into { length into.old ≡ side * side }
    ensures { (k : ℕ) → k < side * side → slice_index into.new k ≡ slice_index values.now (x + side * k) }
{
    for (k, value) in into.iter_mut().enumerate() {
        *value = values[x + side * k];
    }
}

// Copies the cells of one y into a square.
fn copy_at_y(values: &[u32], side: usize, y: usize, into: &mut [u32])
    requires high { side ≤ 16 }
    requires y_below { y < side }
    requires values { length values.now ≡ side * side * side }
    requires into { length into.old ≡ side * side }
    ensures { (k z : ℕ) → k < side → z < side
        → slice_index into.new (k + side * z) ≡ slice_index values.now (k + side * (y + side * z)) }
{
    for z in 0..side {
        let start = side * z;
        into[start..start + side].copy_from_slice(piece(values, side, y + side * z));
    }
}

// Copies the cells of one z into a square.
fn copy_at_z(values: &[u32], side: usize, z: usize, into: &mut [u32])
    requires high { side ≤ 16 }
    requires z_below { z < side }
    requires values { length values.now ≡ side * side * side }
    requires into { length into.old ≡ side * side }
    ensures { (k : ℕ) → k < side * side → slice_index into.new k ≡ slice_index values.now (k + side * side * z) }
{
    into.copy_from_slice(piece(values, side * side, z));
}

// Copies the cells of a face into a square.
pub(crate) fn copy_face(values: &[u32], side: usize, face: Face, into: &mut [u32])
    requires low { 2 ≤ side }
    requires high { side ≤ 16 }
    requires values { length values.now ≡ side * side * side }
    requires into { length into.old ≡ side * side }
    ensures { into.new ≡ face_values (record { side = side; values = values.now }) face }
{
    match face {
        Face::XLow => copy_at_x(values, side, 0, into),
        Face::XHigh => copy_at_x(values, side, side - 1, into),
        Face::YLow => copy_at_y(values, side, 0, into),
        Face::YHigh => copy_at_y(values, side, side - 1, into),
        Face::ZLow => copy_at_z(values, side, 0, into),
        Face::ZHigh => copy_at_z(values, side, side - 1, into),
    }
}
