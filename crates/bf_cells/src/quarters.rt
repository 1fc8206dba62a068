//! Squares of half a block's side: read off a face, and laid into a square.
ghost use Rattle.std.specs.Prelude.{◌≡◌, ℕ, ◌+◌, ◌-◌, ◌*◌, ◌/◌, ◌%◌, ◌<◌, ◌≤◌, length, slice_index};
ghost use Rattle.bf_cells.specs.Grid.{grid_with, cell_at};
ghost use Rattle.bf_cells.specs.Shell.{face_cell};
ghost use Rattle.bf_cells.specs.Levels.{doubled_square, mean_values, quarter_value, quarter_values, square_at, with_quarter};

use crate::levels::mean_face_row;
use crate::octants::{double_row, has};
use crate::pieces::piece;
use bf_face::Face;

// Cells of one x and z, from a y on.
#[inline]
fn copy_column(values: &[u32], side: usize, x: usize, y0: usize, z: usize, into: &mut [u32])
    requires high { side ≤ 16 }
    requires x_below { x < side }
    requires y_fits { y0 + side / 2 ≤ side }
    requires z_below { z < side }
    requires values { length values.now ≡ side * side * side }
    requires into { length into.old ≡ side / 2 }
    ensures { (k : ℕ) → k < side / 2 → slice_index into.new k ≡ cell_at (grid_with side values.now) x (y0 + k) z }
{
    for (k, value) in into.iter_mut().enumerate() {
        *value = piece(values, side, y0 + k + side * z)[x];
    }
}

// Cells of one y and z, from an x on.
#[inline]
fn copy_cells(values: &[u32], side: usize, x0: usize, y: usize, z: usize, into: &mut [u32])
    requires high { side ≤ 16 }
    requires x_fits { x0 + side / 2 ≤ side }
    requires y_below { y < side }
    requires z_below { z < side }
    requires values { length values.now ≡ side * side * side }
    requires into { length into.old ≡ side / 2 }
    ensures { (k : ℕ) → k < side / 2 → slice_index into.new k ≡ cell_at (grid_with side values.now) (x0 + k) y z }
{
    let source = piece(values, side, y + side * z);
    into.copy_from_slice(&source[x0..x0 + side / 2]);
}

// Half a row of a face, from its cell a0 on.
#[tactic(auto, unfolding(crate::specs::Shell::face_cell))]
fn copy_face_row(values: &[u32], side: usize, face: Face, a0: usize, b: usize, into: &mut [u32])
    requires high { side ≤ 16 }
    requires a_fits { a0 + side / 2 ≤ side }
    requires b_below { b < side }
    requires values { length values.now ≡ side * side * side }
    requires into { length into.old ≡ side / 2 }
    ensures { (k : ℕ) → k < side / 2 → slice_index into.new k ≡ face_cell (grid_with side values.now) face (a0 + k) b }
{
    match face {
        Face::XLow => copy_column(values, side, 0, a0, b, into),
        Face::XHigh => copy_column(values, side, side - 1, a0, b, into),
        Face::YLow => copy_cells(values, side, a0, 0, b, into),
        Face::YHigh => copy_cells(values, side, a0, side - 1, b, into),
        Face::ZLow => copy_cells(values, side, a0, b, 0, into),
        Face::ZHigh => copy_cells(values, side, a0, b, side - 1, into),
    }
}

// Copies a quarter of a face.
pub(crate) fn copy_quarter(
    values: &[u32],
    side: usize,
    face: Face,
    half_a: usize,
    half_b: usize,
    into: &mut [u32],
)
    requires even { side % 2 ≡ 0 }
    requires high { side ≤ 16 }
    requires half_a { half_a < 2 }
    requires half_b { half_b < 2 }
    requires values { length values.now ≡ side * side * side }
    requires into { length into.old ≡ side / 2 * (side / 2) }
    ensures { into.new ≡ quarter_values (grid_with side values.now) face half_a half_b }
{
    let half = side / 2;
    let a0 = half_a * half;
    let b0 = half_b * half;
    for b in 0..half {
        let start = half * b;
        copy_face_row(
            values,
            side,
            face,
            a0,
            b0 + b,
            &mut into[start..start + half],
        );
    }
}

// Takes the means next to a face.
pub(crate) fn mean_face(values: &[u32], side: usize, face: Face, into: &mut [u32])
    requires even { side % 2 ≡ 0 }
    requires high { side ≤ 16 }
    requires values { length values.now ≡ side * side * side }
    requires into { length into.old ≡ side / 2 * (side / 2) }
    ensures { into.new ≡ mean_values (grid_with side values.now) face }
{
    let half = side / 2;
    for b in 0..half {
        let start = half * b;
        mean_face_row(values, side, face, b, &mut into[start..start + half]);
    }
}

// Fills a square with one of half its side, each value at four places.
pub(crate) fn double_square(source: &[u32], side: usize, into: &mut [u32])
    requires even { side % 2 ≡ 0 }
    requires high { side ≤ 16 }
    requires source { length source.now ≡ side / 2 * (side / 2) }
    requires into { length into.old ≡ side * side }
    ensures { into.new ≡ doubled_square side source.now }
{
    let half = side / 2;
    for b in 0..side {
        let start = side * b;
        double_row(piece(source, half, b / 2), &mut into[start..start + side]);
    }
}

// One row of a square, where it crosses a quarter that takes other values.
fn write_quarter_row(source: &[u32], side: usize, a0: usize, b0: usize, b: usize, into: &mut [u32])
    requires high { side ≤ 16 }
    requires a_fits { a0 + side / 2 ≤ side }
    requires b_fits { b0 + side / 2 ≤ side }
    requires source { length source.now ≡ side / 2 * (side / 2) }
    requires into { length into.old ≡ side }
    ensures { (k : ℕ) → k < side → slice_index into.new k
        ≡ quarter_value (side / 2) a0 b0 (square_at (side / 2) source.now) (slice_index into.old k) k b }
{
    let half = side / 2;
    if has(b0, half, b) {
        into[a0..a0 + half].copy_from_slice(piece(source, half, b - b0));
    }
}

// Writes a square into a quarter of one of twice its side.
pub(crate) fn write_quarter(
    source: &[u32],
    side: usize,
    half_a: usize,
    half_b: usize,
    into: &mut [u32],
)
    requires even { side % 2 ≡ 0 }
    requires low { 2 ≤ side }
    requires high { side ≤ 16 }
    requires half_a { half_a < 2 }
    requires half_b { half_b < 2 }
    requires source { length source.now ≡ side / 2 * (side / 2) }
    requires into { length into.old ≡ side * side }
    ensures { into.new ≡ with_quarter side half_a half_b (square_at (side / 2) source.now) into.old }
{
    let a0 = half_a * (side / 2);
    let b0 = half_b * (side / 2);
    for b in 0..side {
        let start = side * b;
        write_quarter_row(source, side, a0, b0, b, &mut into[start..start + side]);
    }
}
