//! Walls out of the faces of blocks that are one level apart.
ghost use Rattle.std.specs.Prelude.{◌≡◌, ℕ, ◌+◌, ◌-◌, ◌*◌, ◌/◌, ◌%◌, ◌<◌, ◌≤◌, length, slice_index};
ghost use Rattle.bf_cells.specs.Grid.{grid_with, cell_at};
ghost use Rattle.bf_cells.specs.Octant.{mean_at};
ghost use Rattle.bf_cells.specs.Shell.{face_cell};
ghost use Rattle.bf_cells.specs.Levels.{doubled_face, face_mean, quarter_value, with_quarter};

use crate::octants::{double_row, has, mean_cells, mean_of_pairs};
use crate::pieces::piece;
use bf_face::Face;

// Cells of one x and z, from a y on, each twice.
#[inline]
fn double_column(values: &[u32], side: usize, x: usize, y0: usize, z: usize, into: &mut [u32])
    requires even { side % 2 ≡ 0 }
    requires high { side ≤ 16 }
    requires x_below { x < side }
    requires y_fits { y0 + side / 2 ≤ side }
    requires z_below { z < side }
    requires values { length values.now ≡ side * side * side }
    requires into { length into.old ≡ side }
    ensures { (k : ℕ) → k < side → slice_index into.new k ≡ cell_at (grid_with side values.now) x (y0 + k / 2) z }
{
    for (k, value) in into.iter_mut().enumerate() {
        *value = piece(values, side, y0 + k / 2 + side * z)[x];
    }
}

// Cells of one y and z, from an x on, each twice.
#[inline]
fn double_cells(values: &[u32], side: usize, x0: usize, y: usize, z: usize, into: &mut [u32])
    requires even { side % 2 ≡ 0 }
    requires high { side ≤ 16 }
    requires x_fits { x0 + side / 2 ≤ side }
    requires y_below { y < side }
    requires z_below { z < side }
    requires values { length values.now ≡ side * side * side }
    requires into { length into.old ≡ side }
    ensures { (k : ℕ) → k < side → slice_index into.new k ≡ cell_at (grid_with side values.now) (x0 + k / 2) y z }
{
    let source = piece(values, side, y + side * z);
    double_row(&source[x0..x0 + side / 2], into);
}

// One row of a face, from its cell a0 on, each cell twice.
#[tactic(auto, unfolding(crate::specs::Shell::face_cell))]
fn double_face_row(values: &[u32], side: usize, face: Face, a0: usize, b: usize, into: &mut [u32])
    requires even { side % 2 ≡ 0 }
    requires high { side ≤ 16 }
    requires a_fits { a0 + side / 2 ≤ side }
    requires b_below { b < side }
    requires values { length values.now ≡ side * side * side }
    requires into { length into.old ≡ side }
    ensures { (k : ℕ) → k < side → slice_index into.new k ≡ face_cell (grid_with side values.now) face (a0 + k / 2) b }
{
    match face {
        Face::XLow => double_column(values, side, 0, a0, b, into),
        Face::XHigh => double_column(values, side, side - 1, a0, b, into),
        Face::YLow => double_cells(values, side, a0, 0, b, into),
        Face::YHigh => double_cells(values, side, a0, side - 1, b, into),
        Face::ZLow => double_cells(values, side, a0, b, 0, into),
        Face::ZHigh => double_cells(values, side, a0, b, side - 1, into),
    }
}

// Fills a square with a quarter of a face, each cell at four places.
pub(crate) fn double_face(
    values: &[u32],
    side: usize,
    face: Face,
    half_a: usize,
    half_b: usize,
    into: &mut [u32],
)
    requires even { side % 2 ≡ 0 }
    requires high { side ≤ 16 }
    requires half_a { half_a < 2 }
    requires half_b { half_b < 2 }
    requires values { length values.now ≡ side * side * side }
    requires into { length into.old ≡ side * side }
    ensures { into.new ≡ doubled_face (grid_with side values.now) face half_a half_b }
{
    let a0 = half_a * (side / 2);
    let b0 = half_b * (side / 2);
    for b in 0..side {
        let start = side * b;
        double_face_row(
            values,
            side,
            face,
            a0,
            b0 + b / 2,
            &mut into[start..start + side],
        );
    }
}

// The mean of eight cells that form a cube.
#[inline]
fn mean_value(values: &[u32], side: usize, x: usize, y: usize, z: usize) -> u32
    requires even { side % 2 ≡ 0 }
    requires high { side ≤ 16 }
    requires x_below { x < side / 2 }
    requires y_below { y < side / 2 }
    requires z_below { z < side / 2 }
    requires values { length values.now ≡ side * side * side }
    ensures { result ≡ mean_at (grid_with side values.now) x y z }
{
    let low = side * (2 * z);
    let high = side * (2 * z + 1);
    let first = piece(values, side, 2 * y + low);
    let second = piece(values, side, 2 * y + 1 + low);
    let third = piece(values, side, 2 * y + high);
    let fourth = piece(values, side, 2 * y + 1 + high);
    mean_of_pairs(first, second, third, fourth, x)
}

// The means of the cubes of eight cells of one x and z, which count such cubes.
fn mean_column(values: &[u32], side: usize, x: usize, z: usize, into: &mut [u32])
    requires even { side % 2 ≡ 0 }
    requires high { side ≤ 16 }
    requires x_below { x < side / 2 }
    requires z_below { z < side / 2 }
    requires values { length values.now ≡ side * side * side }
    requires into { length into.old ≡ side / 2 }
    ensures { (k : ℕ) → k < side / 2 → slice_index into.new k ≡ mean_at (grid_with side values.now) x k z }
{
    for (k, value) in into.iter_mut().enumerate() {
        *value = mean_value(values, side, x, k, z);
    }
}

// A row of the means next to a face.
#[tactic(auto, unfolding(crate::specs::Levels::face_mean, crate::specs::Octant::part_mean))]
pub(crate) fn mean_face_row(values: &[u32], side: usize, face: Face, b: usize, into: &mut [u32])
    requires even { side % 2 ≡ 0 }
    requires high { side ≤ 16 }
    requires b_below { b < side / 2 }
    requires values { length values.now ≡ side * side * side }
    requires into { length into.old ≡ side / 2 }
    ensures { (k : ℕ) → k < side / 2 → slice_index into.new k ≡ face_mean (grid_with side values.now) face k b }
{
    let last = side / 2 - 1;
    match face {
        Face::XLow => mean_column(values, side, 0, b, into),
        Face::XHigh => mean_column(values, side, last, b, into),
        Face::YLow => mean_cells(values, side, 0, b, into),
        Face::YHigh => mean_cells(values, side, last, b, into),
        Face::ZLow => mean_cells(values, side, b, 0, into),
        Face::ZHigh => mean_cells(values, side, b, last, into),
    }
}

// One row of a square, where it crosses a quarter that takes means.
fn mean_quarter_row(
    values: &[u32],
    side: usize,
    face: Face,
    a0: usize,
    b0: usize,
    b: usize,
    into: &mut [u32],
)
    requires even { side % 2 ≡ 0 }
    requires high { side ≤ 16 }
    requires a_fits { a0 + side / 2 ≤ side }
    requires b_fits { b0 + side / 2 ≤ side }
    requires values { length values.now ≡ side * side * side }
    requires into { length into.old ≡ side }
    ensures { (k : ℕ) → k < side → slice_index into.new k
        ≡ quarter_value (side / 2) a0 b0 (face_mean (grid_with side values.now) face) (slice_index into.old k) k b }
{
    let half = side / 2;
    if has(b0, half, b) {
        mean_face_row(values, side, face, b - b0, &mut into[a0..a0 + half]);
    }
}

// Writes into a quarter of a square the means next to a face.
pub(crate) fn mean_quarter(
    values: &[u32],
    side: usize,
    face: Face,
    half_a: usize,
    half_b: usize,
    into: &mut [u32],
)
    requires even { side % 2 ≡ 0 }
    requires low { 2 ≤ side }
    requires high { side ≤ 16 }
    requires half_a { half_a < 2 }
    requires half_b { half_b < 2 }
    requires values { length values.now ≡ side * side * side }
    requires into { length into.old ≡ side * side }
    ensures { into.new ≡ with_quarter side half_a half_b (face_mean (grid_with side values.now) face) into.old }
{
    let a0 = half_a * (side / 2);
    let b0 = half_b * (side / 2);
    for b in 0..side {
        let start = side * b;
        mean_quarter_row(
            values,
            side,
            face,
            a0,
            b0,
            b,
            &mut into[start..start + side],
        );
    }
}
