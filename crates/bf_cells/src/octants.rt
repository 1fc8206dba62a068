ghost use Rattle.std.specs.Prelude.{◌≡◌, ℕ, ◌+◌, ◌-◌, ◌*◌, ◌/◌, ◌%◌, ◌<◌, ◌≤◌, ◌&&◌, length, slice_index};
ghost use Rattle.bf_cells.specs.Octant.{octant_x, octant_y, octant_z, part_cell, is_within, mean_of_rows, part_mean, part_value};
ghost use Rattle.bf_cells.specs.Rows.{piece_at};

use crate::pieces::piece;

// Each value of a row, twice.
#[inline]
pub(crate) fn double_row(source: &[u32], into: &mut [u32])
    requires { length into.old ≤ 2 * length source.now }
    ensures { (k : ℕ) → k < length into.new → slice_index into.new k ≡ slice_index source.now (k / 2) }
{
    for (k, value) in into.iter_mut().enumerate() {
        *value = source[k / 2];
    }
}

// One row of a cube in which each cell of a part fills eight.
#[inline]
fn copy_part_row(
    values: &[u32],
    side: usize,
    x0: usize,
    y0: usize,
    z0: usize,
    row: usize,
    into: &mut [u32],
)
    requires even { side % 2 ≡ 0 }
    requires high { side ≤ 16 }
    requires x_fits { x0 + side / 2 ≤ side }
    requires y_fits { y0 + side / 2 ≤ side }
    requires z_fits { z0 + side / 2 ≤ side }
    requires row { row < side * side }
    requires values { length values.now ≡ side * side * side }
    requires into { length into.old ≡ side }
    ensures { (k : ℕ) → k < side
        → slice_index into.new k ≡ part_cell side values.now x0 y0 z0 k (row % side) (row / side) }
{
    let y = y0 + row % side / 2;
    let z = z0 + row / side / 2;
    let source = piece(values, side, y + side * z);
    double_row(&source[x0..x0 + side / 2], into);
}

// A cube in which each cell of a part fills eight.
pub(crate) fn copy_part(
    values: &[u32],
    side: usize,
    x0: usize,
    y0: usize,
    z0: usize,
    into: &mut [u32],
)
    requires even { side % 2 ≡ 0 }
    requires high { side ≤ 16 }
    requires x_fits { x0 + side / 2 ≤ side }
    requires y_fits { y0 + side / 2 ≤ side }
    requires z_fits { z0 + side / 2 ≤ side }
    requires values { length values.now ≡ side * side * side }
    requires into { length into.old ≡ side * side * side }
    ensures { (k row : ℕ) → k < side → row < side * side
        → piece_at into.new side row k ≡ part_cell side values.now x0 y0 z0 k (row % side) (row / side) }
{
    for row in 0..side * side {
        let start = side * row;
        copy_part_row(
            values,
            side,
            x0,
            y0,
            z0,
            row,
            &mut into[start..start + side],
        );
    }
}

// The sum of two neighbours.
#[inline]
fn pair_sum(row: &[u32], k: usize) -> u64
    requires { 2 * k + 1 < length row.now }
    ensures { result ≡ slice_index row.now (2 * k) + slice_index row.now (2 * k + 1) }
{
    u64::from(row[2 * k]) + u64::from(row[2 * k + 1])
}

// The mean of a cube of eight cells, whose four rows go by y and then by z.
#[inline]
pub(crate) fn mean_of_pairs(
    first: &[u32],
    second: &[u32],
    third: &[u32],
    fourth: &[u32],
    k: usize,
) -> u32
    requires first { 2 * k + 1 < length first.now }
    requires second { 2 * k + 1 < length second.now }
    requires third { 2 * k + 1 < length third.now }
    requires fourth { 2 * k + 1 < length fourth.now }
    ensures { result ≡ mean_of_rows first.now second.now third.now fourth.now k }
{
    let sum = pair_sum(first, k) + pair_sum(second, k) + pair_sum(third, k) + pair_sum(fourth, k);
    (sum / 8) as u32
}

// The means of a row of such cubes.
#[inline]
fn mean_rows(first: &[u32], second: &[u32], third: &[u32], fourth: &[u32], into: &mut [u32])
    requires first { 2 * length into.old ≤ length first.now }
    requires second { 2 * length into.old ≤ length second.now }
    requires third { 2 * length into.old ≤ length third.now }
    requires fourth { 2 * length into.old ≤ length fourth.now }
    ensures { (k : ℕ) → k < length into.new
        → slice_index into.new k ≡ mean_of_rows first.now second.now third.now fourth.now k }
{
    for (k, value) in into.iter_mut().enumerate() {
        *value = mean_of_pairs(first, second, third, fourth, k);
    }
}

// The means of the cubes of eight cells of one y and z, which count such cubes.
#[inline]
pub(crate) fn mean_cells(values: &[u32], side: usize, y: usize, z: usize, into: &mut [u32])
    requires even { side % 2 ≡ 0 }
    requires high { side ≤ 16 }
    requires y_below { y < side / 2 }
    requires z_below { z < side / 2 }
    requires values { length values.now ≡ side * side * side }
    requires into { length into.old ≡ side / 2 }
    ensures { (k : ℕ) → k < side / 2 → slice_index into.new k ≡ part_mean side values.now k y z }
{
    let low = side * (2 * z);
    let high = side * (2 * z + 1);
    let first = piece(values, side, 2 * y + low);
    let second = piece(values, side, 2 * y + 1 + low);
    let third = piece(values, side, 2 * y + high);
    let fourth = piece(values, side, 2 * y + 1 + high);
    mean_rows(first, second, third, fourth, into);
}

// Whether a number is one of `count` from `low` on.
#[inline]
pub(crate) fn has(low: usize, count: usize, at: usize) -> bool
    requires { low + count ≤ 16 }
    ensures { result ≡ is_within low count at }
{
    low <= at && at < low + count
}

// Whether a row at y and z crosses a part.
#[inline]
pub(crate) fn crosses(half: usize, y0: usize, z0: usize, y: usize, z: usize) -> bool
    requires y_fits { y0 + half ≤ 16 }
    requires z_fits { z0 + half ≤ 16 }
    ensures { result ≡ (is_within y0 half y && is_within z0 half z) }
{
    has(y0, half, y) && has(z0, half, z)
}

// One row of a cube, where it crosses a part that takes means.
#[inline]
fn mean_part_row(
    values: &[u32],
    side: usize,
    x0: usize,
    y0: usize,
    z0: usize,
    row: usize,
    into: &mut [u32],
)
    requires even { side % 2 ≡ 0 }
    requires high { side ≤ 16 }
    requires x_fits { x0 + side / 2 ≤ side }
    requires y_fits { y0 + side / 2 ≤ side }
    requires z_fits { z0 + side / 2 ≤ side }
    requires row { row < side * side }
    requires values { length values.now ≡ side * side * side }
    requires into { length into.old ≡ side }
    ensures { (k : ℕ) → k < side
        → slice_index into.new k ≡ part_value side (part_mean side values.now) x0 y0 z0 (slice_index into.old k) k (row % side) (row / side) }
{
    let half = side / 2;
    let y = row % side;
    let z = row / side;
    if crosses(half, y0, z0, y, z) {
        mean_cells(values, side, y - y0, z - z0, &mut into[x0..x0 + half]);
    }
}

// A cube with a part that takes the means of another cube.
pub(crate) fn mean_part(
    values: &[u32],
    side: usize,
    x0: usize,
    y0: usize,
    z0: usize,
    into: &mut [u32],
)
    requires even { side % 2 ≡ 0 }
    requires high { side ≤ 16 }
    requires x_fits { x0 + side / 2 ≤ side }
    requires y_fits { y0 + side / 2 ≤ side }
    requires z_fits { z0 + side / 2 ≤ side }
    requires values { length values.now ≡ side * side * side }
    requires into { length into.old ≡ side * side * side }
    ensures { (k row : ℕ) → k < side → row < side * side → piece_at into.new side row k
        ≡ part_value side (part_mean side values.now) x0 y0 z0 (piece_at into.old side row k) k (row % side) (row / side) }
{
    for row in 0..side * side {
        let start = side * row;
        mean_part_row(
            values,
            side,
            x0,
            y0,
            z0,
            row,
            &mut into[start..start + side],
        );
    }
}

// Where an octant begins.
pub(crate) fn octant_low(side: usize, octant: usize) -> (usize, usize, usize)
    requires high { side ≤ 16 }
    requires octant { octant < 8 }
    ensures x { result.0 ≡ octant_x octant * (side / 2) }
    ensures y { result.1 ≡ octant_y octant * (side / 2) }
    ensures z { result.2 ≡ octant_z octant * (side / 2) }
{
    let half = side / 2;
    (octant % 2 * half, octant / 2 % 2 * half, octant / 4 * half)
}
