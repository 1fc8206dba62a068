ghost use Rattle.std.specs.Prelude.{◌≡◌, ℕ, ◌+◌, ◌*◌, ◌-◌, ◌<◌, ◌≤◌, length, slice_index, nat_le, nat_lt, ◌&&◌, if◌then◌else◌};
ghost use Rattle.bf_cells.specs.Kernel.{relaxed};
ghost use Rattle.bf_cells.specs.Rows.{row_cell, inside_cell};

// A row of cells and what stands next to it.
#[derive(Clone, Copy)]
pub(crate) struct Row<'a> {
    pub(crate) cells: &'a [u32],
    pub(crate) left: u32,
    pub(crate) right: u32,
    pub(crate) y_below: &'a [u32],
    pub(crate) y_above: &'a [u32],
    pub(crate) z_below: &'a [u32],
    pub(crate) z_above: &'a [u32],
    ghost two: { 2 ≤ length cells.now },
    ghost y_below_fits: { length y_below.now ≡ length cells.now },
    ghost y_above_fits: { length y_above.now ≡ length cells.now },
    ghost z_below_fits: { length z_below.now ≡ length cells.now },
    ghost z_above_fits: { length z_above.now ≡ length cells.now },
}

// The mean of a cell, which counts twice, and its neighbours, rounded down.
#[inline]
fn mean(
    cell: u32,
    left: u32,
    right: u32,
    y_below: u32,
    y_above: u32,
    z_below: u32,
    z_above: u32,
) -> u32
    ensures { result ≡ relaxed cell left right y_below y_above z_below z_above }
{
    let x_sum = 2 * u64::from(cell) + u64::from(left) + u64::from(right);
    let y_sum = u64::from(y_below) + u64::from(y_above);
    let z_sum = u64::from(z_below) + u64::from(z_above);
    ((x_sum + y_sum + z_sum) / 8) as u32
}

// A step of the cells of a row that have both neighbours in the row.
#[inline]
fn relax_inside(
    cells: &[u32],
    y_below: &[u32],
    y_above: &[u32],
    z_below: &[u32],
    z_above: &[u32],
    into: &mut [u32],
)
    requires two { 2 ≤ length cells.now }
    requires y_below_fits { length y_below.now ≡ length cells.now }
    requires y_above_fits { length y_above.now ≡ length cells.now }
    requires z_below_fits { length z_below.now ≡ length cells.now }
    requires z_above_fits { length z_above.now ≡ length cells.now }
    requires into_fits { length into.old ≡ length cells.now }
    ensures { (k : ℕ) → 0 < k → k + 1 < length cells.now
        → slice_index into.new k ≡ inside_cell cells.now y_below.now y_above.now z_below.now z_above.now k }
{
    for k in 1..cells.len() - 1 {
        into[k] = mean(
            cells[k],
            cells[k - 1],
            cells[k + 1],
            y_below[k],
            y_above[k],
            z_below[k],
            z_above[k],
        );
    }
}

// A step of a row.
#[inline]
pub(crate) fn relax_row(row: Row, into: &mut [u32])
    requires { length into.old ≡ length row.cells.now }
    ensures { let r = row.entry in (k : ℕ) → k < length r.cells.now → slice_index into.new k
        ≡ row_cell r.cells.now r.left r.right r.y_below.now r.y_above.now r.z_below.now r.z_above.now k }
{
    let Row {
        cells,
        left,
        right,
        y_below,
        y_above,
        z_below,
        z_above,
    } = row;
    let last = cells.len() - 1;
    relax_inside(cells, y_below, y_above, z_below, z_above, into);
    into[0] = mean(
        cells[0], left, cells[1], y_below[0], y_above[0], z_below[0], z_above[0],
    );
    into[last] = mean(
        cells[last],
        cells[last - 1],
        right,
        y_below[last],
        y_above[last],
        z_below[last],
        z_above[last],
    );
}

// Gives one value to the places from `from` up to `end` of a row.
pub(crate) fn fill_between(row: &mut [u32], from: usize, end: usize, value: u32)
    requires ordered { from ≤ end }
    requires within { end ≤ length row.old }
    ensures { (k : ℕ) → k < length row.old
        → slice_index row.new k ≡ (if nat_le from k && nat_lt k end then value else slice_index row.old k) }
{
    for k in from..end {
        row[k] = value;
    }
}
