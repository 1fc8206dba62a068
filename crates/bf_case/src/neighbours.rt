//! What lies next to each root, in a domain whose leaves are the roots.
ghost use Rattle.std.specs.Prelude.{◌≡◌, ℕ, ◌+◌, ◌-◌, ◌*◌, ◌/◌, ◌%◌, ◌^◌, ◌<◌, ◌≤◌, length, IfSome, Option};
ghost use Rattle.std.specs.Option.{ForSome};
ghost use Rattle.bf_id.specs.Axis.{Axis, after, before};
ghost use Rattle.bf_id.specs.Shape.{IsShape, root_count};
ghost use Rattle.bf_cells.specs.Shell.{with_wall};
ghost use Rattle.bf_case.specs.Around.{across, root_at, wall_from, walls_around, IsAround, IsGiven};

use bf_cells::{Cells, Shell};
use bf_face::Face;
use bf_id::{Id, Shape};

/// Cells that are found by the numbers of their roots, of all roots or of some.
pub trait RootCells {
    ghost use Rattle.std.specs.Prelude.{ℕ, ◌≡◌};
    ghost use Rattle.bf_cells.specs.Grid.{Grid};

    // whether a root's cells are there, and which they are
    ghost has: { Self → ℕ → Type 0 };

    ghost grid_of: { Self → ℕ → Grid };

    /// The cells of a root that is there.
    fn cells(&self, root: usize) -> &Cells
        requires { has self.now root }
        ensures { result.now ≡ grid_of self.now root };
}

/// All roots in their order.
impl RootCells for &[(Id, Cells)] {
    ghost use Rattle.std.specs.Prelude.{◌<◌, length};
    ghost use Rattle.bf_case.specs.Around.{grid_at};

    ghost has = { λ leaves k. k < length leaves.now };

    ghost grid_of = { λ leaves. grid_at leaves.now };

    fn cells(&self, root: usize) -> &Cells {
        let (_, cells) = &self[root];
        cells
    }
}

/// The place before this one on an axis of so many roots; none at the domain's edge.
fn place_before(count: u32, at: u32) -> Option<u32>
    requires { at < count }
    ensures place { let axis : Axis = record { extent = count } in result ≡ before axis 1 at }
    ensures within { IfSome result (λ place. place < count) }
{
    if at == 0 { None } else { Some(at - 1) }
}

/// The place after this one on an axis of so many roots; none at the domain's edge.
fn place_after(count: u32, at: u32) -> Option<u32>
    requires inside { at < count }
    requires few { count ≤ 16 }
    ensures place { let axis : Axis = record { extent = count } in result ≡ after axis 1 at }
    ensures within { IfSome result (λ place. place < count) }
{
    if at + 1 == count { None } else { Some(at + 1) }
}

/// The number of the root at these coordinates.
fn root_at(shape: Shape, x: u32, y: u32, z: u32) -> usize
    requires shape { IsShape shape }
    requires x_in { x < shape.nx }
    requires y_in { y < shape.ny }
    requires z_in { z < shape.nz }
    ensures { result ≡ root_at shape x y z }
{
    let row = y + shape.ny * z;
    (x + shape.nx * row) as usize
}

/// The root across a face; none where the face lies at the domain's edge.
fn across(shape: Shape, root: usize, face: Face) -> Option<usize>
    requires shape { IsShape shape }
    requires root_in { root < root_count shape }
    ensures { result ≡ across shape root face }
{
    let number = root as u32;
    let row = number / shape.nx;
    let x = number % shape.nx;
    let y = row % shape.ny;
    let z = row / shape.ny;
    match face {
        Face::XLow => match place_before(shape.nx, x) {
            None => None,
            Some(x) => Some(root_at(shape, x, y, z)),
        },
        Face::XHigh => match place_after(shape.nx, x) {
            None => None,
            Some(x) => Some(root_at(shape, x, y, z)),
        },
        Face::YLow => match place_before(shape.ny, y) {
            None => None,
            Some(y) => Some(root_at(shape, x, y, z)),
        },
        Face::YHigh => match place_after(shape.ny, y) {
            None => None,
            Some(y) => Some(root_at(shape, x, y, z)),
        },
        Face::ZLow => match place_before(shape.nz, z) {
            None => None,
            Some(z) => Some(root_at(shape, x, y, z)),
        },
        Face::ZHigh => match place_after(shape.nz, z) {
            None => None,
            Some(z) => Some(root_at(shape, x, y, z)),
        },
    }
}

/// Lays next to a face of a root what lies across it, or at the domain's edge the root's own cells there.
fn lay_wall<L: RootCells>(
    shell: &mut Shell,
    face: Face,
    leaves: &L,
    root: usize,
    across: Option<usize>,
)
    requires own { IsGiven (L.has leaves.now) (L.grid_of leaves.now) shell.old.side root }
    requires near { ForSome across (IsGiven (L.has leaves.now) (L.grid_of leaves.now) shell.old.side) }
    ensures wall { shell.new ≡ with_wall shell.old face (wall_from (L.grid_of leaves.now) root across face) }
    ensures side { shell.new.side ≡ shell.old.side }
{
    match across {
        None => shell.set_wall(face, leaves.cells(root), face),
        Some(other) => {
            shell.set_wall(face, leaves.cells(other), face.opposite());
        }
    }
}

/// Lays next to each face of a root what lies across it: the next root's cells, or at the domain's edge the root's own.
pub fn surround<L: RootCells>(shell: &mut Shell, shape: Shape, leaves: &L, root: usize)
    requires shape { IsShape shape }
    requires root_in { root < root_count shape }
    requires given { (k : ℕ) → IsAround shape root k → IsGiven (L.has leaves.now) (L.grid_of leaves.now) shell.old.side k }
    ensures walls { shell.new ≡ walls_around shape shell.old.side (L.grid_of leaves.now) root }
    ensures side { shell.new.side ≡ shell.old.side }
{
    for face in Face::ALL {
        lay_wall(shell, face, leaves, root, across(shape, root, face));
    }
}
