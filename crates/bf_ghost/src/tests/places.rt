//! What is found at a place of a tiling, by the place alone.
//!
//! A place is told in finest cells. A unit has as many of them along its edge as a block has cells, so a cell of a block has as
//! many along its edge as the block has units.
ghost use Rattle.std.specs.Prelude.{◌<◌};

use bf_cells::{Cells, Shell};
use bf_face::Face;
use bf_id::{Id, Shape};
use std::process::Abort;

// The leaves of a domain, of which all have the same number of cells.
#[derive(Drop)]
pub(super) struct Tiling {
    pub(super) shape: Shape,
    pub(super) leaves: Vec<Leaf>,
}

// A block, with the place where it begins.
#[derive(Drop)]
pub(super) struct Leaf {
    pub(super) id: Id,
    pub(super) low: [u32; 3],
    pub(super) cells: Cells,
}

// Whether a place lies on a stretch of an axis.
fn spans(low: u32, length: u32, place: u32) -> bool {
    low <= place && place.wrapping_sub(low) < length
}

// Where the cell after so many others begins along an axis, and where the last one before them does.
fn after(low: u32, edge: u32, count: u32) -> u32 {
    low.wrapping_add(edge.wrapping_mul(count))
}

fn before(low: u32, edge: u32) -> u32 {
    low.wrapping_sub(edge)
}

// How many cells stand before a place along an axis.
fn cells_before(low: u32, edge: u32, place: u32) -> u32
    requires { 0 < edge }
{
    place.wrapping_sub(low) / edge
}

impl Leaf {
    fn has(&self, place: [u32; 3]) -> bool {
        let [x, y, z] = self.low;
        let length = self.id.edge().wrapping_mul(self.cells.side());
        spans(x, length, place[0]) && spans(y, length, place[1]) && spans(z, length, place[2])
    }

    // The value of the cell that has the place.
    fn value_at(&self, rt: &impl Abort, place: [u32; 3]) -> u32 {
        let [x, y, z] = self.low;
        let edge = self.id.edge();
        assert!(rt; edge > 0);
        let side = self.cells.side();
        self.cells.get(
            cells_before(x, edge, place[0]) % side,
            cells_before(y, edge, place[1]) % side,
            cells_before(z, edge, place[2]) % side,
        )
    }

    // The mean, rounded down, of the eight cells of which the first begins at the place.
    fn mean_at(&self, rt: &impl Abort, place: [u32; 3]) -> u32 {
        let [x, y, z] = place;
        let edge = self.id.edge();
        let mut sum = 0u64;
        for k in 0u32..8 {
            let on = [
                after(x, edge, k % 2),
                after(y, edge, k / 2 % 2),
                after(z, edge, k / 4),
            ];
            sum = sum.wrapping_add(u64::from(self.value_at(rt, on)));
        }
        (sum / 8 % 4294967296) as u32
    }

    // Where the cell begins that lies across a face, beside the block's cell of these two other coordinates. Before the domain's
    // beginning the place goes round, and so lies past its end.
    fn place_across(&self, face: Face, a: u32, b: u32) -> [u32; 3] {
        let [x, y, z] = self.low;
        let (edge, side) = (self.id.edge(), self.cells.side());
        match face {
            Face::XLow => [before(x, edge), after(y, edge, a), after(z, edge, b)],
            Face::XHigh => [after(x, edge, side), after(y, edge, a), after(z, edge, b)],
            Face::YLow => [after(x, edge, a), before(y, edge), after(z, edge, b)],
            Face::YHigh => [after(x, edge, a), after(y, edge, side), after(z, edge, b)],
            Face::ZLow => [after(x, edge, a), after(y, edge, b), before(z, edge)],
            Face::ZHigh => [after(x, edge, a), after(y, edge, b), after(z, edge, side)],
        }
    }
}

impl Tiling {
    fn has(&self, side: u32, place: [u32; 3]) -> bool {
        let Shape { nx, ny, nz } = self.shape;
        let root = side.wrapping_mul(16);
        spans(0, root.wrapping_mul(nx), place[0])
            && spans(0, root.wrapping_mul(ny), place[1])
            && spans(0, root.wrapping_mul(nz), place[2])
    }

    // The sample of a level at the cell that begins at the place.
    fn sample(&self, rt: &impl Abort, level: u32, place: [u32; 3]) -> u32 {
        for leaf in self.leaves.as_slice() {
            if leaf.has(place) {
                return if leaf.id.level() <= level {
                    leaf.value_at(rt, place)
                } else {
                    leaf.mean_at(rt, place)
                };
            }
        }
        panic!(rt; "no leaf has this place")
    }

    // Writes the samples beside a leaf's face, where that isn't at the domain's edge.
    pub(super) fn put_samples(&self, rt: &impl Abort, leaf: &Leaf, face: Face, shell: &mut Shell) {
        let side = shell.side();
        for k in 0..side * side {
            let (a, b) = (k % side, k / side % side);
            let place = leaf.place_across(face, a, b);
            if self.has(side, place) {
                shell.put(face, a, b, self.sample(rt, leaf.id.level(), place));
            }
        }
    }
}
