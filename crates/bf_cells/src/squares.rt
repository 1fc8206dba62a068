ghost use Rattle.std.specs.Borrow.{sem};
ghost use Rattle.std.specs.Prelude.{◌≡◌, ℕ};
ghost use Rattle.bf_cells.specs.Shell.{wall_of};

use bf_face::Face;

// One square of values for each face.
#[derive(Debug, Drop)]
pub(crate) struct Squares {
    pub(crate) x_low: Vec<u32>,
    pub(crate) x_high: Vec<u32>,
    pub(crate) y_low: Vec<u32>,
    pub(crate) y_high: Vec<u32>,
    pub(crate) z_low: Vec<u32>,
    pub(crate) z_high: Vec<u32>,
}

impl Squares {
    ghost use Rattle.bf_cells.specs.Squares.{walls_with, LendsSquare};

    // The square of a face, to write in it.
    pub(crate) fn square_mut(&mut self, face: Face) -> &mut [u32]
        ensures* lends { sem 𝓛 (LendsSquare self.entry face result) }
        ensures value { (side : ℕ) → result.now ≡ wall_of (walls_with side self.old) face }
    {
        match face {
            Face::XLow => self.x_low.as_mut_slice(),
            Face::XHigh => self.x_high.as_mut_slice(),
            Face::YLow => self.y_low.as_mut_slice(),
            Face::YHigh => self.y_high.as_mut_slice(),
            Face::ZLow => self.z_low.as_mut_slice(),
            Face::ZHigh => self.z_high.as_mut_slice(),
        }
    }
}
