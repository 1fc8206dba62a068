ghost use Rattle.std.specs.Prelude.{◌≡◌};

/// A face of a box, named as it lies on that box.
#[derive(Clone, Copy, Debug, PartialEq, Eq)]
pub enum Face {
    XLow,
    XHigh,
    YLow,
    YHigh,
    ZLow,
    ZHigh,
}

impl Face {
    ghost use Rattle.bf_face.specs.Face.{number_of, opposite_of};

    /// The six, each at the place that is its number.
    pub const ALL: [Face; 6] = [
        Face::XLow,
        Face::XHigh,
        Face::YLow,
        Face::YHigh,
        Face::ZLow,
        Face::ZHigh,
    ];

    pub fn number(self) -> u32
        ensures { result ≡ number_of self }
    {
        match self {
            Face::XLow => 0,
            Face::XHigh => 1,
            Face::YLow => 2,
            Face::YHigh => 3,
            Face::ZLow => 4,
            Face::ZHigh => 5,
        }
    }

    /// The same face as it lies on the box on its other side.
    pub fn opposite(self) -> Face
        ensures { result ≡ opposite_of self }
    {
        match self {
            Face::XLow => Face::XHigh,
            Face::XHigh => Face::XLow,
            Face::YLow => Face::YHigh,
            Face::YHigh => Face::YLow,
            Face::ZLow => Face::ZHigh,
            Face::ZHigh => Face::ZLow,
        }
    }
}
