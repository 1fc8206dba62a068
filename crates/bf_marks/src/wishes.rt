ghost use Rattle.std.specs.Prelude.{◌≡◌};
ghost use Rattle.bf_marks.specs.Wishes.{is_coarsen, is_refine};

/// What a leaf wishes by its cells.
#[derive(Clone, Copy, Debug, PartialEq, Eq)]
pub enum Wish {
    Refine,
    Coarsen,
    Stay,
}

impl Wish {
    /// Whether it is to be refined.
    pub fn is_refine(self) -> bool
        ensures { result ≡ is_refine self }
    {
        matches!(self, Wish::Refine)
    }

    /// Whether it is to be coarsened.
    pub fn is_coarsen(self) -> bool
        ensures { result ≡ is_coarsen self }
    {
        matches!(self, Wish::Coarsen)
    }
}
