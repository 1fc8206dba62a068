/// What becomes of a leaf at a regrid.
#[derive(Clone, Copy, Debug, PartialEq, Eq)]
pub enum Target {
    /// It stays, with its cells.
    Keep,
    /// It gives way to its eight children.
    Refine,
    /// It gives way, with its seven siblings, to their parent.
    Merge,
}
