//! The numbers of a case.
ghost use Rattle.std.specs.Prelude.{◌≡◌};

use bf_id::Shape;

/// The numbers that the keys give; 0 for what hasn't come.
#[derive(Clone, Copy)]
pub struct Head {
    pub roots: Shape,
    pub side: u32,
    pub levels: u32,
    pub ranks: u32,
    pub steps: u32,
    pub snapshot: u32,
    pub regrid: u32,
    pub refine: u32,
    pub coarsen: u32,
    pub flow: u32,
    pub turns: u32,
    pub shift: u32,
}

impl Head {
    ghost use Rattle.bf_text.specs.Drafts.{blank_head};

    /// No number has come.
    pub fn blank() -> Head
        ensures { result ≡ blank_head }
    {
        Head {
            roots: Shape {
                nx: 0,
                ny: 0,
                nz: 0,
            },
            side: 0,
            levels: 0,
            ranks: 0,
            steps: 0,
            snapshot: 0,
            regrid: 0,
            refine: 0,
            coarsen: 0,
            flow: 0,
            turns: 0,
            shift: 0,
        }
    }
}
