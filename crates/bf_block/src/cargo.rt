use crate::{Block, Eighth};

/// What a regrid sends to another rank: a whole block, or an eighth of one into which leaves merge.
#[derive(Drop)]
pub enum Cargo {
    Whole(Block),
    Piece(Eighth),
}
