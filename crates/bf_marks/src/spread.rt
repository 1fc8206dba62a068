ghost use Rattle.std.specs.Prelude.{◌≡◌};
ghost use Rattle.bf_block.specs.Block.{map_at};
ghost use Rattle.bf_block.specs.Setup.{case_of};
ghost use Rattle.bf_case.specs.Wishes.{wishes_of};
ghost use Rattle.bf_marks.specs.Wishes.{wish_of};

use crate::wishes::Wish;
use bf_block::{Block, Setup};

/// What a leaf wishes by the spread of its cells: to be refined where it is too great, to be coarsened where it is small.
/// The limits are those of the setup.
pub fn wish(block: &Block, setup: &Setup) -> Wish
    ensures { result ≡ wish_of (wishes_of (case_of setup.now) (map_at block.now.case block.now.point)) block.now.id }
{
    let level = block.id().level();
    let spread = block.cells().spread();
    if setup.refine() < spread && level < setup.levels() {
        Wish::Refine
    } else if spread <= setup.coarsen() && 0 < level {
        Wish::Coarsen
    } else {
        Wish::Stay
    }
}
