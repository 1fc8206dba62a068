//! Which ranks begin with a block.
ghost use Rattle.std.specs.Prelude.{◌≡◌};
ghost use Rattle.bf_forest.specs.Setup.{case_of};
ghost use Rattle.bf_forest.specs.Meanings.{forest};
ghost use Rattle.bf_forest.specs.Starts.{starts};

use crate::Setup;
use bf_buddy::Members;

// Whether a root begins at a rank.
#[tactic(auto, using(crate::proofs::StartSteps::start_steps))]
fn has_root(setup: &Setup, rank: u32) -> bool
    ensures { result ≡ starts (case_of setup.now) rank }
{
    for root in 0..setup.root_count() {
        if setup.root_rank(root) == rank {
            return true;
        }
    }
    false
}

/// The ranks at which a root begins: those whose part of the opening's snapshot has a block.
#[tactic(auto, using(crate::proofs::StartSteps::start_steps))]
pub fn laid(setup: &Setup) -> Members
    ensures { result ≡ forest.laid setup.now }
{
    let mut laid = Members::all(setup.ranks());
    for rank in 0..setup.ranks() {
        if !has_root(setup, rank) {
            laid = laid.without(rank);
        }
    }
    laid
}
