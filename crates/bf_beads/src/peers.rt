ghost use Rattle.std.specs.Prelude.{◌≡◌, filter};
ghost use Rattle.bf_beads.specs.Peers.{is_peer};

use crate::beads::is_neighbor;
use crate::{BeadLocal, Stage};
use bf_buddy::Members;
use bf_parts::gives;

// Whether another is a peer of a rank.
#[tactic(auto, unfolding(crate::specs::Peers::is_peer))]
fn is_peer(stage: Stage, members: Members, shift: u32, local: &BeadLocal, other: u32) -> bool
    ensures { result ≡ is_peer stage members shift local.now other }
{
    match stage {
        Stage::Tell(_) => is_neighbor(local, other),
        Stage::Move(_) => other != local.rank,
        Stage::Snapshot => {
            other != local.rank
                && (gives(members, shift, local.rank, other)
                    || gives(members, shift, other, local.rank))
        }
        Stage::Grow(_) | Stage::Over => false,
    }
}

/// The members that a rank talks to.
#[tactic(auto, using(crate::proofs::PeerSteps::peer_steps))]
pub fn peers_of(stage: Stage, members: Members, shift: u32, local: &BeadLocal) -> Members
    ensures { result ≡ filter (is_peer stage members shift local.now) members }
{
    // members are below 32, so the loop passes none by
    let _ = members.count();
    let mut peers = members;
    for other in 0..32u32 {
        if !is_peer(stage, members, shift, local, other) {
            peers = peers.without(other);
        }
    }
    peers
}
