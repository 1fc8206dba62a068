//! Whom a rank talks to.
ghost use Rattle.std.specs.Prelude.{◌≡◌, filter};
ghost use Rattle.std.specs.List.{list_any};
ghost use Rattle.bf_forest.specs.Peers.{is_peer};
ghost use Rattle.bf_forest.specs.Rounds.{is_linked};

use crate::{ForestLocal, Stage};
use bf_buddy::Members;
use bf_msg::LinkedBlock;
use bf_parts::gives;

// Whether one of some blocks is linked with one of a rank.
fn have_owner(blocks: &[LinkedBlock], rank: u32) -> bool
    ensures { result ≡ list_any (is_linked rank) blocks.now }
{
    blocks.iter().any(|linked| linked.links.has_owner(rank))
}

// Whether another is a peer of a rank.
#[tactic(auto, unfolding(crate::specs::Peers::is_peer, crate::specs::Rounds::is_neighbor))]
fn is_peer(stage: Stage, members: Members, shift: u32, local: &ForestLocal, other: u32) -> bool
    ensures { result ≡ is_peer stage members shift local.now other }
{
    match stage {
        Stage::Step { .. } => other != local.rank && have_owner(local.blocks.as_slice(), other),
        Stage::Snapshot => {
            other != local.rank
                && (gives(members, shift, local.rank, other)
                    || gives(members, shift, other, local.rank))
        }
        Stage::Over => false,
    }
}

/// The members that a rank talks to.
#[tactic(auto, using(crate::proofs::PeerSteps::peer_steps))]
pub fn peers_of(stage: Stage, members: Members, shift: u32, local: &ForestLocal) -> Members
    ensures { result ≡ filter (is_peer stage members shift local.now) members }
{
    // members are below 32, so the loop passes none by
    let _ = members.count();
    let mut peers = members;
    for other in 0..32u32 {
        if members.has(other) && !is_peer(stage, members, shift, local, other) {
            peers = peers.without(other);
        }
    }
    peers
}
