//! Laws of the program, each the contract of a call that does nothing.
//!
//! A good vector has the members' locals at the beginning of a round. Its world says who owns which bead, and who has which
//! of the agreed snapshot.
ghost use Rattle.std.specs.Prelude.{◌≡◌, ℕ, ◌≤◌, ◌<◌, ◌==◌, nat_lt, if◌then◌else◌, IsTrue, Bool, List, All, Some, None, filter};
ghost use Rattle.std.specs.List.{count_by, flat_map};
ghost use Rattle.bf_buddy.specs.Losses.{first_lost_of};
ghost use Rattle.bf_buddy.specs.Members.{is_member};
ghost use Rattle.bf_program.specs.declared.epoch.Epoch.{Epoch};
ghost use Rattle.bf_program.specs.Epochs.{first_epoch, epoch_after_commit};
ghost use Rattle.bf_program.specs.Laws.{Laws};
ghost use Rattle.bf_program.specs.Lockstep.{local_of, lockstep};
ghost use Rattle.bf_program.specs.Points.{IsSending, IsReceiving, IsFinishing};
ghost use Rattle.bf_program.specs.Restores.{heir_of, restored_epoch, restored_locals};
ghost use Rattle.bf_parts.specs.Leaves.{part_of};
ghost use Rattle.bf_rounds.specs.Canonical.{IsSendingTold, IsHearingTold, IsFinishingTold};
ghost use Rattle.bf_stages.specs.Stages.{telling_of};
ghost use Rattle.bf_beads.specs.declared.local.BeadLocal.{BeadLocal};
ghost use Rattle.bf_beads.specs.declared.message.BeadMessage.{BeadMessage};
ghost use Rattle.bf_beads.specs.declared.setup.BeadSetup.{BeadSetup};
ghost use Rattle.bf_beads.specs.Goods.{IsGood, HasItsPart, staging};
ghost use Rattle.bf_beads.specs.Meanings.{beads, pieces};
ghost use Rattle.bf_beads.specs.Row.{beads_at, IsOwnedAmong, numbers_of};

use crate::Beads;

/// All laws of round programs.
pub fn beads_keep_all_laws()
    ensures { (setup : BeadSetup) → Laws beads pieces IsGood setup }
{}

/// A run begins with a good vector.
pub fn the_opening_is_good()
    ensures { (setup : BeadSetup) → IsGood setup (first_epoch setup.ranks setup.steps setup.interval) 0 (beads.opening setup) }
{}

/// From a good start the ranks stay good through the rounds of an epoch.
pub fn the_beads_stay_good()
    ensures { (setup : BeadSetup) (epoch : Epoch) (start : List BeadLocal) (round : ℕ) → IsGood setup epoch 0 start
        → round ≤ beads.rounds setup epoch → IsGood setup epoch round (lockstep beads setup epoch start round) }
{
    bf_program::laws::the_lockstep_stays_good::<Beads>();
}

/// A member has exactly the beads that it owns, as they are at that time, and its side of the agreed snapshot.
pub fn a_member_has_its_part()
    ensures { (setup : BeadSetup) (epoch : Epoch) (round : ℕ) (locals : List BeadLocal) (rank : ℕ) (local : BeadLocal) (good : IsGood setup epoch round locals)
        → local_of epoch.members locals rank ≡ Some local → HasItsPart setup epoch round good.world rank local }
{}

/// After a commit the owners of before are the homes: a member goes on with the beads that it had, and its side of the
/// agreed snapshot is that of these.
pub fn a_commit_makes_owners_homes()
    ensures { (setup : BeadSetup) (epoch : Epoch) (locals : List BeadLocal) (rank : ℕ) (local : BeadLocal) (good : IsGood setup epoch (beads.rounds setup epoch) locals)
        → epoch.target < setup.steps → local_of epoch.members locals rank ≡ Some local
        → HasItsPart setup (epoch_after_commit setup.steps setup.interval epoch) 0 (record { home = good.world.owner; owner = good.world.owner }) rank (beads.keep local) }
{}

/// Whom a member talks to, talks to it.
pub fn peers_are_mutual()
    ensures { (setup : BeadSetup) (epoch : Epoch) (round : ℕ) (locals : List BeadLocal) (rank peer : ℕ) (local other : BeadLocal) → IsGood setup epoch round locals
        → round < beads.rounds setup epoch → local_of epoch.members locals rank ≡ Some local → local_of epoch.members locals peer ≡ Some other
        → IsTrue (is_member (beads.peers setup local epoch round) peer) → IsTrue (is_member (beads.peers setup other epoch round) rank) }
{}

/// What a send knows: its local is a member's, of some world, with all that it sent to the peers before this one taken out.
pub fn a_sender_knows_its_local()
    ensures { (setup : BeadSetup) (epoch : Epoch) (round to : ℕ) (local : BeadLocal) → IsSending beads IsGood setup epoch round to local
        → IsSendingTold beads (telling_of beads staging) setup epoch round to local }
{}

/// What a receive knows: its local is a member's, of some world, with what the peers before this one sent, and the message is
/// this peer's, of the same world.
pub fn a_receiver_knows_its_local()
    ensures { (setup : BeadSetup) (epoch : Epoch) (round peer : ℕ) (msg : BeadMessage) (local : BeadLocal) → IsReceiving beads IsGood setup epoch round peer msg local
        → IsHearingTold beads (telling_of beads staging) setup epoch round peer msg local }
{}

/// What the end of a round knows: its local is a member's, of some world, with what all peers sent.
pub fn a_finisher_knows_its_local()
    ensures { (setup : BeadSetup) (epoch : Epoch) (round : ℕ) (local : BeadLocal) → IsFinishing beads IsGood setup epoch round local
        → IsFinishingTold beads (telling_of beads staging) setup epoch round local }
{}

/// The members have each bead of the row once, and no others.
pub fn each_bead_is_at_one_member()
    ensures { (setup : BeadSetup) (epoch : Epoch) (round : ℕ) (locals : List BeadLocal) (number : ℕ) → IsGood setup epoch round locals
        → count_by (λ other. other == number) (flat_map (λ (local : BeadLocal). numbers_of local.beads) locals) ≡ (if nat_lt number setup.beads then 1 else 0) }
{}

/// Links name members.
pub fn links_name_members()
    ensures { (setup : BeadSetup) (epoch : Epoch) (round : ℕ) (locals : List BeadLocal) (rank : ℕ) (local : BeadLocal) → IsGood setup epoch round locals
        → local_of epoch.members locals rank ≡ Some local → All (IsOwnedAmong epoch.members) local.beads }
{}

/// A live member goes on with the beads of the agreed snapshot whose heir it is, in the order of their numbers, with the
/// heirs of all others in the links.
pub fn a_restore_gives_an_heir_its_part()
    ensures { (setup : BeadSetup) (epoch : Epoch) (round : ℕ) (locals : List BeadLocal) (lives : ℕ → Bool) (rank : ℕ) (local : BeadLocal) (good : IsGood setup epoch round locals)
        → local_of epoch.members locals rank ≡ Some local → IsTrue (lives rank)
        → (beads.restore setup local rank (restored_epoch lives epoch)).beads
        ≡ part_of (beads_at setup.beads epoch.time) (λ number. heir_of epoch.homes (filter lives epoch.members) setup.shift (good.world.home number)) rank }
{}

/// Where no part is lost, no link names the dead after a restore.
pub fn a_restore_leaves_no_dead_owner()
    ensures { (setup : BeadSetup) (epoch : Epoch) (round : ℕ) (locals : List BeadLocal) (lives : ℕ → Bool) (rank : ℕ) (local : BeadLocal) → IsGood setup epoch round locals
        → first_lost_of epoch.homes (beads.stored locals) (filter lives epoch.members) setup.shift ≡ None
        → local_of (filter lives epoch.members) (restored_locals beads setup epoch lives locals) rank ≡ Some local
        → All (IsOwnedAmong (filter lives epoch.members)) local.beads }
{}
