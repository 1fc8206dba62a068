//! What holds of all ranks together, each law the contract of a call that does nothing.
ghost use Rattle.std.specs.Prelude.{◌≡◌, ◌≢◌, ◌↔◌, ◌⊎◌, ℕ, ◌+◌, ◌-◌, ◌<◌, ◌≤◌, Bool, IsTrue, List, Some, None, All, Contains, filter, map};
ghost use Rattle.std.specs.List.{flat_map};
ghost use Rattle.bf_buddy.specs.Buddy.{buddy_of};
ghost use Rattle.bf_buddy.specs.Members.{is_member};
ghost use Rattle.bf_buddy.specs.Losses.{first_lost_of};
ghost use Rattle.bf_program.specs.declared.epoch.Epoch.{Epoch};
ghost use Rattle.bf_program.specs.Epochs.{first_epoch, epoch_after_commit, target_in};
ghost use Rattle.bf_program.specs.Laws.{Laws};
ghost use Rattle.bf_program.specs.Lockstep.{lockstep, next_locals};
ghost use Rattle.bf_program.specs.Points.{IsSending, IsReceiving, IsFinishing};
ghost use Rattle.bf_program.specs.Restores.{heir_of, restored_epoch, restored_locals};
ghost use Rattle.bf_rounds.specs.Canonical.{IsSendingTold, IsHearingTold, IsFinishingTold};
ghost use Rattle.bf_stages.specs.Stages.{telling_of};
ghost use Rattle.bf_id.specs.Id.{BlockId};
ghost use Rattle.bf_case.specs.Map.{ids_of};
ghost use Rattle.bf_case.specs.Model.{model};
ghost use Rattle.bf_block.specs.Block.{map_at};
ghost use Rattle.bf_forest.specs.declared.setup.Setup.{Setup};
ghost use Rattle.bf_forest.specs.Setup.{case_of};
ghost use Rattle.bf_forest.specs.declared.local.ForestLocal.{ForestLocal};
ghost use Rattle.bf_msg.specs.declared.message.Message.{Message};
ghost use Rattle.bf_forest.specs.Goods.{IsGood, AreDealt, AreNeighbors, ArePartners, HasAgreed, HasCopies, HasLeaf, HasLinked, HasParts, TileDomain};
ghost use Rattle.bf_forest.specs.Leaves.{AreLeaves, bare_blocks};
ghost use Rattle.bf_forest.specs.Meanings.{forest, pieces};
ghost use Rattle.bf_ghost.specs.Telling.{told_strips};
ghost use Rattle.bf_stages.specs.Plans.{rounds_of, span, stage_of};
ghost use Rattle.bf_forest.specs.Stages.{forest_plan};
ghost use Rattle.bf_forest.specs.Staging.{point_at, Runs, forest_staging};
ghost use Rattle.bf_forest.specs.declared.stage.Stage.TheVariants.{Step};

use crate::Forest;
use bf_program::laws::the_lockstep_stays_good;

/// All laws of round programs.
pub fn the_forest_keeps_all_laws()
    ensures { (setup : Setup) → Laws forest pieces IsGood setup }
{}

/// The ranks begin with a good vector: each root is at one of them, filled, and its copy at that rank's buddy.
pub fn the_opening_is_good()
    ensures { (setup : Setup) → IsGood setup (first_epoch (forest.ranks setup) (forest.steps setup) (forest.interval setup)) 0 (forest.opening setup) }
{}

/// Each round, the steps' and the snapshot's, leads from a good vector to a good one, for all members and all owners of
/// the roots.
pub fn a_round_keeps_a_good_vector()
    ensures { (setup : Setup) (epoch : Epoch) (round : ℕ) (locals : List ForestLocal) → IsGood setup epoch round locals
        → round < rounds_of forest_plan epoch → IsGood setup epoch (round + 1) (next_locals forest setup epoch round locals) }
{}

/// So from a good start the ranks stay good through the rounds of an epoch.
pub fn the_forest_stays_good()
    ensures { (setup : Setup) (epoch : Epoch) (start : List ForestLocal) (round : ℕ) → IsGood setup epoch 0 start
        → round ≤ rounds_of forest_plan epoch → IsGood setup epoch round (lockstep forest setup epoch start round) }
{
    the_lockstep_stays_good::<Forest>();
}

/// At the beginning of each round the blocks of all members are the leaves of the model's map at that round's point, with
/// its cells, each leaf once.
pub fn the_blocks_are_the_models_leaves()
    ensures { (setup : Setup) (epoch : Epoch) (round : ℕ) (locals : List ForestLocal) → IsGood setup epoch round locals
        → AreLeaves (map_at (case_of setup) (point_at (case_of setup) epoch round)) (flat_map (λ (local : ForestLocal). bare_blocks local.blocks) locals) }
{}

/// The boxes of their blocks tile the domain: each unit of it lies in exactly one block of exactly one member, and no block reaches
/// outside.
pub fn the_members_pieces_tile_the_domain()
    ensures { (setup : Setup) (epoch : Epoch) (round : ℕ) (locals : List ForestLocal) → IsGood setup epoch round locals
        → TileDomain (case_of setup).roots (flat_map pieces.of_local locals) }
{}

/// Good vectors are exactly these: in an epoch of the run, and by some owner of each block and some home of each block of the agreed
/// snapshot, a member has the model's blocks of the ids that it owns, by rising id, and nothing that it heard. Of the agreed snapshot it
/// has the blocks of which it is the home, and those of its predecessor; of the new one nothing before the last round is done.
/// What the laws below say of an owner and a home holds of all by which locals are dealt, and so together.
pub fn good_vectors_are_those_dealt()
    ensures { (setup : Setup) (epoch : Epoch) (round : ℕ) (locals : List ForestLocal) → (IsGood setup epoch round locals
        ↔ (Runs (case_of setup) epoch × (owner : BlockId → ℕ) × (home : BlockId → ℕ) × AreDealt (case_of setup) epoch round owner home locals)) }
{}

/// A member's blocks are the model's leaves of the round's point that it owns, each linked with exactly the leaves that touch it and with
/// their owners. Of the agreed snapshot it has those of which it is the home, and copies of those of the member whose buddy it is,
/// linked with the leaves of the agreed time and their homes.
pub fn each_block_is_linked_with_the_leaves_that_touch_it()
    ensures { (setup : Setup) (epoch : Epoch) (round : ℕ) (owner home : BlockId → ℕ) (locals : List ForestLocal)
        → AreDealt (case_of setup) epoch round owner home locals → All (HasLinked (case_of setup) epoch round owner home) locals }
{}

/// The agreed snapshot is whole: each member has its own part, which is of exactly those leaves of the agreed map of which it is the home,
/// by rising id, and a copy of exactly that of the home whose buddy it is; one that is its own buddy has no copy. Each leaf of that map
/// has a home among the epoch's, and this or its buddy is a member.
pub fn each_member_holds_its_parts_of_the_agreed_snapshot()
    ensures parts { (setup : Setup) (epoch : Epoch) (round : ℕ) (owner home : BlockId → ℕ) (locals : List ForestLocal)
        → AreDealt (case_of setup) epoch round owner home locals → All (HasAgreed (case_of setup) epoch home) locals }
    ensures housed { (setup : Setup) (epoch : Epoch) (round : ℕ) (owner home : BlockId → ℕ) (locals : List ForestLocal) (leaf : BlockId)
        → AreDealt (case_of setup) epoch round owner home locals → Contains (ids_of (model (case_of setup) epoch.time)) leaf
        → Contains epoch.homes (home leaf) × (Contains epoch.members (home leaf) ⊎ Contains epoch.members (buddy_of epoch.homes (home leaf) (case_of setup).shift)) }
{}

/// Once all rounds are done, each member has its parts of the new snapshot likewise: by owners, which are its homes.
pub fn each_member_holds_its_parts_of_the_new_snapshot()
    ensures { (setup : Setup) (epoch : Epoch) (owner home : BlockId → ℕ) (locals : List ForestLocal) → Runs (case_of setup) epoch
        → AreDealt (case_of setup) epoch (rounds_of forest_plan epoch) owner home locals
        → All (λ (local : ForestLocal). HasParts (case_of setup) epoch.target epoch.members owner local.rank local.buffers.spare) locals }
{}

/// In a step's round the peers of a member are the other members that own a leaf which touches one of its own.
pub fn a_steps_peers_own_leaves_that_touch()
    ensures { (setup : Setup) (epoch : Epoch) (round time : ℕ) (owner home : BlockId → ℕ) (locals : List ForestLocal) (local : ForestLocal) (other : ℕ)
        → AreDealt (case_of setup) epoch round owner home locals → stage_of forest_plan epoch round ≡ Step time → Contains locals local
        → (Contains (forest.peers setup local epoch round) other ↔ (Contains epoch.members other × AreNeighbors (case_of setup) (point_at (case_of setup) epoch round) owner local.rank other)) }
{}

/// And what it tells a rank are the strips of the model's leaves: one for each leaf of its own and each leaf of the other that share
/// a face, by the ids of its own leaves and then of the other's, and nothing else.
pub fn a_step_tells_what_lies_at_shared_faces()
    ensures { (setup : Setup) (epoch : Epoch) (round time : ℕ) (owner home : BlockId → ℕ) (locals : List ForestLocal) (local : ForestLocal) (to : ℕ)
        → AreDealt (case_of setup) epoch round owner home locals → stage_of forest_plan epoch round ≡ Step time → Contains locals local
        → (forest.out setup local epoch round to).1 ≡ Message.Step (told_strips (case_of setup).roots (map_at (case_of setup) (point_at (case_of setup) epoch round)) owner local.rank to) }
{}

/// In the snapshot's round the peers of a member are its buddy and the member whose buddy it is, other than itself.
pub fn a_snapshots_peers_are_partners()
    ensures { (setup : Setup) (epoch : Epoch) (round : ℕ) (local : ForestLocal) (other : ℕ) → round ≡ span epoch
        → (Contains (forest.peers setup local epoch round) other ↔ (Contains epoch.members other × ArePartners epoch.members (case_of setup).shift local.rank other)) }
{}

/// A member tells its buddy copies of all its blocks, with their links, and others none.
pub fn a_snapshot_tells_the_buddy_all_blocks()
    ensures to_buddy { (setup : Setup) (epoch : Epoch) (round : ℕ) (locals : List ForestLocal) (local : ForestLocal) → IsGood setup epoch round locals → round ≡ span epoch → Contains locals local
        → (forest.out setup local epoch round (buddy_of epoch.members local.rank (case_of setup).shift)).1 ≡ Message.Snapshot (Some local.blocks) }
    ensures to_others { (setup : Setup) (epoch : Epoch) (round : ℕ) (local : ForestLocal) (to : ℕ) → round ≡ span epoch → to ≢ buddy_of epoch.members local.rank (case_of setup).shift
        → (forest.out setup local epoch round to).1 ≡ Message.Snapshot None }
{}

/// After that round each block is at the same owner as before it, and each member has of the new snapshot, which is that of the epoch's
/// target, its own blocks and copies of those of the member whose buddy it is. A lone member, which is its own buddy, has no copies.
pub fn a_snapshot_leaves_copies_at_buddies()
    ensures { (setup : Setup) (epoch : Epoch) (round : ℕ) (owner home : BlockId → ℕ) (locals : List ForestLocal) → Runs (case_of setup) epoch
        → AreDealt (case_of setup) epoch round owner home locals → round ≡ span epoch
        → AreDealt (case_of setup) epoch (round + 1) owner home (next_locals forest setup epoch round locals)
        × All (HasCopies (case_of setup).shift epoch (next_locals forest setup epoch round locals)) (next_locals forest setup epoch round locals) }
{}

/// Once all rounds are done, what the members give are the leaves of the model's map at the epoch's target.
pub fn an_epoch_ends_at_the_model()
    ensures { (setup : Setup) (epoch : Epoch) (locals : List ForestLocal) → IsGood setup epoch (rounds_of forest_plan epoch) locals
        → AreLeaves (model (case_of setup) epoch.target) (flat_map (λ (local : ForestLocal). bare_blocks (forest.parcel local).1) locals) }
{}

/// After a commit each member goes on with the blocks that it has, and is their home in the new agreed snapshot.
pub fn a_commit_makes_owners_homes()
    ensures { (setup : Setup) (epoch : Epoch) (owner home : BlockId → ℕ) (locals : List ForestLocal) → Runs (case_of setup) epoch
        → AreDealt (case_of setup) epoch (rounds_of forest_plan epoch) owner home locals → epoch.target < (case_of setup).steps
        → AreDealt (case_of setup) (epoch_after_commit (case_of setup).steps (case_of setup).snapshot epoch) 0 owner owner (map forest.keep locals) }
{}

/// Where no part of the agreed snapshot is lost, a restore gives the live members its leaves, with their cells, each leaf
/// once.
pub fn a_restore_rebuilds_the_agreed_map()
    ensures { (setup : Setup) (epoch : Epoch) (round : ℕ) (locals : List ForestLocal) (lives : ℕ → Bool) → IsGood setup epoch round locals
        → first_lost_of epoch.homes (forest.stored locals) (filter lives epoch.members) (forest.shift setup) ≡ None
        → AreLeaves (model (case_of setup) epoch.time) (flat_map (λ (local : ForestLocal). bare_blocks local.blocks) (restored_locals forest setup epoch lives locals)) }
{}

/// And each live member goes on with exactly those blocks of the model whose home is itself or the dead home whose buddy
/// it is, by rising id.
pub fn a_restore_gives_heirs_their_blocks()
    ensures { (setup : Setup) (epoch : Epoch) (round : ℕ) (owner home : BlockId → ℕ) (locals : List ForestLocal) (lives : ℕ → Bool) → Runs (case_of setup) epoch
        → AreDealt (case_of setup) epoch round owner home locals
        → first_lost_of epoch.homes (forest.stored locals) (filter lives epoch.members) (forest.shift setup) ≡ None
        → AreDealt (case_of setup) (restored_epoch lives epoch) 0 (λ i. heir_of epoch.homes (filter lives epoch.members) (case_of setup).shift (home i)) home
        (restored_locals forest setup epoch lives locals) }
{}

/// A member that sends has what it had at the beginning of the round.
pub fn a_sender_knows_its_local()
    ensures { (setup : Setup) (epoch : Epoch) (round : ℕ) (to : ℕ) (local : ForestLocal) → IsSending forest IsGood setup epoch round to local
        → IsSendingTold forest (telling_of forest forest_staging) setup epoch round to local }
{}

/// One that hears a peer has heard those before it alone, and the message is what the peer tells it.
pub fn a_receiver_knows_its_local()
    ensures { (setup : Setup) (epoch : Epoch) (round : ℕ) (peer : ℕ) (msg : Message) (local : ForestLocal) → IsReceiving forest IsGood setup epoch round peer msg local
        → IsHearingTold forest (telling_of forest forest_staging) setup epoch round peer msg local }
{}

/// One that ends a round has heard all its peers.
pub fn a_finisher_knows_its_local()
    ensures { (setup : Setup) (epoch : Epoch) (round : ℕ) (local : ForestLocal) → IsFinishing forest IsGood setup epoch round local
        → IsFinishingTold forest (telling_of forest forest_staging) setup epoch round local }
{}

/// An epoch has a round for each of its steps, and one for the snapshot. One that a restore began makes no step: it only
/// lays the copies again.
pub fn an_epoch_has_a_round_for_each_step()
    ensures rounds { (setup : Setup) (epoch : Epoch) (round : ℕ) (locals : List ForestLocal) → IsGood setup epoch round locals
        → rounds_of forest_plan epoch ≡ epoch.target - epoch.time + 1 }
    ensures target { (setup : Setup) (epoch : Epoch) (round : ℕ) (locals : List ForestLocal) → IsGood setup epoch round locals
        → epoch.target ≡ target_in (case_of setup).steps (case_of setup).snapshot epoch }
{}

/// The homes whose part of the agreed snapshot has a block are exactly the homes of its leaves.
pub fn a_part_has_a_block_where_its_home_has_a_leaf()
    ensures { (setup : Setup) (epoch : Epoch) (round : ℕ) (owner home : BlockId → ℕ) (locals : List ForestLocal) (rank : ℕ) → Runs (case_of setup) epoch
        → AreDealt (case_of setup) epoch round owner home locals
        → (IsTrue (is_member (forest.stored locals) rank) ↔ HasLeaf (case_of setup) epoch.time home rank) }
{}

/// Some home's part of the agreed snapshot has a block.
pub fn some_home_has_a_block()
    ensures { (setup : Setup) (epoch : Epoch) (round : ℕ) (locals : List ForestLocal) → IsGood setup epoch round locals
        → (home : ℕ) × IsTrue (is_member (forest.stored locals) home) }
{}
