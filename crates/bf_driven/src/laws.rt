//! What comes of a case that is run by its ranks, each law the contract of a call that does nothing.
ghost use Rattle.std.specs.Prelude.{◌≡◌, ◌≤◌, ◌⊎◌, ℕ, IsTrue, IsPermutation, List, [], ◌∷◌, ◌++◌, Some, None, is_some, map};
ghost use Rattle.std.specs.List.{flat_map, list_any};
ghost use Rattle.bf_case.specs.declared.case.Case.{Case};
ghost use Rattle.bf_case.specs.Case.{IsValid};
ghost use Rattle.bf_case.specs.Model.{model};
ghost use Rattle.bf_core.specs.declared.event.Event.{Event};
ghost use Rattle.bf_core.specs.declared.outcome.Outcome.TheVariants.{Finished, Memory};
ghost use Rattle.bf_core.specs.Legal.{is_memory};
ghost use Rattle.bf_core.specs.States.{is_finished};
ghost use Rattle.bf_world.specs.Runs.{run_after, is_journal};
ghost use Rattle.bf_world.specs.Worlds.{View, IsView, brings_restore, core_after};
ghost use Rattle.bf_owners.specs.Owners.{IsUnhurt, times_owned, all_ranks, live_ranks};
ghost use Rattle.bf_id.specs.Cube.{Voxel};
ghost use Rattle.bf_msg.specs.declared.linked_block.LinkedBlock.{LinkedBlock};
ghost use Rattle.bf_msg.specs.declared.message.Message.{Message};
ghost use Rattle.bf_block.specs.Block.{BlockValue, leaf_of};
ghost use Rattle.bf_forest.specs.declared.local.ForestLocal.{ForestLocal};
ghost use Rattle.bf_forest.specs.declared.setup.Setup.{Setup};
ghost use Rattle.bf_forest.specs.Setup.{case_of};
ghost use Rattle.bf_forest.specs.Leaves.{AreLeaves, bare_blocks};
ghost use Rattle.bf_forest.specs.Meanings.{forest, pieces};
ghost use Rattle.bf_rank.specs.Ranks.{last_decided};
ghost use Rattle.bf_driven.specs.Heirs.{GivesToHeirs};
ghost use Rattle.bf_driven.specs.Held.{AllHold, AllHoldUntilCommit, MustLeave, HadMemory};
ghost use Rattle.bf_driven.specs.Losses.{EndsByDeaths};
ghost use Rattle.bf_driven.specs.Parcels.{blocks_of, RiseById};

use bf_forest::Forest;
use bf_forest::laws::{
    a_part_has_a_block_where_its_home_has_a_leaf, a_restore_gives_heirs_their_blocks,
    each_member_holds_its_parts_of_the_agreed_snapshot, good_vectors_are_those_dealt,
    some_home_has_a_block, the_blocks_are_the_models_leaves,
};
use bf_owners::laws::{each_unit_has_one_owner, no_unit_has_two_live_owners};
use bf_rank::laws::{
    a_rank_keeps_what_a_restore_reads, a_rank_that_must_leave_keeps_what_a_restore_reads,
    the_decided_epoch_began_good,
};
use bf_world::laws::{
    a_complete_run_has_an_end, a_complete_run_without_deaths_ends, a_finished_run_has_every_parcel,
    a_finished_run_is_at_its_end, each_epoch_begins_good, the_last_locals_are_good,
};
use bf_world::losses::{
    a_complete_run_has_a_last_decision, a_run_is_lost_exactly_where_both_holders_died,
};
use bf_world::snapshots::{a_restore_gives_all_back, what_is_stored_is_in_the_first_locals};

/// Whatever order the events took and whoever died: once a run has finished, the blocks of its parcels are the leaves of
/// the model's last map with their cells, each leaf once.
pub fn a_finished_run_has_the_leaves()
    ensures { (setup : Setup) (journal : List Event) → IsTrue (is_journal forest setup journal)
        → (core_after forest setup journal).outcome ≡ Some Finished
        → AreLeaves (model (case_of setup) (case_of setup).steps) (blocks_of (run_after forest setup journal).parcels) }
{
    a_finished_run_has_every_parcel::<Forest>();
    the_last_locals_are_good::<Forest>();
    a_finished_run_is_at_its_end::<Forest>();
}

/// Each epoch begins with the agreed snapshot as a whole, whether the opening, a commit or a restore began it: the blocks of its members
/// are the leaves of the model's map at the agreed time, with its cells, each leaf once.
pub fn each_epoch_begins_with_the_agreed_map()
    ensures { (setup : Setup) (journal : List Event) → IsTrue (is_journal forest setup journal)
        → AreLeaves (model (case_of setup) (core_after forest setup journal).epoch.time)
        (flat_map (λ (local : ForestLocal). bare_blocks local.blocks) (run_after forest setup journal).start) }
{
    each_epoch_begins_good::<Forest>();
    the_blocks_are_the_models_leaves();
}

/// A restore gives each block of the agreed snapshot to exactly one rank that lives, its heir: its home where that lives, else the home's
/// buddy. There its cells are the model's at the agreed time, and its links name the leaves of that map that touch it, with their heirs as
/// their owners. With these the next epoch begins, and each member keeps its parts of the agreed snapshot by the homes that the leaves have.
pub fn a_restore_gives_each_block_to_its_heir()
    ensures { (setup : Setup) (journal : List Event) (event : Event) → IsTrue (is_journal forest setup (journal ++ event ∷ []))
        → IsTrue (brings_restore forest setup (run_after forest setup journal) event) → GivesToHeirs setup journal event }
{
    each_epoch_begins_good::<Forest>();
    each_epoch_begins_with_the_agreed_map();
    good_vectors_are_those_dealt();
    each_member_holds_its_parts_of_the_agreed_snapshot();
    what_is_stored_is_in_the_first_locals::<Forest>();
    a_restore_gives_all_back::<Forest>();
    a_restore_gives_heirs_their_blocks();
}

/// While a run goes on, each rank that does, and hasn't wanted memory, has its parts of the agreed snapshot: its own, and a copy of
/// that of the home whose buddy it is. Where a commit agreed on it and the rank hasn't left yet, they are on its spare side; else on
/// the active one. Until the next commit no event changes these parts, a restore neither [agreed]. Once the run has finished, they are
/// on the spare side until the rank leaves [finished]. Until a rank leaves an epoch that was decided, its active side has its parts of the
/// snapshot that was agreed before [before]. All ranks have them by the same homes of the leaves.
pub fn each_rank_holds_its_parts_of_the_agreed_snapshot()
    ensures agreed { (setup : Setup) (journal : List Event) → IsTrue (is_journal forest setup journal) → AllHoldUntilCommit setup journal }
    ensures finished { (setup : Setup) (journal : List Event) → IsTrue (is_journal forest setup journal) → (core_after forest setup journal).outcome ≡ Some Finished
        → AllHold (case_of setup) (core_after forest setup journal).epoch.target (core_after forest setup journal).epoch.members
        (λ rank buffers. buffers.spare) (MustLeave setup journal) }
    ensures before { (setup : Setup) (journal : List Event) → IsTrue (is_journal forest setup journal)
        → AllHold (case_of setup) (last_decided forest setup journal).core.epoch.time (last_decided forest setup journal).core.epoch.homes
        (λ rank buffers. buffers.active) (HadMemory setup journal) }
{
    each_epoch_begins_good::<Forest>();
    the_last_locals_are_good::<Forest>();
    the_decided_epoch_began_good::<Forest>();
    good_vectors_are_those_dealt();
    a_rank_keeps_what_a_restore_reads::<Forest>();
    a_rank_that_must_leave_keeps_what_a_restore_reads::<Forest>();
}

/// Each unit of the domain is owned once: while every member lives and none has arrived for want of memory, and once the run has
/// finished, it lies in exactly one piece [one]. Whatever has happened, it lies in at most one piece whose owner lives [live]. Pieces are the
/// boxes of the blocks that ranks have, and of those in their parcels; copies in snapshots and messages are none.
pub fn each_unit_of_the_domain_has_one_owner()
    ensures one { (view : View Setup Message (List LinkedBlock)) (unit : Voxel) → IsView forest view
        → IsUnhurt (core_after forest view.setup view.journal) → IsTrue (pieces.is_in_domain view.setup unit)
        → times_owned forest pieces view (all_ranks forest view) unit ≡ 1 }
    ensures live { (view : View Setup Message (List LinkedBlock)) (unit : Voxel) → IsView forest view
        → IsTrue (pieces.is_in_domain view.setup unit) → times_owned forest pieces view (live_ranks forest view) unit ≤ 1 }
{
    each_unit_has_one_owner::<Forest>();
    no_unit_has_two_live_owners::<Forest>();
}

/// Once each rank is dead or has left, the run has a last decision, and it is lost exactly where both holders of some block of the
/// snapshot agreed until then have died by that decision: the home of a leaf, and that home's buddy.
pub fn a_run_is_lost_exactly_where_both_holders_of_a_block_died()
    ensures { (setup : Setup) (journal : List Event) → IsTrue (is_journal forest setup journal)
        → IsTrue (is_finished (core_after forest setup journal)) → EndsByDeaths setup journal }
{
    each_epoch_begins_good::<Forest>();
    some_home_has_a_block();
    good_vectors_are_those_dealt();
    a_part_has_a_block_where_its_home_has_a_leaf();
    what_is_stored_is_in_the_first_locals::<Forest>();
    a_complete_run_has_a_last_decision::<Forest>();
    a_run_is_lost_exactly_where_both_holders_died::<Forest>();
}

/// Blocks that are the leaves of a map of the model, put in rising order of their ids, are the map.
pub fn leaves_in_order_are_the_map()
    ensures { (c : Case) (time : ℕ) (blocks sorted : List BlockValue) → IsValid c → AreLeaves (model c time) blocks
        → IsPermutation blocks sorted → RiseById sorted
        → map leaf_of sorted ≡ model c time }
{}

/// A case without deaths comes to its end, or some rank has arrived for want of memory.
pub fn a_case_without_deaths_ends()
    ensures { (setup : Setup) (journal : List Event) → (case_of setup).dies ≡ []
        → IsTrue (is_journal forest setup journal) → IsTrue (is_finished (core_after forest setup journal))
        → ((core_after forest setup journal).outcome ≡ Some Finished)
        ⊎ (((core_after forest setup journal).outcome ≡ Some Memory) × IsTrue (list_any is_memory journal)) }
{
    a_complete_run_without_deaths_ends::<Forest>();
}

/// Once each rank is dead or has left, the run has an end: finished, lost or for want of memory.
pub fn a_complete_run_ends()
    ensures { (setup : Setup) (journal : List Event) → IsTrue (is_journal forest setup journal)
        → IsTrue (is_finished (core_after forest setup journal)) → IsTrue (is_some (core_after forest setup journal).outcome) }
{
    each_epoch_begins_good::<Forest>();
    some_home_has_a_block();
    a_complete_run_has_an_end::<Forest>();
}
