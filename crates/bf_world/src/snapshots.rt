//! Laws of the agreed snapshot, each the contract of a call that does nothing.
//!
//! One snapshot is agreed at a time: commits alone change it, and a restore gives all of it back to those who live. That the
//! members' locals are good at the beginning of each epoch is `each_epoch_begins_good` of `laws`.
ghost use Rattle.std.specs.Prelude.{◌≡◌, IsTrue, List, [], ◌∷◌, ◌++◌, None, false};
ghost use Rattle.bf_core.specs.declared.event.Event.{Event};
ghost use Rattle.bf_world.specs.Losses.{survivors};
ghost use Rattle.bf_world.specs.Runs.{run_after, is_journal};
ghost use Rattle.bf_world.specs.Snapshots.{IsSameSnapshot, brings_commit, StaysInEpoch, RestoresAll, AgreesOnNew};
ghost use Rattle.bf_world.specs.Worlds.{core_after, brings_decision, brings_restore};

use bf_program::RankProgram;
use bf_program::laws::a_restore_gives_each_part_once;

/// The homes whose part of the agreed snapshot has a block are those that the locals tell with which the epoch began.
pub fn what_is_stored_is_in_the_first_locals<P: RankProgram>()
    ensures { (setup : P.Setup) (journal : List Event) → IsTrue (is_journal P.meanings setup journal)
        → (core_after P.meanings setup journal).stored ≡ P.meanings.stored (run_after P.meanings setup journal).start }
{}

/// Between decisions the epoch stays, and so does the agreed snapshot.
pub fn one_snapshot_is_agreed_at_a_time<P: RankProgram>()
    ensures { (setup : P.Setup) (journal : List Event) (event : Event)
        → brings_decision P.meanings setup (run_after P.meanings setup journal) event ≡ false
        → StaysInEpoch P.meanings setup (run_after P.meanings setup journal) (run_after P.meanings setup (journal ++ event ∷ [])) }
{}

/// The agreed snapshot changes by commits alone.
pub fn commits_alone_change_the_agreed_snapshot<P: RankProgram>()
    ensures { (setup : P.Setup) (journal : List Event) (event : Event)
        → brings_commit P.meanings setup (run_after P.meanings setup journal) event ≡ false
        → IsSameSnapshot (core_after P.meanings setup journal) (core_after P.meanings setup (journal ++ event ∷ [])) }
{}

/// A restore is whole: the run goes on from the snapshot that was agreed, the members are exactly the ranks that live, and
/// each part that has a block is given to exactly one of them, its home where that lives and else the home's buddy. Repair
/// comes first: the next epoch ends at the snapshot's time, so that the copies are made again before any step.
pub fn a_restore_gives_all_back<P: RankProgram>()
    ensures { (setup : P.Setup) (journal : List Event) (event : Event) → IsTrue (is_journal P.meanings setup (journal ++ event ∷ []))
        → IsTrue (brings_restore P.meanings setup (run_after P.meanings setup journal) event)
        → RestoresAll P.meanings setup (run_after P.meanings setup journal) (run_after P.meanings setup (journal ++ event ∷ [])) (journal ++ event ∷ []) }
{
    a_restore_gives_each_part_once::<P>();
}

/// At a commit the members are exactly the ranks that live. Where the run goes on, it agrees on the new snapshot: of the
/// time to which the epoch went, with the members as its homes. The next epoch has the same members, and goes a snapshot's
/// interval on from that time, or to the end of the run.
pub fn a_commit_agrees_on_the_new_snapshot<P: RankProgram>()
    ensures all_live { (setup : P.Setup) (journal : List Event) (event : Event) → IsTrue (is_journal P.meanings setup (journal ++ event ∷ []))
        → IsTrue (brings_commit P.meanings setup (run_after P.meanings setup journal) event)
        → (core_after P.meanings setup journal).epoch.members ≡ survivors (P.meanings.ranks setup) (journal ++ event ∷ []) }
    ensures agreed { (setup : P.Setup) (journal : List Event) (event : Event) → IsTrue (is_journal P.meanings setup (journal ++ event ∷ []))
        → IsTrue (brings_commit P.meanings setup (run_after P.meanings setup journal) event)
        → (core_after P.meanings setup (journal ++ event ∷ [])).outcome ≡ None
        → AgreesOnNew P.meanings setup (run_after P.meanings setup journal) (run_after P.meanings setup (journal ++ event ∷ [])) }
{}
