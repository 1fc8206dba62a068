//! Laws of every run, each the contract of a call that does nothing.
ghost use Rattle.std.specs.Prelude.{◌≡◌, ◌≢◌, ℕ, ◌+◌, ◌<◌, ◌≤◌, ◌⊎◌, false, IsTrue, List, [], ◌∷◌, ◌++◌, length, Some, is_some, IsPermutation};
ghost use Rattle.std.specs.List.{list_any};
ghost use Rattle.bf_buddy.specs.Members.{is_member};
ghost use Rattle.bf_program.specs.Epochs.{target_in};
ghost use Rattle.bf_program.specs.declared.epoch.Epoch.{Epoch};
ghost use Rattle.bf_core.specs.declared.event.Event.{Event};
ghost use Rattle.bf_core.specs.declared.outcome.Outcome.{Outcome};
ghost use Rattle.bf_core.specs.declared.outcome.Outcome.TheVariants.{Finished, Lost, Memory};
ghost use Rattle.bf_core.specs.States.{is_finished};
ghost use Rattle.bf_core.specs.Legal.{is_memory};
ghost use Rattle.bf_core.specs.Orders.{IsReached};
ghost use Rattle.bf_world.specs.Ends.{NobodyDies, tells_of_death, is_death};
ghost use Rattle.bf_world.specs.Queues.{no_messages};
ghost use Rattle.bf_world.specs.Results.{parcels_of};
ghost use Rattle.bf_world.specs.Runs.{run_after, is_journal, is_legal_in, last_locals};
ghost use Rattle.bf_world.specs.Weights.{weight, most_events};
ghost use Rattle.bf_world.specs.Worlds.{View, IsView, core_after, restores_in};

use bf_buddy::laws::nothing_is_lost_where_holders_live;
use bf_core::laws::a_complete_journal_has_an_end;
use bf_program::RankProgram;

/// At the beginning of each epoch the members' locals are good.
pub fn each_epoch_begins_good<P: RankProgram>()
    ensures { (setup : P.Setup) (journal : List Event) → IsTrue (is_journal P.meanings setup journal)
        → P.good setup (run_after P.meanings setup journal).core.epoch 0 (run_after P.meanings setup journal).start }
{}

/// So they are once all rounds of the epoch are done.
pub fn the_last_locals_are_good<P: RankProgram>()
    ensures { (setup : P.Setup) (journal : List Event) → IsTrue (is_journal P.meanings setup journal)
        → P.good setup (run_after P.meanings setup journal).core.epoch (P.meanings.rounds setup (run_after P.meanings setup journal).core.epoch)
        (last_locals P.meanings setup (run_after P.meanings setup journal)) }
{}

/// The last epoch of a finished run goes to the last step.
pub fn a_finished_run_is_at_its_end<P: RankProgram>()
    ensures { (setup : P.Setup) (journal : List Event) → IsTrue (is_journal P.meanings setup journal)
        → (run_after P.meanings setup journal).core.outcome ≡ Some Finished
        → (run_after P.meanings setup journal).core.epoch.target ≡ P.meanings.steps setup }
{}

/// A finished run has the parcel of each member of its last epoch, each once, in the order in which they arrived. It is
/// what the member's last local gives, and no later death takes it away.
pub fn a_finished_run_has_every_parcel<P: RankProgram>()
    ensures { (setup : P.Setup) (journal : List Event) → IsTrue (is_journal P.meanings setup journal)
        → (run_after P.meanings setup journal).core.outcome ≡ Some Finished
        → IsPermutation (parcels_of P.meanings (run_after P.meanings setup journal).core.epoch.members (last_locals P.meanings setup (run_after P.meanings setup journal)))
        (run_after P.meanings setup journal).parcels }
{}

/// The state that a journal tells is one to which the state machine comes, so the laws of the state machine hold of it.
pub fn a_journal_leads_the_state_machine<P: RankProgram>()
    ensures { (setup : P.Setup) (journal : List Event) → IsTrue (is_journal P.meanings setup journal)
        → IsReached (core_after P.meanings setup journal) }
{}

/// Where some home of the agreed snapshot has a block, a run in which each rank is dead or has ended has an end.
pub fn a_complete_run_has_an_end<P: RankProgram>()
    ensures { (setup : P.Setup) (journal : List Event) (home : ℕ) → IsTrue (is_journal P.meanings setup journal)
        → IsTrue (is_finished (core_after P.meanings setup journal))
        → IsTrue (is_member (P.meanings.stored (run_after P.meanings setup journal).start) home)
        → IsTrue (is_some (core_after P.meanings setup journal).outcome) }
{
    a_complete_journal_has_an_end();
}

/// A run ends for want of memory only where some rank has arrived so.
pub fn want_of_memory_has_a_cause<P: RankProgram>()
    ensures { (setup : P.Setup) (journal : List Event) → IsTrue (is_journal P.meanings setup journal)
        → (core_after P.meanings setup journal).outcome ≡ Some Memory → IsTrue (list_any is_memory journal) }
{}

/// Where nobody has died, a run finishes only if nobody has arrived for want of memory.
pub fn a_finished_run_without_deaths_wants_no_memory<P: RankProgram>()
    ensures { (setup : P.Setup) (journal : List Event) → IsTrue (is_journal P.meanings setup journal)
        → (core_after P.meanings setup journal).outcome ≡ Some Finished → list_any is_death journal ≡ false → list_any is_memory journal ≡ false }
{}

/// Where no rank is to die, no part is lost.
pub fn a_run_without_deaths_is_not_lost<P: RankProgram>()
    ensures { (setup : P.Setup) (journal : List Event) (time home buddy : ℕ) → NobodyDies P.meanings setup → IsTrue (is_journal P.meanings setup journal)
        → (core_after P.meanings setup journal).outcome ≢ Some (Lost time home buddy) }
{
    nothing_is_lost_where_holders_live();
}

/// Nor is anything restored, and nobody dies or arrives broken.
pub fn a_run_without_deaths_has_no_restore<P: RankProgram>()
    ensures { (setup : P.Setup) (journal : List Event) → NobodyDies P.meanings setup → IsTrue (is_journal P.meanings setup journal)
        → (restores_in P.meanings setup journal ≡ 0) × (list_any tells_of_death journal ≡ false) }
{
    nothing_is_lost_where_holders_live();
}

/// Once each rank has ended, such a run has finished, or some rank has arrived for want of memory.
pub fn a_complete_run_without_deaths_ends<P: RankProgram>()
    ensures { (setup : P.Setup) (journal : List Event) → NobodyDies P.meanings setup → IsTrue (is_journal P.meanings setup journal)
        → IsTrue (is_finished (core_after P.meanings setup journal))
        → ((core_after P.meanings setup journal).outcome ≡ Some Finished)
        ⊎ (((core_after P.meanings setup journal).outcome ≡ Some Memory) × IsTrue (list_any is_memory journal)) }
{
    nothing_is_lost_where_holders_live();
}

/// After the end of a run no message waits.
pub fn an_ended_run_has_no_messages<P: RankProgram>()
    ensures { (view : View P.Setup P.Msg P.Part) (outcome : Outcome) → IsView P.meanings view
        → (core_after P.meanings view.setup view.journal).outcome ≡ Some outcome → view.waiting ≡ no_messages (P.meanings.ranks view.setup) }
{}

/// Each event lowers what is left of a run.
pub fn an_event_lowers_what_is_left<P: RankProgram>()
    ensures { (setup : P.Setup) (journal : List Event) (event : Event) → IsTrue (is_journal P.meanings setup journal)
        → IsTrue (is_legal_in P.meanings setup (run_after P.meanings setup journal) event)
        → weight P.meanings setup (run_after P.meanings setup (journal ++ event ∷ [])) < weight P.meanings setup (run_after P.meanings setup journal) }
{}

/// So a journal is bounded by the numbers of ranks, of rounds of an epoch, and of snapshots. For `n` ranks and at most `K`
/// rounds it has at most `E n (2 (n - 1) K + 3)` events, where `E` is the number of snapshots in all steps, rounded up, plus
/// `1 + 2 n`: each rank may leave by a restore, and the epoch which that begins may end in a commit at its own time. Only
/// epochs that end where a run's do count for the rounds: at their own time where a restore began them, else a snapshot's
/// interval on, or at the last step.
pub fn a_journal_is_bounded<P: RankProgram>()
    ensures { (setup : P.Setup) (journal : List Event) (rounds : ℕ)
        → ((epoch : Epoch) → epoch.target ≡ target_in (P.meanings.steps setup) (P.meanings.interval setup) epoch → P.meanings.rounds setup epoch ≤ rounds)
        → IsTrue (is_journal P.meanings setup journal) → length journal ≤ most_events P.meanings setup rounds }
{}

/// Each restore leaves a member behind.
pub fn each_restore_leaves_a_member_behind<P: RankProgram>()
    ensures { (setup : P.Setup) (journal : List Event) → IsTrue (is_journal P.meanings setup journal)
        → restores_in P.meanings setup journal + length (core_after P.meanings setup journal).epoch.members ≤ P.meanings.ranks setup }
{}
