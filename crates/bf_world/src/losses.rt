//! Laws of what deaths come to, each the contract of a call that does nothing.
//!
//! They speak of the deaths that a journal tells, and of the decisions that it brings. A rank has died in a journal where
//! its death is among the events. The agreed snapshot is that of the last commit before, at first the opening's; its homes
//! are the ranks that were members when it was agreed, and the holders of a home's part are the home and its buddy among the
//! homes.
ghost use Rattle.std.specs.Prelude.{◌≡◌, ◌↔◌, ℕ, ◌<◌, not, IsTrue, List, [], ◌∷◌, ◌++◌, Some, None};
ghost use Rattle.bf_buddy.specs.Members.{is_member};
ghost use Rattle.bf_core.specs.declared.event.Event.{Event};
ghost use Rattle.bf_core.specs.declared.outcome.Outcome.TheVariants.{Lost};
ghost use Rattle.bf_core.specs.Stages.{lives};
ghost use Rattle.bf_core.specs.States.{stage, is_finished};
ghost use Rattle.bf_core.specs.Laws.{OnlyLoses};
ghost use Rattle.bf_world.specs.Losses.{has_died, BothHoldersDied, IsFirstLost, EndsLost, LastDecision};
ghost use Rattle.bf_world.specs.Runs.{run_after, is_journal};
ghost use Rattle.bf_world.specs.Worlds.{core_after, brings_decision};

use crate::laws::a_complete_run_has_an_end;
use bf_buddy::laws::nothing_is_lost_where_holders_live;
use bf_program::RankProgram;

/// A rank lives exactly where its death is not among the events.
pub fn a_rank_lives_until_its_death_is_told<P: RankProgram>()
    ensures { (setup : P.Setup) (journal : List Event) (rank : ℕ) → IsTrue (is_journal P.meanings setup journal) → rank < P.meanings.ranks setup
        → lives (stage (core_after P.meanings setup journal) rank) ≡ not (has_died journal rank) }
{}

/// Where some home of the agreed snapshot has a block, a run in which each rank is dead or has ended has a last decision.
pub fn a_complete_run_has_a_last_decision<P: RankProgram>()
    ensures { (setup : P.Setup) (journal : List Event) (home : ℕ) → IsTrue (is_journal P.meanings setup journal)
        → IsTrue (is_finished (core_after P.meanings setup journal))
        → IsTrue (is_member (P.meanings.stored (run_after P.meanings setup journal).start) home)
        → LastDecision P.meanings setup journal }
{
    a_complete_run_has_an_end::<P>();
}

/// A run has ended for a lost part exactly where, by its last decision, both holders of some part of the agreed snapshot
/// that has a block have died. It names the first such home in the order of ranks, with its buddy and the snapshot's time.
pub fn a_run_is_lost_exactly_where_both_holders_died<P: RankProgram>()
    ensures lost { (setup : P.Setup) (journal : List Event) (last : LastDecision P.meanings setup journal) → IsTrue (is_journal P.meanings setup journal)
        → (EndsLost (core_after P.meanings setup last.before).epoch.time (core_after P.meanings setup journal)
        ↔ ((home : ℕ) × BothHoldersDied (core_after P.meanings setup last.before) (last.before ++ last.event ∷ []) home)) }
    ensures named { (setup : P.Setup) (journal : List Event) (last : LastDecision P.meanings setup journal) (time home buddy : ℕ)
        → IsTrue (is_journal P.meanings setup journal)
        → ((core_after P.meanings setup journal).outcome ≡ Some (Lost time home buddy))
        ↔ IsFirstLost (core_after P.meanings setup last.before) (last.before ++ last.event ∷ []) time home buddy }
{
    nothing_is_lost_where_holders_live();
}

/// Once both holders of a part that has a block have died while the run goes on, it never commits, restores or finishes:
/// it goes on in the same epoch, until the one decision that comes, which is that a part of this snapshot is lost.
pub fn nothing_but_a_loss_follows_where_both_holders_died<P: RankProgram>()
    ensures ends { (setup : P.Setup) (journal more : List Event) (home : ℕ) → IsTrue (is_journal P.meanings setup (journal ++ more))
        → (core_after P.meanings setup journal).outcome ≡ None → BothHoldersDied (core_after P.meanings setup journal) journal home
        → OnlyLoses (core_after P.meanings setup journal) (core_after P.meanings setup (journal ++ more)) }
    ensures decides { (setup : P.Setup) (journal more : List Event) (event : Event) (home : ℕ)
        → IsTrue (is_journal P.meanings setup (journal ++ more ++ event ∷ []))
        → (core_after P.meanings setup journal).outcome ≡ None → BothHoldersDied (core_after P.meanings setup journal) journal home
        → IsTrue (brings_decision P.meanings setup (run_after P.meanings setup (journal ++ more)) event)
        → EndsLost (core_after P.meanings setup journal).epoch.time (core_after P.meanings setup (journal ++ more ++ event ∷ [])) }
{
    nothing_is_lost_where_holders_live();
}
