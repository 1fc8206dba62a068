//! Laws of every rank, each the contract of a call that does nothing.
ghost use Rattle.std.specs.Prelude.{◌≡◌, ◌≢◌, false, IsTrue, List, Some, None};
ghost use Rattle.bf_program.specs.Laws.{times};
ghost use Rattle.bf_core.specs.declared.event.Event.{Event};
ghost use Rattle.bf_core.specs.declared.outcome.Outcome.TheVariants.{Finished};
ghost use Rattle.bf_core.specs.Stages.{is_leaving, is_short, goes_on};
ghost use Rattle.bf_core.specs.States.{stage};
ghost use Rattle.bf_world.specs.Runs.{run_after, is_journal};
ghost use Rattle.bf_world.specs.Worlds.{View, IsView, core_after};
ghost use Rattle.bf_owners.specs.Owners.{boxes_of, held};
ghost use Rattle.bf_rank.specs.Ranks.{RankView, IsAt, IsSaved, sight, last_decided};
ghost use Rattle.bf_rank.specs.declared.stand.Stand.TheVariants.{Failed};

use bf_program::RankProgram;
use bf_world::laws::each_epoch_begins_good;

/// A restore reads of a rank's local what it reads of the local with which the rank's epoch began, until the epoch is
/// decided and unless the rank has found no memory.
pub fn a_rank_keeps_what_a_restore_reads<P: RankProgram>()
    ensures { (setup : P.Setup) (journal : List Event) (view : RankView P.Local) → IsAt P.meanings P.good setup journal view
        → IsTrue (goes_on (stage (run_after P.meanings setup journal).core view.rank)) → is_leaving (stage (run_after P.meanings setup journal).core view.rank) ≡ false
        → is_short (stage (run_after P.meanings setup journal).core view.rank) ≡ false → view.stand ≢ Failed
        → (local : P.Local) × ((view.local ≡ Some local) × IsSaved P.meanings P.good setup (sight (run_after P.meanings setup journal) view.rank) view.rank local) }
{}

/// A rank that must leave still keeps what a restore reads of the local with which the decided epoch began, unless it
/// arrived for want of memory.
pub fn a_rank_that_must_leave_keeps_what_a_restore_reads<P: RankProgram>()
    ensures { (setup : P.Setup) (journal : List Event) (view : RankView P.Local) → IsAt P.meanings P.good setup journal view
        → IsTrue (is_leaving (stage (run_after P.meanings setup journal).core view.rank)) → is_short (stage (last_decided P.meanings setup journal).core view.rank) ≡ false
        → (local : P.Local) × ((view.local ≡ Some local) × IsSaved P.meanings P.good setup (sight (last_decided P.meanings setup journal) view.rank) view.rank local) }
{}

/// The members' locals were good when the epoch began that was decided last.
pub fn the_decided_epoch_began_good<P: RankProgram>()
    ensures { (setup : P.Setup) (journal : List Event) → IsTrue (is_journal P.meanings setup journal)
        → P.good setup (last_decided P.meanings setup journal).core.epoch 0 (last_decided P.meanings setup journal).start }
{
    each_epoch_begins_good::<P>();
}

/// A rank that finds no memory drops its local: it has none from its failure on [failed], none once it has arrived for want of
/// memory [arrived], and none until it leaves after that [leaves]. So it has no piece.
pub fn a_rank_without_memory_has_no_local<P: RankProgram>()
    ensures failed { (setup : P.Setup) (journal : List Event) (view : RankView P.Local) → IsAt P.meanings P.good setup journal view
        → view.stand ≡ Failed → view.local ≡ None }
    ensures arrived { (setup : P.Setup) (journal : List Event) (view : RankView P.Local) → IsAt P.meanings P.good setup journal view
        → IsTrue (is_short (stage (core_after P.meanings setup journal) view.rank)) → view.local ≡ None }
    ensures leaves { (setup : P.Setup) (journal : List Event) (view : RankView P.Local) → IsAt P.meanings P.good setup journal view
        → IsTrue (is_leaving (stage (core_after P.meanings setup journal) view.rank))
        → IsTrue (is_short (stage (last_decided P.meanings setup journal).core view.rank)) → view.local ≡ None }
{}

/// What a rank has is what it owns: until its epoch is decided, and unless it has failed and not arrived yet, its local has
/// the pieces of the local that the journal tells; for want of memory both have none. Before its first event a rank has not passed first rounds without peers, which the
/// journal counts as passed: there the two locals may differ, and their pieces agree.
pub fn a_rank_has_what_it_owns<P: RankProgram>()
    ensures { (world : View P.Setup P.Msg P.Part) (view : RankView P.Local) (unit : P.Spot) → IsView P.meanings world
        → IsAt P.meanings P.good world.setup world.journal view
        → IsTrue (goes_on (stage (core_after P.meanings world.setup world.journal) view.rank))
        → is_leaving (stage (core_after P.meanings world.setup world.journal) view.rank) ≡ false → view.stand ≢ Failed
        → times P.regions (boxes_of P.regions view.local) unit ≡ times P.regions (held P.meanings P.regions world view.rank) unit }
{}

/// So it is with a rank that must leave into an epoch that a commit began. After a restore such a rank owns what its leave will
/// give it, and once the run has ended nothing: there its local is no piece.
pub fn a_rank_that_must_leave_after_a_commit_has_what_it_owns<P: RankProgram>()
    ensures { (world : View P.Setup P.Msg P.Part) (view : RankView P.Local) (unit : P.Spot) → IsView P.meanings world
        → IsAt P.meanings P.good world.setup world.journal view
        → IsTrue (is_leaving (stage (core_after P.meanings world.setup world.journal) view.rank))
        → (core_after P.meanings world.setup world.journal).outcome ≡ None
        → (core_after P.meanings world.setup world.journal).epoch.restored ≡ false
        → times P.regions (boxes_of P.regions view.local) unit ≡ times P.regions (held P.meanings P.regions world view.rank) unit }
{}

/// What a rank has left that must leave a finished run holds no unit: its parcel has all.
pub fn a_rank_that_must_leave_a_finished_run_has_no_piece<P: RankProgram>()
    ensures { (world : View P.Setup P.Msg P.Part) (view : RankView P.Local) (unit : P.Spot) → IsView P.meanings world
        → IsAt P.meanings P.good world.setup world.journal view
        → IsTrue (is_leaving (stage (core_after P.meanings world.setup world.journal) view.rank))
        → (core_after P.meanings world.setup world.journal).outcome ≡ Some Finished
        → times P.regions (boxes_of P.regions view.local) unit ≡ 0 }
{}
