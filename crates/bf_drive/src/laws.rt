//! Laws of every world, each the contract of a call that does nothing.
ghost use Rattle.std.specs.Prelude.{◌≡◌, ℕ, false, IsTrue, List, Some};
ghost use Rattle.std.specs.List.{list_any};
ghost use Rattle.bf_core.specs.declared.event.Event.{Event};
ghost use Rattle.bf_core.specs.declared.outcome.Outcome.TheVariants.{Finished};
ghost use Rattle.bf_core.specs.Orders.{CanMove};
ghost use Rattle.bf_core.specs.States.{is_finished};
ghost use Rattle.bf_world.specs.Ends.{is_death};
ghost use Rattle.bf_world.specs.Runs.{is_journal};
ghost use Rattle.bf_world.specs.Worlds.{core_after, place_after};
ghost use Rattle.bf_drive.specs.Drives.{IsDriven, NobodyWantsMemory};

use bf_program::RankProgram;
use bf_world::World;

/// While some rank lives and has not ended, some rank is offered an event.
pub fn somebody_can_move<P: RankProgram>(world: &World<P>)
    ensures { is_finished (core_after P.meanings world.now.setup world.now.journal) ≡ false
        → CanMove (core_after P.meanings world.now.setup world.now.journal) (place_after P.meanings world.now.setup world.now.journal) }
{
    world.known();
}

/// Where nobody wants memory, turns in an order and then passes through all ranks lead to one journal alone in which all
/// have ended. Each turn adds the one event that the rank is offered, or nothing where none is offered.
pub fn alone<P: RankProgram>()
    ensures { (setup : P.Setup) (order : List ℕ) (journal other : List Event)
        → IsTrue (is_journal P.meanings setup journal) → IsTrue (is_journal P.meanings setup other)
        → IsTrue (is_finished (core_after P.meanings setup journal)) → IsTrue (is_finished (core_after P.meanings setup other))
        → NobodyWantsMemory journal → NobodyWantsMemory other
        → IsDriven P.meanings P.good setup order journal → IsDriven P.meanings P.good setup order other → journal ≡ other }
{}

/// So they do where the run has finished and nobody has died, since then nobody has wanted memory.
pub fn a_finished_run_without_deaths_has_the_journal_of_its_order<P: RankProgram>()
    ensures { (setup : P.Setup) (order : List ℕ) (journal other : List Event)
        → IsTrue (is_journal P.meanings setup journal) → IsTrue (is_journal P.meanings setup other)
        → IsTrue (is_finished (core_after P.meanings setup journal)) → IsTrue (is_finished (core_after P.meanings setup other))
        → (core_after P.meanings setup journal).outcome ≡ Some Finished → (core_after P.meanings setup other).outcome ≡ Some Finished
        → list_any is_death journal ≡ false → list_any is_death other ≡ false
        → IsDriven P.meanings P.good setup order journal → IsDriven P.meanings P.good setup order other → journal ≡ other }
{}
