ghost use Rattle.std.specs.Prelude.{◌≡◌, IsTrue, IfOk};
ghost use Rattle.bf_core.specs.States.{is_finished};
ghost use Rattle.bf_world.specs.Worlds.{core_after};
ghost use Rattle.bf_block.specs.Runs.{CanRun};
ghost use Rattle.bf_forest.specs.Setup.{case_of};
ghost use Rattle.bf_drive.specs.Drives.{IsDriven};
ghost use Rattle.bf_forest.specs.Goods.{IsGood};
ghost use Rattle.bf_forest.specs.Meanings.{forest};

use bf_block::{Memory, Opening};
use bf_case::Case;
use bf_drive::{drive, opened_ranks};
use bf_forest::{Forest, Setup, laid, load};
use bf_world::World;
use std::alloc::Global;

/// Runs a case by its ranks on one thread: a turn of each rank that the case's order names, then turns of all ranks in
/// rising order until all have ended. The case is spent before the first turn.
pub fn run(alloc: Global, case: Case) -> Result<World<Forest>, Memory>
    requires runs { CanRun case }
    requires no_regrid { case.regrid ≡ 0 }
    ensures setup { IfOk result (λ world. case_of world.setup ≡ case) }
    ensures complete { IfOk result (λ world. IsTrue (is_finished (core_after forest world.setup world.journal))) }
    ensures driven { IfOk result (λ world. IsDriven forest IsGood world.setup case.order world.journal) }
{
    let (opening, setup) = Opening::of(alloc, case)?;
    let setup = Setup::of(setup);
    let locals = load(alloc, opening, &setup)?;
    let world = World::<Forest>::begin(alloc, setup.share()?, laid(&setup))?;
    let first = world.first();
    let ranks = opened_ranks::<Forest>(alloc, locals, &first)?;
    Ok(drive::<Forest>(alloc, &setup, world, ranks, setup.order()))
}
