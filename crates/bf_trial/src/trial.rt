ghost use Rattle.std.specs.Prelude.{◌≡◌, ◌<◌, IsTrue, All, IfOk};
ghost use Rattle.bf_core.specs.States.{is_finished};
ghost use Rattle.bf_world.specs.Worlds.{core_after};
ghost use Rattle.bf_drive.specs.Drives.{IsDriven};
ghost use Rattle.bf_beads.specs.Goods.{IsGood};
ghost use Rattle.bf_beads.specs.Meanings.{beads};

use bf_beads::{BeadLocal, BeadSetup, Beads, filled, opened};
use bf_drive::{drive, opened_ranks};
use bf_program::Memory;
use bf_world::World;
use std::alloc::Global;

// The locals of all ranks at the opening.
fn opened_locals(alloc: Global, setup: &BeadSetup) -> Result<Vec<BeadLocal>, Memory>
    ensures { IfOk result (λ locals. locals.items ≡ beads.opening setup.now) }
{
    let mut locals = Vec::new(alloc);
    for rank in 0..setup.ranks() {
        locals.push(opened(alloc, setup, rank)?)?;
    }
    Ok(locals)
}

/// A run of the beads on one thread: a turn of each rank that the order names, then turns of all ranks in rising order
/// until all have ended.
pub fn run(alloc: Global, setup: BeadSetup, order: &[u32]) -> Result<World<Beads>, Memory>
    requires order { All (λ rank. rank < setup.ranks) order.now }
    ensures setup { IfOk result (λ world. world.setup ≡ setup) }
    ensures complete { IfOk result (λ world. IsTrue (is_finished (core_after beads setup world.journal))) }
    ensures driven { IfOk result (λ world. IsDriven beads IsGood setup order.now world.journal) }
{
    let world = World::<Beads>::begin(alloc, setup, filled(&setup))?;
    let locals = opened_locals(alloc, &setup)?;
    let ranks = opened_ranks::<Beads>(alloc, locals, &world.first())?;
    Ok(drive::<Beads>(alloc, &setup, world, ranks, order))
}
