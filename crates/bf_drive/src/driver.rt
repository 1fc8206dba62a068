ghost use Rattle.std.specs.Prelude.{◌≡◌, ℕ, ◌<◌, IsTrue, All, [], false, length};
ghost use Rattle.std.specs.List.{range_with_len};
ghost use Rattle.bf_core.specs.States.{is_finished};
ghost use Rattle.bf_world.specs.Worlds.{core_after};
ghost use Rattle.bf_world.specs.Runs.{run_after};
ghost use Rattle.bf_world.specs.Weights.{weight};
ghost use Rattle.bf_drive.specs.Drives.{AreAt, Leads, Turned, Turns, IsDriven};
ghost use Rattle.bf_drive.specs.Lighter.{IsLighter};

use bf_program::RankProgram;
use bf_rank::Rank;
use bf_world::World;
use std::alloc::Global;

// A turn of one rank.
fn turn<P: RankProgram>(
    alloc: Global,
    setup: &P::Setup,
    world: &mut World<P>,
    ranks: &mut [Rank<P>],
    rank: u32,
)
    requires same { world.old.setup ≡ setup.now }
    requires at { AreAt P.meanings P.good setup.now world.old.journal ranks.old }
    requires within { rank < length ranks.old }
    ensures setup { world.new.setup ≡ world.old.setup }
    ensures at { AreAt P.meanings P.good setup.now world.new.journal ranks.new }
    ensures turned { Leads (Turned P.meanings P.good setup.now rank) world.old.journal world.new.journal ranks.old ranks.new }
    ensures lighter { IsLighter P.meanings setup.now world.old.journal world.new.journal }
{
    let mover = &mut ranks[rank as usize];
    mover.turn_here(alloc, setup, world);
    world.known();
}

// A turn of each rank in an order.
fn turns<P: RankProgram>(
    alloc: Global,
    setup: &P::Setup,
    world: &mut World<P>,
    ranks: &mut [Rank<P>],
    order: &[u32],
)
    requires same { world.old.setup ≡ setup.now }
    requires at { AreAt P.meanings P.good setup.now world.old.journal ranks.old }
    requires order { All (λ rank. rank < length ranks.old) order.now }
    ensures setup { world.new.setup ≡ world.old.setup }
    ensures at { AreAt P.meanings P.good setup.now world.new.journal ranks.new }
    ensures turns { Leads (Turns P.meanings P.good setup.now order.now) world.old.journal world.new.journal ranks.old ranks.new }
    ensures lighter { IsLighter P.meanings setup.now world.old.journal world.new.journal }
{
    for rank in order {
        turn::<P>(alloc, setup, world, ranks, *rank);
    }
}

// A turn of each rank in rising order.
fn pass<P: RankProgram>(
    alloc: Global,
    setup: &P::Setup,
    world: &mut World<P>,
    ranks: &mut [Rank<P>],
)
    requires same { world.old.setup ≡ setup.now }
    requires at { AreAt P.meanings P.good setup.now world.old.journal ranks.old }
    ensures setup { world.new.setup ≡ world.old.setup }
    ensures at { AreAt P.meanings P.good setup.now world.new.journal ranks.new }
    ensures turns { Leads (Turns P.meanings P.good setup.now (range_with_len 0 (P.meanings.ranks setup.now))) world.old.journal world.new.journal ranks.old ranks.new }
    ensures less { is_finished (core_after P.meanings setup.now world.old.journal) ≡ false
        → weight P.meanings setup.now (run_after P.meanings setup.now world.new.journal) < weight P.meanings setup.now (run_after P.meanings setup.now world.old.journal) }
{
    world.known();
    for rank in 0..P::ranks(setup) {
        turn::<P>(alloc, setup, world, ranks, rank);
    }
}

// Turns of each rank in an order, then passes through all ranks until all have ended.
fn drive_all<P: RankProgram>(
    alloc: Global,
    setup: &P::Setup,
    world: &mut World<P>,
    ranks: &mut [Rank<P>],
    order: &[u32],
)
    requires same { world.old.setup ≡ setup.now }
    requires at { AreAt P.meanings P.good setup.now world.old.journal ranks.old }
    requires fresh { world.old.journal ≡ [] }
    requires order { All (λ rank. rank < length ranks.old) order.now }
    ensures setup { world.new.setup ≡ world.old.setup }
    ensures complete { IsTrue (is_finished (core_after P.meanings world.new.setup world.new.journal)) }
    ensures driven { IsDriven P.meanings P.good setup.now order.now world.new.journal }
{
    turns::<P>(alloc, setup, world, ranks, order);
    while !world.finished() {
        pass::<P>(alloc, setup, world, ranks);
    }
}

/// Gives one turn to each rank named in `order`, then to all ranks in rising order again and again, until all have
/// ended. It always returns.
pub fn drive<P: RankProgram>(
    alloc: Global,
    setup: &P::Setup,
    world: World<P>,
    ranks: Vec<Rank<P>>,
    order: &[u32],
) -> World<P>
    requires same { world.setup ≡ setup.now }
    requires fresh { world.journal ≡ [] }
    requires ranks { AreAt P.meanings P.good setup.now [] ranks.items }
    requires order { All (λ rank. rank < P.meanings.ranks setup.now) order.now }
    ensures setup { result.setup ≡ setup.now }
    ensures complete { IsTrue (is_finished (core_after P.meanings setup.now result.journal)) }
    ensures driven { IsDriven P.meanings P.good setup.now order.now result.journal }
{
    let mut world = world;
    let mut ranks = ranks;
    drive_all::<P>(alloc, setup, &mut world, ranks.as_mut_slice(), order);
    world
}
