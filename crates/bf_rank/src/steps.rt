ghost use Rattle.std.specs.Prelude.{◌≡◌, IfOk, OnErr};
ghost use Rattle.bf_rank.specs.Steps.{holding, viewed, MayStep, HasMoved, HasStepped};

use crate::Stand;
use crate::giving::give;
use crate::leaving::leave;
use crate::receiving::receive;
use crate::rounds::pass_rounds;
use crate::stand::Step;
use bf_core::Place;
use bf_program::{Epoch, Memory, RankProgram};
use bf_world::World;
use std::alloc::Global;

// A rank's first event.
fn open<P: RankProgram>(
    alloc: Global,
    setup: &P::Setup,
    rank: u32,
    epoch: &Epoch,
    local: &mut P::Local,
    world: &mut World<P>,
) -> Result<Stand, Memory>
    requires same { world.old.setup ≡ setup.now }
    requires may { MayStep P.meanings P.good setup.now world.old.journal (holding rank local.old epoch.now Stand.Opening) }
    ensures setup { world.new.setup ≡ world.old.setup }
    ensures ok { IfOk result (λ stand. HasMoved P.meanings P.good setup.now world.old.journal world.new.journal (holding rank local.new epoch.now stand)) }
    ensures err { OnErr result (world.new.journal ≡ world.old.journal) }
{
    world.known();
    let place = pass_rounds::<P>(alloc, setup, local, epoch, 0)?;
    give::<P>(alloc, setup, rank, epoch, place, local, world)
}

// What a step came to that is not made without memory.
fn step_to(stand: Result<Stand, Memory>) -> Step
    ensures ok { IfOk stand (λ at. result ≡ Step.Moved at) }
    ensures err { OnErr stand (result ≡ Step.Short) }
{
    match stand {
        Ok(at) => Step::Moved(at),
        Err(_) => Step::Short,
    }
}

// A rank goes on in its rounds.
fn go_on<P: RankProgram>(
    alloc: Global,
    setup: &P::Setup,
    rank: u32,
    epoch: &Epoch,
    place: Place,
    local: &mut P::Local,
    world: &mut World<P>,
) -> Step
    requires same { world.old.setup ≡ setup.now }
    requires may { MayStep P.meanings P.good setup.now world.old.journal (holding rank local.old epoch.now (Stand.Placed place)) }
    ensures setup { world.new.setup ≡ world.old.setup }
    ensures stepped { HasStepped P.meanings P.good setup.now world.old.journal world.new.journal
        (holding rank local.old epoch.now (Stand.Placed place)) (holding rank local.new epoch.now (Stand.Placed place)) result }
{
    world.known();
    if let Some(peer) = place.next_receive() {
        return receive::<P>(alloc, setup, rank, epoch, place, peer, local, world);
    }
    let stand = give::<P>(alloc, setup, rank, epoch, place, local, world);
    step_to(stand)
}

/// A step of a rank that has not ended.
pub(crate) fn step<P: RankProgram>(
    alloc: Global,
    setup: &P::Setup,
    rank: u32,
    stand: Stand,
    epoch: &mut Epoch,
    local: &mut Option<P::Local>,
    world: &mut World<P>,
) -> Step
    requires same { world.old.setup ≡ setup.now }
    requires may { MayStep P.meanings P.good setup.now world.old.journal (viewed rank local.old epoch.old stand) }
    requires lasts { stand ≡ Stand.Ended → ⊥ }
    ensures fails { stand ≡ Stand.Failed → result ≡ Step.Short }
    ensures setup { world.new.setup ≡ world.old.setup }
    ensures stepped { HasStepped P.meanings P.good setup.now world.old.journal world.new.journal
        (viewed rank local.old epoch.old stand) (viewed rank local.new epoch.new stand) result }
{
    world.known();
    if let Stand::Arrived = stand {
        return leave::<P>(alloc, setup, rank, epoch, local, world);
    }
    if let Stand::Failed = stand {
        return Step::Short;
    }
    let Some(held) = local else { unreachable!() };
    match stand {
        Stand::Opening => {
            let stand = open::<P>(alloc, setup, rank, epoch, held, world);
            step_to(stand)
        }
        Stand::Placed(place) => go_on::<P>(alloc, setup, rank, epoch, place, held, world),
        _ => unreachable!(),
    }
}
