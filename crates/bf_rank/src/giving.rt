ghost use Rattle.std.specs.Prelude.{◌≡◌, None, IfOk, OnErr};
ghost use Rattle.bf_core.specs.Places.{next_receive};
ghost use Rattle.bf_rank.specs.Steps.{holding, Gives, MayStep, HasMoved};

use crate::Stand;
use bf_core::Place;
use bf_program::{Epoch, Memory, RankProgram};
use bf_world::{Arrival, World};
use std::alloc::Global;

// A rank makes its next message and sends it.
fn send<P: RankProgram>(
    alloc: Global,
    setup: &P::Setup,
    rank: u32,
    epoch: &Epoch,
    place: Place,
    local: &mut P::Local,
    world: &mut World<P>,
) -> Result<Stand, Memory>
    requires same { world.old.setup ≡ setup.now }
    requires may { MayStep P.meanings P.good setup.now world.old.journal (holding rank local.old epoch.now (Stand.Placed place)) }
    requires rounds { next_receive place ≡ None }
    requires some { place ≡ Place.Past → ⊥ }
    ensures setup { world.new.setup ≡ world.old.setup }
    ensures ok { IfOk result (λ stand. HasMoved P.meanings P.good setup.now world.old.journal world.new.journal (holding rank local.new epoch.now stand)) }
    ensures err { OnErr result (world.new.journal ≡ world.old.journal) }
{
    world.known();
    let Place::Rounds {
        round,
        sent,
        received,
        peers,
    } = place
    else {
        unreachable!()
    };
    let _ = peers.count();
    let Some(to) = peers.at(sent) else {
        unreachable!()
    };
    let msg = P::out(alloc, setup, local, *epoch, round, to)?;
    if world.send(rank, to, msg).is_err() {
        return Err(Memory);
    }
    Ok(Stand::Placed(Place::Rounds {
        round,
        sent: sent + 1,
        received,
        peers,
    }))
}

// Moves the finished blocks out, if the epoch is the last.
fn give_parcel<P: RankProgram>(
    setup: &P::Setup,
    epoch: &Epoch,
    local: &mut P::Local,
) -> Option<P::Part>
    ensures { Gives P.meanings P.good setup.now epoch.now local.old local.new result }
{
    if epoch.target != P::steps(setup) {
        return None;
    }
    Some(P::parcel(local))
}

// A rank past its last round arrives with what it has.
fn arrive_done<P: RankProgram>(
    setup: &P::Setup,
    rank: u32,
    epoch: &Epoch,
    local: &mut P::Local,
    world: &mut World<P>,
) -> Result<Stand, Memory>
    requires same { world.old.setup ≡ setup.now }
    requires may { MayStep P.meanings P.good setup.now world.old.journal (holding rank local.old epoch.now (Stand.Placed Place.Past)) }
    ensures setup { world.new.setup ≡ world.old.setup }
    ensures ok { IfOk result (λ stand. HasMoved P.meanings P.good setup.now world.old.journal world.new.journal (holding rank local.new epoch.now stand)) }
    ensures err { OnErr result (world.new.journal ≡ world.old.journal) }
{
    world.known();
    let filled = P::filled(local);
    let parcel = give_parcel::<P>(setup, epoch, local);
    if world
        .arrive(rank, Arrival::Done { filled, parcel })
        .is_err()
    {
        return Err(Memory);
    }
    Ok(Stand::Arrived)
}

/// A rank that doesn't receive next sends, or arrives with all rounds done.
pub(crate) fn give<P: RankProgram>(
    alloc: Global,
    setup: &P::Setup,
    rank: u32,
    epoch: &Epoch,
    place: Place,
    local: &mut P::Local,
    world: &mut World<P>,
) -> Result<Stand, Memory>
    requires same { world.old.setup ≡ setup.now }
    requires may { MayStep P.meanings P.good setup.now world.old.journal (holding rank local.old epoch.now (Stand.Placed place)) }
    requires rounds { next_receive place ≡ None }
    ensures setup { world.new.setup ≡ world.old.setup }
    ensures ok { IfOk result (λ stand. HasMoved P.meanings P.good setup.now world.old.journal world.new.journal (holding rank local.new epoch.now stand)) }
    ensures err { OnErr result (world.new.journal ≡ world.old.journal) }
{
    if place.is_past() {
        arrive_done::<P>(setup, rank, epoch, local, world)
    } else {
        send::<P>(alloc, setup, rank, epoch, place, local, world)
    }
}
