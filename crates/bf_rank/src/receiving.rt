ghost use Rattle.std.specs.Prelude.{◌≡◌, ℕ, Some, IfOk};
ghost use Rattle.bf_core.specs.Places.{next_receive};
ghost use Rattle.bf_world.specs.Course.{after_receive};
ghost use Rattle.bf_rank.specs.Ranks.{Sight};
ghost use Rattle.bf_rank.specs.Steps.{holding, TakesNext, ComesTo, MayStep, HasStepped};

use crate::Stand;
use crate::rounds::{end_round, stand_at};
use crate::stand::Step;
use bf_core::Place;
use bf_program::{Epoch, Memory, RankProgram};
use bf_world::{Got, World};
use std::alloc::Global;

// A rank takes the message that it has received, and stands at its next place.
fn take<P: RankProgram>(
    alloc: Global,
    setup: &P::Setup,
    local: &mut P::Local,
    epoch: &Epoch,
    place: Place,
    peer: u32,
    msg: P::Msg,
) -> Result<Place, Memory>
    requires { (seen : Sight P.Local) × ((rank : ℕ) × TakesNext P.meanings P.good setup.now seen epoch.now rank place peer msg local.old) }
    ensures { IfOk result (λ next. (seen : Sight P.Local) → (rank : ℕ) → TakesNext P.meanings P.good setup.now seen epoch.now rank place peer msg local.old
        → ComesTo P.meanings P.good setup.now seen rank (after_receive P.meanings setup.now seen.epoch seen.start rank place) local.new (Stand.Placed next)) }
{
    let Place::Rounds {
        round,
        sent,
        received,
        peers,
    } = place
    else {
        unreachable!()
    };
    P::take(alloc, setup, local, *epoch, round, peer, msg)?;
    let all = peers.count();
    // `received` is less than all
    if all - received > 1 {
        return Ok(Place::Rounds {
            round,
            sent,
            received: received + 1,
            peers,
        });
    }
    end_round::<P>(alloc, setup, local, epoch, round)
}

/// A rank receives from a peer.
pub(crate) fn receive<P: RankProgram>(
    alloc: Global,
    setup: &P::Setup,
    rank: u32,
    epoch: &Epoch,
    place: Place,
    peer: u32,
    local: &mut P::Local,
    world: &mut World<P>,
) -> Step
    requires same { world.old.setup ≡ setup.now }
    requires may { MayStep P.meanings P.good setup.now world.old.journal (holding rank local.old epoch.now (Stand.Placed place)) }
    requires next { next_receive place ≡ Some peer }
    ensures setup { world.new.setup ≡ world.old.setup }
    ensures stepped { HasStepped P.meanings P.good setup.now world.old.journal world.new.journal
        (holding rank local.old epoch.now (Stand.Placed place)) (holding rank local.new epoch.now (Stand.Placed place)) result }
{
    world.known();
    let Ok(got) = world.recv(rank, peer) else {
        return Step::Short;
    };
    match got {
        Got::Message(msg) => {
            let next = take::<P>(alloc, setup, local, epoch, place, peer, msg);
            Step::Moved(stand_at(next))
        }
        Got::NotYet => Step::NotYet,
        Got::Broken => Step::Moved(Stand::Arrived),
        Got::Short => Step::Short,
    }
}
