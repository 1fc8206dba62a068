ghost use Rattle.std.specs.Prelude.{◌≡◌, OnOk};
ghost use Rattle.bf_world.specs.Course.{first_place};
ghost use Rattle.bf_rank.specs.Ranks.{Sight};
ghost use Rattle.bf_rank.specs.Steps.{viewed, Begins, ComesTo, IsBeginning, MayStep, HasStepped};

use crate::Stand;
use crate::rounds::{pass_rounds, stand_at};
use crate::stand::Step;
use bf_program::{Epoch, Memory, RankProgram};
use bf_world::{Left, World};
use std::alloc::Global;

// Keeps the new snapshot, or goes back to the agreed one, as the epoch begins.
fn renew<P: RankProgram>(
    alloc: Global,
    setup: &P::Setup,
    rank: u32,
    epoch: &Epoch,
    local: &mut P::Local,
) -> Result<(), Memory>
    requires { (seen : Sight P.Local) × IsBeginning P.meanings P.good setup.now seen epoch.now rank local.old }
    ensures { OnOk result ((seen : Sight P.Local) → IsBeginning P.meanings P.good setup.now seen epoch.now rank local.old
        → Begins P.meanings P.good setup.now seen epoch.now rank 0 local.new) }
{
    if epoch.restored {
        return P::restore(alloc, setup, local, rank, *epoch);
    }
    P::keep(local);
    Ok(())
}

// A rank begins an epoch.
fn begin<P: RankProgram>(
    alloc: Global,
    setup: &P::Setup,
    rank: u32,
    epoch: &Epoch,
    local: &mut P::Local,
) -> Stand
    requires { (seen : Sight P.Local) × IsBeginning P.meanings P.good setup.now seen epoch.now rank local.old }
    ensures { (seen : Sight P.Local) → IsBeginning P.meanings P.good setup.now seen epoch.now rank local.old
        → ComesTo P.meanings P.good setup.now seen rank (first_place P.meanings setup.now seen.epoch seen.start rank) local.new result }
{
    if renew::<P>(alloc, setup, rank, epoch, local).is_err() {
        return Stand::Failed;
    }
    let place = pass_rounds::<P>(alloc, setup, local, epoch, 0);
    stand_at(place)
}

/// A rank that has arrived leaves, and begins the next epoch or ends.
pub(crate) fn leave<P: RankProgram>(
    alloc: Global,
    setup: &P::Setup,
    rank: u32,
    epoch: &mut Epoch,
    local: &mut Option<P::Local>,
    world: &mut World<P>,
) -> Step
    requires same { world.old.setup ≡ setup.now }
    requires may { MayStep P.meanings P.good setup.now world.old.journal (viewed rank local.old epoch.old Stand.Arrived) }
    ensures setup { world.new.setup ≡ world.old.setup }
    ensures stepped { HasStepped P.meanings P.good setup.now world.old.journal world.new.journal
        (viewed rank local.old epoch.old Stand.Arrived) (viewed rank local.new epoch.new Stand.Arrived) result }
{
    world.known();
    match world.leave(rank) {
        Left::NotYet => Step::NotYet,
        Left::Ended(_) => Step::Moved(Stand::Ended),
        Left::Run(next) => {
            *epoch = next;
            let Some(held) = local else { unreachable!() };
            let stand = begin::<P>(alloc, setup, rank, &next, held);
            Step::Moved(stand)
        }
    }
}
