ghost use Rattle.std.specs.Prelude.{◌≡◌, ℕ, ◌+◌, ◌<◌, IfOk, OnErr};
ghost use Rattle.bf_rank.specs.Ranks.{Sight};
ghost use Rattle.bf_rank.specs.Steps.{Begins, HasPassed, Follows, EndsRound};

use crate::Stand;
use bf_buddy::Members;
use bf_core::Place;
use bf_program::{Epoch, Memory, RankProgram};
use std::alloc::Global;

// The peers of a round, at whose beginning the local stands; a round without peers is finished.
fn pass_round<P: RankProgram>(
    alloc: Global,
    setup: &P::Setup,
    local: &mut P::Local,
    epoch: &Epoch,
    round: u32,
) -> Result<Option<Members>, Memory>
    requires within { round < P.meanings.rounds setup.now epoch.now }
    requires begins { (seen : Sight P.Local) × ((rank : ℕ) × Begins P.meanings P.good setup.now seen epoch.now rank round local.old) }
    ensures { IfOk result (λ peers. (seen : Sight P.Local) → (rank : ℕ) → Begins P.meanings P.good setup.now seen epoch.now rank round local.old
        → Follows P.meanings P.good setup.now seen epoch.now rank round local.new peers) }
{
    let peers = P::peers(setup, local, *epoch, round);
    if peers.count() > 0 {
        return Ok(Some(peers));
    }
    P::finish(alloc, setup, local, *epoch, round)?;
    Ok(None)
}

/// Passes rounds without peers, from a round at whose beginning the local stands.
pub(crate) fn pass_rounds<P: RankProgram>(
    alloc: Global,
    setup: &P::Setup,
    local: &mut P::Local,
    epoch: &Epoch,
    from: u32,
) -> Result<Place, Memory>
    requires { (seen : Sight P.Local) × ((rank : ℕ) × Begins P.meanings P.good setup.now seen epoch.now rank from local.old) }
    ensures { IfOk result (λ place. (seen : Sight P.Local) → (rank : ℕ) → Begins P.meanings P.good setup.now seen epoch.now rank from local.old
        → HasPassed P.meanings P.good setup.now seen rank from place local.new) }
{
    let rounds = P::rounds(setup, *epoch);
    let mut round = from;
    while round < rounds {
        if let Some(peers) = pass_round::<P>(alloc, setup, local, epoch, round)? {
            return Ok(Place::Rounds {
                round,
                sent: 0,
                received: 0,
                peers,
            });
        }
        round += 1;
    }
    Ok(Place::Past)
}

/// Finishes a round whose last receive is done, and passes the rounds without peers that follow.
pub(crate) fn end_round<P: RankProgram>(
    alloc: Global,
    setup: &P::Setup,
    local: &mut P::Local,
    epoch: &Epoch,
    round: u32,
) -> Result<Place, Memory>
    requires { (seen : Sight P.Local) × ((rank : ℕ) × EndsRound P.meanings P.good setup.now seen epoch.now rank round local.old) }
    ensures { IfOk result (λ place. (seen : Sight P.Local) → (rank : ℕ) → EndsRound P.meanings P.good setup.now seen epoch.now rank round local.old
        → HasPassed P.meanings P.good setup.now seen rank (round + 1) place local.new) }
{
    // so there is a next number
    let _ = P::rounds(setup, *epoch);
    P::finish(alloc, setup, local, *epoch, round)?;
    pass_rounds::<P>(alloc, setup, local, epoch, round + 1)
}

/// Where a rank stands that was on its way to a place.
pub(crate) fn stand_at(place: Result<Place, Memory>) -> Stand
    ensures ok { IfOk place (λ at. result ≡ Stand.Placed at) }
    ensures err { OnErr place (result ≡ Stand.Failed) }
{
    match place {
        Ok(at) => Stand::Placed(at),
        Err(_) => Stand::Failed,
    }
}
