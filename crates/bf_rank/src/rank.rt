ghost use Rattle.std.specs.Prelude.{◌≡◌, ◌<◌, [], ◌∷◌, ◌++◌, Some};
ghost use Rattle.std.specs.List.{range_with_len};
ghost use Rattle.bf_program.specs.Epochs.{first_epoch};
ghost use Rattle.bf_program.specs.Lockstep.{local_of};
ghost use Rattle.bf_rank.specs.Ranks.{RankView, IsAt, IsOfferedSome, TookTurn, event_of_failed, short_arrival};
ghost use Rattle.bf_core.specs.States.{is_due};
ghost use Rattle.bf_world.specs.Worlds.{core_after};
ghost use Rattle.bf_rank.specs.Steps.{viewed, local_kept, turn_to};

use crate::stand::Step;
use crate::steps::step;
use crate::{Stand, Turn};
use bf_program::{Epoch, Memory, RankProgram};
use bf_world::{Arrival, World};
use std::alloc::Global;
use std::marker::Model;

/// One rank of a run of a round program.
#[derive(Drop)]
pub struct Rank<P: RankProgram> {
    rank: u32,
    local: Option<P::Local>,
    epoch: Epoch,
    stand: Stand,
}

impl<P: RankProgram> Model for Rank<P> {
    ghost use Rattle.bf_rank.specs.Ranks.{RankView};

    ghost Value = { RankView P.Local };

    ghost view = { λ r. record { rank = r.rank; local = r.local; epoch = r.epoch; stand = r.stand } };
}

impl<P: RankProgram> Rank<P> {
    /// A rank before its first event.
    pub fn new(rank: u32, local: P::Local, epoch: Epoch) -> Rank<P>
        ensures view { result ≡ record { rank = rank; local = Some local; epoch = epoch; stand = Stand.Opening } }
        ensures at { (setup : P.Setup) → rank < P.meanings.ranks setup → epoch ≡ first_epoch (P.meanings.ranks setup) (P.meanings.steps setup) (P.meanings.interval setup)
            → local_of (range_with_len 0 (P.meanings.ranks setup)) (P.meanings.opening setup) rank ≡ Some local → IsAt P.meanings P.good setup [] result }
    {
        Rank {
            rank,
            local: Some(local),
            epoch,
            stand: Stand::Opening,
        }
    }

    /// Which rank it is.
    pub fn rank(&self) -> u32
        ensures { result ≡ self.now.rank }
    {
        self.rank
    }

    // Stands elsewhere after an event.
    fn stand_on(&mut self, stand: Stand) -> Turn
        ensures view { self.new ≡ viewed self.old.rank (local_kept self.old.local stand) self.old.epoch stand }
        ensures turn { result ≡ turn_to stand }
    {
        let turn = match &stand {
            Stand::Failed => {
                self.local = None;
                Turn::Moved
            }
            Stand::Ended => {
                self.local = None;
                Turn::Ended
            }
            _ => Turn::Moved,
        };
        self.stand = stand;
        turn
    }

    /// One turn on a world of the rank's run: at most one event of the rank, the one that it is offered, or an arrival for
    /// want of memory in its place. Where none is offered nothing changes. A rank that has failed arrives for want of memory
    /// or dies.
    pub fn turn_here(&mut self, alloc: Global, setup: &P::Setup, world: &mut World<P>) -> Turn
        requires same { world.old.setup ≡ setup.now }
        requires at { IsAt P.meanings P.good setup.now world.old.journal self.old }
        ensures setup { world.new.setup ≡ world.old.setup }
        ensures rank { self.new.rank ≡ self.old.rank }
        ensures at { IsAt P.meanings P.good setup.now world.new.journal self.new }
        ensures turn { TookTurn P.meanings P.good setup.now world.old.journal world.new.journal self.old.rank result }
        ensures as_before { result ≡ Turn.NotYet → self.new ≡ self.old }
        ensures ended { self.old.stand ≡ Stand.Ended → result ≡ Turn.Ended }
        ensures failed { self.old.stand ≡ Stand.Failed → world.new.journal
            ≡ world.old.journal ++ event_of_failed (is_due (core_after P.meanings setup.now world.old.journal) self.old.rank) self.old.rank ∷ [] }
        ensures lacking { (self.old.stand ≡ Stand.Failed → ⊥) → world.new.journal ≡ world.old.journal ++ short_arrival self.old.rank ∷ []
            → IsOfferedSome P.meanings P.good setup.now world.old.journal self.old.rank }
        ensures opened { result ≡ Turn.Moved → self.new.stand ≡ Stand.Opening → ⊥ }
    {
        world.known();
        let rank = self.rank;
        let stand = self.stand;
        if let Stand::Ended = stand {
            return Turn::Ended;
        }
        if world.due(rank) {
            world.die(rank);
            return self.stand_on(Stand::Ended);
        }
        let made = step::<P>(
            alloc,
            setup,
            rank,
            stand,
            &mut self.epoch,
            &mut self.local,
            world,
        );
        match made {
            Step::Moved(next) => self.stand_on(next),
            Step::NotYet => Turn::NotYet,
            Step::Short => {
                let _ = world.arrive(rank, Arrival::Memory);
                self.local = None;
                self.stand_on(Stand::Arrived)
            }
        }
    }
}
