ghost use Rattle.std.specs.Prelude.{◌≡◌, ◌<◌, ◌||◌, true, false, IsTrue, [], ◌∷◌, ◌++◌, length, drop, IsOk, IfOk, IfErr, OnOk, OnErr};
ghost use Rattle.bf_program.specs.Epochs.{first_epoch};
ghost use Rattle.bf_core.specs.Stages.{is_arrived, is_leaving};
ghost use Rattle.bf_core.specs.States.{stage, is_due, is_active, has_dead_member, is_finished};
ghost use Rattle.bf_world.specs.Queues.{messages, with_messages};
ghost use Rattle.bf_world.specs.Runs.{run_after, is_legal_in};
ghost use Rattle.bf_world.specs.Settled.{IsMessage};
ghost use Rattle.bf_world.specs.Worlds.{IsView, core_after, restores_in, SendsNext, ReceivesNext, ArrivesAs, how_of, HasGot, HasLeft};

use crate::journal::Journal;
use crate::queues::Queues;
use crate::steps::{forget, give, room_for, settle, step};
use crate::{Arrival, Got, Left};
use bf_buddy::Members;
use bf_core::{CoreState, Event, How, Outcome};
use bf_program::{Epoch, Kept, Measure, Memory, RankProgram};
use std::alloc::Global;
use std::marker::Model;

/// A run of a round program as all its ranks see it: what has happened, and the messages on their way.
///
/// The journal keeps memory for what must follow without failing: an arrival for want of memory, a leave and a death of
/// each rank.
#[derive(Drop)]
pub struct World<P: RankProgram> {
    setup: P::Setup,
    core: CoreState,
    queues: Queues<P::Msg>,
    journal: Journal,
    parcels: Vec<(u32, P::Part)>,
    restores: u32,
}

impl<P: RankProgram> Model for World<P> {
    ghost use Rattle.bf_world.specs.Worlds.{View, IsWorld};

    ghost Value = { View P.Setup P.Msg P.Part };

    ghost view = { λ w. record { setup = w.setup; journal = w.journal.events; waiting = w.queues; parcels = w.parcels.items } };

    ghost invariant = { λ w. IsWorld P.meanings w.setup w.core w.queues w.journal w.parcels.items w.restores };
}

impl<P: RankProgram> World<P> {
    /// The world at the opening. `filled` are the ranks whose parts of the opening's snapshot have a block.
    pub fn begin(alloc: Global, setup: P::Setup, filled: Members) -> Result<World<P>, Memory>
        requires { filled ≡ P.meanings.laid setup }
        ensures setup { IfOk result (λ world. world.setup ≡ setup) }
        ensures journal { IfOk result (λ world. world.journal ≡ []) }
        ensures parcels { IfOk result (λ world. world.parcels ≡ []) }
    {
        let ranks = P::ranks(&setup);
        let core = CoreState::begin(
            alloc,
            ranks,
            filled,
            P::dies(&setup),
            P::shift(&setup),
            P::steps(&setup),
            P::snapshot(&setup),
        )?;
        let queues = Queues::new(alloc, ranks)?;
        let mut journal = Journal::new(alloc);
        journal.reserve(3 * ranks as usize)?;
        Ok(World {
            setup,
            core,
            queues,
            journal,
            parcels: Vec::new(alloc),
            restores: 0,
        })
    }

    /// Hands over what is true of each world.
    pub fn known(&self)
        ensures { IsView P.meanings self.now }
    {
        let _ = &self.setup;
    }

    /// What all ranks know.
    pub fn setup(&self) -> &P::Setup
        ensures { result.now ≡ self.now.setup }
    {
        &self.setup
    }

    /// The epoch with which the run began.
    pub fn first(&self) -> Epoch
        ensures { result ≡ first_epoch (P.meanings.ranks self.now.setup) (P.meanings.steps self.now.setup) (P.meanings.interval self.now.setup) }
    {
        Epoch::first(
            P::ranks(&self.setup),
            P::steps(&self.setup),
            P::snapshot(&self.setup),
        )
    }

    /// Whether the next event of a rank is its death.
    pub fn due(&self, rank: u32) -> bool
        requires { rank < P.meanings.ranks self.now.setup }
        ensures { result ≡ is_due (core_after P.meanings self.now.setup self.now.journal) rank }
    {
        self.core.is_due(rank)
    }

    /// How the run ended, if it has.
    pub fn outcome(&self) -> Option<Outcome>
        ensures { result ≡ (core_after P.meanings self.now.setup self.now.journal).outcome }
    {
        self.core.outcome()
    }

    /// Whether every rank is dead or has left the ended run.
    pub fn finished(&self) -> bool
        ensures { result ≡ is_finished (core_after P.meanings self.now.setup self.now.journal) }
    {
        self.core.finished()
    }

    /// The present epoch; after an end the last.
    pub fn epoch(&self) -> Epoch
        ensures { result ≡ (core_after P.meanings self.now.setup self.now.journal).epoch }
    {
        self.core.epoch()
    }

    /// What has happened, the first event first.
    pub fn journal(&self) -> &[Event]
        ensures { result.now ≡ self.now.journal }
    {
        self.journal.events()
    }

    /// How many restores there were: at most as many as there are ranks, since each leaves a member behind.
    pub fn restores(&self) -> u32
        ensures { result ≡ restores_in P.meanings self.now.setup self.now.journal }
    {
        self.restores
    }

    /// What the ranks that are done in the last epoch have given.
    pub fn parcels(&self) -> &[(u32, P::Part)]
        ensures { result.now ≡ self.now.parcels }
    {
        self.parcels.as_slice()
    }

    /// A rank sends a message to another. Without memory the message comes back.
    pub fn send(&mut self, rank: u32, to: u32, msg: P::Msg) -> Result<(), Kept<P::Msg>>
        requires { SendsNext P.meanings self.old.setup self.old.journal rank to msg }
        ensures setup { self.new.setup ≡ self.old.setup }
        ensures journal { OnOk result (self.new.journal ≡ self.old.journal ++ Event.Send rank to (P.meanings.measure msg).blocks (P.meanings.measure msg).sum ∷ []) }
        ensures waiting { OnOk result (self.new.waiting ≡ with_messages self.old.waiting rank to (messages self.old.waiting rank to ++ msg ∷ [])) }
        ensures parcels { self.new.parcels ≡ self.old.parcels }
        ensures err { OnErr result (self.new ≡ self.old) }
        ensures kept { IfErr result (λ kept. kept.value ≡ msg) }
    {
        let more = room_for(&self.queues);
        match self.journal.reserve(more) {
            Ok(()) => {}
            Err(_) => return Err(Kept { value: msg }),
        }
        let Measure { blocks, sum } = P::measure(&msg);
        self.queues.push(rank, to, msg)?;
        let event = Event::Send {
            rank,
            to,
            blocks,
            sum,
        };
        step(&mut self.core, &mut self.journal, event, false);
        Ok(())
    }

    // Takes the message that waits for a rank.
    fn take(&mut self, rank: u32, peer: u32) -> Result<Got<P::Msg>, Memory>
        requires next { ReceivesNext P.meanings self.old.setup self.old.journal rank peer }
        requires some { 0 < length (messages self.old.waiting peer rank) }
        ensures setup { self.new.setup ≡ self.old.setup }
        ensures ok { IfOk result (λ got. HasGot P.meanings self.old.setup self.old self.new rank peer got) }
        ensures waiting { OnOk result (self.new.waiting ≡ with_messages self.old.waiting peer rank (drop 1 (messages self.old.waiting peer rank))) }
        ensures parcels { self.new.parcels ≡ self.old.parcels }
        ensures err { OnErr result (self.new ≡ self.old) }
    {
        let more = room_for(&self.queues);
        self.journal.reserve(more)?;
        let Some(msg) = self.queues.pop(peer, rank) else {
            unreachable!()
        };
        step(
            &mut self.core,
            &mut self.journal,
            Event::Recv { rank, peer },
            false,
        );
        Ok(Got::Message(msg))
    }

    // A rank waits for a message that may never come, and arrives.
    fn break_off(&mut self, rank: u32) -> Result<(), Memory>
        requires { IsTrue (is_legal_in P.meanings self.old.setup (run_after P.meanings self.old.setup self.old.journal) (Event.Arrive rank How.Broken)) }
        ensures setup { self.new.setup ≡ self.old.setup }
        ensures journal { OnOk result (self.new.journal ≡ self.old.journal ++ Event.Arrive rank How.Broken ∷ []) }
        ensures err { OnErr result (self.new ≡ self.old) }
    {
        let more = room_for(&self.queues);
        self.journal.reserve(more)?;
        let event = Event::Arrive {
            rank,
            how: How::Broken,
        };
        step(&mut self.core, &mut self.journal, event, false);
        settle(
            &self.core,
            rank,
            &mut self.queues,
            &mut self.parcels,
            &mut self.restores,
        );
        Ok(())
    }

    // What a rank gets where no message waits for it.
    fn miss(&mut self, rank: u32, peer: u32) -> Result<Got<P::Msg>, Memory>
        requires next { ReceivesNext P.meanings self.old.setup self.old.journal rank peer }
        requires none { messages self.old.waiting peer rank ≡ [] }
        ensures setup { self.new.setup ≡ self.old.setup }
        ensures ok { IfOk result (λ got. HasGot P.meanings self.old.setup self.old self.new rank peer got) }
        ensures none { IfOk result (λ got. IsMessage got → ⊥) }
        ensures waits { has_dead_member (core_after P.meanings self.old.setup self.old.journal) ≡ false → IsOk result }
        ensures err { OnErr result (self.new ≡ self.old) }
    {
        if self.core.has_dead_member() {
            self.break_off(rank)?;
            Ok(Got::Broken)
        } else if self.core.is_short_of_memory() {
            Ok(Got::Short)
        } else {
            Ok(Got::NotYet)
        }
    }

    /// A rank takes the front of the queue from a peer. Where it is empty, the rank arrives if a member is dead; where every
    /// member lives, that takes no memory.
    pub fn recv(&mut self, rank: u32, peer: u32) -> Result<Got<P::Msg>, Memory>
        requires { ReceivesNext P.meanings self.old.setup self.old.journal rank peer }
        ensures setup { self.new.setup ≡ self.old.setup }
        ensures ok { IfOk result (λ got. HasGot P.meanings self.old.setup self.old self.new rank peer got) }
        ensures waiting { IfOk result (λ got. IsMessage got → self.new.waiting ≡ with_messages self.old.waiting peer rank (drop 1 (messages self.old.waiting peer rank))) }
        ensures waits { messages self.old.waiting peer rank ≡ [] → has_dead_member (core_after P.meanings self.old.setup self.old.journal) ≡ false → IsOk result }
        ensures err { OnErr result (self.new ≡ self.old) }
    {
        if self.queues.is_empty(peer, rank) {
            self.miss(rank, peer)
        } else {
            self.take(rank, peer)
        }
    }

    // A rank arrives for want of memory.
    fn arrive_short(&mut self, rank: u32)
        requires { IsTrue (is_active (core_after P.meanings self.old.setup self.old.journal) rank) }
        ensures setup { self.new.setup ≡ self.old.setup }
        ensures journal { self.new.journal ≡ self.old.journal ++ Event.Arrive rank How.Memory ∷ [] }
    {
        let event = Event::Arrive {
            rank,
            how: How::Memory,
        };
        step(&mut self.core, &mut self.journal, event, false);
        settle(
            &self.core,
            rank,
            &mut self.queues,
            &mut self.parcels,
            &mut self.restores,
        );
    }

    // A rank arrives with all rounds done.
    fn arrive_done(
        &mut self,
        rank: u32,
        filled: bool,
        parcel: Option<P::Part>,
    ) -> Result<(), Kept<Option<P::Part>>>
        requires active { IsTrue (is_active (core_after P.meanings self.old.setup self.old.journal) rank) }
        requires its { ArrivesAs P.meanings self.old.setup self.old.journal rank (Arrival.Done filled parcel) }
        ensures setup { self.new.setup ≡ self.old.setup }
        ensures journal { OnOk result (self.new.journal ≡ self.old.journal ++ Event.Arrive rank How.Done ∷ []) }
        ensures err { OnErr result (self.new ≡ self.old) }
        ensures kept { IfErr result (λ kept. kept.value ≡ parcel) }
    {
        let more = room_for(&self.queues);
        if self.journal.reserve(more).is_err() {
            return Err(Kept { value: parcel });
        }
        give(&mut self.parcels, rank, parcel)?;
        let event = Event::Arrive {
            rank,
            how: How::Done,
        };
        step(&mut self.core, &mut self.journal, event, filled);
        settle(
            &self.core,
            rank,
            &mut self.queues,
            &mut self.parcels,
            &mut self.restores,
        );
        Ok(())
    }

    /// A rank arrives at the agreement that ends its epoch. An arrival for want of memory takes none; where another finds
    /// none, it comes back.
    pub fn arrive(
        &mut self,
        rank: u32,
        arrival: Arrival<P::Part>,
    ) -> Result<(), Kept<Arrival<P::Part>>>
        requires active { IsTrue (is_active (core_after P.meanings self.old.setup self.old.journal) rank) }
        requires its { ArrivesAs P.meanings self.old.setup self.old.journal rank arrival }
        ensures setup { self.new.setup ≡ self.old.setup }
        ensures journal { OnOk result (self.new.journal ≡ self.old.journal ++ Event.Arrive rank (how_of arrival) ∷ []) }
        ensures err { OnErr result (self.new ≡ self.old) }
        ensures kept { IfErr result (λ kept. kept.value ≡ arrival) }
        ensures memory { arrival ≡ Arrival.Memory → IsOk result }
    {
        match arrival {
            Arrival::Memory => {
                self.arrive_short(rank);
                Ok(())
            }
            Arrival::Done { filled, parcel } => match self.arrive_done(rank, filled, parcel) {
                Ok(()) => Ok(()),
                Err(kept) => Err(Kept {
                    value: Arrival::Done {
                        filled,
                        parcel: kept.value,
                    },
                }),
            },
        }
    }

    // A rank leaves the agreement, once its epoch is decided.
    fn go(&mut self, rank: u32)
        requires leaving { IsTrue (is_leaving (stage (core_after P.meanings self.old.setup self.old.journal) rank)) }
        requires undue { is_due (core_after P.meanings self.old.setup self.old.journal) rank ≡ false }
        ensures setup { self.new.setup ≡ self.old.setup }
        ensures journal { self.new.journal ≡ self.old.journal ++ Event.Leave rank ∷ [] }
        ensures waiting { self.new.waiting ≡ self.old.waiting }
        ensures parcels { self.new.parcels ≡ self.old.parcels }
    {
        step(
            &mut self.core,
            &mut self.journal,
            Event::Leave { rank },
            false,
        );
    }

    /// A rank that has arrived learns the decision and goes on, or ends.
    pub fn leave(&mut self, rank: u32) -> Left
        requires arrived { IsTrue (is_arrived (stage (core_after P.meanings self.old.setup self.old.journal) rank) || is_leaving (stage (core_after P.meanings self.old.setup self.old.journal) rank)) }
        requires undue { is_due (core_after P.meanings self.old.setup self.old.journal) rank ≡ false }
        ensures setup { self.new.setup ≡ self.old.setup }
        ensures left { HasLeft P.meanings self.old.setup self.old self.new rank result }
    {
        if !self.core.stage(rank).is_leaving() {
            return Left::NotYet;
        }
        let left = match self.core.outcome() {
            Some(outcome) => Left::Ended(outcome),
            None => Left::Run(self.core.epoch()),
        };
        self.go(rank);
        left
    }

    /// A rank dies.
    pub fn die(&mut self, rank: u32)
        requires { IsTrue (is_due (core_after P.meanings self.old.setup self.old.journal) rank) }
        ensures setup { self.new.setup ≡ self.old.setup }
        ensures journal { self.new.journal ≡ self.old.journal ++ Event.Die rank ∷ [] }
    {
        forget(&self.core, &mut self.parcels, rank);
        step(
            &mut self.core,
            &mut self.journal,
            Event::Die { rank },
            false,
        );
        settle(
            &self.core,
            rank,
            &mut self.queues,
            &mut self.parcels,
            &mut self.restores,
        );
    }
}
