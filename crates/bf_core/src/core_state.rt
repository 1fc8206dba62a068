ghost use Rattle.std.specs.Prelude.{◌≡◌, ◌<◌, ◌≤◌, ◌+◌, ◌-◌, ◌^◌, ◌&&◌, IfOk, IfSome, is_some, All, map, if◌then◌else◌, length, None};
ghost use Rattle.bf_core.specs.States.{IsState, standing, stage, channel, queue, is_due, is_active, has_dead_member, is_short_of_memory, is_finished, live_members, opening};
ghost use Rattle.bf_core.specs.Stages.{lives, is_filled};
ghost use Rattle.bf_core.specs.Places.{is_just, PeersBelow};
ghost use Rattle.bf_core.specs.Legal.{actor, waits, is_legal, IsLegalSomewhere, HasRoom};
ghost use Rattle.bf_core.specs.Next.{next, settled, decided, decision, decision_of_whole, dissolved, ended, committed, restored, filled_members, is_ripe, with_stage, with_event, with_queue};
ghost use Rattle.std.specs.List.Sorted.{IsStrictlyIncreasing};

use crate::decision::Decision;
use crate::roll::Roll;
use crate::{Event, How, Outcome, Place, Stage};
use bf_buddy::{Members, first_lost};
use bf_program::{Epoch, Memory};
use std::alloc::Global;
use std::marker::Model;

/// The state of a run between two events, but for where its ranks stand in their rounds and what their messages hold.
#[derive(Drop)]
pub struct CoreState {
    ranks: u32,
    roll: Roll,
    queues: Vec<u64>,
    epoch: Epoch,
    stored: Members,
    shift: u32,
    steps: u32,
    interval: u32,
    outcome: Option<Outcome>,
}

impl Model for CoreState {
    ghost use Rattle.bf_core.specs.States.{State, IsState};

    ghost Value = { State };

    ghost use Rattle.bf_core.specs.Views.{state_of};

    ghost view = { state_of };

    ghost invariant = { λ core. IsState (state_of core) };
}

// Whether this is the number that there may be.
fn is_just(number: Option<u32>, wanted: u32) -> bool
    ensures { result ≡ is_just number wanted }
{
    match number {
        Some(found) => found == wanted,
        None => false,
    }
}

impl CoreState {
    /// The state at the opening of a run of so many ranks. `filled` are the homes whose parts have blocks, and `dies`
    /// lists ranks, each with the number of events after which it dies. A snapshot is agreed every `snapshot` steps.
    pub fn begin(
        alloc: Global,
        ranks: u32,
        filled: Members,
        dies: &[(u32, u32)],
        shift: u32,
        steps: u32,
        snapshot: u32,
    ) -> Result<CoreState, Memory>
        requires some { 1 ≤ ranks }
        requires few { ranks ≤ 32 }
        requires steps { steps ≤ 128 }
        requires often { 1 ≤ snapshot }
        requires seldom { snapshot ≤ 128 }
        requires shift { shift ≤ 1000 }
        requires rising { IsStrictlyIncreasing (map (λ death. death.0) dies.now) }
        requires below { All (λ death. death.0 < ranks) dies.now }
        requires filled { All (λ rank. rank < ranks) filled }
        ensures { IfOk result (λ core. core ≡ opening ranks filled dies.now shift steps snapshot) }
    {
        let roll = Roll::running(alloc, ranks, dies)?;
        let queues = vec![in alloc; 0; (ranks * ranks) as usize]?;
        Ok(CoreState {
            ranks,
            roll,
            queues,
            epoch: Epoch::first(ranks, steps, snapshot),
            stored: filled,
            shift,
            steps,
            interval: snapshot,
            outcome: None,
        })
    }

    /// Hands over what is true of each state.
    pub fn known(&self)
        ensures { IsState self.now }
    {
        let _ = &self.ranks;
    }

    /// How many ranks the run has, the dead among them.
    pub fn ranks(&self) -> u32
        ensures { result ≡ self.now.ranks }
    {
        self.ranks
    }

    /// How the run ended, if it has.
    pub fn outcome(&self) -> Option<Outcome>
        ensures { result ≡ self.now.outcome }
    {
        self.outcome
    }

    /// The present epoch; after an end the last.
    pub fn epoch(&self) -> Epoch
        ensures { result ≡ self.now.epoch }
    {
        self.epoch
    }

    /// Whether every rank is dead or has left an ended run.
    pub fn finished(&self) -> bool
        ensures { result ≡ is_finished self.now }
    {
        !self.roll.has_going()
    }

    /// Whether a member of the present epoch has died.
    pub fn has_dead_member(&self) -> bool
        ensures { result ≡ has_dead_member self.now }
    {
        self.roll.has_dead()
    }

    /// Whether a member has arrived for want of memory.
    pub fn is_short_of_memory(&self) -> bool
        ensures { result ≡ is_short_of_memory self.now }
    {
        self.roll.has_short()
    }

    /// The stage of a rank.
    pub fn stage(&self, rank: u32) -> Stage
        requires { rank < self.now.ranks }
        ensures { result ≡ stage self.now rank }
    {
        self.roll.get(rank).stage
    }

    /// Whether the next event of a rank is its death.
    pub fn is_due(&self, rank: u32) -> bool
        requires { rank < self.now.ranks }
        ensures { result ≡ is_due self.now rank }
    {
        self.roll.get(rank).is_due()
    }

    // Whether a rank does its rounds and isn't due.
    fn is_active(&self, rank: u32) -> bool
        requires { rank < self.now.ranks }
        ensures { result ≡ is_active self.now rank }
    {
        self.stage(rank).is_running() && !self.is_due(rank)
    }

    // Where the length of a queue stands.
    fn channel(&self, from: u32, to: u32) -> usize
        requires from { from < self.now.ranks }
        requires to { to < self.now.ranks }
        ensures place { result ≡ channel self.now.ranks from to }
        ensures within { result < length self.now.queues }
    {
        (from * self.ranks + to) as usize
    }

    // How many messages wait from one rank to another.
    fn queue(&self, from: u32, to: u32) -> u64
        requires from { from < self.now.ranks }
        requires to { to < self.now.ranks }
        ensures { result ≡ queue self.now from to }
    {
        let channel = self.channel(from, to);
        self.queues[channel]
    }

    // From now on so many messages wait from one rank to another.
    fn set_queue(&mut self, from: u32, to: u32, length: u64)
        requires from { from < self.old.ranks }
        requires to { to < self.old.ranks }
        ensures { self.new ≡ with_queue self.old from to length }
    {
        let channel = self.channel(from, to);
        self.queues[channel] = length;
    }

    // One event more of a rank, which is at this stage then.
    fn set_stage(&mut self, rank: u32, stage: Stage)
        requires rank { rank < self.old.ranks }
        requires room { (standing self.old rank).events < 2 ^ 64 - 1 }
        ensures { self.new ≡ with_stage self.old rank stage }
    {
        self.roll.set(rank, stage);
    }

    // One event more of a rank, which stays at its stage.
    fn count_event(&mut self, rank: u32)
        requires rank { rank < self.old.ranks }
        requires room { (standing self.old rank).events < 2 ^ 64 - 1 }
        ensures { self.new ≡ with_event self.old rank }
    {
        let stage = self.stage(rank);
        self.set_stage(rank, stage);
    }

    // Whether a rank waits for a message that has not been sent.
    fn waits(&self, rank: u32, place: &Place) -> bool
        requires rank { rank < self.now.ranks }
        requires peers { PeersBelow self.now.ranks place.now }
        ensures { result ≡ waits self.now rank place.now }
    {
        match place.next_receive() {
            Some(peer) => self.queue(peer, rank) == 0,
            None => false,
        }
    }

    // Whether a rank may take a message.
    fn may_receive(&self, rank: u32, peer: u32, place: &Place) -> bool
        requires rank { rank < self.now.ranks }
        requires peers { PeersBelow self.now.ranks place.now }
        ensures { result ≡ is_legal self.now (Event.Recv rank peer) place.now }
    {
        self.is_active(rank) && is_just(place.next_receive(), peer) && !self.waits(rank, place)
    }

    // Whether a rank may arrive at the agreement.
    fn may_arrive(&self, rank: u32, how: How, place: &Place) -> bool
        requires rank { rank < self.now.ranks }
        requires peers { PeersBelow self.now.ranks place.now }
        ensures { result ≡ is_legal self.now (Event.Arrive rank how) place.now }
    {
        match how {
            How::Done => self.is_active(rank) && place.is_past(),
            How::Broken => self.is_active(rank)
                && self.waits(rank, place)
                && self.has_dead_member(),
            How::Memory => self.is_active(rank),
        }
    }

    /// Whether an event is legal, where its rank stands at a place.
    pub fn legal(&self, event: Event, place: Place) -> bool
        requires actor { actor event < self.now.ranks }
        requires peers { PeersBelow self.now.ranks place }
        ensures { result ≡ is_legal self.now event place }
    {
        match event {
            Event::Send { rank, to, .. } => self.is_active(rank) && is_just(place.next_send(), to),
            Event::Recv { rank, peer } => self.may_receive(rank, peer, &place),
            Event::Arrive { rank, how } => self.may_arrive(rank, how, &place),
            Event::Leave { rank } => self.stage(rank).is_leaving() && !self.is_due(rank),
            Event::Die { rank } => self.is_due(rank),
        }
    }

    // Whether a rank lives; what is no rank doesn't.
    fn lives(&self, rank: u32) -> bool
        ensures { result ≡ lives (stage self.now rank) }
    {
        rank < self.ranks && self.stage(rank).lives()
    }

    // Whether a rank's part of the new snapshot has a block.
    fn is_filled(&self, rank: u32) -> bool
        ensures { result ≡ is_filled (stage self.now rank) }
    {
        rank < self.ranks && self.stage(rank).is_filled()
    }

    // The members that live.
    #[tactic(auto, using(crate::proofs::StateLemmas::kept_steps))]
    fn live_members(&self) -> Members
        ensures { result ≡ live_members self.now }
    {
        let mut live = self.epoch.members;
        // its contract tells that each member is below 32
        let _ = live.count();
        for rank in 0..32u32 {
            if !self.lives(rank) {
                live = live.without(rank);
            }
        }
        live
    }

    // The members whose parts of the new snapshot have a block.
    #[tactic(auto, using(crate::proofs::StateLemmas::kept_steps))]
    fn filled_members(&self) -> Members
        ensures { result ≡ filled_members self.now }
    {
        let mut filled = self.epoch.members;
        // its contract tells that each member is below 32
        let _ = filled.count();
        for rank in 0..32u32 {
            if !self.is_filled(rank) {
                filled = filled.without(rank);
            }
        }
        filled
    }

    // The decision, where no part of the agreed snapshot is lost.
    fn decision_of_whole(&self) -> Decision
        ensures { result ≡ decision_of_whole self.now }
    {
        if self.is_short_of_memory() {
            Decision::WantMemory
        } else if self.roll.is_done() {
            Decision::Commit
        } else {
            Decision::Restore
        }
    }

    // The decision.
    #[tactic(auto, unfolding(crate::specs::Next::decision))]
    fn decision(&self) -> Decision
        ensures { result ≡ decision self.now }
    {
        match first_lost(
            self.epoch.homes,
            self.stored,
            self.live_members(),
            self.shift,
        ) {
            Some((home, buddy)) => Decision::Lose { home, buddy },
            None => self.decision_of_whole(),
        }
    }

    // The epoch is decided: each who arrived must leave, and no message waits.
    fn dissolve(&mut self)
        ensures { self.new ≡ dissolved self.old }
    {
        self.roll.dissolve();
        self.queues.as_mut_slice().fill(0);
    }

    // The run ends.
    fn end(&mut self, outcome: Outcome)
        ensures { self.new ≡ ended self.old outcome }
    {
        self.dissolve();
        self.outcome = Some(outcome);
    }

    // The new snapshot is agreed.
    fn commit(&mut self)
        ensures { self.new ≡ committed self.old }
    {
        let stored = self.filled_members();
        self.dissolve();
        self.epoch = self.epoch.after_commit(self.steps, self.interval);
        self.stored = stored;
    }

    // The live members go back to the agreed snapshot.
    fn restore(&mut self)
        ensures { self.new ≡ restored self.old }
    {
        let live = self.live_members();
        self.dissolve();
        self.epoch = self.epoch.after_restore(live);
    }

    // The new snapshot is agreed, and at the last step the run ends.
    #[tactic(auto, unfolding(crate::specs::Next::decided))]
    fn commit_or_finish(&mut self)
        ensures { self.new ≡ decided self.old Decision.Commit }
    {
        if self.epoch.target == self.steps {
            self.end(Outcome::Finished);
        } else {
            self.commit();
        }
    }

    // What a decision changes.
    #[tactic(auto, unfolding(crate::specs::Next::decided))]
    fn decide(&mut self, decision: Decision)
        ensures { self.new ≡ decided self.old decision }
    {
        let time = self.epoch.time;
        match decision {
            Decision::Lose { home, buddy } => self.end(Outcome::Lost { time, home, buddy }),
            Decision::WantMemory => self.end(Outcome::Memory),
            Decision::Commit => self.commit_or_finish(),
            Decision::Restore => self.restore(),
        }
    }

    // Whether a running epoch is to be decided.
    fn is_ripe(&self) -> bool
        ensures { result ≡ is_ripe self.now }
    {
        self.outcome.is_none() && !self.roll.has_awaited()
    }

    // The decision, if it is time for one.
    #[tactic(auto, unfolding(crate::specs::Next::settled))]
    fn settle(&mut self)
        ensures { self.new ≡ settled self.old }
    {
        if self.is_ripe() {
            let decision = self.decision();
            self.decide(decision);
        }
    }

    // A message more waits.
    fn send(&mut self, rank: u32, to: u32)
        requires rank { rank < self.old.ranks }
        requires to { to < self.old.ranks }
        requires events { (standing self.old rank).events < 2 ^ 64 - 1 }
        requires room { queue self.old rank to < 2 ^ 64 - 1 }
        ensures { self.new ≡ with_queue (with_event self.old rank) rank to (queue self.old rank to + 1) }
    {
        let length = self.queue(rank, to);
        self.count_event(rank);
        self.set_queue(rank, to, length + 1);
    }

    // A message less waits.
    fn receive(&mut self, rank: u32, peer: u32)
        requires rank { rank < self.old.ranks }
        requires peer { peer < self.old.ranks }
        requires events { (standing self.old rank).events < 2 ^ 64 - 1 }
        requires some { 0 < queue self.old peer rank }
        ensures { self.new ≡ with_queue (with_event self.old rank) peer rank (queue self.old peer rank - 1) }
    {
        let length = self.queue(peer, rank);
        self.count_event(rank);
        self.set_queue(peer, rank, length - 1);
    }

    // A rank arrives or dies, and the epoch is decided if it is time.
    fn stop(&mut self, rank: u32, stage: Stage)
        requires rank { rank < self.old.ranks }
        requires events { (standing self.old rank).events < 2 ^ 64 - 1 }
        ensures { self.new ≡ settled (with_stage self.old rank stage) }
    {
        self.set_stage(rank, stage);
        self.settle();
    }

    // The stage of a rank that leaves.
    fn stage_after_leave(&self) -> Stage
        ensures { result ≡ (if is_some self.now.outcome then Stage.Ended else Stage.Running) }
    {
        if self.outcome.is_some() {
            Stage::Ended
        } else {
            Stage::Running
        }
    }

    /// One legal event. `filled` says whether the rank's part of the new snapshot has a block, and counts only at an
    /// arrival with all rounds done.
    pub fn apply(&mut self, event: Event, filled: bool)
        requires legal { IsLegalSomewhere self.old event }
        requires events { (standing self.old (actor event)).events < 2 ^ 64 - 1 }
        requires room { HasRoom self.old event }
        ensures { self.new ≡ next self.old event filled }
    {
        // so the actor of a legal event is a rank
        self.known();
        match event {
            Event::Send { rank, to, .. } => self.send(rank, to),
            Event::Recv { rank, peer } => self.receive(rank, peer),
            Event::Arrive { rank, how } => {
                let filled = how.is_done() && filled;
                self.stop(rank, Stage::Arrived { how, filled });
            }
            Event::Leave { rank } => {
                let stage = self.stage_after_leave();
                self.set_stage(rank, stage);
            }
            Event::Die { rank } => self.stop(rank, Stage::Dead),
        }
    }

    /// One event of a rank that stands at a place, if it is legal; else `None`, and nothing changes.
    pub fn step(&mut self, event: Event, place: Place, filled: bool) -> Option<()>
        requires actor { actor event < self.old.ranks }
        requires peers { PeersBelow self.old.ranks place }
        requires events { (standing self.old (actor event)).events < 2 ^ 64 - 1 }
        requires room { HasRoom self.old event }
        ensures legal { is_some result ≡ is_legal self.old event place }
        ensures next { IfSome result (λ _. self.new ≡ next self.old event filled) }
        ensures kept { result ≡ None → self.new ≡ self.old }
    {
        if !self.legal(event, place) {
            return None;
        }
        self.apply(event, filled);
        Some(())
    }
}

#[cfg(test)]
mod rows;
#[cfg(test)]
mod tests;
