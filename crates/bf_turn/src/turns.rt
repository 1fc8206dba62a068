ghost use Rattle.std.specs.Prelude.{◌≡◌, ◌≢◌, ℕ, ◌<◌, [], Contains, IfOk, IfErr, Some};
ghost use Rattle.bf_turn.specs.Logs.{entries_of, StartsWith, GoesOn, HasJust};
ghost use Rattle.bf_turn.specs.Seats.{HasOwnCalls, opened, passed, without, newcomer, joined};

use crate::held::{Grip, Held};
use crate::kept::Kept;
use crate::logged::Logged;
use crate::plays::{Both, Cut, InTurn, Key, Pass, Picked, Recall, Try};
use crate::seat::Seat;
use crate::view::View;
use atomic_table::{Refused, Table};
use std::alloc::Global;
use std::marker::{Brand, Model};
use std::snapshot::Snapshot;
use std::sync::Wait;

/// A state that threads take in turn. Who waits for it sleeps.
#[derive(Drop)]
pub struct Turns<S: Logged> {
    table: Table<Option<S>, View<S::Entry, S::Name>, Key<S>, InTurn<S>, Global>,
}

impl<S: Logged> Model for Turns<S> {
    ghost use Rattle.std.specs.Prelude.{◌≡◌};
    ghost use Rattle.bf_turn.specs.Seats.{Lock};

    ghost Value = { Lock };

    ghost view = { λ t. record { lock = t.table.shared.table_id; parties = t.table.shared.key.parties } };

    ghost invariant = { λ t. (t.table.shared.table_id.words ≡ 1) × (t.table.shared.table_id.slots ≡ 1) };
}

impl<S: Logged> Turns<S> {
    /// The lock, and the seat of all parties: the numbers below `parties`.
    pub fn new(alloc: Global, state: S, parties: u32) -> Result<(Turns<S>, Seat<S>), Kept<S>>
        requires { S.log state ≡ [] }
        ensures lock { IfOk result (λ made. made.1.lock ≡ made.0.lock) }
        ensures parties { IfOk result (λ made. made.0.parties ≡ parties) }
        ensures seat { IfOk result (λ made. made.1.known ≡ opened parties (S.name state)) }
        ensures err { IfErr result (λ kept. kept.value ≡ state) }
    {
        let about = Key {
            parties,
            first: Snapshot::of(&state),
        };
        let Ok(mut slots) = Vec::with_capacity(alloc, 1) else {
            return Err(Kept { value: state });
        };
        slots.push_reserved(Some(state));
        match Table::new(alloc, &[0], slots, &about) {
            Ok((table, inner)) => Ok((Turns { table }, Seat { inner })),
            Err(refused) => {
                let Refused { mut slots } = refused;
                let Some(Some(value)) = slots.pop() else {
                    unreachable!()
                };
                slots.destroy_empty();
                Err(Kept { value })
            }
        }
    }

    /// Waits for the turn, and may wait forever.
    pub fn take<H: Wait>(&self, rt: &H, seat: Seat<S>) -> Held<S>
        requires lock { seat.lock ≡ self.now.lock }
        requires party { seat.known.parties ≢ [] }
        ensures lock { result.grip.lock ≡ seat.lock }
        ensures grip { result.grip.known ≡ record seat.known { seen = S.log result.state } }
        ensures seen { StartsWith (S.log result.state) seat.known.seen }
        ensures own { HasOwnCalls S.party seat.known (S.log result.state) }
        ensures named { seat.known.name ≡ Some (S.name result.state) }
    {
        let Seat { mut inner } = seat;
        let shared = &self.table.shared;
        for _ in rt.forever() {
            let found = shared.compare_exchange::<Try>(&mut inner, 0, 0, 1);
            if found == 0 {
                let Some(state) = shared.exchange(&mut inner, 0, None) else {
                    unreachable!()
                };
                return Held {
                    grip: Grip { inner },
                    state,
                };
            }
            shared.park(rt, 0, 1);
        }
        unreachable!()
    }

    /// Gives the state back, with what the seat has added to its log, and wakes one who waits for it.
    pub fn give(&self, held: Held<S>) -> Seat<S>
        requires lock { held.grip.lock ≡ self.now.lock }
        requires named { held.grip.known.name ≡ Some (S.name held.state) }
        requires grown { GoesOn S.party held.grip.known.parties held.grip.known.seen (S.log held.state) }
        ensures lock { result.lock ≡ held.grip.lock }
        ensures seat { result.known ≡ passed held.grip.known (S.log held.state) }
    {
        let Held { grip, state } = held;
        let Grip { mut inner } = grip;
        let shared = &self.table.shared;
        let None = shared.exchange(&mut inner, 0, Some(state)) else {
            unreachable!()
        };
        shared.swap::<Pass>(&mut inner, 0, 0);
        shared.wake_one(0);
        Seat { inner }
    }

    /// Splits off a party that has made no call: a seat for the others, and one for this party alone.
    pub fn split(&self, seat: Seat<S>, party: u32) -> (Seat<S>, Seat<S>)
        requires lock { seat.lock ≡ self.now.lock }
        requires party { Contains seat.known.parties party }
        requires unused { entries_of S.party party seat.known.calls ≡ [] }
        ensures lock { (result.0.lock ≡ seat.lock) × (result.1.lock ≡ seat.lock) }
        ensures others { result.0.known ≡ without party seat.known }
        ensures one { result.1.known ≡ newcomer party seat.known }
    {
        self.cut::<Brand>(seat, party)
    }

    // The table's split has no operand: the party comes by the type, which the call above picks.
    fn cut<B: Picked>(&self, seat: Seat<S>, party: u32) -> (Seat<S>, Seat<S>)
        requires lock { seat.lock ≡ self.now.lock }
        requires picked { B.party ≡ party }
        requires party { Contains seat.known.parties party }
        requires unused { entries_of S.party party seat.known.calls ≡ [] }
        ensures lock { (result.0.lock ≡ seat.lock) × (result.1.lock ≡ seat.lock) }
        ensures others { result.0.known ≡ without party seat.known }
        ensures one { result.1.known ≡ newcomer party seat.known }
    {
        let _ = party;
        let Seat { mut inner } = seat;
        let other = self.table.shared.split_seat::<Cut<B>>(&mut inner);
        (Seat { inner }, Seat { inner: other })
    }

    /// Joins two seats to one that has the parties and calls of both, and has seen what either had.
    pub fn join(&self, a: Seat<S>, b: Seat<S>) -> Seat<S>
        requires a { a.lock ≡ self.now.lock }
        requires b { b.lock ≡ self.now.lock }
        ensures lock { result.lock ≡ a.lock }
        ensures seat { result.known ≡ joined a.known b.known }
        ensures seen { StartsWith result.known.seen a.known.seen × StartsWith result.known.seen b.known.seen }
    {
        let Seat { mut inner } = a;
        let Seat { inner: other } = b;
        let shared = &self.table.shared;
        shared.join_seat::<Both>(&mut inner, other);
        shared.load::<Recall>(&mut inner, 0);
        Seat { inner }
    }

    /// Takes the state out, by the seat that has every party.
    pub fn close(self, seat: Seat<S>) -> S
        requires lock { seat.lock ≡ self.lock }
        requires all { (party : ℕ) → party < self.parties → Contains seat.known.parties party }
        ensures log { S.log result ≡ seat.known.seen }
        ensures calls { HasJust S.party seat.known.calls (S.log result) }
        ensures named { seat.known.name ≡ Some (S.name result) }
    {
        let Turns { table } = self;
        let Seat { inner } = seat;
        let mut closed = table.close_with(inner);
        let value = closed.take(0);
        closed.free();
        let Some(state) = value else { unreachable!() };
        state
    }
}
