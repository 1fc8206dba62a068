//! Whole journals of small cases, with every other member as a peer in each round.
ghost use Rattle.std.specs.Prelude.{◌≤◌, ◌<◌, All, map};
ghost use Rattle.std.specs.List.Sorted.{IsStrictlyIncreasing};
ghost use Rattle.bf_core.specs.Places.{PeersBelow};

use super::CoreState;
use super::tests::has_room;
use crate::{Event, How, Outcome, Place};
use bf_buddy::Members;
use bf_program::Memory;
use std::alloc::Global;
use std::process::Abort;
use std::test::Fail;

// A place in a round: its number, how many sends and receives are done.
type InRound = (u32, u32, u32);

// One rank's move: what it does, and where it stands.
type Move = (Event, Option<InRound>);

fn send(rank: u32, to: u32, at: InRound) -> Move {
    let event = Event::Send {
        rank,
        to,
        blocks: 1,
        sum: 640,
    };
    (event, Some(at))
}

fn recv(rank: u32, peer: u32, at: InRound) -> Move {
    (Event::Recv { rank, peer }, Some(at))
}

fn done(rank: u32) -> Move {
    let event = Event::Arrive {
        rank,
        how: How::Done,
    };
    (event, None)
}

fn broken(rank: u32, at: InRound) -> Move {
    let event = Event::Arrive {
        rank,
        how: How::Broken,
    };
    (event, Some(at))
}

fn leave(rank: u32) -> Move {
    (Event::Leave { rank }, None)
}

fn die(rank: u32) -> Move {
    (Event::Die { rank }, None)
}

// Where a rank stands whose peers are all others but those that are gone.
#[tactic(auto, using(crate::proofs::TestLemmas::two_without_below))]
fn place(ranks: u32, rank: u32, gone: u32, at: Option<InRound>) -> Place
    requires { ranks ≤ 32 }
    ensures { PeersBelow ranks result }
{
    match at {
        Some((round, sent, received)) => Place::Rounds {
            round,
            sent,
            received,
            peers: Members::all(ranks).without(rank).without(gone),
        },
        None => Place::Past,
    }
}

// Whether all moves are legal in their turn. `gone` has died in an earlier epoch.
fn plays(rt: &impl Abort, core: &mut CoreState, gone: u32, moves: &[Move]) -> bool {
    for (event, at) in moves {
        let rank = event.actor();
        core.known();
        assert!(rt; rank < core.ranks);
        assert!(rt; core.roll.get(rank).events < u64::MAX);
        assert!(rt; has_room(core, *event));
        let place = place(core.ranks, rank, gone, *at);
        if core.step(*event, place, true).is_none() {
            return false;
        }
    }
    true
}

// Two ranks with a block each, a snapshot at each step.
fn pair(alloc: Global, steps: u32, dies: &[(u32, u32)]) -> Result<CoreState, Memory>
    requires steps { steps ≤ 128 }
    requires rising { IsStrictlyIncreasing (map (λ death. death.0) dies.now) }
    requires below { All (λ death. death.0 < 2) dies.now }
{
    CoreState::begin(alloc, 2, Members::all(2), dies, 0, steps, 1)
}

// Whether the snapshot of a time was agreed again, and work goes on from it to a later time.
fn is_repaired(core: &CoreState, time: u32, target: u32) -> bool {
    let epoch = core.epoch();
    core.outcome().is_none() && !epoch.restored && epoch.time == time && epoch.target == target
}

// What two ranks do in a round, turn by turn.
fn round(round: u32) -> [Move; 4] {
    [
        send(0, 1, (round, 0, 0)),
        send(1, 0, (round, 0, 0)),
        recv(0, 1, (round, 1, 0)),
        recv(1, 0, (round, 1, 0)),
    ]
}

#[test]
fn an_arrival_of_the_other_restores(rt: HostRuntime) -> Result<(), Fail> {
    let mut core = pair(rt.alloc(), 1, &[(1, 5)])?;
    assert!(rt; plays(&rt, &mut core, 32, &round(0)));
    assert!(rt; plays(&rt, &mut core, 32, &round(1)));
    assert!(rt; plays(&rt, &mut core, 32, &[done(1), die(1)]));
    assert_eq!(rt; core.epoch().number, 0);
    assert!(rt; plays(&rt, &mut core, 32, &[done(0)]));
    assert!(rt; core.epoch().restored);
    assert_eq!(rt; core.epoch().time, 0);
    assert_eq!(rt; core.epoch().target, 0);
    assert_eq!(rt; core.epoch().members.count(), 1);
    assert!(rt; plays(&rt, &mut core, 1, &[leave(0), done(0)]));
    assert!(rt; is_repaired(&core, 0, 1));
    assert!(rt; plays(&rt, &mut core, 1, &[leave(0), done(0)]));
    assert_eq!(rt; core.outcome(), Some(Outcome::Finished));
    assert!(rt; plays(&rt, &mut core, 1, &[leave(0)]));
    assert!(rt; core.finished());
    Ok(())
}

#[test]
fn a_death_after_the_commit_goes_back_to_it(rt: HostRuntime) -> Result<(), Fail> {
    let mut core = pair(rt.alloc(), 2, &[(1, 5)])?;
    assert!(rt; plays(&rt, &mut core, 32, &round(0)));
    assert!(rt; plays(&rt, &mut core, 32, &round(1)));
    assert!(rt; plays(&rt, &mut core, 32, &[done(1), done(0)]));
    assert!(rt; !core.epoch().restored);
    assert_eq!(rt; core.epoch().time, 1);
    assert!(rt; !plays(&rt, &mut core, 32, &[leave(1)]));
    assert!(rt;
        plays(
            &rt,
            &mut core,
            32,
            &[leave(0), die(1), send(0, 1, (0, 0, 0))]
        )
    );
    assert!(rt; plays(&rt, &mut core, 32, &[broken(0, (0, 1, 0))]));
    assert!(rt; core.epoch().restored);
    assert_eq!(rt; core.epoch().time, 1);
    assert_eq!(rt; core.epoch().target, 1);
    assert!(rt; plays(&rt, &mut core, 1, &[leave(0), done(0)]));
    assert!(rt; is_repaired(&core, 1, 2));
    assert!(rt; plays(&rt, &mut core, 1, &[leave(0), done(0)]));
    assert_eq!(rt; core.outcome(), Some(Outcome::Finished));
    assert!(rt; plays(&rt, &mut core, 1, &[leave(0)]));
    assert!(rt; core.finished());
    Ok(())
}

#[test]
fn two_holders_die(rt: HostRuntime) -> Result<(), Fail> {
    let mut core = CoreState::begin(rt.alloc(), 3, Members::all(3), &[(0, 0), (1, 0)], 0, 2, 1)?;
    let sends = [die(0), die(1), send(2, 0, (0, 0, 0)), send(2, 1, (0, 1, 0))];
    assert!(rt; plays(&rt, &mut core, 32, &sends));
    assert_eq!(rt; core.outcome(), None);
    assert!(rt; plays(&rt, &mut core, 32, &[broken(2, (0, 2, 0))]));
    let lost = Outcome::Lost {
        time: 0,
        home: 0,
        buddy: 1,
    };
    assert_eq!(rt; core.outcome(), Some(lost));
    assert!(rt; plays(&rt, &mut core, 32, &[leave(2)]));
    assert!(rt; core.finished());
    Ok(())
}

// What ranks 1 and 2 do in a round once rank 0 is gone.
fn round_of_two(round: u32) -> [Move; 4] {
    [
        send(1, 2, (round, 0, 0)),
        send(2, 1, (round, 0, 0)),
        recv(1, 2, (round, 1, 0)),
        recv(2, 1, (round, 1, 0)),
    ]
}

#[test]
fn two_holders_die_with_a_repair_between(rt: HostRuntime) -> Result<(), Fail> {
    let mut core = CoreState::begin(rt.alloc(), 3, Members::all(3), &[(0, 0), (1, 10)], 0, 2, 1)?;
    let sends = [
        die(0),
        send(1, 0, (0, 0, 0)),
        send(2, 0, (0, 0, 0)),
        send(1, 2, (0, 1, 0)),
        send(2, 1, (0, 1, 0)),
        broken(1, (0, 2, 0)),
        broken(2, (0, 2, 0)),
    ];
    assert!(rt; plays(&rt, &mut core, 32, &sends));
    assert!(rt; core.epoch().restored);
    assert_eq!(rt; core.epoch().target, 0);
    assert!(rt; plays(&rt, &mut core, 0, &[leave(1), leave(2)]));
    assert!(rt; plays(&rt, &mut core, 0, &round_of_two(0)));
    assert!(rt; plays(&rt, &mut core, 0, &[done(1), done(2)]));
    assert!(rt; is_repaired(&core, 0, 1));
    assert_eq!(rt; core.epoch().homes.count(), 2);
    assert!(rt; plays(&rt, &mut core, 0, &[leave(1), leave(2)]));
    assert!(rt; plays(&rt, &mut core, 0, &round_of_two(0)));
    let deaths = [die(1), send(2, 1, (1, 0, 0)), broken(2, (1, 1, 0))];
    assert!(rt; plays(&rt, &mut core, 0, &deaths));
    assert_eq!(rt; core.outcome(), None);
    assert!(rt; core.epoch().restored);
    assert_eq!(rt; core.epoch().time, 0);
    assert_eq!(rt; core.epoch().members.at(0), Some(2));
    assert!(rt; plays(&rt, &mut core, 1, &[leave(2), done(2)]));
    assert!(rt; is_repaired(&core, 0, 1));
    assert!(rt; plays(&rt, &mut core, 1, &[leave(2), done(2)]));
    assert_eq!(rt; core.epoch().time, 1);
    assert!(rt; plays(&rt, &mut core, 1, &[leave(2), done(2), leave(2)]));
    assert_eq!(rt; core.outcome(), Some(Outcome::Finished));
    assert!(rt; core.finished());
    Ok(())
}

#[test]
fn the_last_rank_dies(rt: HostRuntime) -> Result<(), Fail> {
    let mut core = CoreState::begin(rt.alloc(), 1, Members::all(1), &[(0, 0)], 0, 0, 1)?;
    assert!(rt; plays(&rt, &mut core, 32, &[die(0)]));
    let lost = Outcome::Lost {
        time: 0,
        home: 0,
        buddy: 0,
    };
    assert_eq!(rt; core.outcome(), Some(lost));
    assert!(rt; core.finished());
    Ok(())
}
