ghost use Rattle.std.specs.Prelude.{◌≡◌, ◌<◌, ◌≤◌, ◌-◌, ◌^◌, IsTrue, All, map};
ghost use Rattle.std.specs.List.Sorted.{IsStrictlyIncreasing};
ghost use Rattle.bf_core.specs.Places.{PeersBelow};
ghost use Rattle.bf_core.specs.States.{queue};
ghost use Rattle.bf_core.specs.Legal.{HasRoom};

use super::CoreState;
use crate::{Event, How, Outcome, Place, Stage};
use bf_buddy::Members;
use bf_program::Memory;
use std::alloc::Global;
use std::process::Abort;
use std::test::Fail;

// The place of a rank whose round has all other ranks for peers: so many are sent to and received from, or it is past.
#[tactic(auto, using(crate::proofs::TestLemmas::others_below))]
fn place(ranks: u32, rank: u32, done: Option<(u32, u32)>) -> Place
    requires { ranks ≤ 32 }
    ensures { PeersBelow ranks result }
{
    match done {
        Some((sent, received)) => Place::Rounds {
            round: 0,
            sent,
            received,
            peers: Members::all(ranks).without(rank),
        },
        None => Place::Past,
    }
}

// A run of three ranks over two steps, with a snapshot at each step, in which each home has a block.
fn open(alloc: Global, dies: &[(u32, u32)]) -> Result<CoreState, Memory>
    requires rising { IsStrictlyIncreasing (map (λ death. death.0) dies.now) }
    requires below { All (λ death. death.0 < 3) dies.now }
{
    CoreState::begin(alloc, 3, Members::all(3), dies, 0, 2, 1)
}

// Whether a queue has room for one message more.
fn queue_has_room(core: &CoreState, from: u32, to: u32) -> bool
    ensures { IsTrue result → queue core.now from to < 2 ^ 64 - 1 }
{
    from < core.ranks && to < core.ranks && core.queue(from, to) < u64::MAX
}

// Whether the queue to which an event adds, if any, has room.
pub(super) fn has_room(core: &CoreState, event: Event) -> bool
    ensures { IsTrue result → HasRoom core.now event }
{
    match event {
        Event::Send { rank, to, .. } => queue_has_room(core, rank, to),
        _ => true,
    }
}

// Whether an event was legal. Only a member whose part has a block says so.
fn happens(rt: &impl Abort, core: &mut CoreState, event: Event, done: Option<(u32, u32)>) -> bool {
    let rank = event.actor();
    core.known();
    assert!(rt; rank < core.ranks);
    assert!(rt; core.roll.get(rank).events < u64::MAX);
    assert!(rt; has_room(core, event));
    let place = place(core.ranks, rank, done);
    core.step(event, place, true).is_some()
}

fn send(rank: u32, to: u32) -> Event {
    Event::Send {
        rank,
        to,
        blocks: 1,
        sum: 7,
    }
}

fn arrive(rank: u32, how: How) -> Event {
    Event::Arrive { rank, how }
}

#[test]
fn both_holders_die(rt: HostRuntime) -> Result<(), Fail> {
    let mut core = open(rt.alloc(), &[(0, 0), (1, 0)])?;
    assert!(rt; happens(&rt, &mut core, Event::Die { rank: 0 }, Some((0, 0))));
    assert!(rt; !happens(&rt, &mut core, arrive(2, How::Broken), Some((0, 0))));
    assert!(rt; happens(&rt, &mut core, send(2, 0), Some((0, 0))));
    assert!(rt; happens(&rt, &mut core, send(2, 1), Some((1, 0))));
    assert!(rt; happens(&rt, &mut core, arrive(2, How::Broken), Some((2, 0))));
    assert_eq!(rt; core.outcome(), None);
    assert!(rt; happens(&rt, &mut core, Event::Die { rank: 1 }, Some((0, 0))));
    let lost = Outcome::Lost {
        time: 0,
        home: 0,
        buddy: 1,
    };
    assert_eq!(rt; core.outcome(), Some(lost));
    assert!(rt; !core.finished());
    assert!(rt; happens(&rt, &mut core, Event::Leave { rank: 2 }, Some((2, 0))));
    assert!(rt; core.finished());
    Ok(())
}

// Rank 1 dies after its first send; rank 0 takes what it sent and breaks off, rank 2 arrives.
fn rank_1_dies(rt: &impl Abort, core: &mut CoreState) {
    assert_eq!(rt; core.ranks(), 3);
    assert!(rt; !core.is_due(1));
    assert!(rt; happens(rt, core, send(1, 0), Some((0, 0))));
    assert!(rt; !happens(rt, core, send(1, 2), Some((1, 0))));
    assert!(rt; happens(rt, core, Event::Die { rank: 1 }, Some((1, 0))));
    assert!(rt; core.has_dead_member());
    assert!(rt; happens(rt, core, send(0, 1), Some((0, 0))));
    assert!(rt; happens(rt, core, send(0, 2), Some((1, 0))));
    assert!(rt; !happens(rt, core, arrive(0, How::Broken), Some((2, 0))));
    assert!(rt; happens(rt, core, Event::Recv { rank: 0, peer: 1 }, Some((2, 0))));
    assert!(rt; happens(rt, core, arrive(0, How::Broken), Some((2, 1))));
    assert!(rt; happens(rt, core, send(2, 0), Some((0, 0))));
    assert!(rt; happens(rt, core, arrive(2, How::Done), None));
}

#[test]
fn a_dead_holder_restores(rt: HostRuntime) -> Result<(), Fail> {
    let mut core = open(rt.alloc(), &[(1, 1)])?;
    rank_1_dies(&rt, &mut core);
    let epoch = core.epoch();
    assert!(rt; epoch.restored);
    assert_eq!(rt; epoch.number, 1);
    assert_eq!(rt; epoch.time, 0);
    assert_eq!(rt; epoch.target, 0);
    assert_eq!(rt; epoch.members.place(2), Some(1));
    assert_eq!(rt; epoch.homes.place(2), Some(2));
    assert_eq!(rt; core.outcome(), None);
    assert!(rt; !core.has_dead_member());
    assert_eq!(rt; core.ranks(), 3);
    assert_eq!(rt; core.stage(1), Stage::Gone);
    assert_eq!(rt; core.stage(2), Stage::Leaving);
    assert!(rt;
        !happens(
            &rt,
            &mut core,
            Event::Recv { rank: 0, peer: 2 },
            Some((2, 1))
        )
    );
    assert!(rt; happens(&rt, &mut core, Event::Leave { rank: 0 }, Some((2, 1))));
    assert!(rt; !happens(&rt, &mut core, Event::Leave { rank: 0 }, Some((0, 0))));
    Ok(())
}

// All three ranks arrive with their rounds done, and leave.
fn everyone_does_the_rounds(rt: &impl Abort, core: &mut CoreState) {
    for rank in 0..3u32 {
        assert!(rt; happens(rt, core, arrive(rank, How::Done), None));
    }
    for rank in 0..3u32 {
        assert!(rt; happens(rt, core, Event::Leave { rank }, None));
    }
}

#[test]
fn snapshots_are_agreed_until_the_last_step(rt: HostRuntime) -> Result<(), Fail> {
    let mut core = open(rt.alloc(), &[])?;
    everyone_does_the_rounds(&rt, &mut core);
    let epoch = core.epoch();
    assert!(rt; !epoch.restored);
    assert_eq!(rt; epoch.number, 1);
    assert_eq!(rt; epoch.time, 1);
    assert_eq!(rt; epoch.target, 2);
    assert_eq!(rt; epoch.members.count(), 3);
    assert_eq!(rt; core.outcome(), None);
    assert!(rt; !core.finished());
    everyone_does_the_rounds(&rt, &mut core);
    assert_eq!(rt; core.outcome(), Some(Outcome::Finished));
    assert_eq!(rt; core.epoch().number, 1);
    assert!(rt; core.finished());
    Ok(())
}

#[test]
fn want_of_memory_ends_the_run(rt: HostRuntime) -> Result<(), Fail> {
    let mut core = open(rt.alloc(), &[(0, 0)])?;
    assert!(rt; happens(&rt, &mut core, arrive(2, How::Memory), Some((0, 0))));
    assert!(rt; core.is_short_of_memory());
    assert!(rt; happens(&rt, &mut core, arrive(1, How::Done), None));
    assert_eq!(rt; core.outcome(), None);
    assert!(rt; !happens(&rt, &mut core, arrive(0, How::Memory), Some((0, 0))));
    assert!(rt; happens(&rt, &mut core, Event::Die { rank: 0 }, Some((0, 0))));
    assert_eq!(rt; core.outcome(), Some(Outcome::Memory));
    assert!(rt; !core.is_short_of_memory());
    Ok(())
}
