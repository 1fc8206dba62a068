//! What three ranks with four beads begin with, a step of theirs, and who talks to whom.
ghost use Rattle.std.specs.Prelude.{◌≡◌};

use crate::calls::{end, hear, send};
use crate::peers::peers_of;
use crate::stage::stage_of;
use crate::{Bead, BeadLocal, BeadMessage, BeadSetup, Beads, Items, Stage, opened};
use bf_buddy::Members;
use bf_program::{Epoch, Measure, Memory, RankProgram};
use std::alloc::Global;
use std::process::Abort;
use std::test::Fail;

// Three ranks with the beads 0 and 3, 1, and 2; buddies stand one place on.
fn setup() -> BeadSetup
    ensures { result.ranks ≡ 3 }
{
    BeadSetup::new(3, 4, 2, 1, 0, &[(1, 9)])
}

#[derive(Drop)]
struct Three {
    a: BeadLocal,
    b: BeadLocal,
    c: BeadLocal,
}

fn opened_three(alloc: Global) -> Result<Three, Memory> {
    let setup = setup();
    Ok(Three {
        a: opened(alloc, &setup, 0)?,
        b: opened(alloc, &setup, 1)?,
        c: opened(alloc, &setup, 2)?,
    })
}

fn opened_first(alloc: Global) -> Result<BeadLocal, Memory> {
    let setup = setup();
    opened(alloc, &setup, 0)
}

// The first of five ranks with a bead each.
fn first_of_five(alloc: Global) -> Result<BeadLocal, Memory> {
    let five = BeadSetup::new(5, 5, 2, 1, 0, &[]);
    opened(alloc, &five, 0)
}

fn epoch() -> Epoch {
    Epoch::first(3, 2, 1)
}

// One message goes from a rank to another.
fn pass(
    alloc: Global,
    stage: Stage,
    from: &mut BeadLocal,
    to: &mut BeadLocal,
) -> Result<(), Memory> {
    let msg = send(alloc, stage, epoch(), 0, from, to.rank)?;
    hear(alloc, stage, epoch(), 0, to, from.rank, msg)
}

fn number_at(beads: &Items<Bead>, place: usize) -> Option<u32> {
    beads.as_slice().get(place).map(|bead| bead.number)
}

fn value_at(beads: &Items<Bead>, place: usize) -> Option<u32> {
    beads.as_slice().get(place).map(|bead| bead.value)
}

// The owner in a link of a bead.
fn owner_at(beads: &Items<Bead>, place: usize, link: usize) -> Option<u32> {
    let bead = beads.as_slice().get(place)?;
    bead.links.as_slice().get(link).map(|link| link.owner)
}

fn expect_none(rt: &impl Abort, beads: &Items<Bead>) {
    assert_eq!(rt; beads.len(), 0);
}

fn expect_one(rt: &impl Abort, beads: &Items<Bead>, number: u32) {
    assert_eq!(rt; beads.len(), 1);
    assert_eq!(rt; number_at(beads, 0), Some(number));
}

fn expect_two(rt: &impl Abort, beads: &Items<Bead>, first: u32, second: u32) {
    assert_eq!(rt; beads.len(), 2);
    assert_eq!(rt; number_at(beads, 0), Some(first));
    assert_eq!(rt; number_at(beads, 1), Some(second));
}

fn expect_values(rt: &impl Abort, beads: &Items<Bead>, first: u32, second: u32) {
    assert_eq!(rt; value_at(beads, 0), Some(first));
    assert_eq!(rt; value_at(beads, 1), Some(second));
}

fn expect_owners(rt: &impl Abort, beads: &Items<Bead>, first: u32, second: u32) {
    assert_eq!(rt; owner_at(beads, 0, 0), Some(first));
    assert_eq!(rt; owner_at(beads, 1, 0), Some(second));
}

#[test]
#[tactic(none)]
fn the_first_rank_begins_with_two_beads_and_a_copy(rt: HostRuntime) -> Result<(), Fail> {
    let local = opened_first(rt.alloc())?;
    expect_two(&rt, &local.beads, 0, 3);
    expect_values(&rt, &local.beads, 1, 4);
    expect_owners(&rt, &local.beads, 1, 2);
    expect_two(&rt, &local.active.own, 0, 3);
    expect_one(&rt, &local.active.other, 2);
    Ok(())
}

// The three after the moves of the step from time 0, before the links follow.
#[tactic(none)]
fn moved_three(alloc: Global) -> Result<Three, Memory> {
    let Three {
        mut a,
        mut b,
        mut c,
    } = opened_three(alloc)?;
    pass(alloc, Stage::Move(0), &mut a, &mut b)?;
    pass(alloc, Stage::Move(0), &mut c, &mut a)?;
    Ok(Three { a, b, c })
}

// And at the end of the round.
#[tactic(none)]
fn relinked_three(alloc: Global) -> Result<Three, Memory> {
    let Three { mut a, mut b, c } = moved_three(alloc)?;
    end(alloc, Stage::Move(0), epoch(), 0, &mut a)?;
    end(alloc, Stage::Move(0), epoch(), 0, &mut b)?;
    Ok(Three { a, b, c })
}

// Bead 0 goes from the first rank to the second, and bead 2 from the third to the first. Bead 0's neighbour, bead 1, stays
// with the second rank; bead 2's neighbours stay too.
#[test]
#[tactic(none)]
fn beads_go_to_the_next_member_and_links_follow(rt: HostRuntime) -> Result<(), Fail> {
    let three = relinked_three(rt.alloc())?;
    expect_two(&rt, &three.a.beads, 2, 3);
    expect_owners(&rt, &three.a.beads, 1, 0);
    expect_two(&rt, &three.b.beads, 0, 1);
    expect_owners(&rt, &three.b.beads, 1, 1);
    expect_none(&rt, &three.c.beads);
    Ok(())
}

// The three when the first has heard the second in the step from time 7.
#[tactic(none)]
fn told_three(alloc: Global) -> Result<Three, Memory> {
    let Three { mut a, mut b, c } = opened_three(alloc)?;
    pass(alloc, Stage::Tell(7), &mut b, &mut a)?;
    Ok(Three { a, b, c })
}

#[test]
#[tactic(none)]
fn a_neighbour_tells_of_beads_that_stay(rt: HostRuntime) -> Result<(), Fail> {
    let three = told_three(rt.alloc())?;
    expect_one(&rt, &three.a.heard, 1);
    expect_one(&rt, &three.b.beads, 1);
    Ok(())
}

// In the step from time 7 a bead grows by its number and 7.
#[test]
#[tactic(none)]
fn what_a_neighbour_tells_is_let_go_when_beads_grow(rt: HostRuntime) -> Result<(), Fail> {
    let mut three = told_three(rt.alloc())?;
    end(rt.alloc(), Stage::Grow(7), epoch(), 0, &mut three.a)?;
    expect_none(&rt, &three.a.heard);
    expect_values(&rt, &three.a.beads, 8, 14);
    Ok(())
}

fn expect_peers(rt: &impl Abort, stage: Stage, local: &BeadLocal, count: u32, last: Option<u32>) {
    let peers = peers_of(stage, Members::all(5), 0, local);
    assert_eq!(rt; peers.count(), count);
    assert_eq!(rt; peers.at(count.saturating_sub(1)), last);
}

#[test]
#[tactic(none)]
fn who_has_linked_beads_is_told(rt: HostRuntime) -> Result<(), Fail> {
    let first = first_of_five(rt.alloc())?;
    expect_peers(&rt, Stage::Tell(0), &first, 1, Some(1));
    expect_peers(&rt, Stage::Grow(0), &first, 0, None);
    expect_peers(&rt, Stage::Move(0), &first, 4, Some(4));
    expect_peers(&rt, Stage::Snapshot, &first, 2, Some(4));
    Ok(())
}

fn expect_measure(rt: &impl Abort, msg: &BeadMessage, blocks: u32, sum: u64) {
    assert_eq!(rt; Beads::measure(msg), Measure { blocks, sum });
}

#[test]
#[tactic(none)]
fn a_message_weighs_its_beads(rt: HostRuntime) -> Result<(), Fail> {
    let mut local = opened_first(rt.alloc())?;
    let msg = send(rt.alloc(), Stage::Snapshot, epoch(), 0, &mut local, 1)?;
    expect_measure(&rt, &msg, 2, 5);
    let none = send(rt.alloc(), Stage::Snapshot, epoch(), 0, &mut local, 2)?;
    expect_measure(&rt, &none, 0, 0);
    Ok(())
}

#[test]
fn an_epoch_of_one_step_has_four_rounds(rt: HostRuntime) -> Result<(), Fail> {
    assert_eq!(rt; Beads::rounds(&setup(), epoch()), 4);
    assert!(rt; matches!(stage_of(&epoch(), 2), Stage::Move(0)));
    assert!(rt; matches!(stage_of(&epoch(), 3), Stage::Snapshot));
    Ok(())
}
