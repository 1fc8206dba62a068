//! Runs of three and of four ranks with four beads, with deaths and in various orders.
//!
//! Bead k begins at rank k mod 3, or at rank k of four, with the value k + 1. From time 0 to 1 each grows by its number, and from 1 to 2 by its number
//! and one: to 3k + 2 in all, which is 2, 5, 8 and 11. Beads 0 and 2 go to the next member in the first step, 1 and 3 in the second.
ghost use Rattle.std.specs.Prelude.{◌≡◌};

use crate::run;
use bf_beads::{Bead, BeadSetup, Beads, Items};
use bf_core::Outcome;
use bf_world::World;
use std::process::Abort;
use std::test::Fail;

// Three ranks with four beads and two steps; buddies stand one place on, and each step ends with a snapshot.
fn three() -> BeadSetup
    ensures { result.ranks ≡ 3 }
{
    BeadSetup::new(3, 4, 2, 1, 0, &[])
}

// The same ranks, of which the second dies after so many events.
fn without_second(events: u32) -> BeadSetup
    ensures { result.ranks ≡ 3 }
{
    BeadSetup::new(3, 4, 2, 1, 0, &[(1, events)])
}

// The same ranks, of which the first two die before they do anything.
fn without_two() -> BeadSetup
    ensures { result.ranks ≡ 3 }
{
    BeadSetup::new(3, 4, 2, 1, 0, &[(0, 0), (1, 0)])
}

// Whether a bead is among others with its value.
fn has(beads: &Items<Bead>, number: u32, value: u32) -> bool {
    for bead in beads.as_slice() {
        if bead.number == number && bead.value == value {
            return true;
        }
    }
    false
}

// Whether a rank gives a bead with its value.
fn is_given(parcels: &[(u32, Items<Bead>)], rank: u32, number: u32, value: u32) -> bool {
    parcels
        .iter()
        .any(|parcel| parcel.0 == rank && has(&parcel.1, number, value))
}

// Whether a bead has a link to another, of this owner.
fn is_linked(bead: &Bead, other: u32, owner: u32) -> bool {
    for link in bead.links.as_slice() {
        if link.number == other && link.owner == owner {
            return true;
        }
    }
    false
}

fn has_link(beads: &Items<Bead>, number: u32, other: u32, owner: u32) -> bool {
    for bead in beads.as_slice() {
        if bead.number == number && is_linked(bead, other, owner) {
            return true;
        }
    }
    false
}

// Whether a rank gives a bead that is linked with another of an owner.
fn links(parcels: &[(u32, Items<Bead>)], number: u32, other: u32, owner: u32) -> bool {
    parcels
        .iter()
        .any(|parcel| has_link(&parcel.1, number, other, owner))
}

fn count(parcels: &[(u32, Items<Bead>)]) -> usize {
    let mut count = 0usize;
    for parcel in parcels {
        count = count.wrapping_add(parcel.1.len());
    }
    count
}

// A run after so many restores, in which so many ranks give four beads.
fn expect_finished(rt: &impl Abort, world: &World<Beads>, parcels: usize, restores: u32) {
    assert_eq!(rt; world.outcome(), Some(Outcome::Finished));
    assert!(rt; world.finished());
    assert_eq!(rt; world.restores(), restores);
    assert_eq!(rt; world.parcels().len(), parcels);
    assert_eq!(rt; count(world.parcels()), 4);
}

// The second rank begins with bead 1, gets bead 0 in the first step, and in the second gives bead 1 for bead 3.
fn expect_all_alive(rt: &impl Abort, world: &World<Beads>) {
    expect_finished(rt, world, 3, 0);
    assert!(rt; is_given(world.parcels(), 1, 0, 2));
    assert!(rt; is_given(world.parcels(), 2, 1, 5));
    assert!(rt; is_given(world.parcels(), 0, 2, 8));
    assert!(rt; is_given(world.parcels(), 1, 3, 11));
    expect_links(rt, world, 1, 2, 0, 1);
}

// The links of all beads, by the owners of these.
fn expect_links(rt: &impl Abort, world: &World<Beads>, zero: u32, one: u32, two: u32, three: u32) {
    assert!(rt; links(world.parcels(), 0, 1, one));
    assert!(rt; links(world.parcels(), 1, 0, zero));
    assert!(rt; links(world.parcels(), 1, 2, two));
    assert!(rt; links(world.parcels(), 2, 1, one));
    assert!(rt; links(world.parcels(), 2, 3, three));
    assert!(rt; links(world.parcels(), 3, 2, two));
}

// Without the second rank the third has its beads. Of the two that go on each gives two beads away and gets two.
fn expect_two_alive(rt: &impl Abort, world: &World<Beads>) {
    expect_finished(rt, world, 2, 1);
    assert!(rt; is_given(world.parcels(), 2, 0, 2));
    assert!(rt; is_given(world.parcels(), 0, 1, 5));
    assert!(rt; is_given(world.parcels(), 0, 2, 8));
    assert!(rt; is_given(world.parcels(), 2, 3, 11));
    expect_links(rt, world, 2, 0, 0, 2);
}

#[test]
fn passes_alone_finish_a_run(rt: HostRuntime) -> Result<(), Fail> {
    let world = run(rt.alloc(), three(), &[])?;
    expect_all_alive(&rt, &world);
    Ok(())
}

#[test]
fn a_rising_order_finishes_alike(rt: HostRuntime) -> Result<(), Fail> {
    let order = [0, 1, 2, 0, 1, 2, 0, 1, 2, 0, 1, 2, 0, 1, 2];
    let world = run(rt.alloc(), three(), &order)?;
    expect_all_alive(&rt, &world);
    Ok(())
}

#[test]
fn a_falling_order_finishes_alike(rt: HostRuntime) -> Result<(), Fail> {
    let order = [2, 1, 0, 2, 1, 0, 2, 1, 0, 2, 1, 0, 2, 1, 0];
    let world = run(rt.alloc(), three(), &order)?;
    expect_all_alive(&rt, &world);
    Ok(())
}

#[test]
fn one_rank_ahead_finishes_alike(rt: HostRuntime) -> Result<(), Fail> {
    let world = run(rt.alloc(), three(), &[1, 1, 1, 1])?;
    expect_all_alive(&rt, &world);
    Ok(())
}

#[test]
fn a_death_at_the_opening_changes_no_values(rt: HostRuntime) -> Result<(), Fail> {
    let world = run(rt.alloc(), without_second(0), &[])?;
    expect_two_alive(&rt, &world);
    let falling = run(rt.alloc(), without_second(0), &[2, 1, 0, 2, 1, 0])?;
    expect_two_alive(&rt, &falling);
    Ok(())
}

// The second rank has four events in which neighbours tell each other, and then has sent one bead or none.
#[test]
fn a_death_among_moves_changes_no_values(rt: HostRuntime) -> Result<(), Fail> {
    let world = run(rt.alloc(), without_second(5), &[])?;
    expect_two_alive(&rt, &world);
    let falling = run(rt.alloc(), without_second(5), &[2, 1, 0, 2, 1, 0])?;
    expect_two_alive(&rt, &falling);
    Ok(())
}

// The second rank has fourteen events in an epoch: twelve sends and receives, its arrival and its leaving.
#[test]
fn a_death_after_a_commit_changes_no_values(rt: HostRuntime) -> Result<(), Fail> {
    let world = run(rt.alloc(), without_second(14), &[])?;
    expect_two_alive(&rt, &world);
    let falling = run(rt.alloc(), without_second(14), &[2, 1, 0, 2, 1, 0])?;
    expect_two_alive(&rt, &falling);
    Ok(())
}

#[test]
fn deaths_of_both_holders_lose_a_part(rt: HostRuntime) -> Result<(), Fail> {
    let world = run(rt.alloc(), without_two(), &[])?;
    let lost = Outcome::Lost {
        time: 0,
        home: 0,
        buddy: 1,
    };
    assert_eq!(rt; world.outcome(), Some(lost));
    assert!(rt; world.finished());
    assert_eq!(rt; world.parcels().len(), 0);
    assert_eq!(rt; world.restores(), 0);
    Ok(())
}

// Four ranks with a bead each, of which the second dies before it does anything, and the last after so many events.
fn four(last: u32) -> BeadSetup
    ensures { result.ranks ≡ 4 }
{
    BeadSetup::new(4, 4, 2, 1, 0, &[(1, 0), (3, last)])
}

// The third rank goes on with beads 1 and 2, and the first, as the last rank's buddy, with 0 and 3. In the first step they
// change 0 for 2, and in the second 1 for 3.
fn expect_two_restores(rt: &impl Abort, world: &World<Beads>) {
    expect_finished(rt, world, 2, 2);
    assert!(rt; is_given(world.parcels(), 2, 0, 2));
    assert!(rt; is_given(world.parcels(), 0, 1, 5));
    assert!(rt; is_given(world.parcels(), 0, 2, 8));
    assert!(rt; is_given(world.parcels(), 2, 3, 11));
    expect_links(rt, world, 2, 0, 0, 2);
}

// In passes the last rank has seven events before the copies are made again: it sends to its neighbour and hears it, sends
// to the three others, arrives and leaves. With one send more it dies before the others agree on the new copies.
#[test]
fn a_death_while_copies_are_made_again_changes_no_values(rt: HostRuntime) -> Result<(), Fail> {
    let world = run(rt.alloc(), four(8), &[])?;
    expect_two_restores(&rt, &world);
    Ok(())
}

// After those seven it makes the copies again in two sends and two receives, arrives and leaves. Now it has given its
// bead to the first rank anew.
#[test]
fn a_death_after_copies_are_made_again_changes_no_values(rt: HostRuntime) -> Result<(), Fail> {
    let world = run(rt.alloc(), four(13), &[])?;
    expect_two_restores(&rt, &world);
    Ok(())
}

// The most ranks and steps, with a bead a rank and a snapshot after each 16 steps.
fn most() -> BeadSetup
    ensures { result.ranks ≡ 32 }
{
    BeadSetup::new(32, 32, 128, 16, 0, &[])
}

// In each step every rank sends to each of the 31 others and receives from it, where beads move: 128 * 32 * 31 * 2 = 253,952
// events beside those of neighbours. Bead k grows by 128 k and by 0 + 1 + .. + 127 = 8,128. It moves 64 times, so it comes
// home after two rounds through all ranks.
#[test]
fn the_most_ranks_take_the_most_steps(rt: HostRuntime) -> Result<(), Fail> {
    let world = run(rt.alloc(), most(), &[])?;
    assert_eq!(rt; world.outcome(), Some(Outcome::Finished));
    assert!(rt; world.journal().len() > 253_952);
    assert_eq!(rt; world.parcels().len(), 32);
    for rank in 0..32u32 {
        let value = rank.wrapping_mul(129).wrapping_add(8_129);
        assert!(rt; is_given(world.parcels(), rank, rank, value));
    }
    Ok(())
}

// Five worlds of the most ranks and steps, each with other buddies: 5 * 253,952 events are 1,269,760. The buddies change
// no value.
#[test]
fn five_worlds_have_more_than_a_million_events(rt: HostRuntime) -> Result<(), Fail> {
    let mut events = 0usize;
    for shift in 0..5u32 {
        let setup = BeadSetup::new(32, 32, 128, 16, shift, &[]);
        let world = run(rt.alloc(), setup, &[])?;
        assert_eq!(rt; world.outcome(), Some(Outcome::Finished));
        assert!(rt; is_given(world.parcels(), 31, 31, 12_128));
        events = events.wrapping_add(world.journal().len());
    }
    assert!(rt; events > 1_269_760);
    Ok(())
}
