//! What the ranks of small cases begin with: roots of which the first is full and the others are empty, each at a rank of its own.
ghost use Rattle.std.specs.Prelude.{◌≡◌, IfOk};
ghost use Rattle.bf_forest.specs.Setup.{case_of};

use crate::peers::peers_of;
use crate::{Forest, ForestLocal, Setup, Stage, laid, load};
use bf_block::{Memory, Opening};
use bf_buddy::Members;
use bf_case::{Case, Fill};
use bf_id::{Id, Shape};
use bf_items::Items;
use bf_links::Link;
use bf_program::{Epoch, RankProgram};
use std::alloc::Global;
use std::process::Abort;
use std::test::Fail;

const TWO: Shape = Shape {
    nx: 2,
    ny: 1,
    nz: 1,
};

const FOUR: Shape = Shape {
    nx: 2,
    ny: 2,
    nz: 1,
};

fn full_first(alloc: Global, roots: Shape, ranks: u32) -> Result<Case, Memory> {
    let full = Fill {
        low: [0, 0, 0],
        high: [1, 1, 1],
        value: 80,
    };
    Ok(Case {
        roots,
        side: 2,
        levels: 0,
        ranks,
        steps: 2,
        snapshot: 1,
        regrid: 0,
        refine: 0,
        coarsen: 0,
        flow: 0,
        turns: 0,
        shift: 0,
        fills: Items::of(vec![in alloc; full]?),
        dies: Items::of(vec![in alloc; (1, 17)]?),
        order: Items::of(Vec::new(alloc)),
    })
}

fn opened(
    rt: &impl Abort,
    alloc: Global,
    roots: Shape,
    ranks: u32,
) -> Result<(Opening, Setup), Memory>
    ensures { IfOk result (λ pair. pair.0 ≡ case_of pair.1) }
{
    let case = full_first(alloc, roots, ranks)?;
    assert!(rt; case.valid());
    assert!(rt; case.regrid == 0);
    let (opening, setup) = Opening::of(alloc, case)?;
    Ok((opening, Setup::of(setup)))
}

#[test]
fn a_setup_tells_what_the_ranks_do(rt: HostRuntime) -> Result<(), Fail> {
    let (_, setup) = opened(&rt, rt.alloc(), TWO, 2)?;
    assert_eq!(rt; Forest::ranks(&setup), 2);
    assert_eq!(rt; Forest::steps(&setup), 2);
    assert_eq!(rt; Forest::shift(&setup), 0);
    assert_eq!(rt; Forest::snapshot(&setup), 1);
    assert_eq!(rt; Forest::target(&setup, 1), 2);
    assert_eq!(rt; Forest::rounds(&setup, Epoch::first(2, 2, 1)), 2);
    assert_eq!(rt; Forest::dies(&setup), [(1, 17)].as_slice());
    assert_eq!(rt; laid(&setup).count(), 2);
    Ok(())
}

// A rank that has the root of its number, linked with that of another rank, and copies of both in the opening's snapshot.
fn expect_one_of_two(rt: &impl Abort, local: &ForestLocal, rank: u32, value: u32) {
    let other = 1u32.wrapping_sub(rank);
    assert_eq!(rt; local.blocks.len(), 1);
    for linked in local.blocks.as_slice() {
        assert_eq!(rt; linked.block.id(), Id::root_of(rank));
        assert_eq!(rt; linked.block.cells().values(), [value; 8].as_slice());
        let link = Link {
            id: Id::root_of(other),
            owner: other,
        };
        assert_eq!(rt; linked.links.as_slice(), [link].as_slice());
    }
    assert_eq!(rt; local.buffers.active().own.len(), 1);
    assert_eq!(rt; local.buffers.active().other.len(), 1);
    assert_eq!(rt; local.buffers.active().source, other);
    assert!(rt; !local.buffers.is_filled());
}

#[test]
fn two_ranks_begin_with_a_root_each(rt: HostRuntime) -> Result<(), Fail> {
    let (opening, setup) = opened(&rt, rt.alloc(), TWO, 2)?;
    let locals = load(rt.alloc(), opening, &setup)?;
    assert_eq!(rt; locals.len(), 2);
    for (local, (rank, value)) in locals.iter().zip([(0, 80), (1, 0)]) {
        expect_one_of_two(&rt, local, rank, value);
    }
    Ok(())
}

// Of four roots in a square each shares a face with two others and an edge with the third.
#[test]
fn a_peer_may_share_an_edge_alone(rt: HostRuntime) -> Result<(), Fail> {
    let (opening, setup) = opened(&rt, rt.alloc(), FOUR, 4)?;
    let locals = load(rt.alloc(), opening, &setup)?;
    assert_eq!(rt; locals.len(), 4);
    let members = Members::all(4);
    for local in locals.iter() {
        let peers = peers_of(Stage::Step { time: 0 }, members, 0, local);
        assert_eq!(rt; peers.count(), 3);
        assert!(rt; !peers.has(local.rank));
    }
    Ok(())
}
