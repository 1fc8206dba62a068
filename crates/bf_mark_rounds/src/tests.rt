//! Marks of two roots, of which the first is divided. What a rank tells and finds is worked out by hand.
ghost use Rattle.std.specs.Prelude.{◌≡◌, map, AllPairs, IfOk, IsTrue};
ghost use Rattle.bf_id.specs.Walk.{IsBefore};
ghost use Rattle.bf_links.specs.Links.{ComesBefore};
ghost use Rattle.bf_links.specs.declared.link.Link.{Link};

use crate::{end_last_force_round, end_merges_round, force_told, hear_all, is_peer, level_told};
use bf_id::{Id, Shape};
use bf_links::{Link, Links};
use bf_marks::{Flag, Marks, Memory, Wish};
use std::alloc::Global;
use std::process::Abort;
use std::test::Fail;

const TWO_ROOTS: Shape = Shape {
    nx: 2,
    ny: 1,
    nz: 1,
};

// What one rank has.
#[derive(Drop)]
struct Rank {
    marks: Marks,
    links: Vec<Links>,
}

// Whether ids rise.
fn are_rising(ids: &[Id]) -> bool
    ensures { IsTrue result → AllPairs IsBefore ids.now }
{
    for place in 1..ids.len() {
        let rises = ids[place - 1] < ids[place];
        if !rises {
            return false;
        }
    }
    true
}

fn ids_of(alloc: Global, leaves: &[Link]) -> Result<Vec<Id>, Memory>
    ensures { IfOk result (λ ids. ids.items ≡ map (λ (leaf : Link). leaf.id) leaves.now) }
{
    leaves.iter().map(|leaf| leaf.id).collect(alloc)
}

// Whether leaves stand in rising order.
fn do_leaves_rise(alloc: Global, leaves: &[Link]) -> Result<bool, Memory>
    ensures { IfOk result (λ rise. IsTrue rise → AllPairs ComesBefore leaves.now) }
{
    let ids = ids_of(alloc, leaves)?;
    Ok(are_rising(ids.as_slice()))
}

// The children of root 0, which rank 0 owns, and root 1, which rank 1 does.
fn leaves(alloc: Global) -> Result<Vec<Link>, Memory> {
    let mut leaves = Vec::new(alloc);
    for octant in 0..8 {
        leaves.push(Link {
            id: Id::root_of(0).child(octant),
            owner: 0,
        })?;
    }
    leaves.push(Link {
        id: Id::root_of(1),
        owner: 1,
    })?;
    Ok(leaves)
}

// The links of a leaf.
fn links_of(rt: &impl Abort, alloc: Global, leaves: &[Link], id: Id) -> Result<Links, Memory> {
    assert!(rt; id.root() < 2);
    let mut links = Vec::new(alloc);
    for leaf in leaves {
        assert!(rt; leaf.id.root() < 2);
        if id.touches(leaf.id, TWO_ROOTS) {
            links.push(*leaf)?;
        }
    }
    assert!(rt; links.len() <= 56);
    assert!(rt; do_leaves_rise(alloc, links.as_slice())?);
    Links::of(alloc, links.as_slice())
}

// A rank of which the first leaves wish to be refined and the others to be coarsened.
fn rank_of(rt: &impl Abort, alloc: Global, number: u32, refined: usize) -> Result<Rank, Memory> {
    let leaves = leaves(alloc)?;
    let mut ids = Vec::new(alloc);
    let mut wishes = Vec::new(alloc);
    let mut links = Vec::new(alloc);
    for leaf in &leaves {
        if leaf.owner == number {
            wishes.push(if ids.len() < refined {
                Wish::Refine
            } else {
                Wish::Coarsen
            })?;
            ids.push(leaf.id)?;
            links.push(links_of(rt, alloc, leaves.as_slice(), leaf.id)?)?;
        }
    }
    assert!(rt; are_rising(ids.as_slice()));
    assert!(rt; wishes.len() == ids.len());
    let marks = Marks::start(alloc, ids.as_slice(), wishes.as_slice())?;
    assert!(rt; links.len() == marks.leaves().len());
    Ok(Rank { marks, links })
}

// Expects of a rank that it tells these of its leaves of a level.
fn expect_level_told(
    rt: &impl Abort,
    alloc: Global,
    rank: &Rank,
    flag: Flag,
    level: u32,
    texts: &[&str],
) -> Result<(), Memory> {
    let told = level_told(alloc, &rank.marks, flag, level)?;
    assert_eq!(rt; told.len(), texts.len());
    for (id, text) in told.as_slice().iter().zip(texts.iter()) {
        assert_eq!(rt; *id, Id::parse(text).expect(rt, "an id"));
    }
    Ok(())
}

// Of the children 0.1, 0.3, 0.5 and 0.7 touch root 1, and only 0.0 and 0.1 are refined.
#[test]
fn refined_leaves_are_told_to_their_neighbours(rt: HostRuntime) -> Result<(), Fail> {
    let first = rank_of(&rt, rt.alloc(), 0, 2)?;
    let mut second = rank_of(&rt, rt.alloc(), 1, 0)?;
    assert!(rt; is_peer(0, first.links.as_slice(), 1));
    assert!(rt; !is_peer(0, first.links.as_slice(), 0));
    assert!(rt; !is_peer(0, first.links.as_slice(), 2));
    expect_level_told(
        &rt,
        rt.alloc(),
        &first,
        Flag::Refined,
        1,
        ["0.0", "0.1"].as_slice(),
    )?;
    expect_level_told(&rt, rt.alloc(), &first, Flag::Refined, 0, [].as_slice())?;
    assert!(rt; first.links.len() == first.marks.leaves().len());
    let told = force_told(rt.alloc(), &first.marks, first.links.as_slice(), 1)?;
    assert_eq!(rt; told.as_slice(), [Id::root_of(0).child(1)].as_slice());
    hear_all(&mut second.marks, Flag::Refined, told.as_slice())?;
    assert!(rt; second.links.len() == second.marks.leaves().len());
    end_last_force_round(&mut second.marks, second.links.as_slice(), 1);
    expect_level_told(&rt, rt.alloc(), &second, Flag::Refined, 0, ["1"].as_slice())?;
    Ok(())
}

// All wish to be coarsened, the roots too, which don't merge.
#[test]
fn rounds_end_with_the_question_who_may_merge(rt: HostRuntime) -> Result<(), Fail> {
    let children = ["0.0", "0.1", "0.2", "0.3", "0.4", "0.5", "0.6", "0.7"];
    let mut first = rank_of(&rt, rt.alloc(), 0, 0)?;
    assert!(rt; first.links.len() == first.marks.leaves().len());
    end_merges_round(&mut first.marks, first.links.as_slice(), 1);
    expect_level_told(&rt, rt.alloc(), &first, Flag::May, 1, children.as_slice())?;
    let mut second = rank_of(&rt, rt.alloc(), 1, 0)?;
    assert!(rt; second.links.len() == second.marks.leaves().len());
    end_merges_round(&mut second.marks, second.links.as_slice(), 0);
    expect_level_told(&rt, rt.alloc(), &second, Flag::May, 0, [].as_slice())?;
    Ok(())
}
