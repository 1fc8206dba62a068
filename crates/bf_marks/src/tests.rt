//! Marks of small maps, with one owner and with several that tell each other. The targets are worked out by hand.
ghost use Rattle.std.specs.Prelude.{AllPairs, IsTrue};
ghost use Rattle.bf_id.specs.Shape.{IsShape};
ghost use Rattle.bf_id.specs.Walk.{IsBefore};

use crate::Target::{Keep, Merge, Refine};
use crate::{Flag, HasLinks, Marks, Memory, Target, Wish, wish};
use bf_block::laws::a_block_that_spreads_is_refined;
use bf_block::{Block, Opening};
use bf_case::{Case, Fill, Items};
use bf_id::{Id, Shape};
use bf_links::{Link, Links};
use std::alloc::Global;
use std::process::Abort;
use std::test::Fail;

const TWO_ROOTS: Shape = Shape {
    nx: 2,
    ny: 1,
    nz: 1,
};

const CUBE: Shape = Shape {
    nx: 2,
    ny: 2,
    nz: 2,
};

// A leaf of a map, what it wishes, and what must become of it.
type Row = (&'static str, Wish, Target);

// The same, with the rank that owns it.
#[derive(Clone, Copy)]
struct Leaf {
    id: Id,
    owner: u32,
    wish: Wish,
    target: Target,
}

// The leaves of one owner that touch a leaf, and of the others.
#[derive(Drop)]
struct Near {
    links: Vec<Link>,
}

impl HasLinks for Near {
    ghost linked = { λ near. near.links.items };

    fn links(&self) -> &[Link] {
        self.links.as_slice()
    }
}

// What one rank has.
#[derive(Drop)]
struct Rank {
    number: u32,
    marks: Marks,
    near: Vec<Near>,
}

// Whether ids rise.
fn are_rising(ids: &[Id]) -> bool
    ensures { IsTrue result → AllPairs IsBefore ids.now }
{
    for place in 1..ids.len() {
        let rises = ids[place - 1] < ids[place];
        if !rises {
            return false;
        }
    }
    true
}

// The leaves of a map, dealt to so many ranks in turn.
fn dealt(rt: &impl Abort, alloc: Global, rows: &[Row], ranks: u32) -> Result<Vec<Leaf>, Memory> {
    assert!(rt; 0 < ranks && ranks < 100);
    let mut leaves = Vec::with_capacity(alloc, rows.len())?;
    let mut owner = 0u32;
    for row in rows {
        owner = (owner % ranks + 1) % ranks;
        leaves.push(Leaf {
            id: Id::parse(row.0).expect(rt, "an id"),
            owner,
            wish: row.1,
            target: row.2,
        })?;
    }
    Ok(leaves)
}

// The links of a leaf.
fn near_of(
    rt: &impl Abort,
    alloc: Global,
    leaves: &[Leaf],
    id: Id,
    shape: Shape,
) -> Result<Near, Memory>
    requires { IsShape shape }
{
    let roots = shape.nx * (shape.ny * shape.nz);
    assert!(rt; id.root() < roots);
    let mut links = Vec::new(alloc);
    for leaf in leaves {
        assert!(rt; leaf.id.root() < roots);
        if id.touches(leaf.id, shape) {
            links.push(Link {
                id: leaf.id,
                owner: leaf.owner,
            })?;
        }
    }
    Ok(Near { links })
}

// A rank with its leaves.
fn rank_of(
    rt: &impl Abort,
    alloc: Global,
    leaves: &[Leaf],
    number: u32,
    shape: Shape,
) -> Result<Rank, Memory>
    requires { IsShape shape }
{
    let mut ids = Vec::new(alloc);
    let mut wishes = Vec::new(alloc);
    let mut links = Vec::new(alloc);
    for leaf in leaves {
        if leaf.owner == number {
            ids.push(leaf.id)?;
            wishes.push(leaf.wish)?;
            links.push(near_of(rt, alloc, leaves, leaf.id, shape)?)?;
        }
    }
    assert!(rt; are_rising(ids.as_slice()));
    assert!(rt; wishes.len() == ids.len());
    Ok(Rank {
        number,
        marks: Marks::start(alloc, ids.as_slice(), wishes.as_slice())?,
        near: links,
    })
}

fn ranks_of(
    rt: &impl Abort,
    alloc: Global,
    leaves: &[Leaf],
    count: u32,
    shape: Shape,
) -> Result<Vec<Rank>, Memory>
    requires { IsShape shape }
{
    let mut ranks = Vec::new(alloc);
    for number in 0..count {
        ranks.push(rank_of(rt, alloc, leaves, number, shape)?)?;
    }
    Ok(ranks)
}

// Which leaves have a flag, each with its owner.
fn told(alloc: Global, ranks: &[Rank], flag: Flag) -> Result<Vec<Link>, Memory> {
    let mut told = Vec::new(alloc);
    for rank in ranks {
        for id in rank.marks.own_with(alloc, flag)?.as_slice() {
            told.push(Link {
                id: *id,
                owner: rank.number,
            })?;
        }
    }
    Ok(told)
}

// A rank hears of the leaves of others.
fn hear(rank: &mut Rank, told: &[Link], flag: Flag) -> Result<(), Memory> {
    for leaf in told {
        if leaf.owner != rank.number {
            rank.marks.hear(leaf.id, flag)?;
        }
    }
    Ok(())
}

// Each rank tells the others which leaves have a flag.
fn tell_all(alloc: Global, ranks: &mut [Rank], flag: Flag) -> Result<(), Memory> {
    let told = told(alloc, ranks, flag)?;
    for rank in ranks.iter_mut() {
        hear(rank, told.as_slice(), flag)?;
    }
    Ok(())
}

// A force round of all ranks.
fn force(rt: &impl Abort, alloc: Global, ranks: &mut [Rank]) -> Result<(), Memory> {
    tell_all(alloc, ranks, Flag::Refined)?;
    for rank in ranks.iter_mut() {
        assert!(rt; rank.near.len() == rank.marks.leaves().len());
        rank.marks.force_round(rank.near.as_slice());
    }
    Ok(())
}

// The two rounds of a level, of all ranks.
fn merge(rt: &impl Abort, alloc: Global, ranks: &mut [Rank], level: u32) -> Result<(), Memory> {
    for rank in ranks.iter_mut() {
        assert!(rt; rank.near.len() == rank.marks.leaves().len());
        rank.marks.may_round(rank.near.as_slice(), level);
    }
    tell_all(alloc, ranks, Flag::May)?;
    for rank in ranks.iter_mut() {
        rank.marks.merge_round(level);
    }
    tell_all(alloc, ranks, Flag::Merges)
}

// A rank knows what becomes of its own leaves, and of those that are linked with one of them.
fn expect_target(rt: &impl Abort, rank: &Rank, leaf: &Leaf) {
    let is_linked = rank
        .near
        .iter()
        .any(|near| near.links.iter().any(|link| link.id == leaf.id));
    if leaf.owner == rank.number || is_linked {
        assert_eq!(rt; rank.marks.target(leaf.id), leaf.target);
    }
}

// Plays all rounds with so many ranks.
fn expect_targets(
    rt: &impl Abort,
    alloc: Global,
    shape: Shape,
    levels: u32,
    rows: &[Row],
    count: u32,
) -> Result<(), Memory>
    requires { IsShape shape }
{
    assert!(rt; levels <= 4);
    let leaves = dealt(rt, alloc, rows, count)?;
    let mut ranks = ranks_of(rt, alloc, leaves.as_slice(), count, shape)?;
    for _ in 0..levels {
        force(rt, alloc, ranks.as_mut_slice())?;
    }
    for finer in 0..levels {
        merge(rt, alloc, ranks.as_mut_slice(), levels - finer)?;
    }
    for rank in &ranks {
        for leaf in &leaves {
            expect_target(rt, rank, leaf);
        }
    }
    Ok(())
}

// With one owner, with two that own every other leaf, and with eight.
fn expect_map(
    rt: &impl Abort,
    alloc: Global,
    shape: Shape,
    levels: u32,
    rows: &[Row],
) -> Result<(), Memory>
    requires { IsShape shape }
{
    for count in [1, 2, 8] {
        expect_targets(rt, alloc, shape, levels, rows, count)?;
    }
    Ok(())
}

#[test]
fn a_leaf_that_wishes_it_is_refined(rt: HostRuntime) -> Result<(), Fail> {
    let rows = [("0", Wish::Refine, Refine), ("1", Wish::Stay, Keep)];
    expect_map(&rt, rt.alloc(), TWO_ROOTS, 1, rows.as_slice())?;
    Ok(())
}

#[test]
fn eight_siblings_merge(rt: HostRuntime) -> Result<(), Fail> {
    let rows = [
        ("0.0", Wish::Coarsen, Merge),
        ("0.1", Wish::Coarsen, Merge),
        ("0.2", Wish::Coarsen, Merge),
        ("0.3", Wish::Coarsen, Merge),
        ("0.4", Wish::Coarsen, Merge),
        ("0.5", Wish::Coarsen, Merge),
        ("0.6", Wish::Coarsen, Merge),
        ("0.7", Wish::Coarsen, Merge),
        ("1", Wish::Stay, Keep),
    ];
    expect_map(&rt, rt.alloc(), TWO_ROOTS, 1, rows.as_slice())?;
    Ok(())
}

#[test]
fn seven_siblings_stay(rt: HostRuntime) -> Result<(), Fail> {
    let rows = [
        ("0.0", Wish::Stay, Keep),
        ("0.1", Wish::Coarsen, Keep),
        ("0.2", Wish::Coarsen, Keep),
        ("0.3", Wish::Coarsen, Keep),
        ("0.4", Wish::Coarsen, Keep),
        ("0.5", Wish::Coarsen, Keep),
        ("0.6", Wish::Coarsen, Keep),
        ("0.7", Wish::Coarsen, Keep),
        ("1", Wish::Stay, Keep),
    ];
    expect_map(&rt, rt.alloc(), TWO_ROOTS, 1, rows.as_slice())?;
    Ok(())
}

// Roots 1 to 7 don't wish it. The last touches 0.7 at a corner.
#[test]
fn a_corner_forces_refinement(rt: HostRuntime) -> Result<(), Fail> {
    let rows = [
        ("0.0", Wish::Coarsen, Keep),
        ("0.1", Wish::Refine, Refine),
        ("0.2", Wish::Coarsen, Keep),
        ("0.3", Wish::Refine, Refine),
        ("0.4", Wish::Coarsen, Keep),
        ("0.5", Wish::Refine, Refine),
        ("0.6", Wish::Stay, Keep),
        ("0.7", Wish::Refine, Refine),
        ("1", Wish::Stay, Refine),
        ("2", Wish::Stay, Refine),
        ("3", Wish::Stay, Refine),
        ("4", Wish::Stay, Refine),
        ("5", Wish::Stay, Refine),
        ("6", Wish::Stay, Refine),
        ("7", Wish::Stay, Refine),
    ];
    expect_map(&rt, rt.alloc(), CUBE, 2, rows.as_slice())?;
    Ok(())
}

// The octet of 1.0 merges, and so the one of root 0, which it touches. Since 1.0 is no leaf, its siblings stay.
#[test]
fn octets_of_two_levels_merge_at_once(rt: HostRuntime) -> Result<(), Fail> {
    let rows = [
        ("0.0", Wish::Coarsen, Merge),
        ("0.1", Wish::Coarsen, Merge),
        ("0.2", Wish::Coarsen, Merge),
        ("0.3", Wish::Coarsen, Merge),
        ("0.4", Wish::Coarsen, Merge),
        ("0.5", Wish::Coarsen, Merge),
        ("0.6", Wish::Coarsen, Merge),
        ("0.7", Wish::Coarsen, Merge),
        ("1.00", Wish::Coarsen, Merge),
        ("1.01", Wish::Coarsen, Merge),
        ("1.02", Wish::Coarsen, Merge),
        ("1.03", Wish::Coarsen, Merge),
        ("1.04", Wish::Coarsen, Merge),
        ("1.05", Wish::Coarsen, Merge),
        ("1.06", Wish::Coarsen, Merge),
        ("1.07", Wish::Coarsen, Merge),
        ("1.1", Wish::Coarsen, Keep),
        ("1.2", Wish::Coarsen, Keep),
        ("1.3", Wish::Coarsen, Keep),
        ("1.4", Wish::Coarsen, Keep),
        ("1.5", Wish::Coarsen, Keep),
        ("1.6", Wish::Coarsen, Keep),
        ("1.7", Wish::Coarsen, Keep),
    ];
    expect_map(&rt, rt.alloc(), TWO_ROOTS, 2, rows.as_slice())?;
    Ok(())
}

// One leaf of the finest octet doesn't wish it, so neither that octet merges nor the one that touches it.
#[test]
fn an_octet_waits_for_finer_leaves(rt: HostRuntime) -> Result<(), Fail> {
    let rows = [
        ("0.0", Wish::Coarsen, Keep),
        ("0.1", Wish::Coarsen, Keep),
        ("0.2", Wish::Coarsen, Keep),
        ("0.3", Wish::Coarsen, Keep),
        ("0.4", Wish::Coarsen, Keep),
        ("0.5", Wish::Coarsen, Keep),
        ("0.6", Wish::Coarsen, Keep),
        ("0.7", Wish::Coarsen, Keep),
        ("1.00", Wish::Coarsen, Keep),
        ("1.01", Wish::Coarsen, Keep),
        ("1.02", Wish::Coarsen, Keep),
        ("1.03", Wish::Coarsen, Keep),
        ("1.04", Wish::Coarsen, Keep),
        ("1.05", Wish::Coarsen, Keep),
        ("1.06", Wish::Coarsen, Keep),
        ("1.07", Wish::Stay, Keep),
        ("1.1", Wish::Coarsen, Keep),
        ("1.2", Wish::Coarsen, Keep),
        ("1.3", Wish::Coarsen, Keep),
        ("1.4", Wish::Coarsen, Keep),
        ("1.5", Wish::Coarsen, Keep),
        ("1.6", Wish::Coarsen, Keep),
        ("1.7", Wish::Coarsen, Keep),
    ];
    expect_map(&rt, rt.alloc(), TWO_ROOTS, 2, rows.as_slice())?;
    Ok(())
}

// 0.1 touches 1.0, which is of its level and refined.
#[test]
fn an_octet_beside_a_refined_leaf_stays(rt: HostRuntime) -> Result<(), Fail> {
    let rows = [
        ("0.0", Wish::Coarsen, Keep),
        ("0.1", Wish::Coarsen, Keep),
        ("0.2", Wish::Coarsen, Keep),
        ("0.3", Wish::Coarsen, Keep),
        ("0.4", Wish::Coarsen, Keep),
        ("0.5", Wish::Coarsen, Keep),
        ("0.6", Wish::Coarsen, Keep),
        ("0.7", Wish::Coarsen, Keep),
        ("1.0", Wish::Refine, Refine),
        ("1.1", Wish::Coarsen, Keep),
        ("1.2", Wish::Coarsen, Keep),
        ("1.3", Wish::Coarsen, Keep),
        ("1.4", Wish::Coarsen, Keep),
        ("1.5", Wish::Coarsen, Keep),
        ("1.6", Wish::Coarsen, Keep),
        ("1.7", Wish::Coarsen, Keep),
    ];
    expect_map(&rt, rt.alloc(), TWO_ROOTS, 2, rows.as_slice())?;
    Ok(())
}

// 1.10 forces 1.0, and that root 0, though both would not.
const CHAIN_OF_THREE: [Row; 16] = [
    ("0", Wish::Stay, Refine),
    ("1.0", Wish::Coarsen, Refine),
    ("1.10", Wish::Refine, Refine),
    ("1.11", Wish::Coarsen, Keep),
    ("1.12", Wish::Coarsen, Keep),
    ("1.13", Wish::Coarsen, Keep),
    ("1.14", Wish::Coarsen, Keep),
    ("1.15", Wish::Coarsen, Keep),
    ("1.16", Wish::Coarsen, Keep),
    ("1.17", Wish::Coarsen, Keep),
    ("1.2", Wish::Coarsen, Keep),
    ("1.3", Wish::Coarsen, Keep),
    ("1.4", Wish::Coarsen, Keep),
    ("1.5", Wish::Coarsen, Keep),
    ("1.6", Wish::Coarsen, Keep),
    ("1.7", Wish::Coarsen, Keep),
];

// The same from one level deeper.
const CHAIN_OF_FOUR: [Row; 23] = [
    ("0", Wish::Stay, Refine),
    ("1.0", Wish::Coarsen, Refine),
    ("1.10", Wish::Coarsen, Refine),
    ("1.110", Wish::Refine, Refine),
    ("1.111", Wish::Coarsen, Keep),
    ("1.112", Wish::Coarsen, Keep),
    ("1.113", Wish::Coarsen, Keep),
    ("1.114", Wish::Coarsen, Keep),
    ("1.115", Wish::Coarsen, Keep),
    ("1.116", Wish::Coarsen, Keep),
    ("1.117", Wish::Coarsen, Keep),
    ("1.12", Wish::Coarsen, Keep),
    ("1.13", Wish::Coarsen, Keep),
    ("1.14", Wish::Coarsen, Keep),
    ("1.15", Wish::Coarsen, Keep),
    ("1.16", Wish::Coarsen, Keep),
    ("1.17", Wish::Coarsen, Keep),
    ("1.2", Wish::Coarsen, Keep),
    ("1.3", Wish::Coarsen, Keep),
    ("1.4", Wish::Coarsen, Keep),
    ("1.5", Wish::Coarsen, Keep),
    ("1.6", Wish::Coarsen, Keep),
    ("1.7", Wish::Coarsen, Keep),
];

#[test]
fn refinement_goes_along_a_chain(rt: HostRuntime) -> Result<(), Fail> {
    expect_map(&rt, rt.alloc(), TWO_ROOTS, 3, CHAIN_OF_THREE.as_slice())?;
    expect_map(&rt, rt.alloc(), TWO_ROOTS, 4, CHAIN_OF_FOUR.as_slice())?;
    Ok(())
}

// Each force round refines one leaf of the chain more, and none after that.
#[test]
fn a_chain_needs_each_round(rt: HostRuntime) -> Result<(), Fail> {
    let chain = ["1.110", "1.10", "1.0", "0"];
    for count in [1, 2, 8] {
        let leaves = dealt(&rt, rt.alloc(), CHAIN_OF_FOUR.as_slice(), count)?;
        let mut ranks = ranks_of(&rt, rt.alloc(), leaves.as_slice(), count, TWO_ROOTS)?;
        for rounds in 1..5 {
            let refined = told(rt.alloc(), ranks.as_slice(), Flag::Refined)?;
            assert_eq!(rt; refined.len(), rounds);
            for text in chain.iter().take(rounds) {
                let id = Id::parse(text).expect(&rt, "an id");
                assert!(rt; refined.iter().any(|leaf| leaf.id == id));
            }
            force(&rt, rt.alloc(), ranks.as_mut_slice())?;
        }
        assert_eq!(rt; told(rt.alloc(), ranks.as_slice(), Flag::Refined)?.len(), 4);
    }
    Ok(())
}

// By the links that other crates make.
#[test]
fn links_of_roots_serve(rt: HostRuntime) -> Result<(), Fail> {
    let ids = [Id::root_of(0), Id::root_of(1)];
    let wishes = [Wish::Stay, Wish::Refine];
    assert!(rt; are_rising(ids.as_slice()));
    let mut marks = Marks::start(rt.alloc(), ids.as_slice(), wishes.as_slice())?;
    let mut links = Vec::new(rt.alloc());
    for root in 0..2 {
        let owners = [0, 0];
        links.push(Links::of_root(rt.alloc(), root, owners.as_slice(), TWO_ROOTS)?)?;
    }
    assert!(rt; links.len() == marks.leaves().len());
    marks.force_round(links.as_slice());
    assert!(rt; links.len() == marks.leaves().len());
    marks.may_round(links.as_slice(), 1);
    assert!(rt; marks.has(ids[1], Flag::Refined));
    assert!(rt; !marks.has(ids[0], Flag::Refined));
    assert_eq!(rt; marks.target(ids[1]), Refine);
    Ok(())
}

// One cell of the first root has 800 and one of the second 400, which is the limit; the others have 0.
fn two_levels(alloc: Global) -> Result<Case, Memory> {
    let first = Fill {
        low: [0, 0, 0],
        high: [0, 0, 0],
        value: 800,
    };
    let second = Fill {
        low: [3, 1, 1],
        high: [3, 1, 1],
        value: 400,
    };
    Ok(Case {
        roots: TWO_ROOTS,
        side: 2,
        levels: 1,
        ranks: 1,
        steps: 1,
        snapshot: 1,
        regrid: 1,
        refine: 400,
        coarsen: 0,
        flow: 0,
        turns: 0,
        shift: 0,
        fills: Items::of(vec![in alloc; first, second]?),
        dies: Items::of(Vec::new(alloc)),
        order: Items::of(Vec::new(alloc)),
    })
}

// A spread that is equal to `refine` is no wish; one that is equal to `coarsen` is, below a root.
#[test]
fn leaves_wish_by_their_spread(rt: HostRuntime) -> Result<(), Fail> {
    let case = two_levels(rt.alloc())?;
    assert!(rt; case.valid());
    let (opening, setup) = Opening::of(rt.alloc(), case)?;
    assert!(rt; setup.root_count() == 2);
    let second = Block::initial(rt.alloc(), &opening, 1)?;
    assert_eq!(rt; wish(&second, &setup), Wish::Stay);
    let first = Block::initial(rt.alloc(), &opening, 0)?;
    assert_eq!(rt; wish(&first, &setup), Wish::Refine);
    assert!(rt; setup.regrid() == 1);
    assert!(rt; setup.levels() > 0);
    assert!(rt; setup.refine() < first.cells().spread());
    a_block_that_spreads_is_refined();
    let Ok(children) = first.split(rt.alloc()) else {
        return Err(Memory.into());
    };
    assert_eq!(rt; children.len(), 8);
    for child in &children {
        assert_eq!(rt; wish(child, &setup), Wish::Coarsen);
    }
    Ok(())
}
