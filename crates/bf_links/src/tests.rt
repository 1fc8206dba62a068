//! Links of roots, and of leaves one level apart: which boxes touch is worked out by hand.
ghost use Rattle.std.specs.Prelude.{◌<◌, ◌↔◌, All, AllPairs, IsTrue};
ghost use Rattle.bf_buddy.specs.Members.{is_member};
ghost use Rattle.bf_id.specs.Id.{InShape};
ghost use Rattle.bf_id.specs.Shape.{IsShape, root_count};
ghost use Rattle.bf_links.specs.Links.{ComesBefore};
ghost use Rattle.bf_links.specs.declared.link.Link.{Link};

use crate::{Link, Links, Memory};
use bf_buddy::Members;
use bf_id::{Id, Shape};
use std::alloc::Global;
use std::process::Abort;
use std::test::Fail;

// Whether leaves stand in rising order.
fn are_rising(leaves: &[Link]) -> bool
    ensures { IsTrue result → AllPairs ComesBefore leaves.now }
{
    for place in 1..leaves.len() {
        let rises = leaves[place - 1].id < leaves[place].id;
        if !rises {
            return false;
        }
    }
    true
}

fn are_inside(leaves: &[Link], shape: Shape) -> bool
    requires { IsShape shape }
    ensures { IsTrue result ↔ All (λ (leaf : Link). InShape shape leaf.id) leaves.now }
{
    let roots = shape.nx * (shape.ny * shape.nz);
    leaves.iter().all(|leaf| leaf.id.root() < roots)
}

fn are_owned_by(links: &[Link], homes: Members) -> bool
    ensures { IsTrue result ↔ All (λ (link : Link). IsTrue (is_member homes link.owner)) links.now }
{
    links.iter().all(|link| homes.has(link.owner))
}

// The links to those of at most 56 leaves that touch one.
fn built(
    rt: &impl Abort,
    alloc: Global,
    id: Id,
    leaves: &[Link],
    shape: Shape,
) -> Result<Links, Memory>
    requires domain { IsShape shape }
    requires inside { InShape shape id }
{
    assert!(rt; are_rising(leaves));
    assert!(rt; are_inside(leaves, shape));
    assert!(rt; leaves.len() <= 56);
    Links::build(alloc, id, leaves, shape)
}

fn link(id: Id, owner: u32) -> Link {
    Link { id, owner }
}

// The links of a root, by the owners of all roots.
fn of_root(
    rt: &impl Abort,
    alloc: Global,
    root: u32,
    owners: &[u32],
    shape: Shape,
) -> Result<Links, Memory>
    requires domain { IsShape shape }
    requires inside { root < root_count shape }
{
    let roots = shape.nx * (shape.ny * shape.nz);
    assert!(rt; owners.len() == roots as usize);
    Links::of_root(alloc, root, owners, shape)
}

// The numbers of the roots with which one is linked, where one rank owns all roots.
fn roots_beside(rt: &impl Abort, alloc: Global, root: u32, shape: Shape) -> Result<Vec<u32>, Memory>
    requires domain { IsShape shape }
    requires inside { root < root_count shape }
{
    let roots = shape.nx * (shape.ny * shape.nz);
    let owners = vec![in alloc; 7; roots as usize]?;
    let mut beside = Vec::new(alloc);
    for link in of_root(rt, alloc, root, owners.as_slice(), shape)?.as_slice() {
        assert_eq!(rt; link.owner, 7);
        beside.push(link.id.root())?;
    }
    Ok(beside)
}

#[test]
fn a_root_inside_is_linked_with_all_others_of_27(rt: HostRuntime) -> Result<(), Fail> {
    let shape = Shape {
        nx: 3,
        ny: 3,
        nz: 3,
    };
    let beside = roots_beside(&rt, rt.alloc(), 13, shape)?;
    assert_eq!(rt; beside.len(), 26);
    for (place, root) in beside.iter().enumerate() {
        assert_eq!(rt; *root as usize, if place < 13 { place } else { place + 1 });
    }
    Ok(())
}

#[test]
fn at_a_corner_seven_roots_are_linked(rt: HostRuntime) -> Result<(), Fail> {
    let shape = Shape {
        nx: 3,
        ny: 3,
        nz: 3,
    };
    let first = roots_beside(&rt, rt.alloc(), 0, shape)?;
    assert_eq!(rt; first.as_slice(), [1, 3, 4, 9, 10, 12, 13].as_slice());
    let last = roots_beside(&rt, rt.alloc(), 26, shape)?;
    assert_eq!(rt; last.as_slice(), [13, 14, 16, 17, 22, 23, 25].as_slice());
    Ok(())
}

// Root 23 stands at 1, 2, 3.
#[test]
fn axes_may_have_different_lengths(rt: HostRuntime) -> Result<(), Fail> {
    let shape = Shape {
        nx: 2,
        ny: 3,
        nz: 4,
    };
    let beside = roots_beside(&rt, rt.alloc(), 23, shape)?;
    assert_eq!(rt; beside.as_slice(), [14, 15, 16, 17, 20, 21, 22].as_slice());
    Ok(())
}

#[test]
fn links_name_the_owners_of_roots(rt: HostRuntime) -> Result<(), Fail> {
    let shape = Shape {
        nx: 3,
        ny: 1,
        nz: 1,
    };
    let links = of_root(&rt, rt.alloc(), 1, [4, 5, 6].as_slice(), shape)?;
    assert_eq!(rt; links.len(), 2);
    assert_eq!(rt; links.get(0), Some(link(Id::root_of(0), 4)));
    assert_eq!(rt; links.get(1), Some(link(Id::root_of(2), 6)));
    assert_eq!(rt; links.get(2), None);
    Ok(())
}

#[test]
fn a_lone_root_has_no_links(rt: HostRuntime) -> Result<(), Fail> {
    let shape = Shape {
        nx: 1,
        ny: 1,
        nz: 1,
    };
    let links = of_root(&rt, rt.alloc(), 0, [9].as_slice(), shape)?;
    assert_eq!(rt; links.len(), 0);
    assert_eq!(rt; links.get(0), None);
    Ok(())
}

// Whether a leaf of level 2, of edge 4, stands around a box from 16 to 24 along each axis, by its low corner.
fn stands_around(corner: [u32; 3]) -> bool {
    let [x, y, z] = corner;
    let is_beside = |at: u32| at == 12 || at == 16 || at == 20 || at == 24;
    let is_inner = |at: u32| at == 16 || at == 20;
    is_beside(x) && is_beside(y) && is_beside(z) && !(is_inner(x) && is_inner(y) && is_inner(z))
}

#[test]
fn a_leaf_is_linked_with_56_of_half_its_edge(rt: HostRuntime) -> Result<(), Fail> {
    let shape = Shape {
        nx: 3,
        ny: 3,
        nz: 3,
    };
    let mut leaves = Vec::new(rt.alloc());
    for root in 0..27 {
        for octants in 0..64 {
            let leaf = Id::root_of(root).child(octants / 8).child(octants % 8);
            if stands_around(leaf.corner(shape)) {
                leaves.push(link(leaf, root))?;
            }
        }
    }
    let links = built(
        &rt,
        rt.alloc(),
        Id::root_of(13).child(0),
        leaves.as_slice(),
        shape,
    )?;
    assert_eq!(rt; links.len(), 56);
    assert_eq!(rt; links.copy()?.as_slice(), leaves.as_slice());
    Ok(())
}

// Of these leaves 0.7 has a corner in common with 13.0, root 1 an edge and 13.1 a face.
fn few_links(rt: &impl Abort, alloc: Global) -> Result<Links, Memory> {
    let shape = Shape {
        nx: 3,
        ny: 3,
        nz: 3,
    };
    let inner = Id::root_of(13);
    let leaves = [
        link(Id::root_of(0).child(0), 0),
        link(Id::root_of(0).child(7), 0),
        link(Id::root_of(1), 1),
        link(Id::root_of(2), 1),
        link(inner.child(0), 2),
        link(inner.child(1), 3),
        link(Id::root_of(26), 3),
    ];
    built(rt, alloc, inner.child(0), leaves.as_slice(), shape)
}

#[test]
fn leaves_that_touch_at_a_corner_are_linked(rt: HostRuntime) -> Result<(), Fail> {
    let links = few_links(&rt, rt.alloc())?;
    let wanted = [
        link(Id::root_of(0).child(7), 0),
        link(Id::root_of(1), 1),
        link(Id::root_of(13).child(1), 3),
    ];
    assert_eq!(rt; links.as_slice(), wanted.as_slice());
    assert_eq!(rt;
        Links::of(rt.alloc(), links.as_slice())?.as_slice(),
        wanted.as_slice()
    );
    Ok(())
}

#[test]
fn owners_are_found_and_named(rt: HostRuntime) -> Result<(), Fail> {
    let mut links = few_links(&rt, rt.alloc())?;
    links.set_owner(Id::root_of(1), 5);
    links.set_owner(Id::root_of(2), 6);
    assert_eq!(rt; links.owner(Id::root_of(0).child(7)), Some(0));
    assert_eq!(rt; links.owner(Id::root_of(1)), Some(5));
    assert_eq!(rt; links.owner(Id::root_of(2)), None);
    let owners = links.owners();
    assert_eq!(rt; owners.count(), 3);
    assert_eq!(rt; owners.at(0), Some(0));
    assert_eq!(rt; owners.at(1), Some(3));
    assert_eq!(rt; owners.at(2), Some(5));
    Ok(())
}

#[test]
fn owners_follow_their_links(rt: HostRuntime) -> Result<(), Fail> {
    let mut links = few_links(&rt, rt.alloc())?;
    assert!(rt; links.has_owner(1));
    assert!(rt; !links.has_owner(2));
    links.set_owner(Id::root_of(1), 32);
    assert!(rt; !links.has_owner(1));
    assert!(rt; links.has_owner(32));
    assert!(rt; !links.has_owner(33));
    assert_eq!(rt; links.copy()?.owners().count(), 2);
    Ok(())
}

// Of four homes rank 1 is dead; its buddy is rank 2, or with another shift rank 3.
#[test]
fn the_buddy_goes_on_for_a_dead_owner(rt: HostRuntime) -> Result<(), Fail> {
    let homes = Members::all(4);
    for (shift, heir) in [(0, 2), (1, 3)] {
        let mut links = few_links(&rt, rt.alloc())?;
        assert!(rt; are_owned_by(links.as_slice(), homes));
        links.remap(homes, homes.without(1), shift);
        let wanted = [
            link(Id::root_of(0).child(7), 0),
            link(Id::root_of(1), heir),
            link(Id::root_of(13).child(1), 3),
        ];
        assert_eq!(rt; links.as_slice(), wanted.as_slice());
    }
    Ok(())
}
