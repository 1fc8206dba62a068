//! The calls of the round by hand: a lone root is kept, and goes from rank 0 to rank 1.
ghost use Rattle.std.specs.Prelude.{◌≡◌, [], ◌∷◌, IfOk};
ghost use Rattle.bf_id.specs.Id.{root_id};
ghost use Rattle.bf_case.specs.declared.target.Target.TheVariants.{Keep};
ghost use Rattle.bf_block.specs.Block.{before_regrid, kept_block, IsRegriddedTo};
ghost use Rattle.bf_block.specs.declared.cargo.Cargo.TheVariants.{Whole};

use crate::{is_two_way, pack, take_for, two_way, unpack};
use bf_block::laws::at_the_beginning_a_block_that_does_not_spread_is_kept;
use bf_block::{Block, Cargo, Memory, Opening};
use bf_buddy::Members;
use bf_case::{Case, Fill, Target};
use bf_id::{Id, Shape};
use bf_items::Items;
use bf_links::{Link, Links};
use bf_msg::LinkedBlock;
use bf_proxy::{Proxy, Sources};
use std::alloc::Global;
use std::process::Abort;
use std::test::Fail;

// A lone root that regrids at once, and does not spread.
fn lone(alloc: Global) -> Result<Case, Memory> {
    let fill = Fill {
        low: [0, 0, 0],
        high: [1, 1, 1],
        value: 5,
    };
    Ok(Case {
        roots: Shape {
            nx: 1,
            ny: 1,
            nz: 1,
        },
        side: 2,
        levels: 1,
        ranks: 2,
        steps: 1,
        snapshot: 1,
        regrid: 1,
        refine: 7,
        coarsen: 6,
        flow: 0,
        turns: 0,
        shift: 0,
        fills: Items::of(vec![in alloc; fill]?),
        dies: Items::of(Vec::new(alloc)),
        order: Items::of(Vec::new(alloc)),
    })
}

// Its root, before the regrid that keeps it.
fn root(rt: &impl Abort, alloc: Global) -> Result<Block, Memory>
    ensures id { IfOk result (λ block. block.id ≡ root_id 0) }
    ensures point { IfOk result (λ block. block.point ≡ before_regrid 0) }
    ensures kept { IfOk result (λ block. IsRegriddedTo Keep block.case block.point block.id) }
{
    let case = lone(alloc)?;
    assert!(rt; case.valid());
    let (opening, setup) = Opening::of(alloc, case)?;
    assert!(rt; setup.regrid() == 1);
    assert!(rt; setup.root_count() > 0);
    let block = Block::initial(alloc, &opening, 0)?;
    assert!(rt; block.cells().spread() <= setup.refine());
    at_the_beginning_a_block_that_does_not_spread_is_kept();
    Ok(block)
}

// The root as cargo for rank 1.
fn packed(rt: &impl Abort, alloc: Global, block: Block) -> Result<Items<(u32, Cargo)>, Memory>
    requires point { block.point ≡ before_regrid 0 }
    requires kept { IsRegriddedTo Keep block.case block.point block.id }
    ensures { IfOk result (λ cargo. cargo ≡ (1, Whole (kept_block block)) ∷ []) }
{
    let targets = [(block.id(), 1)];
    let none: [Link; 0] = [];
    let links = Links::of(alloc, none.as_slice())?;
    let linked = LinkedBlock { block, links };
    let mut blocks = Items::of(vec![in alloc; linked]?);
    let mut cargo = Items::new(alloc);
    pack(alloc, targets.as_slice(), &mut blocks, &mut cargo)?;
    assert!(rt; blocks.is_empty());
    pack(alloc, targets.as_slice(), &mut blocks, &mut cargo)?;
    Ok(cargo)
}

// Its proxy at rank 1, with a link that tells it from the root's.
fn proxies(alloc: Global) -> Result<Items<Proxy>, Memory>
    ensures { IfOk result (λ proxies. proxies ≡ record {
      id = root_id 0;
      origin = Keep;
      sources = record { id = root_id 0; owner = 0 } ∷ [];
      links = record { id = root_id 0; owner = 3 } ∷ [];
    } ∷ []) }
{
    let id = Id::root_of(0);
    let sources = Sources::of(alloc, [Link { id, owner: 0 }].as_slice())?;
    let links = Links::of(alloc, [Link { id, owner: 3 }].as_slice())?;
    let proxy = Proxy {
        id,
        origin: Target::Keep,
        sources,
        links,
    };
    Ok(Items::of(vec![in alloc; proxy]?))
}

// What rank 1 makes of the root.
fn unpacked(rt: &impl Abort, alloc: Global, block: Block) -> Result<Items<LinkedBlock>, Memory>
    requires id { block.id ≡ root_id 0 }
    requires point { block.point ≡ before_regrid 0 }
    requires kept { IsRegriddedTo Keep block.case block.point block.id }
{
    let mut cargo = packed(rt, alloc, block)?;
    let mut arrived = take_for(alloc, &mut cargo, 0)?;
    assert!(rt; arrived.is_empty());
    arrived = take_for(alloc, &mut cargo, 1)?;
    unpack(alloc, proxies(alloc)?, &mut cargo, &mut arrived)
}

#[test]
fn a_root_goes_to_its_proxy(rt: HostRuntime) -> Result<(), Fail> {
    let block = root(&rt, rt.alloc())?;
    let made = unpacked(&rt, rt.alloc(), block)?;
    assert_eq!(rt; made.len(), 1);
    let linked = &made.as_slice()[0];
    assert_eq!(rt; linked.block.id(), Id::root_of(0));
    assert!(rt; linked.block.point().regridded);
    assert_eq!(rt; linked.block.cells().values(), [5; 8].as_slice());
    assert_eq!(rt; linked.links.owner(Id::root_of(0)), Some(3));
    Ok(())
}

#[test]
fn ranks_talk_to_those_of_targets_and_sources(rt: HostRuntime) -> Result<(), Fail> {
    let proxies = proxies(rt.alloc())?;
    let targets = [(Id::root_of(0), 2)];
    let targets = targets.as_slice();
    assert!(rt; is_two_way(1, targets, proxies.as_slice(), 0));
    assert!(rt; is_two_way(1, targets, proxies.as_slice(), 2));
    assert!(rt; !is_two_way(2, targets, proxies.as_slice(), 2));
    assert!(rt; !is_two_way(1, targets, proxies.as_slice(), 3));
    let peers = two_way(1, targets, proxies.as_slice(), Members::all(3));
    assert!(rt; peers.has(0));
    assert!(rt; !peers.has(1));
    assert!(rt; peers.has(2));
    Ok(())
}
