//! The ranks' locals at the opening.
ghost use Rattle.std.specs.Prelude.{◌≡◌, ◌<◌, [], ◌∷◌, ◌++◌, map, replicate, IfOk, OnOk};
ghost use Rattle.std.specs.List.{range_with_len};
ghost use Rattle.bf_id.specs.Id.{root_id};
ghost use Rattle.bf_id.specs.Shape.{root_count};
ghost use Rattle.bf_forest.specs.Setup.{case_of};
ghost use Rattle.bf_parts.specs.Leaves.{copy_at, part_of};
ghost use Rattle.bf_forest.specs.Meanings.{forest};
ghost use Rattle.bf_forest.specs.ModelBlocks.{blocks_at, first_home, linked_at};
ghost use Rattle.bf_forest.specs.Opening.{first_owners, first_parts, unfilled};

use crate::{ForestLocal, Setup};
use bf_block::{Block, Memory, Opening};
use bf_buddy::Members;
use bf_items::Items;
use bf_links::Links;
use bf_msg::{LinkedBlock, copies};
use bf_parts::Side;
use bf_snap::Buffers;
use std::alloc::Global;

// The rank at which each root begins.
fn first_owners(alloc: Global, setup: &Setup) -> Result<Vec<u32>, Memory>
    ensures { IfOk result (λ owners. owners.items ≡ first_owners (case_of setup.now)) }
{
    let count = setup.root_count();
    let mut owners = Vec::with_capacity(alloc, count as usize)?;
    for root in 0..count {
        owners.push(setup.root_rank(root))?;
    }
    Ok(owners)
}

// A root, filled, with its links.
fn first_block(
    alloc: Global,
    opening: &Opening,
    setup: &Setup,
    owners: &[u32],
    root: u32,
) -> Result<LinkedBlock, Memory>
    requires opening { opening.now ≡ case_of setup.now }
    requires owners { owners.now ≡ first_owners (case_of setup.now) }
    requires root { root < root_count (case_of setup.now).roots }
    ensures { IfOk result (λ linked. linked ≡ linked_at (case_of setup.now) 0 (first_home (case_of setup.now)) (root_id root)) }
{
    let block = Block::initial(alloc, opening, root)?;
    let links = Links::of_root(alloc, root, owners, setup.roots())?;
    Ok(LinkedBlock { block, links })
}

// Puts a block behind others.
fn add(blocks: &mut Items<LinkedBlock>, block: LinkedBlock) -> Result<(), Memory>
    ensures { OnOk result (blocks.new ≡ blocks.old ++ block ∷ []) }
{
    let mut all = blocks.moved().into_vec();
    all.push(block)?;
    *blocks = Items::of(all);
    Ok(())
}

// No roots yet at each rank.
fn no_parts(alloc: Global, setup: &Setup) -> Result<Vec<Items<LinkedBlock>>, Memory>
    ensures { IfOk result (λ parts. parts.items ≡ replicate (case_of setup.now).ranks []) }
{
    let mut parts = Vec::new(alloc);
    for _ in 0..setup.ranks() {
        parts.push(Items::new(alloc))?;
    }
    Ok(parts)
}

// The roots that begin at each rank: each root is put to those of its rank.
fn first_parts(
    alloc: Global,
    opening: &Opening,
    setup: &Setup,
) -> Result<Vec<Items<LinkedBlock>>, Memory>
    requires { opening.now ≡ case_of setup.now }
    ensures { IfOk result (λ parts. parts.items ≡ first_parts (case_of setup.now)) }
{
    let owners = first_owners(alloc, setup)?;
    let mut parts = no_parts(alloc, setup)?;
    for root in 0..setup.root_count() {
        let block = first_block(alloc, opening, setup, owners.as_slice(), root)?;
        add(&mut parts[setup.root_rank(root) as usize], block)?;
    }
    Ok(parts)
}

// A copy of the part of a rank.
fn copied_part(
    alloc: Global,
    setup: &Setup,
    parts: &[Items<LinkedBlock>],
    rank: u32,
) -> Result<Items<LinkedBlock>, Memory>
    requires parts { parts.now ≡ first_parts (case_of setup.now) }
    requires rank { rank < (case_of setup.now).ranks }
    ensures { IfOk result (λ blocks. blocks ≡ part_of (blocks_at (case_of setup.now) 0) (first_home (case_of setup.now)) rank) }
{
    copies(alloc, parts[rank as usize].as_slice())
}

// A copy of the predecessor's part, where that is another rank.
fn copied_other(
    alloc: Global,
    setup: &Setup,
    parts: &[Items<LinkedBlock>],
    rank: u32,
    source: u32,
) -> Result<Items<LinkedBlock>, Memory>
    requires parts { parts.now ≡ first_parts (case_of setup.now) }
    requires source { source < (case_of setup.now).ranks }
    ensures { IfOk result (λ blocks. blocks ≡ copy_at (blocks_at (case_of setup.now) 0) (first_home (case_of setup.now)) rank source) }
{
    if source == rank {
        Ok(Items::new(alloc))
    } else {
        copied_part(alloc, setup, parts, source)
    }
}

// A rank's local at the opening, still without its own blocks.
#[tactic(auto, using(crate::proofs::OpeningSteps::opening_steps), unfolding(crate::specs::Meanings::opened))]
fn unfilled(
    alloc: Global,
    setup: &Setup,
    parts: &[Items<LinkedBlock>],
    rank: u32,
) -> Result<ForestLocal, Memory>
    requires parts { parts.now ≡ first_parts (case_of setup.now) }
    requires rank { rank < (case_of setup.now).ranks }
    ensures { IfOk result (λ local. local ≡ unfilled (case_of setup.now) rank) }
{
    let homes = Members::all(setup.ranks());
    let source = homes.predecessor(rank, setup.shift());
    let agreed = Side {
        time: 0,
        homes,
        source,
        own: copied_part(alloc, setup, parts, rank)?,
        other: copied_other(alloc, setup, parts, rank, source)?,
    };
    Ok(ForestLocal {
        rank,
        blocks: Items::new(alloc),
        heard: Items::new(alloc),
        buffers: Buffers::first(alloc, agreed),
    })
}

// The ranks' locals without their own blocks.
fn all_unfilled(
    alloc: Global,
    setup: &Setup,
    parts: &[Items<LinkedBlock>],
) -> Result<Vec<ForestLocal>, Memory>
    requires { parts.now ≡ first_parts (case_of setup.now) }
    ensures { IfOk result (λ locals. locals.items ≡ map (unfilled (case_of setup.now)) (range_with_len 0 (case_of setup.now).ranks)) }
{
    let mut locals = Vec::new(alloc);
    for rank in 0..setup.ranks() {
        locals.push(unfilled(alloc, setup, parts, rank)?)?;
    }
    Ok(locals)
}

/// The ranks' locals at the opening, which is spent. The opening is the agreed snapshot of time 0, at each home and at
/// its buddy. Each root is linked with the roots that touch it, which are looked for at the places beside it alone.
pub fn load(alloc: Global, opening: Opening, setup: &Setup) -> Result<Vec<ForestLocal>, Memory>
    requires { opening ≡ case_of setup.now }
    ensures { IfOk result (λ locals. locals.items ≡ forest.opening setup.now) }
{
    let parts = first_parts(alloc, &opening, setup)?;
    let unfilled = all_unfilled(alloc, setup, parts.as_slice())?;
    let mut locals = Vec::with_capacity(alloc, unfilled.len())?;
    for (mut local, blocks) in unfilled.into_iter().zip(parts) {
        local.blocks = blocks;
        locals.push(local)?;
    }
    Ok(locals)
}
