//! What blocks tell each other.
ghost use Rattle.std.specs.Prelude.{◌≡◌, ◌++◌, [], All, IfOk, MatchResult, OnOk, map, replicate};
ghost use Rattle.bf_forest.specs.Ready.{groups_of, AreLinkedInside, AreOrdered, StandsAt, StandsNowhere};
ghost use Rattle.bf_forest.specs.Rounds.{strips_of, strips_to};

use bf_block::Memory;
use bf_ghost::{Strip, strip_to};
use bf_id::Id;
use bf_msg::LinkedBlock;
use std::alloc::Global;

// Puts what a block tells those of a rank behind other strips.
fn tell(alloc: Global, strips: &mut Vec<Strip>, linked: &LinkedBlock, to: u32) -> Result<(), Memory>
    requires { AreLinkedInside linked.now }
    ensures { OnOk result (strips.new.items ≡ strips.old.items ++ strips_of to linked.now) }
{
    if !linked.links.has_owner(to) {
        return Ok(());
    }
    for link in linked.links.as_slice() {
        if link.owner == to {
            if let Some(strip) = strip_to(alloc, &linked.block, link.id)? {
                strips.push(strip)?;
            }
        }
    }
    Ok(())
}

/// What a rank's blocks tell those of a rank, behind other strips.
#[tactic(auto, unfolding(crate::specs::Rounds::strips_to))]
pub fn tell_all(
    alloc: Global,
    strips: &mut Vec<Strip>,
    blocks: &[LinkedBlock],
    to: u32,
) -> Result<(), Memory>
    requires { All AreLinkedInside blocks.now }
    ensures { OnOk result (strips.new.items ≡ strips.old.items ++ strips_to to blocks.now) }
{
    for linked in blocks {
        tell(alloc, strips, linked, to)?;
    }
    Ok(())
}

// Where the block of an id stands, or where it would.
fn place_of(blocks: &[LinkedBlock], id: Id) -> Result<usize, usize>
    requires { AreOrdered blocks.now }
    ensures { MatchResult result (StandsAt blocks.now id) (λ _. StandsNowhere blocks.now id) }
{
    blocks.binary_search_by_key(&id, |linked| linked.block.id())
}

// As many empty groups.
fn empty_groups(alloc: Global, count: usize) -> Result<Vec<Vec<Strip>>, Memory>
    ensures { IfOk result (λ groups. map (λ group. group.items) groups.items ≡ replicate count []) }
{
    let mut groups = Vec::with_capacity(alloc, count)?;
    for _ in 0..count {
        groups.push(Vec::new(alloc))?;
    }
    Ok(groups)
}

/// For each block what it is told, in the order in which it was told. What is for none of them is let go.
pub fn grouped(
    alloc: Global,
    blocks: &[LinkedBlock],
    strips: Vec<Strip>,
) -> Result<Vec<Vec<Strip>>, Memory>
    requires { AreOrdered blocks.now }
    ensures { IfOk result (λ groups. map (λ group. group.items) groups.items ≡ groups_of strips.items blocks.now) }
{
    let mut groups = empty_groups(alloc, blocks.len())?;
    for strip in strips {
        if let Ok(place) = place_of(blocks, strip.target()) {
            groups[place].push(strip)?;
        }
    }
    Ok(groups)
}
