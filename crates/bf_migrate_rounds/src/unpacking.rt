//! Cargo becomes linked blocks.
ghost use Rattle.std.specs.Prelude.{◌≡◌, ◌++◌, [], length, map, All, IfOk, OnOk};
ghost use Rattle.std.specs.List.{zip};
ghost use Rattle.bf_block.specs.Block.{IsModels};
ghost use Rattle.bf_migrate_rounds.specs.Calls.{linked_to, CanUnpack, IsKnown};
ghost use Rattle.bf_migrate_rounds.specs.Holdings.{loads};
ghost use Rattle.bf_migrate_rounds.specs.Plays.{assembled};

use bf_block::{Block, Cargo, Memory};
use bf_items::Items;
use bf_migrate::assemble;
use bf_msg::LinkedBlock;
use bf_proxy::Proxy;
use std::alloc::Global;

// All cargo on hand: what stayed, and what arrived.
fn on_hand(
    alloc: Global,
    cargo: Items<(u32, Cargo)>,
    arrived: Items<Cargo>,
) -> Result<Vec<Cargo>, Memory>
    ensures { IfOk result (λ parts. parts.items ≡ loads cargo ++ arrived) }
{
    let cargo = cargo.into_vec();
    let mut arrived = arrived.into_vec();
    let mut parts = Vec::with_capacity(alloc, cargo.len())?;
    for (_, part) in cargo {
        parts.push(part)?;
    }
    parts.append(&mut arrived)?;
    Ok(parts)
}

// What is known of all of some blocks.
fn all_known(blocks: &[Block])
    ensures { All IsModels blocks.now }
{
    for block in blocks {
        let _model = block.cells();
    }
}

// What is known of cargo.
fn known(part: &Cargo)
    ensures { IsKnown part.now }
{
    match part {
        Cargo::Whole(block) => {
            let _model = block.cells();
        }
        Cargo::Piece(eighth) => {
            let _model = eighth.id();
        }
    }
}

// What is known of all of some cargo.
fn all_parts_known(parts: &[Cargo])
    ensures { All IsKnown parts.now }
{
    for part in parts {
        known(part);
    }
}

// Blocks, each with the links of the proxy that stands at its place.
fn linked(
    alloc: Global,
    blocks: Vec<Block>,
    proxies: Vec<Proxy>,
) -> Result<Vec<LinkedBlock>, Memory>
    ensures { IfOk result (λ made. made.items ≡ linked_to proxies.items blocks.items) }
{
    let mut made = Vec::with_capacity(alloc, blocks.len())?;
    for (proxy, block) in proxies.into_iter().zip(blocks) {
        made.push(LinkedBlock {
            block,
            links: proxy.links,
        })?;
    }
    Ok(made)
}

/// Makes of all cargo on hand one block for each proxy, linked as that, in the proxies' order. Blocks and links are moved, not
/// copied.
///
/// The cargo is in any order. By rising id it is for each proxy in turn the eighths of the eight leaves that merge into it, where
/// that is its origin, and else one whole block, and nothing else.
pub fn unpack(
    alloc: Global,
    proxies: Items<Proxy>,
    cargo: &mut Items<(u32, Cargo)>,
    arrived: &mut Items<Cargo>,
) -> Result<Items<LinkedBlock>, Memory>
    requires { CanUnpack proxies (loads cargo.old ++ arrived.old) }
    ensures blocks { IfOk result (λ blocks. blocks ≡ assembled proxies (loads cargo.old ++ arrived.old)) }
    ensures cargo { OnOk result (cargo.new ≡ []) }
    ensures arrived { OnOk result (arrived.new ≡ []) }
{
    let parts = on_hand(alloc, cargo.moved(), arrived.moved())?;
    all_parts_known(parts.as_slice());
    let proxies = proxies.into_vec();
    let blocks = assemble(alloc, parts, proxies.as_slice())?;
    all_known(blocks.as_slice());
    Ok(Items::of(linked(alloc, blocks, proxies)?))
}
