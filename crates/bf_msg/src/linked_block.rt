//! Blocks with their links, as items that ranks keep in parts.
ghost use Rattle.std.specs.Prelude.{◌≡◌, IfOk};

use bf_block::{Block, Memory};
use bf_buddy::Members;
use bf_items::Items;
use bf_links::Links;
use bf_parts::Linked;
use std::alloc::Global;

/// A block, and links to the leaves that touch it.
#[derive(Drop)]
pub struct LinkedBlock {
    pub block: Block,
    pub links: Links,
}

impl LinkedBlock {
    /// An equal block with equal links, for a message or a snapshot.
    pub fn copy(&self) -> Result<LinkedBlock, Memory>
        ensures { IfOk result (λ linked. linked ≡ self.now) }
    {
        let block = self.block.copy()?;
        let links = self.links.copy()?;
        Ok(LinkedBlock { block, links })
    }
}

/// The same blocks once more.
pub fn copies(alloc: Global, blocks: &[LinkedBlock]) -> Result<Items<LinkedBlock>, Memory>
    ensures { IfOk result (λ items. items ≡ blocks.now) }
{
    let mut copied = Vec::with_capacity(alloc, blocks.len())?;
    for linked in blocks {
        copied.push(linked.copy()?)?;
    }
    Ok(Items::of(copied))
}

impl Linked for LinkedBlock {
    ghost use Rattle.bf_msg.specs.LinkedBlocks.{linked_kind, IsOwnedAmong};

    ghost kind = { linked_kind };

    ghost is_among = { IsOwnedAmong };

    fn comes_first(&self, other: &LinkedBlock) -> bool {
        self.block.id() < other.block.id()
    }

    fn with_heirs(
        &self,
        alloc: Global,
        homes: Members,
        live: Members,
        shift: u32,
    ) -> Result<LinkedBlock, Memory> {
        let block = self.block.copy()?;
        let mut links = self.links.copy()?;
        links.remap(homes, live, shift);
        Ok(LinkedBlock { block, links })
    }
}
