ghost use Rattle.std.specs.Prelude.{◌≡◌, ◌++◌, length, map, IfOk, OnOk, IsPermutation};
ghost use Rattle.bf_forest.specs.Leaves.{bare_blocks};
ghost use Rattle.bf_driven.specs.Parcels.{blocks_of, RiseById};

use bf_block::{Block, Memory};
use bf_items::Items;
use bf_msg::LinkedBlock;
use std::alloc::Global;

// Adds the blocks of a part.
fn add_part<'a>(blocks: &mut Vec<&'a Block>, part: &'a [LinkedBlock]) -> Result<(), Memory>
    ensures { OnOk result (map (λ block. block.now) blocks.new.items ≡ map (λ block. block.now) blocks.old.items ++ bare_blocks part.now) }
{
    for linked in part {
        blocks.push(&linked.block)?;
    }
    Ok(())
}

// The blocks of all parcels, as they lie there.
fn blocks_of(alloc: Global, parcels: &[(u32, Items<LinkedBlock>)]) -> Result<Vec<&Block>, Memory>
    ensures { IfOk result (λ blocks. map (λ block. block.now) blocks.items ≡ blocks_of parcels.now) }
{
    let mut blocks = Vec::new(alloc);
    for (_rank, part) in parcels {
        add_part(&mut blocks, part.as_slice())?;
    }
    Ok(blocks)
}

// Puts blocks in rising order of their ids.
fn sort(blocks: &mut [&Block])
    ensures same { IsPermutation (map (λ block. block.now) blocks.old) (map (λ block. block.now) blocks.new) }
    ensures len { length blocks.new ≡ length blocks.old }
    ensures rising { RiseById (map (λ block. block.now) blocks.new) }
{
    blocks.sort_unstable_by_key(|block| block.id());
}

/// The blocks of all parcels, by rising id. No cell is copied.
pub fn leaves(alloc: Global, parcels: &[(u32, Items<LinkedBlock>)]) -> Result<Vec<&Block>, Memory>
    ensures same { IfOk result (λ blocks. IsPermutation (blocks_of parcels.now) (map (λ block. block.now) blocks.items)) }
    ensures rising { IfOk result (λ blocks. RiseById (map (λ block. block.now) blocks.items)) }
{
    let mut blocks = blocks_of(alloc, parcels)?;
    sort(blocks.as_mut_slice());
    Ok(blocks)
}
