//! Blocks become cargo, and each rank's is taken out.
ghost use Rattle.std.specs.Prelude.{◌≡◌, ◌++◌, [], IfOk, OnOk};
ghost use Rattle.bf_migrate.specs.Giving.{all_sent};
ghost use Rattle.bf_migrate_rounds.specs.Calls.{CanPack};
ghost use Rattle.bf_migrate_rounds.specs.Holdings.{blocks_in};
ghost use Rattle.bf_migrate_rounds.specs.Plays.{cargo_for, cargo_without, rank_in};

use bf_block::{Block, Cargo, Memory};
use bf_id::Id;
use bf_items::Items;
use bf_migrate::outgoing;
use bf_msg::LinkedBlock;
use bf_parts::append;
use std::alloc::Global;

// Blocks without their links, which are let go.
fn unlinked(alloc: Global, blocks: Items<LinkedBlock>) -> Result<Vec<Block>, Memory>
    ensures { IfOk result (λ bare. bare.items ≡ blocks_in blocks) }
{
    let linked = blocks.into_vec();
    let mut bare = Vec::with_capacity(alloc, linked.len())?;
    for LinkedBlock { block, links: _ } in linked {
        bare.push(block)?;
    }
    Ok(bare)
}

/// Makes cargo of all blocks, behind what is there already. They are moved out, and their cells are not copied. Where no block
/// is left, nothing happens, and no memory is taken.
///
/// The targets are by rising id the proxies into which these blocks go, each with its rank.
pub fn pack(
    alloc: Global,
    targets: &[(Id, u32)],
    blocks: &mut Items<LinkedBlock>,
    cargo: &mut Items<(u32, Cargo)>,
) -> Result<(), Memory>
    requires { CanPack targets.now blocks.old }
    ensures blocks { OnOk result (blocks.new ≡ []) }
    ensures cargo { OnOk result (cargo.new ≡ cargo.old ++ all_sent (rank_in targets.now) (blocks_in blocks.old)) }
{
    if blocks.is_empty() {
        return Ok(());
    }
    let bare = unlinked(alloc, blocks.moved())?;
    let given = outgoing(alloc, bare, targets)?;
    append(cargo, Items::of(given))
}

/// Takes out the cargo for a rank, in its order.
pub fn take_for(
    alloc: Global,
    cargo: &mut Items<(u32, Cargo)>,
    to: u32,
) -> Result<Items<Cargo>, Memory>
    ensures taken { IfOk result (λ taken. taken ≡ cargo_for to cargo.old) }
    ensures left { OnOk result (cargo.new ≡ cargo_without to cargo.old) }
{
    let all = cargo.moved().into_vec();
    let mut taken = Vec::new(alloc);
    let mut left = Vec::with_capacity(alloc, all.len())?;
    for (rank, part) in all {
        if rank == to {
            taken.push(part)?;
        } else {
            left.push((rank, part))?;
        }
    }
    *cargo = Items::of(left);
    Ok(Items::of(taken))
}
