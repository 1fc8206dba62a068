//! Blocks become cargo.
ghost use Rattle.std.specs.Prelude.{◌≡◌, ◌<◌, ◌++◌, ℕ, map, All, Contains, IfOk, OnOk, IfNone, IfSome};
ghost use Rattle.bf_id.specs.Id.{level_of, parent_of, BlockId};
ghost use Rattle.bf_case.specs.declared.case.Case.{Case};
ghost use Rattle.bf_case.specs.declared.target.Target.TheVariants.{Refine};
ghost use Rattle.bf_block.specs.Block.{split_blocks, BlockValue, IsModels, IsRegriddedTo};
ghost use Rattle.bf_migrate.specs.Giving.{all_sent, gifts_of, sent_to, target_of_block, whole, StandBefore};
ghost use Rattle.bf_migrate.specs.Targets.{ids_in, AreRanked, AreRising, AreTargets, Tell};

use crate::targets::rank_of;
use bf_block::laws::a_block_that_is_kept_stays;
use bf_block::{Block, Cargo, Memory};
use bf_id::Id;
use std::alloc::Global;

// The rank of the proxy of its parent, if it has one and that is among the targets.
fn rank_of_parent(targets: &[(Id, u32)], id: Id) -> Option<u32>
    requires { AreRising targets.now }
    ensures some { IfSome result (λ _. Contains (ids_in targets.now) (parent_of id)) }
    ensures above { IfSome result (λ _. 0 < level_of id) }
    ensures rank { (rank : BlockId → ℕ) → AreRanked rank targets.now → IfSome result (λ r. r ≡ rank (parent_of id)) }
    ensures none { IfNone result (0 < level_of id → Contains (ids_in targets.now) (parent_of id) → ⊥) }
{
    match id.parent() {
        Some(parent) => rank_of(targets, parent),
        None => None,
    }
}

// The children of a block, each to the rank of its proxy.
fn give_children(
    children: Vec<Block>,
    targets: &[(Id, u32)],
    cargo: &mut Vec<(u32, Cargo)>,
) -> Result<(), Memory>
    requires rising { AreRising targets.now }
    requires all { All (λ (b : BlockValue). Contains (ids_in targets.now) b.id) children.items }
    ensures { (rank : BlockId → ℕ) → AreRanked rank targets.now
        → OnOk result (cargo.new.items ≡ cargo.old.items ++ map (λ b. sent_to rank (whole b)) children.items) }
{
    for child in children {
        match rank_of(targets, child.id()) {
            Some(rank) => cargo.push((rank, Cargo::Whole(child)))?,
            None => unreachable!(),
        }
    }
    Ok(())
}

// What a refined block gives: its eight children.
fn give_refined(
    alloc: Global,
    block: Block,
    targets: &[(Id, u32)],
    cargo: &mut Vec<(u32, Cargo)>,
) -> Result<(), Memory>
    requires told { Tell block targets.now }
    requires refined { target_of_block block ≡ Refine }
    ensures { (rank : BlockId → ℕ) → AreRanked rank targets.now
        → OnOk result (cargo.new.items ≡ cargo.old.items ++ map (sent_to rank) (gifts_of block)) }
{
    match block.split(alloc) {
        Ok(children) => give_children(children, targets, cargo),
        Err(_) => Err(Memory),
    }
}

// What a block gives that isn't kept: its eighth to the parent, or its children.
fn give_parts(
    alloc: Global,
    block: Block,
    targets: &[(Id, u32)],
    cargo: &mut Vec<(u32, Cargo)>,
) -> Result<(), Memory>
    requires told { Tell block targets.now }
    requires leaves { Contains (ids_in targets.now) block.id → ⊥ }
    ensures { (rank : BlockId → ℕ) → AreRanked rank targets.now
        → OnOk result (cargo.new.items ≡ cargo.old.items ++ map (sent_to rank) (gifts_of block)) }
{
    match rank_of_parent(targets, block.id()) {
        Some(rank) => {
            cargo.push((rank, Cargo::Piece(block.eighth()?)))?;
            Ok(())
        }
        None => give_refined(alloc, block, targets, cargo),
    }
}

// What one block gives, to the ranks of the proxies into which it goes.
fn give(
    alloc: Global,
    block: Block,
    targets: &[(Id, u32)],
    cargo: &mut Vec<(u32, Cargo)>,
) -> Result<(), Memory>
    requires { Tell block targets.now }
    ensures { (rank : BlockId → ℕ) → AreRanked rank targets.now
        → OnOk result (cargo.new.items ≡ cargo.old.items ++ map (sent_to rank) (gifts_of block)) }
{
    let _model = block.cells();
    a_block_that_is_kept_stays();
    match rank_of(targets, block.id()) {
        Some(rank) => {
            cargo.push((rank, Cargo::Whole(block.kept())))?;
            Ok(())
        }
        None => give_parts(alloc, block, targets, cargo),
    }
}

// What is known of all of some blocks.
fn all_known(blocks: &[Block])
    ensures { All IsModels blocks.now }
{
    for block in blocks {
        let _model = block.cells();
    }
}

/// All that the blocks of a rank give in the regrid of their time, in the order of the blocks and then by rising child, each
/// with the rank of its proxy. The cells of a kept block aren't copied.
///
/// The targets are by rising id the proxies into which these blocks go, each with its rank: those of one octet that merge go
/// into one.
pub fn outgoing(
    alloc: Global,
    blocks: Vec<Block>,
    targets: &[(Id, u32)],
) -> Result<Vec<(u32, Cargo)>, Memory>
    requires before { (c : Case) × ((time : ℕ) × StandBefore c time blocks.items) }
    requires targets { (rank : BlockId → ℕ) × AreTargets rank blocks.items targets.now }
    ensures { (rank : BlockId → ℕ) → AreTargets rank blocks.items targets.now
        → IfOk result (λ cargo. cargo.items ≡ all_sent rank blocks.items) }
{
    all_known(blocks.as_slice());
    let mut cargo = Vec::with_capacity(alloc, blocks.len())?;
    for block in blocks {
        give(alloc, block, targets, &mut cargo)?;
    }
    Ok(cargo)
}
