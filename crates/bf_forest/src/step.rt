//! A step of a rank's blocks.
ghost use Rattle.std.specs.Prelude.{◌≡◌, [], ℕ, All, Contains, IfOk, OnOk, map};
ghost use Rattle.std.specs.List.{zip};
ghost use Rattle.bf_block.specs.Block.{after_regrid, kept_block, map_at};
ghost use Rattle.bf_case.specs.Map.{ids_of};
ghost use Rattle.bf_forest.specs.Setup.{case_of};
ghost use Rattle.bf_forest.specs.Ready.{IsBetween, IsPairBetween, IsReady};
ghost use Rattle.bf_forest.specs.Rounds.{stepped_all, stepped_between, stepped_pair};

use crate::strips::{grouped, tell_all};
use crate::{ForestLocal, Setup};
use bf_block::{Block, Memory};
use bf_cells::Shell;
use bf_ghost::{Strip, step as step_between};
use bf_items::Items;
use bf_msg::LinkedBlock;
use std::alloc::Global;

// The block behind its time's regrid: one that none has changed is kept.
fn regridded(block: Block) -> Block
    requires { Contains (ids_of (map_at block.case (after_regrid block.point.time))) block.id }
    ensures { result ≡ kept_block block }
{
    if block.point().regridded {
        block
    } else {
        block.kept()
    }
}

// A block one step later, between what it is told.
fn stepped(
    alloc: Global,
    setup: &Setup,
    shell: &mut Shell,
    linked: LinkedBlock,
    strips: &[Strip],
) -> Result<LinkedBlock, Memory>
    requires block { (time : ℕ) × IsBetween (case_of setup.now) time strips.now linked }
    requires side { shell.old.side ≡ (case_of setup.now).side }
    ensures block { IfOk result (λ next. next ≡ stepped_between strips.now linked) }
    ensures side { shell.new.side ≡ shell.old.side }
{
    let LinkedBlock { block, links } = linked;
    match step_between(alloc, shell, regridded(block), strips) {
        Ok(block) => {
            let _model = block.cells();
            Ok(LinkedBlock { block, links })
        }
        Err(_) => Err(Memory),
    }
}

// Blocks one step later, each between the strips beside it. One shell serves them all.
fn all_stepped(
    alloc: Global,
    setup: &Setup,
    blocks: Items<LinkedBlock>,
    groups: Vec<Vec<Strip>>,
) -> Result<Items<LinkedBlock>, Memory>
    requires { (time : ℕ) × All (IsPairBetween (case_of setup.now) time) (zip blocks (map (λ group. group.items) groups.items)) }
    ensures { IfOk result (λ all. all ≡ map stepped_pair (zip blocks (map (λ group. group.items) groups.items))) }
{
    let mut shell = Shell::blank(alloc, setup.side())?;
    let mut all = Vec::with_capacity(alloc, blocks.len())?;
    for (linked, strips) in blocks.into_vec().into_iter().zip(groups) {
        let next = stepped(alloc, setup, &mut shell, linked, strips.as_slice())?;
        all.push(next)?;
    }
    Ok(Items::of(all))
}

/// A step of a rank's blocks, between what other ranks told them and what they tell each other. What was told is let go.
pub fn step(alloc: Global, setup: &Setup, local: &mut ForestLocal) -> Result<(), Memory>
    requires { (time : ℕ) × IsReady (case_of setup.now) time local.old }
    ensures { OnOk result (local.new ≡ (record local.old {
      blocks = stepped_all local.old.rank local.old.heard local.old.blocks;
      heard = [];
    })) }
{
    let mut strips = local.heard.moved().into_vec();
    tell_all(alloc, &mut strips, local.blocks.as_slice(), local.rank)?;
    let groups = grouped(alloc, local.blocks.as_slice(), strips)?;
    local.blocks = all_stepped(alloc, setup, local.blocks.moved(), groups)?;
    Ok(())
}
