//! The calls of each round.
ghost use Rattle.std.specs.Prelude.{◌≡◌, IfOk, OnOk};
ghost use Rattle.bf_forest.specs.Setup.{case_of};
ghost use Rattle.bf_parts.specs.Sides.{gives};
ghost use Rattle.bf_stages.specs.Snapshots.{given_part};
ghost use Rattle.bf_forest.specs.Locals.{part_in, strips_in};
ghost use Rattle.bf_forest.specs.Ready.{CanTell, CanSend, CanFinish};
ghost use Rattle.bf_forest.specs.Rounds.{play_of, strips_to};

use crate::step::step;
use crate::strips::tell_all;
use crate::{ForestLocal, Setup, Stage};
use bf_block::Memory;
use bf_buddy::Members;
use bf_ghost::Strip;
use bf_items::Items;
use bf_msg::{LinkedBlock, Message, copies};
use bf_parts::{append, gives, source_of};
use bf_program::Epoch;
use std::alloc::Global;

// What a rank's blocks tell those of another rank.
fn told(alloc: Global, local: &ForestLocal, to: u32) -> Result<Items<Strip>, Memory>
    requires { CanTell local.now }
    ensures { IfOk result (λ strips. strips ≡ strips_to to local.now.blocks) }
{
    let mut strips = Vec::new(alloc);
    tell_all(alloc, &mut strips, local.blocks.as_slice(), to)?;
    Ok(Items::of(strips))
}

// A copy of all blocks for the buddy, and none for others.
fn given(
    alloc: Global,
    members: Members,
    shift: u32,
    local: &ForestLocal,
    to: u32,
) -> Result<Option<Items<LinkedBlock>>, Memory>
    ensures { IfOk result (λ part. part ≡ given_part (gives members shift local.now.rank to) local.now.blocks) }
{
    if gives(members, shift, local.rank, to) {
        Ok(Some(copies(alloc, local.blocks.as_slice())?))
    } else {
        Ok(None)
    }
}

/// The message to a peer: what its blocks are told, or the part of the new snapshot for the buddy.
pub fn send(
    alloc: Global,
    setup: &Setup,
    stage: Stage,
    epoch: Epoch,
    local: &ForestLocal,
    to: u32,
) -> Result<Message, Memory>
    requires { CanSend stage local.now }
    ensures { IfOk result (λ msg. ((play_of (case_of setup.now) epoch stage).out local.now to) ≡ (local.now, msg)) }
{
    match stage {
        Stage::Step { .. } => Ok(Message::Step(told(alloc, local, to)?)),
        Stage::Snapshot => {
            let part = given(alloc, epoch.members, setup.shift(), local, to)?;
            Ok(Message::Snapshot(part))
        }
        Stage::Over => Ok(Message::Snapshot(None)),
    }
}

// The strips of a message. One of another kind than the round's never comes, and is taken as an empty one.
fn strips_in(alloc: Global, msg: Message) -> Items<Strip>
    ensures { result ≡ strips_in msg }
{
    match msg {
        Message::Step(strips) => strips,
        Message::Snapshot(_) | Message::Force(_) | Message::May(_) | Message::Merges(_) => {
            Items::new(alloc)
        }
    }
}

// The part of the new snapshot in a message, likewise.
fn part_in(msg: Message) -> Option<Items<LinkedBlock>>
    ensures { result ≡ part_in msg }
{
    match msg {
        Message::Step(_) | Message::Force(_) | Message::May(_) | Message::Merges(_) => None,
        Message::Snapshot(part) => part,
    }
}

/// Takes a peer's message.
pub fn hear(
    alloc: Global,
    setup: &Setup,
    stage: Stage,
    epoch: Epoch,
    local: &mut ForestLocal,
    peer: u32,
    msg: Message,
) -> Result<(), Memory>
    ensures { OnOk result (local.new ≡ (play_of (case_of setup.now) epoch stage).hear local.old peer msg) }
{
    match stage {
        Stage::Step { .. } => append(&mut local.heard, strips_in(alloc, msg)),
        Stage::Snapshot => {
            if let Some(part) = part_in(msg) {
                local.buffers.hear_other(part);
            }
            Ok(())
        }
        Stage::Over => Ok(()),
    }
}

// Makes the new snapshot.
fn snap(alloc: Global, setup: &Setup, epoch: Epoch, local: &mut ForestLocal) -> Result<(), Memory>
    ensures { OnOk result (local.new ≡ (play_of (case_of setup.now) epoch Stage.Snapshot).finish local.old) }
{
    let own = copies(alloc, local.blocks.as_slice())?;
    let source = source_of(epoch.members, setup.shift(), local.rank);
    local
        .buffers
        .write_spare(epoch.target, epoch.members, source, own);
    Ok(())
}

/// Ends a round.
pub fn end(
    alloc: Global,
    setup: &Setup,
    stage: Stage,
    epoch: Epoch,
    local: &mut ForestLocal,
) -> Result<(), Memory>
    requires { CanFinish (case_of setup.now) stage local.old }
    ensures { OnOk result (local.new ≡ (play_of (case_of setup.now) epoch stage).finish local.old) }
{
    match stage {
        Stage::Step { .. } => step(alloc, setup, local),
        Stage::Snapshot => snap(alloc, setup, epoch, local),
        Stage::Over => Ok(()),
    }
}
