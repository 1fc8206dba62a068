//! The calls of each round.
ghost use Rattle.std.specs.Prelude.{◌≡◌, IfOk, OnOk, Option};
ghost use Rattle.bf_program.specs.declared.epoch.Epoch.{Epoch};
ghost use Rattle.bf_stages.specs.Snapshots.{given_part};
ghost use Rattle.bf_parts.specs.Sides.{gives};
ghost use Rattle.bf_beads.specs.Locals.{told_in, moved_in, copied_in, beads_in};
ghost use Rattle.bf_beads.specs.Rounds.{grow_play, play_of};

use crate::beads::{copies, grown, linked_copies};
use crate::moving::{relinked, take_out};
use crate::{Bead, BeadLocal, BeadMessage, Items, Stage};
use bf_buddy::Members;
use bf_parts::{append, gives, merge, source_of};
use bf_program::{Epoch, Memory};
use std::alloc::Global;

// A copy of all beads for the buddy, and none for others.
fn given(
    alloc: Global,
    members: Members,
    shift: u32,
    local: &BeadLocal,
    to: u32,
) -> Result<Option<Items<Bead>>, Memory>
    ensures { IfOk result (λ part. part ≡ given_part (gives members shift local.now.rank to) local.now.beads) }
{
    if gives(members, shift, local.rank, to) {
        Ok(Some(copies(alloc, local.beads.as_slice())?))
    } else {
        Ok(None)
    }
}

/// The message to a peer.
pub fn send(
    alloc: Global,
    stage: Stage,
    epoch: Epoch,
    shift: u32,
    local: &mut BeadLocal,
    to: u32,
) -> Result<BeadMessage, Memory>
    ensures msg { IfOk result (λ msg. msg ≡ ((play_of shift epoch stage).out local.old to).1) }
    ensures local { OnOk result (local.new ≡ ((play_of shift epoch stage).out local.old to).0) }
{
    match stage {
        Stage::Tell(_) => {
            let beads = linked_copies(alloc, local.beads.as_slice(), to)?;
            Ok(BeadMessage::Told(beads))
        }
        Stage::Move(time) => {
            let beads = take_out(alloc, epoch.members, time, local, to)?;
            Ok(BeadMessage::Moved(beads))
        }
        Stage::Snapshot => {
            let beads = given(alloc, epoch.members, shift, local, to)?;
            Ok(BeadMessage::Copied(beads))
        }
        Stage::Grow(_) | Stage::Over => Ok(BeadMessage::Told(Items::new(alloc))),
    }
}

fn told_in(alloc: Global, msg: BeadMessage) -> Items<Bead>
    ensures { result ≡ told_in msg }
{
    match msg {
        BeadMessage::Told(beads) => beads,
        BeadMessage::Moved(_) | BeadMessage::Copied(_) => Items::new(alloc),
    }
}

fn moved_in(alloc: Global, msg: BeadMessage) -> Items<Bead>
    ensures { result ≡ moved_in msg }
{
    match msg {
        BeadMessage::Moved(beads) => beads,
        BeadMessage::Told(_) | BeadMessage::Copied(_) => Items::new(alloc),
    }
}

fn copied_in(msg: BeadMessage) -> Option<Items<Bead>>
    ensures { result ≡ copied_in msg }
{
    match msg {
        BeadMessage::Copied(beads) => beads,
        BeadMessage::Told(_) | BeadMessage::Moved(_) => None,
    }
}

/// Takes a peer's message.
pub fn hear(
    alloc: Global,
    stage: Stage,
    epoch: Epoch,
    shift: u32,
    local: &mut BeadLocal,
    peer: u32,
    msg: BeadMessage,
) -> Result<(), Memory>
    ensures { OnOk result (local.new ≡ (play_of shift epoch stage).hear local.old peer msg) }
{
    match stage {
        Stage::Tell(_) => append(&mut local.heard, told_in(alloc, msg)),
        Stage::Move(_) => {
            let own = local.beads.moved();
            local.beads = merge(alloc, own, moved_in(alloc, msg))?;
            Ok(())
        }
        Stage::Snapshot => {
            if let Some(beads) = copied_in(msg) {
                local.spare.other = beads;
            }
            Ok(())
        }
        Stage::Grow(_) | Stage::Over => Ok(()),
    }
}

// Each bead grows, and what was heard is let go.
fn grow(alloc: Global, local: &mut BeadLocal, time: u32) -> Result<(), Memory>
    ensures { OnOk result (local.new ≡ (grow_play time).finish local.old) }
{
    let beads = local.beads.moved();
    local.beads = grown(alloc, beads, time)?;
    local.heard.clear();
    Ok(())
}

// Makes the new snapshot.
fn snap(alloc: Global, local: &mut BeadLocal, epoch: Epoch, shift: u32) -> Result<(), Memory>
    ensures { OnOk result (local.new ≡ (play_of shift epoch Stage.Snapshot).finish local.old) }
{
    local.spare.own = copies(alloc, local.beads.as_slice())?;
    local.spare.time = epoch.target;
    local.spare.source = source_of(epoch.members, shift, local.rank);
    local.spare.homes = epoch.members;
    Ok(())
}

/// Ends a round.
pub fn end(
    alloc: Global,
    stage: Stage,
    epoch: Epoch,
    shift: u32,
    local: &mut BeadLocal,
) -> Result<(), Memory>
    ensures { OnOk result (local.new ≡ (play_of shift epoch stage).finish local.old) }
{
    match stage {
        Stage::Tell(_) | Stage::Over => Ok(()),
        Stage::Grow(time) => grow(alloc, local, time),
        Stage::Move(time) => {
            local.beads = relinked(alloc, epoch.members, time, local.beads.as_slice())?;
            Ok(())
        }
        Stage::Snapshot => snap(alloc, local, epoch, shift),
    }
}

/// The beads of a message of any kind.
pub fn beads_in(msg: &BeadMessage) -> &[Bead]
    ensures { result.now ≡ beads_in msg.now }
{
    match msg {
        BeadMessage::Told(beads) | BeadMessage::Moved(beads) => beads.as_slice(),
        BeadMessage::Copied(None) => &[],
        BeadMessage::Copied(Some(beads)) => beads.as_slice(),
    }
}
