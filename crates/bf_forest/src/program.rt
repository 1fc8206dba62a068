use crate::calls::{end, hear, send};
use crate::peers::peers_of;
use crate::stage::{rounds, stage_of};
use crate::{ForestLocal, Setup};
use bf_buddy::Members;
use bf_items::Items;
use bf_msg::{LinkedBlock, Message};
use bf_program::{Epoch, Measure, Memory, RankProgram, target_of};
use std::alloc::Global;

/// The ranks of the block forest.
pub struct Forest;

impl RankProgram for Forest {
    ghost use Rattle.bf_id.specs.Cube.{Cube, Voxel};
    ghost use Rattle.bf_msg.specs.declared.linked_block.LinkedBlock.{LinkedBlock};
    ghost use Rattle.bf_parts.specs.declared.side.Side.{Side};
    ghost use Rattle.bf_forest.specs.ForestLaws.{lawful_forest};
    ghost use Rattle.bf_forest.specs.Goods.{IsGood};
    ghost use Rattle.bf_forest.specs.Meanings.{forest, pieces};

    type Setup = Setup;

    type Local = ForestLocal;

    type Msg = Message;

    type Part = Items<LinkedBlock>;

    ghost Saved = { Side LinkedBlock };

    ghost Cube = { Cube };

    ghost Spot = { Voxel };

    ghost meanings = { forest };

    ghost regions = { pieces };

    ghost good = { IsGood };

    fn ranks(setup: &Setup) -> u32 {
        setup.ranks()
    }

    fn steps(setup: &Setup) -> u32 {
        setup.steps()
    }

    fn shift(setup: &Setup) -> u32 {
        setup.shift()
    }

    fn snapshot(setup: &Setup) -> u32 {
        setup.snapshot()
    }

    fn target(setup: &Setup, time: u32) -> u32 {
        target_of(setup.steps(), setup.snapshot(), time)
    }

    fn dies(setup: &Setup) -> &[(u32, u32)] {
        setup.dies()
    }

    fn rounds(setup: &Setup, epoch: Epoch) -> u32 {
        rounds(&epoch)
    }

    fn peers(setup: &Setup, local: &ForestLocal, epoch: Epoch, round: u32) -> Members {
        peers_of(stage_of(&epoch, round), epoch.members, setup.shift(), local)
    }

    fn out(
        alloc: Global,
        setup: &Setup,
        local: &mut ForestLocal,
        epoch: Epoch,
        round: u32,
        to: u32,
    ) -> Result<Message, Memory> {
        send(alloc, setup, stage_of(&epoch, round), epoch, local, to)
    }

    fn take(
        alloc: Global,
        setup: &Setup,
        local: &mut ForestLocal,
        epoch: Epoch,
        round: u32,
        peer: u32,
        msg: Message,
    ) -> Result<(), Memory> {
        hear(
            alloc,
            setup,
            stage_of(&epoch, round),
            epoch,
            local,
            peer,
            msg,
        )
    }

    fn finish(
        alloc: Global,
        setup: &Setup,
        local: &mut ForestLocal,
        epoch: Epoch,
        round: u32,
    ) -> Result<(), Memory> {
        end(alloc, setup, stage_of(&epoch, round), epoch, local)
    }

    fn filled(local: &ForestLocal) -> bool {
        local.buffers.is_filled()
    }

    fn parcel(local: &mut ForestLocal) -> Items<LinkedBlock> {
        local.blocks.moved()
    }

    fn keep(local: &mut ForestLocal) {
        local.buffers.swap();
    }

    fn restore(
        alloc: Global,
        setup: &Setup,
        local: &mut ForestLocal,
        rank: u32,
        epoch: Epoch,
    ) -> Result<(), Memory> {
        // what the rank has beside the agreed snapshot goes first, so that it never has more than two copies of its cells
        local.blocks = Items::new(alloc);
        local.heard = Items::new(alloc);
        local.buffers.clear_spare();
        local.blocks = local.buffers.restore(alloc, epoch.members, setup.shift())?;
        local.rank = rank;
        Ok(())
    }

    fn measure(msg: &Message) -> Measure {
        msg.measure()
    }

    ghost lawful = { lawful_forest };
}
