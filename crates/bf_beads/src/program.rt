use crate::beads::total;
use crate::calls::{beads_in, end, hear, send};
use crate::peers::peers_of;
use crate::stage::{rounds, stage_of};
use crate::{Bead, BeadLocal, BeadMessage, BeadSetup, Items};
use bf_buddy::Members;
use bf_parts::regained;
use bf_program::{Epoch, Measure, Memory, RankProgram, target_of};
use std::alloc::Global;
use std::mem;

/// Ranks with beads in a row: in each step of time neighbours tell each other of their beads, each bead grows, and
/// every other one goes to the next member. An epoch ends with a snapshot.
pub struct Beads;

impl RankProgram for Beads {
    ghost use Rattle.std.specs.Prelude.{ℕ};
    ghost use Rattle.bf_parts.specs.declared.side.Side.{Side};
    ghost use Rattle.bf_beads.specs.declared.bead.Bead.{Bead};
    ghost use Rattle.bf_beads.specs.Meanings.{beads, pieces};
    ghost use Rattle.bf_beads.specs.Goods.{IsGood};
    ghost use Rattle.bf_beads.specs.BeadsLaws.{lawful_beads};

    type Setup = BeadSetup;

    type Local = BeadLocal;

    type Msg = BeadMessage;

    type Part = Items<Bead>;

    ghost Saved = { Side Bead };

    ghost Cube = { ℕ };

    ghost Spot = { ℕ };

    ghost meanings = { beads };

    ghost regions = { pieces };

    ghost good = { IsGood };

    fn ranks(setup: &BeadSetup) -> u32 {
        setup.ranks()
    }

    fn steps(setup: &BeadSetup) -> u32 {
        setup.steps()
    }

    fn shift(setup: &BeadSetup) -> u32 {
        setup.shift()
    }

    fn snapshot(setup: &BeadSetup) -> u32 {
        setup.interval()
    }

    fn target(setup: &BeadSetup, time: u32) -> u32 {
        target_of(setup.steps(), setup.interval(), time)
    }

    fn dies(setup: &BeadSetup) -> &[(u32, u32)] {
        setup.dies()
    }

    fn rounds(setup: &BeadSetup, epoch: Epoch) -> u32 {
        rounds(&epoch)
    }

    #[tactic(auto, using(crate::proofs::PointSteps::peers_are))]
    fn peers(setup: &BeadSetup, local: &BeadLocal, epoch: Epoch, round: u32) -> Members {
        peers_of(stage_of(&epoch, round), epoch.members, setup.shift(), local)
    }

    fn out(
        alloc: Global,
        setup: &BeadSetup,
        local: &mut BeadLocal,
        epoch: Epoch,
        round: u32,
        to: u32,
    ) -> Result<BeadMessage, Memory> {
        let stage = stage_of(&epoch, round);
        send(alloc, stage, epoch, setup.shift(), local, to)
    }

    fn take(
        alloc: Global,
        setup: &BeadSetup,
        local: &mut BeadLocal,
        epoch: Epoch,
        round: u32,
        peer: u32,
        msg: BeadMessage,
    ) -> Result<(), Memory> {
        let stage = stage_of(&epoch, round);
        hear(alloc, stage, epoch, setup.shift(), local, peer, msg)
    }

    fn finish(
        alloc: Global,
        setup: &BeadSetup,
        local: &mut BeadLocal,
        epoch: Epoch,
        round: u32,
    ) -> Result<(), Memory> {
        let stage = stage_of(&epoch, round);
        end(alloc, stage, epoch, setup.shift(), local)
    }

    fn filled(local: &BeadLocal) -> bool {
        !local.spare.own.is_empty()
    }

    fn parcel(local: &mut BeadLocal) -> Items<Bead> {
        local.beads.moved()
    }

    fn keep(local: &mut BeadLocal) {
        mem::swap(&mut local.active, &mut local.spare);
        local.spare.clear();
    }

    fn restore(
        alloc: Global,
        setup: &BeadSetup,
        local: &mut BeadLocal,
        rank: u32,
        epoch: Epoch,
    ) -> Result<(), Memory> {
        local.beads = regained(alloc, &local.active, epoch.members, setup.shift())?;
        local.rank = rank;
        local.heard.clear();
        local.spare.clear();
        Ok(())
    }

    fn measure(msg: &BeadMessage) -> Measure {
        let beads = beads_in(msg);
        Measure {
            blocks: (beads.len() % 4294967296) as u32,
            sum: total(beads),
        }
    }

    ghost lawful = { lawful_beads };
}
