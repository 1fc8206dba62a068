ghost use Rattle.std.specs.Prelude.{◌≡◌};
ghost use Rattle.bf_stages.specs.Plans.{rounds_of, stage_of};
ghost use Rattle.bf_beads.specs.Stages.{bead_plan};

use bf_program::Epoch;
use bf_stages::span;

/// What a round does, in the step from a time to the next.
#[derive(Clone, Copy)]
pub enum Stage {
    /// Neighbours tell each other of their linked beads.
    Tell(u32),
    /// Each bead grows.
    Grow(u32),
    /// Beads go to other ranks.
    Move(u32),
    /// The new snapshot is made.
    Snapshot,
    /// No round is left.
    Over,
}

/// How many rounds an epoch has: three for each step, and the snapshot.
#[tactic(auto, using(crate::proofs::StageSteps::stage_steps))]
pub fn rounds(epoch: &Epoch) -> u32
    ensures { result ≡ rounds_of bead_plan epoch.now }
{
    3 * span(epoch) + 1
}

/// What a round of an epoch does.
#[tactic(auto, using(crate::proofs::StageSteps::stage_steps))]
pub fn stage_of(epoch: &Epoch, round: u32) -> Stage
    ensures { result ≡ stage_of bead_plan epoch.now round }
{
    let steps = span(epoch);
    if 3 * steps < round {
        return Stage::Over;
    }
    if 3 * steps == round {
        return Stage::Snapshot;
    }
    let time = epoch.time + round / 3;
    match round % 3 {
        0 => Stage::Tell(time),
        1 => Stage::Grow(time),
        _ => Stage::Move(time),
    }
}
