ghost use Rattle.std.specs.Prelude.{◌≡◌};
ghost use Rattle.bf_stages.specs.Plans.{rounds_of, stage_of};
ghost use Rattle.bf_forest.specs.Stages.{forest_plan};

use bf_program::Epoch;
use bf_stages::span;

/// What a round does: all step their blocks from this time, or a snapshot is made. Behind the last round all is over.
#[derive(Clone, Copy)]
pub enum Stage {
    Step { time: u32 },
    Snapshot,
    Over,
}

/// How many rounds an epoch has: one for each step, and the snapshot's.
#[tactic(auto, using(crate::specs::StageLaws::rounds_are))]
pub fn rounds(epoch: &Epoch) -> u32
    ensures { result ≡ rounds_of forest_plan epoch.now }
{
    span(epoch) + 1
}

/// What a round of an epoch does.
pub fn stage_of(epoch: &Epoch, round: u32) -> Stage
    ensures { result ≡ stage_of forest_plan epoch.now round }
{
    let steps = span(epoch);
    if round < steps {
        Stage::Step {
            time: epoch.time + round,
        }
    } else if round == steps {
        Stage::Snapshot
    } else {
        Stage::Over
    }
}
