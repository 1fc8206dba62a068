ghost use Rattle.std.specs.Prelude.{◌≡◌, ◌+◌, ◌^◌, ◌<◌, ◌≤◌};
ghost use Rattle.bf_stages.specs.Plans.{span};

use bf_program::Epoch;

/// How many steps of time an epoch makes.
#[tactic(auto, unfolding(crate::specs::Plans::span))]
pub fn span(epoch: &Epoch) -> u32
    ensures steps { result ≡ span epoch.now }
    ensures few { result ≤ 128 }
    ensures fits { epoch.now.time + result < 2 ^ 32 }
{
    epoch.target.saturating_sub(epoch.time).min(128)
}
