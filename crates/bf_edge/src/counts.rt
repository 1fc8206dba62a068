//! Counts that stand still at their last value, and the failure that they count.
ghost use Rattle.std.specs.Prelude.{◌≡◌, ◌↔◌, IsTrue, Contains};
ghost use Rattle.bf_edge.specs.Faults.{next_count};

/// An outside end has failed, and its count of faults rose.
#[derive(Clone, Copy, Debug, PartialEq, Eq)]
pub struct Failed;

pub(crate) fn counted(count: u64) -> u64
    ensures { result ≡ next_count count }
{
    count.saturating_add(1)
}

pub(crate) fn is_failing(failing: &[u32], call: u64) -> bool
    ensures { IsTrue result ↔ Contains failing.now call }
{
    failing.iter().any(|&number| u64::from(number) == call)
}
