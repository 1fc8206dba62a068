ghost use Rattle.std.specs.Prelude.{◌≡◌, ◌&&◌};
ghost use Rattle.bf_core.specs.Stages.{is_running, is_leaving, is_awaited, has_finished_rounds, is_short, is_filled, is_dead, is_gone, goes_on, lives, after_decision};
ghost use Rattle.bf_core.specs.Places.{is_just};

use crate::How;

/// What a rank does in the present epoch.
#[derive(Clone, Copy, Debug, PartialEq, Eq)]
pub enum Stage {
    /// It does its rounds.
    Running,
    /// It has arrived, and its epoch is not decided. `filled` says whether its part of the new snapshot has a block;
    /// it is false unless the rank is done.
    Arrived { how: How, filled: bool },
    /// The epoch of its arrival is decided, and it must leave.
    Leaving,
    /// It has left an ended run.
    Ended,
    /// It has died as a member of this epoch.
    Dead,
    /// It died in an earlier epoch, and is no member.
    Gone,
}

impl Stage {
    /// Whether the rank does its rounds.
    pub fn is_running(self) -> bool
        ensures { result ≡ is_running self }
    {
        match self {
            Stage::Running => true,
            _ => false,
        }
    }

    /// Whether the rank's epoch is decided and it has not left yet.
    pub fn is_leaving(self) -> bool
        ensures { result ≡ is_leaving self }
    {
        match self {
            Stage::Leaving => true,
            _ => false,
        }
    }

    /// Whether the rank lives and has not arrived in the present epoch.
    pub fn is_awaited(self) -> bool
        ensures { result ≡ is_awaited self }
    {
        self.is_running() || self.is_leaving()
    }

    /// Whether the rank has done all rounds and arrived.
    pub fn has_finished_rounds(self) -> bool
        ensures { result ≡ has_finished_rounds self }
    {
        match self {
            Stage::Arrived { how, .. } => how.is_done(),
            _ => false,
        }
    }

    /// Whether the rank has arrived for want of memory.
    pub fn is_short(self) -> bool
        ensures { result ≡ is_short self }
    {
        match self {
            Stage::Arrived { how, .. } => how.wants_memory(),
            _ => false,
        }
    }

    /// Whether the rank's part of the new snapshot has a block.
    pub fn is_filled(self) -> bool
        ensures { result ≡ is_filled self }
    {
        match self {
            Stage::Arrived { filled, .. } => filled,
            _ => false,
        }
    }

    /// Whether the rank is a member that has died.
    pub fn is_dead(self) -> bool
        ensures { result ≡ is_dead self }
    {
        match self {
            Stage::Dead => true,
            _ => false,
        }
    }

    /// Whether the rank died in an earlier epoch.
    pub fn is_gone(self) -> bool
        ensures { result ≡ is_gone self }
    {
        match self {
            Stage::Gone => true,
            _ => false,
        }
    }

    /// Whether the rank lives and has not left an ended run.
    pub fn goes_on(self) -> bool
        ensures { result ≡ goes_on self }
    {
        match self {
            Stage::Running | Stage::Arrived { .. } | Stage::Leaving => true,
            Stage::Ended | Stage::Dead | Stage::Gone => false,
        }
    }

    /// Whether the rank lives.
    pub fn lives(self) -> bool
        ensures { result ≡ lives self }
    {
        match self {
            Stage::Dead | Stage::Gone => false,
            _ => true,
        }
    }

    // The stage once the epoch is decided.
    pub(crate) fn after_decision(self) -> Stage
        ensures { result ≡ after_decision self }
    {
        match self {
            Stage::Arrived { .. } => Stage::Leaving,
            Stage::Dead => Stage::Gone,
            _ => self,
        }
    }
}

/// How a rank stands: its stage, its scheduled death, and how many events it has had.
#[derive(Clone, Copy, Debug, PartialEq, Eq)]
pub struct Standing {
    pub stage: Stage,
    /// The rank dies once it has had so many events.
    pub death: Option<u32>,
    pub events: u64,
}

impl Standing {
    // Whether the next event is the rank's death.
    pub(crate) fn is_due(self) -> bool
        ensures { result ≡ (goes_on self.stage && is_just self.death self.events) }
    {
        match self.death {
            Some(death) => self.stage.goes_on() && u64::from(death) == self.events,
            None => false,
        }
    }
}
