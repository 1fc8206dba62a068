ghost use Rattle.std.specs.Prelude.{◌≡◌, ◌≤◌};
ghost use Rattle.bf_program.specs.Epochs.{target_of, first_epoch, epoch_after_commit, epoch_after_restore};

use bf_buddy::Members;

/// An epoch: the rounds from one agreed snapshot to the next decision.
#[derive(Clone, Copy)]
pub struct Epoch {
    /// 0 at the opening, and one more after each decision that doesn't end the run. It stands still at its type's end.
    pub number: u32,
    /// The time of the agreed snapshot.
    pub time: u32,
    /// The time that the epoch runs to. Where a restore began it, this is its own time: it has no steps, and only makes the
    /// copies of the agreed snapshot again.
    pub target: u32,
    /// The ranks that take part.
    pub members: Members,
    /// The homes of the agreed snapshot.
    pub homes: Members,
    /// Whether a restore began the epoch.
    pub restored: bool,
}

/// The time to which an epoch with steps runs that begins at `time`: `interval` on, or `steps`, where the run ends.
pub fn target_of(steps: u32, interval: u32, time: u32) -> u32
    ensures { result ≡ target_of steps interval time }
{
    time.saturating_add(interval).min(steps)
}

impl Epoch {
    /// The first epoch of a run of `ranks` ranks. All of them are members and homes.
    pub fn first(ranks: u32, steps: u32, interval: u32) -> Self
        requires { ranks ≤ 32 }
        ensures { result ≡ first_epoch ranks steps interval }
    {
        Epoch {
            number: 0,
            time: 0,
            target: target_of(steps, interval, 0),
            members: Members::all(ranks),
            homes: Members::all(ranks),
            restored: false,
        }
    }

    /// The epoch after a commit of this one: the same members go on from its target, and are the homes of its snapshot.
    /// After the commit of an epoch that a restore began, this is the time from which that one began.
    pub fn after_commit(self, steps: u32, interval: u32) -> Self
        ensures { result ≡ epoch_after_commit steps interval self }
    {
        Epoch {
            number: self.number.saturating_add(1),
            time: self.target,
            target: target_of(steps, interval, self.target),
            members: self.members,
            homes: self.members,
            restored: false,
        }
    }

    /// The epoch after a restore: the live members make the copies of the snapshot that was agreed before again.
    pub fn after_restore(self, live: Members) -> Self
        ensures { result ≡ epoch_after_restore live self }
    {
        Epoch {
            number: self.number.saturating_add(1),
            target: self.time,
            members: live,
            restored: true,
            ..self
        }
    }
}
