use bf_core::Outcome;
use bf_program::Epoch;

/// How a rank arrives at the agreement, with what it brings.
#[derive(Debug, Drop)]
pub enum Arrival<T> {
    /// All rounds are done. `filled` says whether the rank's part of the new snapshot has a block; the parcel is there
    /// in the last epoch alone.
    Done { filled: bool, parcel: Option<T> },
    /// For want of memory.
    Memory,
}

/// What a receive gets.
#[derive(Debug, Drop)]
pub enum Got<M> {
    Message(M),
    /// Nothing is there, every member lives, and none has arrived for want of memory.
    NotYet,
    /// Nothing is there, and a member is dead: the rank has arrived broken.
    Broken,
    /// Nothing is there, every member lives, and one has arrived for want of memory.
    Short,
}

/// What a leave leads to.
#[derive(Clone, Copy)]
pub enum Left {
    /// The next epoch.
    Run(Epoch),
    /// The end of the run.
    Ended(Outcome),
    /// The epoch of the arrival is not decided.
    NotYet,
}
