use bf_core::Place;

/// Where a rank is in its own account.
#[derive(Clone, Copy)]
pub enum Stand {
    /// Before its first event; it has not passed the first rounds without peers.
    Opening,
    /// In its rounds.
    Placed(Place),
    /// It has arrived.
    Arrived,
    /// It found no memory and has no local; it has not arrived.
    Failed,
    /// It has died, or has left an ended run.
    Ended,
}

/// What a turn came to.
#[derive(Clone, Copy, Debug, PartialEq, Eq)]
pub enum Turn {
    /// One event of the rank was added.
    Moved,
    /// The rank waits for a message or a decision.
    NotYet,
    /// The rank has died or has left an ended run.
    Ended,
}

// What a step of a rank that goes on came to.
#[derive(Clone, Copy)]
pub(crate) enum Step {
    // One event more: the rank stands here.
    Moved(Stand),
    // No event is offered.
    NotYet,
    // No event, for want of memory: the local is only dropped.
    Short,
}
