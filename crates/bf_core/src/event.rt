ghost use Rattle.std.specs.Prelude.{◌≡◌};
ghost use Rattle.bf_core.specs.Stages.{is_done, wants_memory};
ghost use Rattle.bf_core.specs.Legal.{actor};

/// How a rank arrives at an agreement.
#[derive(Clone, Copy, Debug, PartialEq, Eq)]
pub enum How {
    /// It did all rounds of the epoch.
    Done,
    /// It waits for a message that may never come, since a member died.
    Broken,
    /// It found no memory.
    Memory,
}

impl How {
    // Whether the rank did all rounds.
    pub(crate) fn is_done(self) -> bool
        ensures { result ≡ is_done self }
    {
        match self {
            How::Done => true,
            How::Broken | How::Memory => false,
        }
    }

    // Whether the rank found no memory.
    pub(crate) fn wants_memory(self) -> bool
        ensures { result ≡ wants_memory self }
    {
        match self {
            How::Memory => true,
            How::Done | How::Broken => false,
        }
    }
}

/// One atomic step of one rank.
#[derive(Clone, Copy, Debug, PartialEq, Eq)]
pub enum Event {
    /// `rank` sends a message to `to`, with so many whole blocks and this sum of cell values, modulo 2^64.
    Send {
        rank: u32,
        to: u32,
        blocks: u32,
        sum: u64,
    },
    /// `rank` takes the front of the queue from `peer`.
    Recv {
        rank: u32,
        peer: u32,
    },
    /// `rank` arrives at the agreement that ends its epoch.
    Arrive {
        rank: u32,
        how: How,
    },
    /// `rank` learns the decision and goes on, or ends.
    Leave {
        rank: u32,
    },
    /// `rank` dies.
    Die {
        rank: u32,
    },
}

impl Event {
    /// The rank that acts.
    pub fn actor(self) -> u32
        ensures { result ≡ actor self }
    {
        match self {
            Event::Send { rank, .. } | Event::Recv { rank, .. } | Event::Arrive { rank, .. } =>
                rank,
            Event::Leave { rank } | Event::Die { rank } => rank,
        }
    }
}
