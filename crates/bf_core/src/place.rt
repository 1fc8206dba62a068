ghost use Rattle.std.specs.Prelude.{◌≡◌};
ghost use Rattle.bf_core.specs.Places.{next_send, next_receive, is_past};

use bf_buddy::Members;

/// Where a rank stands in the rounds of its epoch.
#[derive(Clone, Copy)]
pub enum Place {
    /// In a round, with so many of its sends and receives done. The peers are those of that round.
    Rounds {
        round: u32,
        sent: u32,
        received: u32,
        peers: Members,
    },
    /// Past the last round.
    Past,
}

impl Place {
    /// To whom the rank sends next.
    pub fn next_send(&self) -> Option<u32>
        ensures { result ≡ next_send self.now }
    {
        match self {
            Place::Rounds { sent, peers, .. } => peers.at(*sent),
            Place::Past => None,
        }
    }

    /// From whom the rank receives next, once all sends of the round are done.
    pub fn next_receive(&self) -> Option<u32>
        ensures { result ≡ next_receive self.now }
    {
        match self {
            Place::Rounds {
                sent,
                received,
                peers,
                ..
            } => {
                if *sent < peers.count() {
                    None
                } else {
                    peers.at(*received)
                }
            }
            Place::Past => None,
        }
    }

    /// Whether the rank is past the last round.
    pub fn is_past(&self) -> bool
        ensures { result ≡ is_past self.now }
    {
        match self {
            Place::Rounds { .. } => false,
            Place::Past => true,
        }
    }
}
