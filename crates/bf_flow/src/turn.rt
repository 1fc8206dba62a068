ghost use Rattle.std.specs.Prelude.{◌≡◌, ◌≤◌, ◌^◌, All, length, unsigned_abs};
ghost use Rattle.bf_flow.specs.Flows.{IsLoad, IsFlow, amount_to, load_after, flows_after};

/// A neighboring rank as a turn begins: its load, and how many neighbors it has.
#[derive(Clone, Copy)]
pub struct Peer {
    pub rank: u32,
    pub load: i64,
    pub degree: u32,
}

// What moves to a peer in one turn.
#[tactic(auto, unfolding(crate::specs::Flows::amount))]
fn amount_to(load: i64, degree: u32, peer: Peer) -> i64
    requires load { IsLoad load }
    requires peer { IsLoad peer.load }
    ensures amount { result ≡ amount_to load degree peer }
    ensures within { unsigned_abs result ≤ 2 ^ 28 }
{
    (load - peer.load) / (i64::from(degree.max(peer.degree)) + 1)
}

/// One turn of a rank with its neighbors: what moves to each is added to its flow, and the load that is left is told.
pub fn flow_turn(load: i64, degree: u32, peers: &[Peer], flows: &mut [i64]) -> i64
    requires lengths { length flows.old ≡ length peers.now }
    requires few { length peers.now ≤ 31 }
    requires load { IsLoad load }
    requires peers { All (λ peer. IsLoad peer.load) peers.now }
    requires flows { All IsFlow flows.old }
    ensures left { result ≡ load_after load degree peers.now }
    ensures flows { flows.new ≡ flows_after load degree peers.now flows.old }
{
    let mut left = load;
    for (place, peer) in peers.iter().enumerate() {
        let amount = amount_to(load, degree, *peer);
        flows[place] += amount;
        left -= amount;
    }
    left
}
