ghost use Rattle.std.specs.Prelude.{◌≡◌, ◌≤◌, ◌^◌, ◌*◌, All, length, unsigned_abs};
ghost use Rattle.bf_flow.specs.Flows.{IsFlow, want, net_outflow, is_before, wanted_before, ask, asks_of};

use crate::push_quota;

// How many proxies a neighbor's flow brings in.
#[tactic(auto, unfolding(crate::specs::Flows::quota))]
fn want(flow: i64) -> u32
    requires { IsFlow flow }
    ensures want { result ≡ want flow }
    ensures within { result ≤ 2 ^ 22 }
{
    push_quota(-flow)
}

// The sum of the flows.
fn net_outflow(flows: &[(u32, i64)]) -> i64
    requires few { length flows.now ≤ 31 }
    requires flows { All (λ flow. IsFlow flow.1) flows.now }
    ensures net { result ≡ net_outflow flows.now }
    ensures within { unsigned_abs result ≤ 2 ^ 37 }
{
    let mut net = 0;
    for flow in flows {
        net += flow.1;
    }
    net
}

// Whether the first is served before the second.
#[tactic(auto, unfolding(crate::specs::Flows::is_before))]
fn is_before(first: (u32, i64), second: (u32, i64)) -> bool
    ensures { result ≡ is_before first second }
{
    first.1 < second.1 || (first.1 == second.1 && first.0 < second.0)
}

// What all that are served before a neighbor want.
fn wanted_before(flows: &[(u32, i64)], this: (u32, i64)) -> u32
    requires few { length flows.now ≤ 31 }
    requires flows { All (λ flow. IsFlow flow.1) flows.now }
    ensures { result ≡ wanted_before flows.now this }
{
    let mut wanted = 0;
    for other in flows {
        let more = if is_before(*other, this) {
            want(other.1)
        } else {
            0
        };
        wanted += more;
    }
    wanted
}

// What is asked of one neighbor, of as many as the net inflow brings.
fn ask(flows: &[(u32, i64)], inflow: u32, this: (u32, i64)) -> u32
    requires few { length flows.now ≤ 31 }
    requires flows { All (λ flow. IsFlow flow.1) flows.now }
    requires this { IsFlow this.1 }
    requires inflow { inflow ≡ want (net_outflow flows.now) }
    ensures { result ≡ ask flows.now this }
{
    want(this.1).min(inflow.saturating_sub(wanted_before(flows, this)))
}

/// Writes for each neighbor, a rank and the flow to it, how many proxies are asked of it: what its flow brings in, or what
/// is left of the net inflow after those that are served before it. Where nothing flows in all told, nothing is asked.
pub fn pull_ask(flows: &[(u32, i64)], asks: &mut [u32])
    requires lengths { length asks.old ≡ length flows.now }
    requires few { length flows.now ≤ 31 }
    requires flows { All (λ flow. IsFlow flow.1) flows.now }
    ensures { asks.new ≡ asks_of flows.now }
{
    let inflow = push_quota(-net_outflow(flows));
    for (place, flow) in flows.iter().enumerate() {
        asks[place] = ask(flows, inflow, *flow);
    }
}
