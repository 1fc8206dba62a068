ghost use Rattle.std.specs.Prelude.{◌≡◌, ◌≤◌, ◌^◌, unsigned_abs};
ghost use Rattle.bf_flow.specs.Flows.{quota};

/// How many proxies go to a neighbor by the flow to it, to the nearest.
#[tactic(auto, unfolding(crate::specs::Flows::quota))]
pub fn push_quota(flow: i64) -> u32
    requires { unsigned_abs flow ≤ 2 ^ 40 }
    ensures { result ≡ quota flow }
{
    if flow > 0 {
        ((flow + 512) / 1024) as u32
    } else {
        0
    }
}
