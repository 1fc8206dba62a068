//! Laws of flows, each the contract of a call that does nothing.
ghost use Rattle.std.specs.Prelude.{◌≡◌, ℕ, ℤ, pos, neg_ℤ, ◌≤ℤ◌, List};
ghost use Rattle.bf_flow.specs.Flows.{amount, moved_over, quota};

/// What a rank moves to a neighbor is what the neighbor moves to it, with the other sign.
#[tactic(auto, using(crate::proofs::FlowLemmas::opposite_amounts))]
pub fn flows_of_neighbors_are_opposite()
    ensures { (load other_load : ℤ) (degree other_degree : ℕ)
        → amount load degree other_load other_degree ≡ neg_ℤ (amount other_load other_degree load degree) }
{}

/// Over any list of edges, what the two ends move comes to nothing in all.
#[tactic(auto, using(crate::proofs::FlowLemmas::nothing_in_all))]
pub fn neighbors_move_nothing_in_all()
    ensures { (loads : ℕ → ℤ) (degrees : ℕ → ℕ) (edges : List (ℕ × ℕ)) → moved_over loads degrees edges ≡ pos 0 }
{}

/// Where nothing flows out, nothing is handed over.
#[tactic(auto, unfolding(crate::specs::Flows::quota))]
pub fn a_quota_is_nothing_where_nothing_flows_out()
    ensures { (flow : ℤ) → flow ≤ℤ pos 0 → quota flow ≡ 0 }
{}
