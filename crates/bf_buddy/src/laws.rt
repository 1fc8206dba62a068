//! Laws of buddies and of losses, each the contract of a call that does nothing.
ghost use Rattle.std.specs.Prelude.{◌≡◌, ◌≢◌, ℕ, ◌+◌, ◌-◌, ◌*◌, ◌≤◌, ◌↔◌, IsTrue, false, List, length, None};
ghost use Rattle.std.specs.List.Sorted.{IsStrictlyIncreasing};
ghost use Rattle.bf_buddy.specs.Members.{is_member, without};
ghost use Rattle.bf_buddy.specs.Buddy.{buddy_of, predecessor_of};
ghost use Rattle.bf_buddy.specs.Losses.{first_lost_of, LosesNothing};

/// Of two or more members the buddy of one is another.
#[tactic(auto, using(crate::proofs::LawLemmas::buddy_is_another))]
pub fn a_buddy_is_another()
    ensures { (members : List ℕ) (rank shift : ℕ) → IsStrictlyIncreasing members → IsTrue (is_member members rank)
        → 2 ≤ length members → buddy_of members rank shift ≢ rank }
{}

/// A lone member is its own buddy.
#[tactic(auto, using(crate::proofs::LawLemmas::lone_is_own))]
pub fn a_lone_member_is_its_buddy()
    ensures { (members : List ℕ) (rank shift : ℕ) → IsTrue (is_member members rank)
        → length members ≡ 1 → buddy_of members rank shift ≡ rank }
{}

/// The predecessor of the buddy is the member itself.
#[tactic(auto, using(crate::proofs::LawLemmas::predecessor_undoes))]
pub fn predecessors_undo_buddies()
    ensures { (members : List ℕ) (rank shift : ℕ) → IsStrictlyIncreasing members → IsTrue (is_member members rank)
        → predecessor_of members (buddy_of members rank shift) shift ≡ rank }
{}

/// The buddy of the predecessor is the member itself.
#[tactic(auto, using(crate::proofs::LawLemmas::buddy_undoes))]
pub fn buddies_undo_predecessors()
    ensures { (members : List ℕ) (rank shift : ℕ) → IsStrictlyIncreasing members → IsTrue (is_member members rank)
        → buddy_of members (predecessor_of members rank shift) shift ≡ rank }
{}

/// Shifts that differ by a multiple of the number of members less one give the same buddies.
#[tactic(auto, using(crate::proofs::LawLemmas::shifts_agree))]
pub fn shifts_come_round()
    ensures { (members : List ℕ) (rank shift turns : ℕ)
        → buddy_of members rank (shift + turns * (length members - 1)) ≡ buddy_of members rank shift }
{}

/// Without a rank that is no member the members stay the same.
#[tactic(auto, using(crate::proofs::LawLemmas::without_stranger))]
pub fn strangers_leave_no_gap()
    ensures { (members : List ℕ) (rank : ℕ) → is_member members rank ≡ false → without members rank ≡ members }
{}

/// No home is lost exactly where each filled home or its buddy lives.
#[tactic(auto, using(crate::proofs::LossLemmas::none_lost))]
pub fn nothing_is_lost_where_holders_live()
    ensures { (homes filled live : List ℕ) (shift : ℕ)
        → ((first_lost_of homes filled live shift ≡ None) ↔ LosesNothing homes filled live shift) }
{}
