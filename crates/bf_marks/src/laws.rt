//! The laws of marks. Each function does nothing, and its contract is the law.

ghost use Rattle.std.specs.Prelude.{◌≡◌, ◌<◌, ◌≤◌, ◌&&◌, ◌||◌, ◌↔◌, not, ℕ, true, List, Contains, IsTrue, filter, map};
ghost use Rattle.bf_id.specs.Id.{id_eq, level_of, BlockId};
ghost use Rattle.bf_id.specs.declared.shape.Shape.{Shape};
ghost use Rattle.bf_block.specs.Runs.{CanRun};
ghost use Rattle.bf_case.specs.Balanced.{AreBalancedLeaves};
ghost use Rattle.bf_case.specs.Map.{Leaf};
ghost use Rattle.bf_case.specs.Refinement.{refined_ids, refined_within};
ghost use Rattle.bf_case.specs.Regrid.{target_of};
ghost use Rattle.bf_case.specs.Wishes.{wishes_of, Wishes};
ghost use Rattle.bf_case.specs.declared.case.Case.{Case};
ghost use Rattle.bf_marks.specs.Flags.{heard_of, is_flagged, Flagged};
ghost use Rattle.bf_marks.specs.Marks.{target_by};
ghost use Rattle.bf_marks.specs.OneOwner.{after_all_rounds, after_force_rounds, links_of_all, marks_wished};
ghost use Rattle.bf_marks.specs.Wishes.{wish_of};
ghost use Rattle.bf_marks.specs.declared.wishes.Wish.TheVariants.{Coarsen, Refine};

/// In a case that can run no leaf wishes two things, so that the wishes can be told from each leaf's one.
pub fn a_leaf_wishes_one_thing()
    ensures refine { (w : Wishes) (i : BlockId) → (wish_of w i ≡ Refine ↔ IsTrue (w.finer i)) }
    ensures coarsen { (c : Case) (leaves : List Leaf) (i : BlockId) → CanRun c
        → (wish_of (wishes_of c leaves) i ≡ Coarsen ↔ IsTrue ((wishes_of c leaves).coarser i)) }
{}

/// The leaves that wish it are the first refined ones.
pub fn the_first_flags_are_the_wishes()
    ensures refined { (ids : List BlockId) (w : Wishes) → (marks_wished ids w).refined.own ≡ filter w.finer ids }
    ensures coarser { (ids : List BlockId) (w : Wishes) → (marks_wished ids w).coarser ≡ filter (λ i. not (w.finer i) && w.coarser i) ids }
{}

/// A flag that was heard is known of that leaf, and of no other leaf by that. So it doesn't matter in which order flags are
/// heard, nor how often.
pub fn what_is_heard_is_known()
    ensures { (flagged : Flagged) (i j : BlockId) → is_flagged (heard_of i flagged) j ≡ (id_eq j i || is_flagged flagged j) }
{}

/// Where one rank owns all leaves, after so many force rounds those are refined to which a chain of at most so many steps
/// leads; after as many as there are levels, where no leaf of the finest level wishes to be refined, it is all that a chain
/// leads to.
pub fn force_rounds_follow_chains()
    ensures rounds { (shape : Shape) (ids : List BlockId) (owner : BlockId → ℕ) (w : Wishes) (rounds : ℕ)
        → (after_force_rounds (links_of_all shape owner ids) rounds (marks_wished ids w)).refined.own ≡ refined_within shape ids w rounds }
    ensures settled { (shape : Shape) (levels : ℕ) (ids : List BlockId) (owner : BlockId → ℕ) (w : Wishes)
        → levels ≤ 4 → ((i : BlockId) → Contains ids i → IsTrue (w.finer i) → level_of i < levels)
        → (after_force_rounds (links_of_all shape owner ids) levels (marks_wished ids w)).refined.own ≡ refined_ids shape ids w }
{}

/// Where one rank owns all leaves of a balanced map, all rounds find what becomes of each.
pub fn one_owner_finds_the_targets()
    ensures { (shape : Shape) (levels : ℕ) (ids : List BlockId) (owner : BlockId → ℕ) (w : Wishes) (i : BlockId)
        → levels ≤ 4 → AreBalancedLeaves shape levels ids → ((i : BlockId) → Contains ids i → IsTrue (w.finer i) → level_of i < levels)
        → Contains ids i
        → target_by (after_all_rounds (links_of_all shape owner ids) levels (marks_wished ids w)) i ≡ target_of shape ids w i }
{}
