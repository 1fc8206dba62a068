//! The laws of the rounds that mark leaves. Each function does nothing, and its contract is the law.
//!
//! They hold for every list of members in rising order, and every owner map whose owners are members. A round leads on in that
//! the lockstep of a program that plays so leads from the one vector of locals to the other.
ghost use Rattle.std.specs.Prelude.{◌≡◌, ◌<◌, ◌≤◌, ◌⊎◌, ◌↔◌, ℕ, suc, All, AllPairs, Bool, Contains, IsTrue, List, [], ◌∷◌, filter, length, map};
ghost use Rattle.std.specs.List.{list_all};
ghost use Rattle.std.specs.List.Sorted.{IsStrictlyIncreasing};
ghost use Rattle.bf_id.specs.Id.{child_of, children_of, level_of, parent_of, root_id, BlockId};
ghost use Rattle.bf_id.specs.Walk.{IsBefore};
ghost use Rattle.bf_id.specs.declared.shape.Shape.{Shape};
ghost use Rattle.bf_program.specs.Meanings.{Meanings};
ghost use Rattle.bf_program.specs.declared.epoch.Epoch.{Epoch};
ghost use Rattle.bf_case.specs.Balanced.{AreBalancedLeaves};
ghost use Rattle.bf_case.specs.Case.{IsValid};
ghost use Rattle.bf_case.specs.Map.{ids_of, Leaf};
ghost use Rattle.bf_case.specs.Merging.{merges};
ghost use Rattle.bf_case.specs.Model.{model_at};
ghost use Rattle.bf_case.specs.Refinement.{is_among, refined_ids, refined_within, Chain};
ghost use Rattle.bf_case.specs.Regrid.{target_of};
ghost use Rattle.bf_case.specs.Rows.{second_child, two_roots};
ghost use Rattle.bf_case.specs.Wishes.{wishes_of, Wishes};
ghost use Rattle.bf_case.specs.declared.case.Case.{Case};
ghost use Rattle.bf_case.specs.declared.target.Target.TheVariants.{Keep, Refine};
ghost use Rattle.bf_mark_rounds.specs.AllRounds.{all_plays, KnowTargets};
ghost use Rattle.bf_mark_rounds.specs.ChainRow.{chain_ids, chain_marks, chain_wishes};
ghost use Rattle.bf_mark_rounds.specs.FirstRound.{first_course, first_play, marked_at, unmarked_at, wished_at, wished_course, Beginning, Wishing};
ghost use Rattle.bf_mark_rounds.specs.Keeping.{CanBeMarked, HasLeaves, Keeps};
ghost use Rattle.bf_mark_rounds.specs.Neighbors.{is_near, is_neighbor, is_other, is_own, AreOwned};
ghost use Rattle.bf_mark_rounds.specs.Plays.{flag_play, force_play, force_told, last_force_play, level_told, marking_course, marking_peers, may_play, merges_play};
ghost use Rattle.bf_mark_rounds.specs.Sequences.{after_rounds, LeadThrough, PlaysFrom};
ghost use Rattle.bf_mark_rounds.specs.Shares.{forced_after, found_below, marking_at, may_merge_in, mays_below, next_level, share, told_after, Marked, Marking, StopsAbove};
ghost use Rattle.bf_mark_rounds.specs.Views.{viewed, viewed_course, IsMarkView, MarkView};
ghost use Rattle.bf_marks.specs.Marks.{target_by, MarksValue};
ghost use Rattle.bf_marks.specs.declared.flag.Flag.TheVariants.{May, Merges, Refined};
ghost use Rattle.bf_marks.specs.declared.flag.Flag.{Flag};
ghost use Rattle.bf_rounds.specs.Delivering.{as_delivery};
ghost use Rattle.bf_rounds.specs.Gathering.{Play};
ghost use Rattle.bf_rounds.specs.Leading.{LeadsBy};

/// The peers of a rank are the other members that own a leaf which touches one of its own, in the members' order.
pub fn peers_are_neighbors()
    ensures { (shape : Shape) (ids : List BlockId) (w : Wishes) (owner : BlockId → ℕ) (told all : Marked) (members : List ℕ) (rank : ℕ)
        → marking_peers members (marking_at shape ids w owner told all rank) ≡ filter (is_neighbor shape ids owner rank) members }
{}

/// A force round leads from the flags that chains of so many steps make to those of chains of one step more. Before it each rank has
/// been told those of one step less, of leaves that touch its own; after it, those that the round began with.
pub fn a_force_round_leads_on()
    ensures { (shape : Shape) (ids : List BlockId) (w : Wishes) (owner : BlockId → ℕ) (rounds : ℕ) (members : List ℕ)
        → AllPairs IsBefore ids → IsStrictlyIncreasing members → AreOwned ids owner members
        → LeadsBy (as_delivery force_play) members
        (marking_course shape ids w owner Refined force_play (told_after shape ids w rounds) (forced_after shape ids w rounds) members)
        (marking_at shape ids w owner (told_after shape ids w rounds) (forced_after shape ids w rounds))
        (marking_at shape ids w owner (told_after shape ids w (suc rounds)) (forced_after shape ids w (suc rounds))) }
{}

/// Before the first force round a rank has no marks: it makes them of its leaves' wishes when it first tells of them, hears of others
/// or ends the round. The round leads to what it leads to from the marks of the wishes, however it ends: as a force round, or as the
/// last one where there is one level.
pub fn the_first_force_round_leads_on()
    ensures { (shape : Shape) (ids : List BlockId) (w : Wishes) (owner : BlockId → ℕ) (finish : Marking → Marking) (members : List ℕ) (after : ℕ → Marking)
        → LeadsBy (as_delivery (flag_play Refined force_told finish)) members (wished_course shape ids w owner finish members) (wished_at shape ids w owner) after
        → LeadsBy (first_play finish) members (first_course shape ids w owner finish members) (unmarked_at shape ids w owner) (marked_at shape ids w owner after) }
{}

/// After so many force rounds a rank's refined leaves are those of its own to which a chain of at most so many steps leads, and it
/// has heard of those of others that touch its own to which one of fewer steps leads.
pub fn force_rounds_follow_chains()
    ensures own { (shape : Shape) (ids : List BlockId) (w : Wishes) (owner : BlockId → ℕ) (rounds rank : ℕ) (i : BlockId)
        → (Contains (share shape ids w owner (told_after shape ids w rounds) (forced_after shape ids w rounds) rank).refined.own i
        ↔ (IsTrue (is_own owner rank i) × (steps : ℕ) × (steps ≤ rounds) × Chain shape ids w steps i)) }
    ensures heard { (shape : Shape) (ids : List BlockId) (w : Wishes) (owner : BlockId → ℕ) (rounds rank : ℕ) (i : BlockId)
        → (Contains (share shape ids w owner (told_after shape ids w rounds) (forced_after shape ids w rounds) rank).refined.heard i
        ↔ (IsTrue (is_other shape ids owner rank i) × (steps : ℕ) × (steps < rounds) × Chain shape ids w steps i)) }
{}

/// As many force rounds as there are levels are enough: then a rank's own refined leaves are the model's, and so are those of others
/// that it was told of.
pub fn as_many_force_rounds_as_levels_are_enough()
    ensures own { (shape : Shape) (ids : List BlockId) (w : Wishes) (owner : BlockId → ℕ) (levels rank : ℕ) → levels ≤ 4 → StopsAbove ids w levels
        → (share shape ids w owner (told_after shape ids w levels) (forced_after shape ids w levels) rank).refined.own ≡ filter (is_own owner rank) (refined_ids shape ids w) }
    ensures heard { (shape : Shape) (ids : List BlockId) (w : Wishes) (owner : BlockId → ℕ) (before rank : ℕ) → suc before ≤ 4 → StopsAbove ids w (suc before)
        → (share shape ids w owner (told_after shape ids w (suc before)) (forced_after shape ids w (suc before)) rank).refined.heard
        ≡ filter (is_other shape ids owner rank) (refined_ids shape ids w) }
{}

/// A force round's message holds exactly the refined ones of the sender's leaves that touch one of the receiver's.
pub fn a_force_round_tells_refined_leaves_beside_the_receivers()
    ensures { (shape : Shape) (ids : List BlockId) (w : Wishes) (owner : BlockId → ℕ) (rounds from to : ℕ) (i : BlockId) → AllPairs IsBefore ids
        → (Contains (force_told (marking_at shape ids w owner (told_after shape ids w rounds) (forced_after shape ids w rounds) from) to) i
        ↔ (IsTrue (is_own owner from i) × IsTrue (is_near shape ids owner to i) × Contains (refined_within shape ids w rounds) i)) }
{}

/// The messages of a level's two rounds hold exactly those of the sender's leaves of that level that may merge, and that merge.
pub fn a_level_tells_its_flags()
    ensures may { (shape : Shape) (ids : List BlockId) (w : Wishes) (owner : BlockId → ℕ) (before from to : ℕ) (i : BlockId)
        → (Contains (level_told May (suc before) (marking_at shape ids w owner (found_below shape ids w (suc before) (suc before)) (found_below shape ids w before (suc before)) from) to) i
        ↔ (IsTrue (is_own owner from i) × (level_of i ≡ suc before) × Contains ids i × IsTrue (may_merge_in shape ids w (refined_ids shape ids w) i))) }
    ensures merges { (shape : Shape) (ids : List BlockId) (w : Wishes) (owner : BlockId → ℕ) (before from to : ℕ) (i : BlockId)
        → (Contains (level_told Merges (suc before) (marking_at shape ids w owner (found_below shape ids w before (suc before)) (found_below shape ids w before before) from) to) i
        ↔ (IsTrue (is_own owner from i) × (level_of i ≡ suc before) × Contains ids i × IsTrue (merges shape ids w (refined_ids shape ids w) (parent_of i)))) }
{}

/// The last one of as many force rounds as there are levels leads to all leaves that the model refines, and to which leaves of the
/// finest level may merge.
pub fn the_last_force_round_leads_on()
    ensures { (shape : Shape) (ids : List BlockId) (w : Wishes) (owner : BlockId → ℕ) (before : ℕ) (members : List ℕ)
        → AreBalancedLeaves shape (suc before) ids → suc before ≤ 4 → StopsAbove ids w (suc before) → IsStrictlyIncreasing members → AreOwned ids owner members
        → LeadsBy (as_delivery (last_force_play (suc before))) members
        (marking_course shape ids w owner Refined (last_force_play (suc before)) (told_after shape ids w before) (forced_after shape ids w before) members)
        (marking_at shape ids w owner (told_after shape ids w before) (forced_after shape ids w before))
        (marking_at shape ids w owner (found_below shape ids w (suc before) (suc before)) (found_below shape ids w before (suc before))) }
{}

/// The two rounds of a level. By the first, ranks are told which of its leaves may merge, and find which do; by the second they are
/// told these, and find which leaves of the next level may merge.
pub fn the_rounds_of_a_level_lead_on()
    ensures may { (shape : Shape) (levels : ℕ) (ids : List BlockId) (w : Wishes) (owner : BlockId → ℕ) (before : ℕ) (members : List ℕ)
        → AreBalancedLeaves shape levels ids → levels ≤ 4 → IsStrictlyIncreasing members → AreOwned ids owner members
        → LeadsBy (as_delivery (may_play (suc before))) members
        (marking_course shape ids w owner May (may_play (suc before)) (found_below shape ids w (suc before) (suc before)) (found_below shape ids w before (suc before)) members)
        (marking_at shape ids w owner (found_below shape ids w (suc before) (suc before)) (found_below shape ids w before (suc before)))
        (marking_at shape ids w owner (found_below shape ids w before (suc before)) (found_below shape ids w before before)) }
    ensures merges { (shape : Shape) (levels : ℕ) (ids : List BlockId) (w : Wishes) (owner : BlockId → ℕ) (before : ℕ) (members : List ℕ)
        → AreBalancedLeaves shape levels ids → levels ≤ 4 → IsStrictlyIncreasing members → AreOwned ids owner members
        → LeadsBy (as_delivery (merges_play before)) members
        (marking_course shape ids w owner Merges (merges_play before) (found_below shape ids w before (suc before)) (found_below shape ids w before before) members)
        (marking_at shape ids w owner (found_below shape ids w before (suc before)) (found_below shape ids w before before))
        (marking_at shape ids w owner (found_below shape ids w before before) (found_below shape ids w (next_level before) before)) }
{}

/// Eight siblings merge exactly where all of them are leaves that may.
pub fn an_octet_merges_where_all_eight_may()
    ensures { (shape : Shape) (ids : List BlockId) (w : Wishes) (parent : BlockId) → All (λ i. level_of i ≤ 4) ids
        → list_all (is_among (mays_below shape ids w (refined_ids shape ids w) (level_of parent))) (children_of parent) ≡ merges shape ids w (refined_ids shape ids w) parent }
{}

/// After all rounds each rank knows what becomes of its own leaves, and of those that touch them.
pub fn marking_finds_the_targets()
    ensures { (shape : Shape) (levels : ℕ) (ids : List BlockId) (w : Wishes) (owner : BlockId → ℕ) (rank : ℕ) (i : BlockId)
        → AreBalancedLeaves shape levels ids → levels ≤ 4 → Contains ids i → IsTrue (is_own owner rank i) ⊎ IsTrue (is_near shape ids owner rank i)
        → target_by (share shape ids w owner (found_below shape ids w 0 0) (found_below shape ids w 0 0) rank) i ≡ target_of shape ids w i }
{}

/// A local may hold more than marks, and have the rank and the links elsewhere. Where they can be read in it, and its marks be replaced
/// alone, what a play of marks leads to, it leads to in such locals.
pub fn marks_in_a_larger_local_lead_on<L>()
    ensures { (view : MarkView L) (shape : Shape) (ids : List BlockId) (w : Wishes) (owner : BlockId → ℕ) (with : ℕ → MarksValue → L) → IsMarkView view shape ids owner with
        → (flag : Flag) (play : Play Marking (List BlockId)) (told all : Marked) (members : List ℕ) (after : ℕ → Marking)
        → LeadsBy (as_delivery play) members (marking_course shape ids w owner flag play told all members) (marking_at shape ids w owner told all) after
        → LeadsBy (viewed view play) members (viewed_course with (marking_course shape ids w owner flag play told all members))
        (λ rank. with rank (share shape ids w owner told all rank)) (λ rank. with rank (after rank).marks) }
{}

/// All rounds, from ranks that have no marks: as many force rounds as there are levels, and two rounds for each level from the finest to
/// level 1. They lead on one after another, so the lockstep of a program that plays them leads to marks by which each rank knows what
/// becomes of its own leaves, and of those that touch one of them.
pub fn all_rounds_find_the_targets<S, T, R>()
    ensures lead { (shape : Shape) (levels : ℕ) (ids : List BlockId) (w : Wishes) (owner : BlockId → ℕ) (members : List ℕ)
        → AreBalancedLeaves shape levels ids → 1 ≤ levels → levels ≤ 4 → StopsAbove ids w levels → IsStrictlyIncreasing members → AreOwned ids owner members
        → LeadThrough (all_plays levels) members (unmarked_at shape ids w owner)
        (marked_at shape ids w owner (marking_at shape ids w owner (found_below shape ids w 0 0) (found_below shape ids w 0 0))) }
    ensures find { (m : Meanings S Beginning (List BlockId) T R) (setup : S) (epoch : Epoch) (round : ℕ)
        (shape : Shape) (levels : ℕ) (ids : List BlockId) (w : Wishes) (owner : BlockId → ℕ)
        → AreBalancedLeaves shape levels ids → 1 ≤ levels → levels ≤ 4 → StopsAbove ids w levels → IsStrictlyIncreasing epoch.members → AreOwned ids owner epoch.members
        → PlaysFrom m setup epoch round (all_plays levels)
        → KnowTargets shape ids w owner epoch.members
        (after_rounds m setup epoch round (length (all_plays levels)) (map (unmarked_at shape ids w owner) epoch.members)) }
{}

/// As many force rounds as levels are needed. Here a chain leads from level 2 to a root, and the case has three levels. After two force
/// rounds the rank of level 1 has not heard that the root beside its leaf is refined, and takes it for one that stays; after one, the
/// root's own rank doesn't know it either.
pub fn fewer_force_rounds_are_not_enough()
    ensures map { AreBalancedLeaves two_roots.roots 3 chain_ids × StopsAbove chain_ids chain_wishes 3 }
    ensures heard { ((chain_marks 2 1).refined.heard ≡ child_of second_child 0 ∷ [])
        × (filter (is_other two_roots.roots chain_ids level_of 1) (refined_ids two_roots.roots chain_ids chain_wishes) ≡ root_id 0 ∷ child_of second_child 0 ∷ []) }
    ensures target { (target_by (chain_marks 2 1) (root_id 0) ≡ Keep) × (target_of two_roots.roots chain_ids chain_wishes (root_id 0) ≡ Refine) }
    ensures own { ((chain_marks 1 0).refined.own ≡ [])
        × (filter (is_own level_of 0) (refined_ids two_roots.roots chain_ids chain_wishes) ≡ root_id 0 ∷ []) }
{}

/// Marks don't move leaves: through each call of each round, a rank's leaves stay the same, and so do those of them that wish to be
/// coarsened, and what the marks were made of.
pub fn marking_keeps_all_items()
    ensures { (levels : ℕ) (its : Wishing) (leaves coarser : List BlockId) → All (Keeps (HasLeaves its leaves coarser)) (all_plays levels) }
{}

/// Each map of the model, with the case's wishes, is one of which the laws of the rounds speak. And what the calls of marks ask for
/// holds where the rounds begin, and stays through each call: the leaves rise, a wish stands beside each, and there are links for each.
pub fn balanced_maps_can_be_marked()
    ensures maps { (c : Case) (time : ℕ) (after : Bool) → IsValid c → AreBalancedLeaves c.roots c.levels (ids_of (model_at c time after)) × (c.levels ≤ 4) }
    ensures wishes { (c : Case) (leaves : List Leaf) → StopsAbove (ids_of leaves) (wishes_of c leaves) c.levels }
    ensures begin { (shape : Shape) (levels : ℕ) (ids : List BlockId) (w : Wishes) (owner : BlockId → ℕ) (rank : ℕ)
        → AreBalancedLeaves shape levels ids → CanBeMarked (unmarked_at shape ids w owner rank) }
    ensures go_on { (levels : ℕ) → All (Keeps CanBeMarked) (all_plays levels) }
{}
