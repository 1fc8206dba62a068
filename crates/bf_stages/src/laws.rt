//! Laws of stages, each the contract of a call that does nothing.
//!
//! `K` is a key, `I` an item, and `N` what a rank knows beside its items.
ghost use Rattle.std.specs.Prelude.{◌≡◌, ℕ, ◌==◌, Bool, IsTrue, true, false, All, AllPairs, List, Option, filter, map, flat_map};
ghost use Rattle.std.specs.List.{count_by};
ghost use Rattle.std.specs.List.Sorted.{IsStrictlyIncreasing};
ghost use Rattle.bf_buddy.specs.Members.{is_member};
ghost use Rattle.bf_program.specs.declared.epoch.Epoch.{Epoch};
ghost use Rattle.bf_rounds.specs.Delivering.{as_delivery};
ghost use Rattle.bf_rounds.specs.Gathering.{AreMutual};
ghost use Rattle.bf_rounds.specs.Leading.{LeadsBy, Weighs};
ghost use Rattle.bf_parts.specs.Counts.{once};
ghost use Rattle.bf_parts.specs.Leaves.{Leaves, part_of};
ghost use Rattle.bf_parts.specs.MergeLaws.{Precedes};
ghost use Rattle.bf_parts.specs.Spreads.{Trio, view_at};
ghost use Rattle.bf_parts.specs.Views.{View};
ghost use Rattle.bf_stages.specs.Moves.{Hand, GoesToPeer, hand_of, move_course, move_play};
ghost use Rattle.bf_stages.specs.Snapshots.{IsSight, sees_others, sees_paired, snapshot_course, snapshot_play};

/// Where each rank talks to whom it gives its part, the snapshot round leaves each with its own part and that of the member
/// whose buddy it is on its spare side.
pub fn the_snapshot_round_fills_the_spare_sides<K, I>()
    ensures { (sees : List ℕ → ℕ → ℕ → Bool) (shift : ℕ) (epoch : Epoch) → IsSight shift sees epoch.members
        → (leaves : Trio K I) → leaves.now ≡ leaves.new → (owner home_of : K → ℕ) → IsStrictlyIncreasing epoch.members
        → LeadsBy (as_delivery (snapshot_play sees shift epoch)) epoch.members (snapshot_course sees shift epoch leaves owner home_of)
        (view_at shift epoch false leaves owner home_of) (view_at shift epoch true leaves owner home_of) }
{}

/// Its copies weigh nothing.
pub fn copies_are_no_items<I>()
    ensures { (sees : List ℕ → ℕ → ℕ → Bool) (shift : ℕ) (epoch : Epoch) (test : I → Bool)
        → Weighs (λ (view : View I). count_by test view.items) (λ (copy : Option (List I)). 0) (as_delivery (snapshot_play sees shift epoch)) }
{}

/// It is enough to talk to one's buddy and to the one whose buddy one is.
pub fn buddies_and_predecessors_are_a_sight()
    ensures { (shift : ℕ) (members : List ℕ) → IsSight shift (sees_paired shift) members }
{}

/// A rank may talk to all others too.
pub fn all_others_are_a_sight()
    ensures { (shift : ℕ) (members : List ℕ) → IsSight shift sees_others members }
{}

/// A move in which each item goes to a peer, if not to its own rank, leaves each rank with its part by the new owners.
pub fn a_move_gives_each_rank_its_new_part<K, N, I>()
    ensures { (first : I → I → Bool) (keys : List K) (item item_after : K → I) → AllPairs (Precedes first item) keys
        → (old new : K → ℕ) (known : ℕ → N) (peers : ℕ → List ℕ) (talks : List ℕ → Hand N I → List ℕ) (going : ℕ → N → I → ℕ) (settle : ℕ → N → I → I)
        (members : List ℕ) (sees : ℕ → ℕ → Bool) → IsStrictlyIncreasing members → AreMutual members sees peers
        → ((rank : ℕ) → IsTrue (is_member members rank) → talks members (hand_of keys known rank item (λ key. old key == rank)) ≡ peers rank)
        → ((rank : ℕ) → IsTrue (is_member members rank) → All (λ key. (old key == rank) ≡ true → going rank (known rank) (item key) ≡ new key) keys)
        → ((rank : ℕ) → IsTrue (is_member members rank) → All (λ key. (new key == rank) ≡ true → settle rank (known rank) (item key) ≡ item_after key) keys)
        → All (λ key. is_member members (old key) ≡ true) keys → All (GoesToPeer first keys item old new known peers) keys
        → LeadsBy (move_play first talks going settle) members (move_course first keys item old new known peers)
        (λ rank. hand_of keys known rank item (λ key. old key == rank)) (λ rank. hand_of keys known rank item_after (λ key. new key == rank)) }
{}

/// A move loses no item and makes none, by any test that settling leaves as it is.
pub fn a_move_keeps_all_items<N, I>()
    ensures { (first : I → I → Bool) (talks : List ℕ → Hand N I → List ℕ) (going : ℕ → N → I → ℕ) (settle : ℕ → N → I → I) (test : I → Bool)
        → ((rank : ℕ) (known : N) (item : I) → test (settle rank known item) ≡ test item)
        → Weighs (λ (hand : Hand N I). count_by test hand.items) (λ (items : List I). count_by test items) (move_play first talks going settle) }
{}

// The laws below are for leaves that are refined and merge.

/// Where leaves become others at their owners, the part of the new leaves is what is made of each item of the old part.
pub fn what_is_made_of_a_part_is_the_new_part<K, I>()
    ensures { (now next : Leaves K I) (heirs : K → List K) → next.keys ≡ flat_map heirs now.keys → (owner later : K → ℕ)
        → All (λ key. All (λ heir. later heir ≡ owner key) (heirs key)) now.keys → (make : I → List I) (rank : ℕ)
        → All (λ key. (owner key == rank) ≡ true → make (now.item owner key) ≡ map (next.item later) (heirs key)) now.keys
        → flat_map make (part_of now owner rank) ≡ part_of next later rank }
{}

/// And where the others together weigh what their leaf does, so do the parts.
pub fn a_part_weighs_what_it_becomes<K, I>()
    ensures { (now next : Leaves K I) (heirs : K → List K) → next.keys ≡ flat_map heirs now.keys → (owner later : K → ℕ)
        → All (λ key. All (λ heir. later heir ≡ owner key) (heirs key)) now.keys → (test : I → Bool)
        → All (λ key. count_by test (map (next.item later) (heirs key)) ≡ once (test (now.item owner key))) now.keys → (rank : ℕ)
        → count_by test (part_of next later rank) ≡ count_by test (part_of now owner rank) }
{}

/// Where all leaves that join into one are at its owner, a part is those that join into its new leaves.
pub fn a_part_is_what_joins_into_the_new_part<K, I>()
    ensures { (now next : Leaves K I) (joining : K → List K) → now.keys ≡ flat_map joining next.keys → (owner later : K → ℕ)
        → All (λ key. All (λ old. owner old ≡ later key) (joining key)) next.keys → (rank : ℕ)
        → part_of now owner rank ≡ flat_map (λ key. map (now.item owner) (joining key)) (filter (λ key. later key == rank) next.keys) }
{}
