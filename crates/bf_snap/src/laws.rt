//! Laws of a rank's two sides over all calls that change them, each the contract of a call that does nothing.
//!
//! `I` is an item and `K` a key.
ghost use Rattle.std.specs.Prelude.{◌≡◌, ℕ, false, IsTrue, List, ◌∷◌, ◌++◌};
ghost use Rattle.std.specs.List.Sorted.{IsStrictlyIncreasing};
ghost use Rattle.bf_buddy.specs.Buddy.{predecessor_of};
ghost use Rattle.bf_buddy.specs.Members.{is_member};
ghost use Rattle.bf_program.specs.Restores.{heir_of};
ghost use Rattle.bf_parts.specs.Leaves.{Kind, Leaves, AreLeaves, AreAmong, copy_at, part_of, side_at};
ghost use Rattle.bf_parts.specs.Merges.{regained};
ghost use Rattle.bf_snap.specs.Buffers.{TwoSides, heard, written};
ghost use Rattle.bf_snap.specs.Changes.{Change, after_all, has_swap};
ghost use Rattle.bf_snap.specs.Changes.Change.{Swap};

/// Only a swap changes the active side: whatever is heard, written and let go of, in any order, leaves it as it was.
pub fn only_a_swap_changes_the_active_side<I>()
    ensures { (sides : TwoSides I) (changes : List (Change I)) → has_swap changes ≡ false → (after_all sides changes).active ≡ sides.active }
{}

/// After a swap, and until the next, the active side is what was the spare side.
pub fn the_active_side_was_spare_at_the_last_swap<I>()
    ensures { (sides : TwoSides I) (before later : List (Change I)) → has_swap later ≡ false
        → (after_all sides (before ++ Swap ∷ later)).active ≡ (after_all sides before).spare }
{}

/// Until the swap a restore goes back to the snapshot agreed before, however much of the new one is made.
pub fn without_a_swap_a_restore_gives_the_snapshot_agreed_before<I>()
    ensures { (kind : Kind I) (sides : TwoSides I) (changes : List (Change I)) (shift : ℕ) (live : List ℕ) → has_swap changes ≡ false
        → regained kind (after_all sides changes).active shift live ≡ regained kind sides.active shift live }
{}

/// After the swap a restore goes back to the new snapshot: a live rank goes on with its part of the leaves that were written,
/// each owned by the heir of its home.
pub fn after_a_swap_a_restore_gives_the_new_snapshot<K, I>()
    ensures { (kind : Kind I) (leaves : Leaves K I) → AreLeaves kind leaves → (time : ℕ) (homes live : List ℕ) (shift : ℕ) (home_of : K → ℕ) (rank : ℕ)
        → IsStrictlyIncreasing homes → IsTrue (is_member homes rank) → IsTrue (is_member live rank) → AreAmong homes leaves home_of
        → (sides : TwoSides I) (before later : List (Change I)) → has_swap later ≡ false
        → (after_all sides before).spare ≡ side_at time homes shift leaves home_of rank
        → regained kind (after_all sides (before ++ Swap ∷ later)).active shift live ≡ part_of leaves (λ key. heir_of homes live shift (home_of key)) rank }
{}

/// The predecessor's part, and after it the own part with its time and homes, make the spare side whole, whatever it had.
pub fn a_part_heard_and_a_part_written_are_the_new_snapshot<K, I>()
    ensures { (leaves : Leaves K I) (time : ℕ) (homes : List ℕ) (shift : ℕ) (home_of : K → ℕ) (rank : ℕ) (sides : TwoSides I)
        → (written time homes (predecessor_of homes rank shift) (part_of leaves home_of rank) (heard (copy_at leaves home_of rank (predecessor_of homes rank shift)) sides)).spare
        ≡ side_at time homes shift leaves home_of rank }
{}
