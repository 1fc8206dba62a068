//! Laws of items that ranks keep in parts, each the contract of a call that does nothing.
//!
//! `K` is a key, `I` an item and `L` a program's local.
ghost use Rattle.std.specs.Prelude.{◌≡◌, ◌≢◌, ℕ, ◌==◌, ◌||◌, ◌&&◌, Bool, IsTrue, true, false, AllPairs, List, ◌∷◌, None, map, filter};
ghost use Rattle.std.specs.List.{flat_map, count_by, sum_by, fold};
ghost use Rattle.std.specs.List.Sorted.{IsStrictlyIncreasing};
ghost use Rattle.bf_buddy.specs.Losses.{first_lost_of};
ghost use Rattle.bf_buddy.specs.Members.{is_member};
ghost use Rattle.bf_program.specs.declared.epoch.Epoch.{Epoch};
ghost use Rattle.bf_program.specs.Epochs.{epoch_after_commit};
ghost use Rattle.bf_program.specs.Laws.{is_holder};
ghost use Rattle.bf_program.specs.Restores.{heir_of, restored_epoch};
ghost use Rattle.bf_parts.specs.Leaves.{Kind, Leaves, AreLeaves, AreAmong, part_of, is_filled, side_at};
ghost use Rattle.bf_parts.specs.Merges.{merged, regained};
ghost use Rattle.bf_parts.specs.Sides.{saved_of, is_given};
ghost use Rattle.bf_parts.specs.Spreads.{Trio, view_at, kept_view, restored_view};
ghost use Rattle.bf_parts.specs.Views.{View, stored_of, IsHeld};
ghost use Rattle.bf_parts.specs.MergeLaws.{Precedes};
ghost use Rattle.bf_parts.specs.MoveLaws.{AreApart};
ghost use Rattle.bf_parts.specs.ViewLaws.{begun_trio};

/// A part is in rising order.
pub fn parts_rise<K, I>()
    ensures { (kind : Kind I) (leaves : Leaves K I) (owner : K → ℕ) (rank : ℕ) → AreLeaves kind leaves
        → AllPairs (Precedes kind.first (λ item. item)) (part_of leaves owner rank) }
{}

/// Where the owners are members, the parts of all members together have each leaf once, by whichever test they are counted.
#[tactic(auto, using(crate::specs::CoverLaws::parts_together))]
pub fn each_leaf_is_in_one_part<K, I>()
    ensures { (leaves : Leaves K I) (owner : K → ℕ) (test : I → Bool) (members : List ℕ) → IsStrictlyIncreasing members → AreAmong members leaves owner
        → count_by test (flat_map (part_of leaves owner) members) ≡ count_by (λ key. test (leaves.item owner key)) leaves.keys }
{}

/// Two parts merged are the items of both owners in their common order.
#[tactic(auto, using(crate::specs::MergeLaws::parts_merged))]
pub fn two_parts_merged_are_the_items_of_both<K, I>()
    ensures { (kind : Kind I) (leaves : Leaves K I) (owner : K → ℕ) (a b : ℕ) → AreLeaves kind leaves → a ≢ b
        → merged kind.first (part_of leaves owner a) (part_of leaves owner b)
        ≡ map (leaves.item owner) (filter (λ key. owner key == a || owner key == b) leaves.keys) }
{}

/// The leaves that stay at a rank, merged with those that come to it from each of the others, are its part by the new owners.
pub fn what_stays_and_what_comes_is_the_new_part<K, I>()
    ensures { (kind : Kind I) (leaves : Leaves K I) → AreLeaves kind leaves → (owner later : K → ℕ) (rank : ℕ) (peers : List ℕ)
        → AreApart (rank ∷ peers) → AreAmong (rank ∷ peers) leaves owner
        → fold (λ items peer. merged kind.first items (map (leaves.item later) (filter (λ key. later key == rank && owner key == peer) leaves.keys)))
        (map (leaves.item later) (filter (λ key. later key == rank && owner key == rank) leaves.keys)) peers
        ≡ part_of leaves later rank }
{}

/// Who is to hold a home's part of a snapshot has the items of its leaves.
pub fn holders_have_a_homes_part<K, I>()
    ensures { (time : ℕ) (homes : List ℕ) (shift : ℕ) (leaves : Leaves K I) (home_of : K → ℕ) (rank home : ℕ) → IsStrictlyIncreasing homes
        → IsTrue (is_member homes home) → IsTrue (is_holder homes shift home rank)
        → saved_of (side_at time homes shift leaves home_of rank) rank home ≡ part_of leaves home_of home }
{}

/// The homes whose part is stored are those of which a leaf is.
pub fn homes_with_a_leaf_are_stored<L, K, I>()
    ensures { (look : L → View I) (shift : ℕ) (epoch : Epoch) (is_made : Bool) (leaves : Trio K I) (owner home_of : K → ℕ) (at : ℕ → L)
        → ((rank : ℕ) → IsTrue (is_member epoch.members rank) → look (at rank) ≡ view_at shift epoch is_made leaves owner home_of rank)
        → IsHeld (is_filled leaves.agreed home_of) shift epoch.homes epoch.members
        → stored_of look (map at epoch.members) ≡ filter (is_filled leaves.agreed home_of) epoch.homes }
{}

/// A restore gives each stored part to its heir, and to no one else.
#[tactic(auto, using(crate::specs::ViewLaws::given_seen))]
pub fn each_stored_part_goes_to_its_heir<K, I>()
    ensures { (time : ℕ) (homes live : List ℕ) (shift : ℕ) (leaves : Leaves K I) (home_of : K → ℕ) (rank home : ℕ) → IsStrictlyIncreasing homes
        → IsTrue (is_member homes rank) → IsTrue (is_member live rank)
        → is_member (filter (is_given (side_at time homes shift leaves home_of rank) rank live) homes) home
        ≡ (is_member (filter (is_filled leaves home_of) homes) home && (heir_of homes live shift home == rank)) }
{}

/// A live rank goes on with its part of the same leaves, each owned by the heir of its home.
#[tactic(auto, using(crate::specs::RestoreLaws::regained_is))]
pub fn a_live_rank_goes_on_with_its_part_by_the_heirs<K, I>()
    ensures { (kind : Kind I) (leaves : Leaves K I) → AreLeaves kind leaves → (homes live : List ℕ) (shift : ℕ) (home_of : K → ℕ) (rank : ℕ) → IsStrictlyIncreasing homes
        → IsTrue (is_member homes rank) → IsTrue (is_member live rank) → AreAmong homes leaves home_of → (time : ℕ)
        → regained kind (side_at time homes shift leaves home_of rank) shift live ≡ part_of leaves (λ key. heir_of homes live shift (home_of key)) rank }
{}

/// It goes on with the items of the parts that it is given, and no others, by any test that doesn't look at owners in links.
#[tactic(auto, using(crate::specs::CoverLaws::given_back))]
pub fn a_restore_gives_what_a_rank_goes_on_with<K, I>()
    ensures { (kind : Kind I) (test : I → Bool) → ((f : ℕ → ℕ) (item : I) → test (kind.remap f item) ≡ test item)
        → (time : ℕ) (homes live : List ℕ) (shift : ℕ) (leaves : Leaves K I) (home_of : K → ℕ) (rank : ℕ) → IsStrictlyIncreasing homes
        → IsTrue (is_member homes rank) → IsTrue (is_member live rank)
        → count_by test (regained kind (side_at time homes shift leaves home_of rank) shift live)
        ≡ sum_by (λ home. count_by test (saved_of (side_at time homes shift leaves home_of rank) rank home)) (filter (is_given (side_at time homes shift leaves home_of rank) rank live) homes) }
{}

/// Where no filled home is lost, the heir of each leaf's home is live, and each filled home still has a live holder. So the
/// owners and the holders of a restore that loses nothing are among its members.
pub fn where_nothing_is_lost_heirs_are_live<K, I>()
    ensures { (leaves : Leaves K I) (homes live : List ℕ) (shift : ℕ) (home_of : K → ℕ) → IsStrictlyIncreasing homes → IsStrictlyIncreasing live
        → ((rank : ℕ) → IsTrue (is_member live rank) → IsTrue (is_member homes rank))
        → first_lost_of homes (filter (is_filled leaves home_of) homes) live shift ≡ None → AreAmong homes leaves home_of
        → AreAmong live leaves (λ key. heir_of homes live shift (home_of key)) × IsHeld (is_filled leaves home_of) shift homes live }
{}

/// What is seen of a rank's local after a restore is told in the same way as before: the agreed snapshot and its homes stay,
/// and the heirs are the owners. So one restore may follow another.
pub fn a_restore_leads_to_a_told_view<K, I>()
    ensures { (kind : Kind I) (shift : ℕ) (epoch : Epoch) (is_made : Bool) (leaves : Trio K I) (later : Leaves K I) (lives : ℕ → Bool) (owner home_of : K → ℕ) (rank : ℕ)
        → AreLeaves kind leaves.agreed → IsStrictlyIncreasing epoch.homes → IsTrue (is_member epoch.homes rank) → IsTrue (is_member (filter lives epoch.members) rank)
        → AreAmong epoch.homes leaves.agreed home_of
        → restored_view kind shift (view_at shift epoch is_made leaves owner home_of rank).active rank (filter lives epoch.members)
        ≡ view_at shift (restored_epoch lives epoch) false (begun_trio leaves.agreed later) (λ key. heir_of epoch.homes (filter lives epoch.members) shift (home_of key)) home_of rank }
{}

/// Of two restores in a row the second too goes back to the agreed snapshot of before: its owners are the heirs of the
/// homes among those who live still, whoever the first restore's heirs were.
pub fn restores_in_a_row_rest_on_the_agreed_snapshot<K, I>()
    ensures { (kind : Kind I) (shift : ℕ) (epoch : Epoch) (is_made : Bool) (leaves : Trio K I) (later : Leaves K I) (lives then_lives : ℕ → Bool) (owner home_of : K → ℕ) (rank : ℕ)
        → AreLeaves kind leaves.agreed → IsStrictlyIncreasing epoch.homes → IsTrue (is_member epoch.homes rank) → IsTrue (is_member (filter then_lives (filter lives epoch.members)) rank)
        → AreAmong epoch.homes leaves.agreed home_of
        → restored_view kind shift (restored_view kind shift (view_at shift epoch is_made leaves owner home_of rank).active rank (filter lives epoch.members)).active rank
        (filter then_lives (filter lives epoch.members))
        ≡ view_at shift (restored_epoch then_lives (restored_epoch lives epoch)) false (begun_trio leaves.agreed later)
        (λ key. heir_of epoch.homes (filter then_lives (filter lives epoch.members)) shift (home_of key)) home_of rank }
{}

/// After a commit the owners are the homes of the agreed snapshot.
#[tactic(auto, using(crate::specs::ViewLaws::kept_seen))]
pub fn a_commit_leads_to_a_told_view<K, I>()
    ensures { (shift steps interval : ℕ) (epoch : Epoch) (leaves : Trio K I) (later : Leaves K I) (owner home_of : K → ℕ) (rank : ℕ) → leaves.now ≡ leaves.new
        → kept_view (view_at shift epoch true leaves owner home_of rank)
        ≡ view_at shift (epoch_after_commit steps interval epoch) false (begun_trio leaves.new later) owner owner rank }
{}
