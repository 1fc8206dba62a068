//! The laws of the round in which blocks go to where their proxies are. Each function does nothing, and its contract is the law.
//!
//! They hold for every case that can run and every time that regrids, every list of members in rising order, and any owners of the
//! leaves before the regrid and after it that are members. So they serve where new leaves stay with their sources' owners, and where
//! they move on.
ghost use Rattle.std.specs.Prelude.{◌≡◌, ◌≢◌, ◌⊎◌, ◌↔◌, ℕ, All, Bool, Contains, IsTrue, List, flat_map, true};
ghost use Rattle.std.specs.List.{count_by};
ghost use Rattle.std.specs.List.Sorted.{IsStrictlyIncreasing};
ghost use Rattle.bf_id.specs.Id.{BlockId};
ghost use Rattle.bf_buddy.specs.Members.{is_member};
ghost use Rattle.bf_case.specs.declared.case.Case.{Case};
ghost use Rattle.bf_case.specs.Map.{ids_of};
ghost use Rattle.bf_case.specs.Model.{model_at, regrids};
ghost use Rattle.bf_block.specs.declared.cargo.Cargo.{Cargo};
ghost use Rattle.bf_block.specs.Block.{BlockValue, IsModels};
ghost use Rattle.bf_block.specs.Runs.{CanRun};
ghost use Rattle.bf_mark_rounds.specs.Neighbors.{AreOwned};
ghost use Rattle.bf_migrate.specs.Boxes.{boxes_in, IsHalved};
ghost use Rattle.bf_migrate.specs.Giving.{all_sent, StandBefore};
ghost use Rattle.bf_migrate.specs.Lots.{AreBlocksOf, Makes};
ghost use Rattle.bf_migrate.specs.Targets.{AreTargets};
ghost use Rattle.bf_rounds.specs.Leading.{Conserves, LeadsBy};
ghost use Rattle.bf_migrate_rounds.specs.Boxes.{boxes_held};
ghost use Rattle.bf_migrate_rounds.specs.Calls.{CanPack, CanUnpack};
ghost use Rattle.bf_migrate_rounds.specs.Holdings.{blocks_in, on_hand, Holdings, Migrating};
ghost use Rattle.bf_migrate_rounds.specs.Plays.{is_two_way, migrate_play, packed};
ghost use Rattle.bf_migrate_rounds.specs.Shares.{cargo_told, held_after, held_before, migrating_after, migrating_before, migrating_course, new_ids, old_ids, plan_at, two_way_peers, Flows, IsCargoFor};
ghost use Rattle.bf_migrate_rounds.specs.Views.{viewed_migrating, viewed_migration, IsMigrateView, MigrateView};

/// The round leads from the model's blocks before the regrid, at the owners of its leaves, to those after it, at the owners of the
/// new leaves, each linked with all that touch it.
pub fn a_migration_leads_on()
    ensures { (c : Case) (time : ℕ) (owner later : BlockId → ℕ) (members : List ℕ) → CanRun c → IsTrue (regrids c time)
        → IsStrictlyIncreasing members → AreOwned (old_ids c time) owner members → AreOwned (new_ids c time) later members
        → LeadsBy migrate_play members (migrating_course c time owner later members)
        (migrating_before c time owner later) (migrating_after c time owner later) }
{}

/// The peers of a rank are the other members to which one of its leaves goes, or of which a leaf goes to it. So they are peers of
/// each other, and stand in rising order.
pub fn two_way_peers_see_each_other()
    ensures flows { (c : Case) (time : ℕ) (owner later : BlockId → ℕ) (rank other : ℕ) → CanRun c → IsTrue (regrids c time)
        → (IsTrue (is_two_way (plan_at c time owner later rank) other)
        ↔ ((other ≢ rank) × (Flows c time owner later rank other ⊎ Flows c time owner later other rank))) }
    ensures rising { (c : Case) (time : ℕ) (owner later : BlockId → ℕ) (members : List ℕ) (rank : ℕ) → CanRun c → IsTrue (regrids c time)
        → IsStrictlyIncreasing members → IsTrue (is_member members rank) → IsStrictlyIncreasing (two_way_peers c time owner later members rank) }
    ensures others { (c : Case) (time : ℕ) (owner later : BlockId → ℕ) (members : List ℕ) (rank : ℕ) → CanRun c → IsTrue (regrids c time)
        → IsTrue (is_member members rank)
        → All (λ peer. IsTrue (is_member members peer) × (peer ≢ rank)) (two_way_peers c time owner later members rank) }
    ensures symmetric { (c : Case) (time : ℕ) (owner later : BlockId → ℕ) (members : List ℕ) (rank peer : ℕ) → CanRun c → IsTrue (regrids c time)
        → IsTrue (is_member members rank) → IsTrue (is_member members peer)
        → IsTrue (is_member (two_way_peers c time owner later members rank) peer)
        → IsTrue (is_member (two_way_peers c time owner later members peer) rank) }
{}

/// A message holds exactly the cargo that the sender's leaves give to the receiver's new ones.
pub fn a_migration_message_holds_the_cargo_for_the_receivers_proxies()
    ensures { (c : Case) (time : ℕ) (owner later : BlockId → ℕ) (from to : ℕ) (cargo : Cargo) → CanRun c → IsTrue (regrids c time)
        → (Contains (cargo_told c time owner later from to) cargo ↔ IsCargoFor c time owner later from to cargo) }
{}

/// Before the round a rank's blocks can become cargo: its targets are the proxies into which they go. The cargo is all that they
/// give, each to the rank of its proxy.
pub fn blocks_can_be_packed()
    ensures before { (c : Case) (time : ℕ) (owner later : BlockId → ℕ) (rank : ℕ) → CanRun c → IsTrue (regrids c time)
        → StandBefore c time (blocks_in (held_before c time owner later rank).blocks) }
    ensures targets { (c : Case) (time : ℕ) (owner later : BlockId → ℕ) (rank : ℕ) → CanRun c → IsTrue (regrids c time)
        → AreTargets later (blocks_in (held_before c time owner later rank).blocks) (plan_at c time owner later rank).targets }
    ensures cargo { (c : Case) (time : ℕ) (owner later : BlockId → ℕ) (rank : ℕ) → CanRun c → IsTrue (regrids c time)
        → (packed (plan_at c time owner later rank) (held_before c time owner later rank)).cargo
        ≡ all_sent later (blocks_in (held_before c time owner later rank).blocks) }
{}

/// What all members give to a rank makes the blocks of its proxies, and so does what the rank has on hand at the end of the round.
pub fn all_cargo_makes_its_proxies()
    ensures given { (c : Case) (time : ℕ) (owner later : BlockId → ℕ) (members : List ℕ) (rank : ℕ) → CanRun c → IsTrue (regrids c time)
        → IsStrictlyIncreasing members → AreOwned (old_ids c time) owner members → AreOwned (new_ids c time) later members
        → Makes c time (plan_at c time owner later rank).proxies (flat_map (λ from. cargo_told c time owner later from rank) members) }
    ensures on_hand { (c : Case) (time : ℕ) (owner later : BlockId → ℕ) (members : List ℕ) (rank : ℕ) → CanRun c → IsTrue (regrids c time)
        → IsStrictlyIncreasing members → AreOwned (old_ids c time) owner members → AreOwned (new_ids c time) later members
        → IsTrue (is_member members rank)
        → Makes c time (plan_at c time owner later rank).proxies (on_hand (packed (plan_at c time owner later rank)
        ((migrating_course c time owner later members).heard rank (two_way_peers c time owner later members rank)).holds)) }
{}

/// On the way and at its end a rank's blocks can become cargo. At the end all that it has on hand then can become the blocks of its
/// proxies.
pub fn ranks_can_pack_and_unpack()
    ensures sent { (c : Case) (time : ℕ) (owner later : BlockId → ℕ) (members : List ℕ) (rank : ℕ) (done : List ℕ) → CanRun c → IsTrue (regrids c time)
        → CanPack (plan_at c time owner later rank).targets ((migrating_course c time owner later members).sent rank done).holds.blocks }
    ensures heard { (c : Case) (time : ℕ) (owner later : BlockId → ℕ) (members : List ℕ) (rank : ℕ) (done : List ℕ) → CanRun c → IsTrue (regrids c time)
        → CanPack (plan_at c time owner later rank).targets ((migrating_course c time owner later members).heard rank done).holds.blocks }
    ensures on_hand { (c : Case) (time : ℕ) (owner later : BlockId → ℕ) (members : List ℕ) (rank : ℕ) → CanRun c → IsTrue (regrids c time)
        → IsStrictlyIncreasing members → AreOwned (old_ids c time) owner members → AreOwned (new_ids c time) later members
        → IsTrue (is_member members rank)
        → CanUnpack (plan_at c time owner later rank).proxies (on_hand (packed (plan_at c time owner later rank)
        ((migrating_course c time owner later members).heard rank (two_way_peers c time owner later members rank)).holds)) }
{}

/// The new leaves are those of the model after the regrid, and blocks of the model that cargo makes for a rank's proxies are those
/// that the rank has after the round.
pub fn what_cargo_makes_is_the_models()
    ensures leaves { (c : Case) (time : ℕ) → IsTrue (regrids c time) → ids_of (model_at c time true) ≡ new_ids c time }
    ensures blocks { (c : Case) (time : ℕ) (owner later : BlockId → ℕ) (rank : ℕ) (blocks : List BlockValue) → CanRun c → IsTrue (regrids c time)
        → AreBlocksOf c time (plan_at c time owner later rank).proxies blocks → All IsModels blocks
        → blocks ≡ blocks_in (held_after c time owner later rank).blocks }
{}

/// No box comes or goes: a send leaves each where it was or moves it to the message, what is heard is held, and the blocks at the
/// end have the boxes of the cargo. What is counted of a box is to be counted of its eight children together, as whether it holds
/// a unit of the domain.
pub fn boxes_stay_on_the_way()
    ensures { (c : Case) (time : ℕ) (owner later : BlockId → ℕ) (members : List ℕ) (test : BlockId → Bool) → CanRun c → IsTrue (regrids c time)
        → IsStrictlyIncreasing members → AreOwned (old_ids c time) owner members → AreOwned (new_ids c time) later members → IsHalved test
        → Conserves (λ (local : Migrating). count_by test (boxes_held local.holds)) (λ cargo. count_by test (boxes_in cargo)) members
        (migrating_course c time owner later members) (migrating_after c time owner later) }
{}

/// A local may hold more than blocks and cargo, and have the plan elsewhere. Where that can be read in it, and its holdings be
/// replaced alone, the round leads on in such locals; at its end they may let go of the plan.
pub fn a_migration_in_a_larger_local_leads_on<L>()
    ensures { (view : MigrateView L) (c : Case) (time : ℕ) (owner later : BlockId → ℕ) (members : List ℕ) (with with_after : ℕ → Holdings → L)
        → IsMigrateView view (plan_at c time owner later) with with_after
        → LeadsBy migrate_play members (migrating_course c time owner later members)
        (migrating_before c time owner later) (migrating_after c time owner later)
        → LeadsBy (viewed_migration view) members (viewed_migrating with (migrating_course c time owner later members))
        (λ rank. with rank (held_before c time owner later rank)) (λ rank. with_after rank (held_after c time owner later rank)) }
{}
