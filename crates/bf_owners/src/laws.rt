//! Laws of owners, each the contract of a call that does nothing.
ghost use Rattle.std.specs.Prelude.{◌≡◌, ◌≤◌, ℕ, IsTrue};
ghost use Rattle.bf_world.specs.Worlds.{View, IsView, core_after};
ghost use Rattle.bf_owners.specs.Owners.{IsUnhurt, times_owned, all_ranks, live_ranks};

use bf_program::RankProgram;

/// While every member lives and none has arrived for want of memory, and once the run has finished, each unit of the domain
/// lies in exactly one piece, and so has one owner. A rank that has failed for want of memory counts until it arrives with the
/// local that it would have, though it has none: beside such a rank the others' pieces hold a unit at most once.
pub fn each_unit_has_one_owner<P: RankProgram>()
    ensures { (view : View P.Setup P.Msg P.Part) (unit : P.Spot) → IsView P.meanings view
        → IsUnhurt (core_after P.meanings view.setup view.journal) → IsTrue (P.regions.is_in_domain view.setup unit)
        → times_owned P.meanings P.regions view (all_ranks P.meanings view) unit ≡ 1 }
{}

/// Whatever has happened, the ranks that live own each unit at most once.
pub fn no_unit_has_two_live_owners<P: RankProgram>()
    ensures { (view : View P.Setup P.Msg P.Part) (unit : P.Spot) → IsView P.meanings view
        → IsTrue (P.regions.is_in_domain view.setup unit)
        → times_owned P.meanings P.regions view (live_ranks P.meanings view) unit ≤ 1 }
{}
