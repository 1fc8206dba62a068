//! Laws of every round program, each the contract of a call that does nothing.
ghost use Rattle.std.specs.Prelude.{◌≡◌, ℕ, ◌≤◌, IsTrue, Bool, List, None, filter};
ghost use Rattle.bf_buddy.specs.Members.{is_member};
ghost use Rattle.bf_buddy.specs.Losses.{first_lost_of};
ghost use Rattle.bf_program.specs.declared.epoch.Epoch.{Epoch};
ghost use Rattle.bf_program.specs.Lockstep.{lockstep};
ghost use Rattle.bf_program.specs.Restores.{IsGivenOnce};

use crate::RankProgram;
use bf_buddy::laws::nothing_is_lost_where_holders_live;

/// From a good start the members' locals are good at the beginning of each round of the lockstep, and after the last.
pub fn the_lockstep_stays_good<P: RankProgram>()
    ensures { (setup : P.Setup) (epoch : Epoch) (start : List P.Local) (round : ℕ) → P.good setup epoch 0 start
        → round ≤ P.meanings.rounds setup epoch → P.good setup epoch round (lockstep P.meanings setup epoch start round) }
{}

/// The rounds keep which homes have a part with a block.
pub fn the_lockstep_keeps_what_is_stored<P: RankProgram>()
    ensures { (setup : P.Setup) (epoch : Epoch) (start : List P.Local) (round : ℕ) → P.good setup epoch 0 start
        → round ≤ P.meanings.rounds setup epoch
        → P.meanings.stored (lockstep P.meanings setup epoch start round) ≡ P.meanings.stored start }
{}

/// Where no part of the agreed snapshot is lost, a restore gives each part that has a block to exactly one live member.
pub fn a_restore_gives_each_part_once<P: RankProgram>()
    ensures { (setup : P.Setup) (epoch : Epoch) (round : ℕ) (locals : List P.Local) (lives : ℕ → Bool) → P.good setup epoch round locals
        → first_lost_of epoch.homes (P.meanings.stored locals) (filter lives epoch.members) (P.meanings.shift setup) ≡ None
        → (home : ℕ) → IsTrue (is_member (P.meanings.stored locals) home)
        → IsGivenOnce P.meanings setup epoch lives locals home }
{
    nothing_is_lost_where_holders_live();
}
