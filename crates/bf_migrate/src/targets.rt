//! The proxies into which blocks go, by rising id, each with its rank.
ghost use Rattle.std.specs.Prelude.{◌≡◌, ℕ, Contains, IfNone, IfSome};
ghost use Rattle.bf_id.specs.Id.{BlockId};
ghost use Rattle.bf_migrate.specs.Targets.{ids_in, AreRanked, AreRising};

use bf_id::Id;

/// The rank of a proxy, if it is among the targets.
pub fn rank_of(targets: &[(Id, u32)], id: Id) -> Option<u32>
    requires { AreRising targets.now }
    ensures some { IfSome result (λ _. Contains (ids_in targets.now) id) }
    ensures rank { (rank : BlockId → ℕ) → AreRanked rank targets.now → IfSome result (λ r. r ≡ rank id) }
    ensures none { IfNone result (Contains (ids_in targets.now) id → ⊥) }
{
    match targets.binary_search_by_key(&id, |target| target.0) {
        Ok(place) => Some(targets[place].1),
        Err(_) => None,
    }
}
