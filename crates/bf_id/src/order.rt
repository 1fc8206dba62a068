ghost use Rattle.bf_id.specs.Id.{
  child_of,
  id_cmp,
  level_of,
  BlockId,
  Begins,
  IsId,
};
ghost use Rattle.bf_id.specs.IdText.{text_of};
ghost use Rattle.bf_id.specs.Walk.{walk, IsBefore};
ghost use Rattle.std.specs.Cmp.{IsTotalOrder};
ghost use Rattle.std.specs.declared.cmp.Ordering.{Ordering};
ghost use Rattle.std.specs.Prelude.{◌≡◌, ◌↔◌, ◌+◌, ◌<◌, ◌≤◌, ℕ, All, AllPairs, Contains};

/// No two ids have the same text.
pub fn texts_differ()
    ensures { (i j : BlockId) → IsId i → IsId j → text_of i ≡ text_of j → i ≡ j }
{}

/// A block is the child of one block, and towards one octant.
pub fn a_child_has_one_parent()
    ensures { (p q : BlockId) (a b : ℕ) → child_of p a ≡ child_of q b → (p ≡ q) × (a ≡ b) }
{}

/// Of two ids that differ, one stands before the other.
pub fn order_is_total()
    ensures total { IsTotalOrder id_cmp }
    ensures exact { (i j : BlockId) → (id_cmp i j ≡ Ordering.Equal) ↔ (i ≡ j) }
{}

/// The walk through an octree meets the block that it starts from and each block below it, to
/// the depth that is asked for and no other, and it meets them in the order of their ids.
pub fn order_is_the_walk()
    ensures rises { (levels : ℕ) (i : BlockId) → AllPairs IsBefore (walk levels i) }
    ensures meets { (levels : ℕ) (i j : BlockId)
        → Begins i j
        → All (λ octant. octant < 8) j.digits
        → level_of j ≤ level_of i + levels
        → Contains (walk levels i) j }
    ensures only { (levels : ℕ) (i j : BlockId)
        → Contains (walk levels i) j
        → Begins i j × (level_of j ≤ level_of i + levels) }
    ensures octal { (levels : ℕ) (i j : BlockId)
        → All (λ octant. octant < 8) i.digits
        → Contains (walk levels i) j
        → All (λ octant. octant < 8) j.digits }
{}
