//! The laws of links. Each function does nothing, and its contract is the law.

ghost use Rattle.std.specs.Prelude.{◌≡◌, ◌<◌, ◌≤◌, ◌↔◌, ℕ, None, Some, List, length, All, AllPairs, Contains, map, if◌then◌else◌};
ghost use Rattle.bf_id.specs.declared.shape.Shape.{Shape};
ghost use Rattle.bf_id.specs.Id.{id_eq, BlockId, Touch};
ghost use Rattle.bf_buddy.specs.Members.{is_member};
ghost use Rattle.bf_case.specs.Balanced.{AreBalancedLeaves};
ghost use Rattle.bf_links.specs.Links.{is_owner, link_to, links_of, owner_of, owners_of, remapped, touching, with_owner, AreLinks, ComesBefore, IsLinkOf};
ghost use Rattle.bf_links.specs.Touching.{AreTouching};
ghost use Rattle.bf_links.specs.declared.link.Link.{Link};

/// In a balanced tiling a leaf touches at most 56 others, since the rim around it has room for 56 cubes half as wide, and
/// no neighbour is smaller.
pub fn a_leaf_touches_few()
    ensures { (shape : Shape) (ids : List BlockId) (i : BlockId) (near : List BlockId) → AreTouching shape ids i near → length near ≤ 56 }
{}

/// So of some leaves of a balanced map, in rising order, there are few that touch one of its leaves.
pub fn few_leaves_touch_one()
    ensures { (shape : Shape) (levels : ℕ) (ids : List BlockId) (i : BlockId) (leaves : List Link)
        → AreBalancedLeaves shape levels ids → Contains ids i
        → All (λ (leaf : Link). Contains ids leaf.id) leaves → AllPairs ComesBefore leaves
        → length (touching shape i leaves) ≤ 56 }
{}

/// Of all leaves, each with its owner, those that touch one are its links. In a balanced map they rise, and are few.
pub fn touching_leaves_are_links()
    ensures links { (shape : Shape) (ids : List BlockId) (owner : BlockId → ℕ) (i : BlockId)
        → touching shape i (map (link_to owner) ids) ≡ links_of shape ids owner i }
    ensures valid { (shape : Shape) (levels : ℕ) (ids : List BlockId) (owner : BlockId → ℕ) (i : BlockId)
        → AreBalancedLeaves shape levels ids → Contains ids i → AreLinks (links_of shape ids owner i) }
{}

/// The links of a leaf are to exactly the leaves that touch it, and two leaves are linked both ways or not at all.
pub fn links_go_both_ways()
    ensures exact { (shape : Shape) (ids : List BlockId) (owner : BlockId → ℕ) (i : BlockId) (link : Link)
        → (Contains (links_of shape ids owner i) link ↔ IsLinkOf shape ids owner i link) }
    ensures both { (shape : Shape) (ids : List BlockId) (owner : BlockId → ℕ) (i j : BlockId) → Contains ids i → Contains ids j
        → (Contains (links_of shape ids owner i) (link_to owner j) ↔ Contains (links_of shape ids owner j) (link_to owner i)) }
{}

/// Of a leaf that touches the links tell its owner, and of no other. The owners of links are the ranks below 32 that own one.
pub fn links_tell_owners()
    ensures found { (shape : Shape) (ids : List BlockId) (owner : BlockId → ℕ) (i j : BlockId) → Contains ids j → Touch shape i j
        → owner_of (links_of shape ids owner i) j ≡ Some (owner j) }
    ensures none { (shape : Shape) (ids : List BlockId) (owner : BlockId → ℕ) (i j : BlockId) → (Contains ids j → Touch shape i j → ⊥)
        → owner_of (links_of shape ids owner i) j ≡ None }
    ensures owners { (links : List Link) (rank : ℕ) → rank < 32 → is_member (owners_of links) rank ≡ is_owner links rank }
{}

/// Links that name other owners are the links of leaves that have these owners. They ask for the owners of leaves alone.
pub fn links_follow_their_owners()
    ensures remapped { (shape : Shape) (ids : List BlockId) (owner : BlockId → ℕ) (heir : ℕ → ℕ) (i : BlockId)
        → map (remapped heir) (links_of shape ids owner i) ≡ links_of shape ids (λ j. heir (owner j)) i }
    ensures changed { (shape : Shape) (ids : List BlockId) (owner : BlockId → ℕ) (j : BlockId) (rank : ℕ) (i : BlockId)
        → with_owner j rank (links_of shape ids owner i) ≡ links_of shape ids (λ k. if id_eq k j then rank else owner k) i }
    ensures alike { (shape : Shape) (ids : List BlockId) (owner other : BlockId → ℕ) (i : BlockId)
        → All (λ j. owner j ≡ other j) ids → links_of shape ids owner i ≡ links_of shape ids other i }
{}
