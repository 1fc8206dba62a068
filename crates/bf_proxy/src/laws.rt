//! The laws of proxies. Each function does nothing, and its contract is the law.

ghost use Rattle.std.specs.Prelude.{◌≡◌, ◌≢◌, ◌<◌, ◌≤◌, ◌==◌, ◌↔◌, ◌⊎◌, ℕ, List, length, All, AllPairs, Contains, filter, flat_map, map};
ghost use Rattle.bf_id.specs.declared.shape.Shape.{Shape};
ghost use Rattle.bf_id.specs.Id.{child_of, children_of, BlockId, InShape};
ghost use Rattle.bf_id.specs.Walk.{IsBefore};
ghost use Rattle.bf_case.specs.Regrid.{heirs_by, regridded_ids, target_of};
ghost use Rattle.bf_case.specs.Wishes.{Wishes};
ghost use Rattle.bf_case.specs.declared.target.Target.{Target};
ghost use Rattle.bf_case.specs.declared.target.Target.TheVariants.{Merge};
ghost use Rattle.bf_links.specs.Links.{link_to, links_of, touching, AreLinks, ComesBefore};
ghost use Rattle.bf_links.specs.declared.link.Link.{Link};
ghost use Rattle.bf_proxy.specs.declared.proxy.Proxy.{Proxy};
ghost use Rattle.bf_proxy.specs.Joined.{joined, AgreeOnOwners};
ghost use Rattle.bf_proxy.specs.Proxies.{known_links, sources_by, AreSources};
ghost use Rattle.bf_proxy.specs.Homes.{gathered_from, home_of, made_at, near_links, outer_links, AreOthers, CanRegrid, ShareUnit};

/// Links put together are the links of both lists, where links to one leaf are one, and they rise by id.
pub fn joined_links_are_those_of_both()
    ensures rising { (more links : List Link) → AllPairs ComesBefore links → AllPairs ComesBefore (joined more links) }
    ensures both { (more links : List Link) (link : Link) → AllPairs ComesBefore more → AgreeOnOwners more links
        → (Contains (joined more links) link ↔ (Contains links link ⊎ Contains more link)) }
{}

/// The proxies that come of all leaves of a balanced map are the leaves after the regrid, each once.
pub fn the_proxies_made_are_the_new_leaves()
    ensures all { (shape : Shape) (ids : List BlockId) (w : Wishes) (owner : BlockId → ℕ)
        → flat_map (λ i. map (λ (proxy : Proxy). proxy.id) (made_at shape ids (target_of shape ids w) owner i)) ids ≡ regridded_ids shape ids w }
    ensures once { (shape : Shape) (levels : ℕ) (ids : List BlockId) (w : Wishes) → CanRegrid shape levels ids w
        → AllPairs IsBefore (regridded_ids shape ids w) }
{}

/// What a rank makes of its leaves is its part of the new ones: those whose origin it owns.
pub fn each_rank_makes_its_proxies()
    ensures { (shape : Shape) (levels : ℕ) (ids : List BlockId) (w : Wishes) (owner : BlockId → ℕ) (rank : ℕ) → CanRegrid shape levels ids w
        → flat_map (λ i. map (λ (proxy : Proxy). proxy.id) (made_at shape ids (target_of shape ids w) owner i)) (filter (λ i. owner i == rank) ids)
        ≡ filter (λ q. home_of ids owner q == rank) (regridded_ids shape ids w) }
{}

/// Of each leaf of a balanced map the proxies can be made: what is asked of the sources and of the proxies near it holds.
pub fn the_proxies_of_a_leaf_can_be_made()
    ensures sources { (owner : BlockId → ℕ) (target : Target) (i : BlockId) → AreSources target i (map (link_to owner) (sources_by target i)) }
    ensures inside { (shape : Shape) (levels : ℕ) (ids : List BlockId) (w : Wishes) (owner : BlockId → ℕ) → CanRegrid shape levels ids w
        → (i : BlockId) → All (λ (link : Link). InShape shape link.id) (near_links shape ids (target_of shape ids w) owner i) }
    ensures rising { (shape : Shape) (levels : ℕ) (ids : List BlockId) (w : Wishes) (owner : BlockId → ℕ) → CanRegrid shape levels ids w
        → (i : BlockId) → AllPairs ComesBefore (near_links shape ids (target_of shape ids w) owner i) }
    ensures others { (shape : Shape) (levels : ℕ) (ids : List BlockId) (w : Wishes) (owner : BlockId → ℕ) → CanRegrid shape levels ids w
        → (i : BlockId) → All (λ (link : Link). Contains (heirs_by (target_of shape ids w i) i) link.id → ⊥) (near_links shape ids (target_of shape ids w) owner i) }
    ensures few { (shape : Shape) (levels : ℕ) (ids : List BlockId) (w : Wishes) (owner : BlockId → ℕ) → CanRegrid shape levels ids w
        → (i : BlockId) → Contains ids i
        → All (λ q. length (touching shape q (known_links (target_of shape ids w i) i (map (link_to owner) (sources_by (target_of shape ids w i) i)) (near_links shape ids (target_of shape ids w) owner i))) ≤ 56)
        (heirs_by (target_of shape ids w i) i) }
{}

/// A proxy that comes of a leaf that is kept or refined is linked with exactly the proxies that touch it, each with the rank
/// at which it is made.
pub fn proxies_are_linked_with_all_that_touch()
    ensures { (shape : Shape) (levels : ℕ) (ids : List BlockId) (w : Wishes) (owner : BlockId → ℕ) → CanRegrid shape levels ids w
        → (i : BlockId) → Contains ids i → target_of shape ids w i ≢ Merge
        → All (λ (proxy : Proxy). proxy.links ≡ links_of shape (regridded_ids shape ids w) (home_of ids owner) proxy.id) (made_at shape ids (target_of shape ids w) owner i) }
{}

/// A proxy of eight that merge is linked so too, once it has gathered the outer links of the other seven, in any order.
pub fn gathering_completes_a_merged_proxy()
    ensures { (shape : Shape) (levels : ℕ) (ids : List BlockId) (w : Wishes) (owner : BlockId → ℕ) → CanRegrid shape levels ids w
        → (parent : BlockId) (siblings : List BlockId) → Contains ids (child_of parent 0) → target_of shape ids w (child_of parent 0) ≡ Merge → AreOthers parent siblings
        → All (λ (proxy : Proxy). (gathered_from shape ids (target_of shape ids w) owner siblings proxy).links ≡ links_of shape (regridded_ids shape ids w) (home_of ids owner) parent)
        (made_at shape ids (target_of shape ids w) owner (child_of parent 0)) }
{}

/// The outer links of each sibling can be gathered, whatever was gathered before: they are links, and what is asked of them holds.
pub fn outer_links_can_be_gathered()
    ensures valid { (shape : Shape) (levels : ℕ) (ids : List BlockId) (w : Wishes) (owner : BlockId → ℕ) → CanRegrid shape levels ids w
        → (parent i : BlockId) → Contains ids (child_of parent 0) → target_of shape ids w (child_of parent 0) ≡ Merge → Contains (children_of parent) i
        → AreLinks (outer_links shape ids (target_of shape ids w) owner i) }
    ensures few { (shape : Shape) (levels : ℕ) (ids : List BlockId) (w : Wishes) (owner : BlockId → ℕ) → CanRegrid shape levels ids w
        → (parent i : BlockId) (siblings : List BlockId) → Contains ids (child_of parent 0) → target_of shape ids w (child_of parent 0) ≡ Merge
        → Contains (children_of parent) i → All (Contains (children_of parent)) siblings
        → All (λ (proxy : Proxy). length (joined (outer_links shape ids (target_of shape ids w) owner i) (gathered_from shape ids (target_of shape ids w) owner siblings proxy).links) ≤ 56)
        (made_at shape ids (target_of shape ids w) owner (child_of parent 0)) }
    ensures agree { (shape : Shape) (levels : ℕ) (ids : List BlockId) (w : Wishes) (owner : BlockId → ℕ) → CanRegrid shape levels ids w
        → (parent i : BlockId) (siblings : List BlockId) → Contains ids (child_of parent 0) → target_of shape ids w (child_of parent 0) ≡ Merge
        → Contains (children_of parent) i → All (Contains (children_of parent)) siblings
        → All (λ (proxy : Proxy). AgreeOnOwners (outer_links shape ids (target_of shape ids w) owner i) (gathered_from shape ids (target_of shape ids w) owner siblings proxy).links)
        (made_at shape ids (target_of shape ids w) owner (child_of parent 0)) }
{}

/// The sources of a proxy are the old leaves with which it has a unit in common.
pub fn sources_are_the_leaves_that_share_the_box()
    ensures { (shape : Shape) (levels : ℕ) (ids : List BlockId) (w : Wishes) → CanRegrid shape levels ids w
        → (i j q : BlockId) → Contains ids i → Contains (heirs_by (target_of shape ids w i) i) q
        → (Contains (sources_by (target_of shape ids w i) i) j ↔ (Contains ids j × ShareUnit shape j q)) }
{}
