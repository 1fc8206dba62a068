//! The laws of the rounds that make proxies. Each function does nothing, and its contract is the law.
//!
//! They hold for every regrid of a balanced map, every list of members in rising order, and every owner map whose owners are
//! members. A round leads on in that the lockstep of a program that plays so leads from the one vector of locals to the other.
ghost use Rattle.std.specs.Prelude.{◌≡◌, ◌≤◌, ◌==◌, ◌↔◌, ℕ, All, Contains, List, filter, length, map};
ghost use Rattle.std.specs.List.Sorted.{IsStrictlyIncreasing};
ghost use Rattle.bf_id.specs.Id.{parent_of, BlockId};
ghost use Rattle.bf_id.specs.declared.shape.Shape.{Shape};
ghost use Rattle.bf_case.specs.Refinement.{is_among};
ghost use Rattle.bf_case.specs.Regrid.{regridded_ids, target_of};
ghost use Rattle.bf_case.specs.Wishes.{Wishes};
ghost use Rattle.bf_links.specs.Links.{IsLinkOf};
ghost use Rattle.bf_links.specs.declared.link.Link.{Link};
ghost use Rattle.bf_mark_rounds.specs.Neighbors.{is_own, AreOwned};
ghost use Rattle.bf_proxy.specs.Homes.{go_into, home_of, CanRegrid};
ghost use Rattle.bf_proxy.specs.Joined.{joined, AgreeOnOwners};
ghost use Rattle.bf_proxy.specs.declared.proxy.Proxy.{Proxy};
ghost use Rattle.bf_proxy_rounds.specs.Calls.{CanGather, CanMake, HasRoom};
ghost use Rattle.bf_proxy_rounds.specs.Making.{heard_homes, homes_among, homes_course, linked_proxies, linked_proxying, made_proxies, made_proxying, outer_at, outer_leaves, proxying_of, settled_marking, siblings_course, unmade_proxying, IsSourceOf};
ghost use Rattle.bf_proxy_rounds.specs.Plays.{all_gathered, homes_play, outer_told, own_homes, own_targets, siblings_play, Proxying};
ghost use Rattle.bf_proxy_rounds.specs.Views.{in_larger, viewed, viewed_course, IsProxyView, ProxyView};
ghost use Rattle.bf_rounds.specs.Delivering.{as_delivery};
ghost use Rattle.bf_rounds.specs.Leading.{LeadsBy};

/// A message of the round of homes holds exactly the sender's merging leaves, each with the rank that has the first of its
/// octet.
pub fn a_homes_message_holds_the_homes_of_all_merging_leaves()
    ensures { (shape : Shape) (levels : ℕ) (ids : List BlockId) (w : Wishes) (owner : BlockId → ℕ) (from : ℕ) → CanRegrid shape levels ids w
        → own_homes (unmade_proxying shape ids w owner from) ≡ homes_among shape ids w owner (filter (is_own owner from) ids) }
{}

/// The round of homes leads to the proxies as their ranks make them, and to what each rank heard of its neighbours' merging
/// leaves.
pub fn the_homes_round_leads_on()
    ensures { (shape : Shape) (levels : ℕ) (ids : List BlockId) (w : Wishes) (owner : BlockId → ℕ) (members : List ℕ)
        → CanRegrid shape levels ids w → IsStrictlyIncreasing members → AreOwned ids owner members
        → LeadsBy (as_delivery (homes_play shape)) members (homes_course shape ids w owner members) (unmade_proxying shape ids w owner) (made_proxying shape ids w owner) }
{}

/// A message of the round of siblings holds exactly the outer links of those merging leaves of the sender's that are not the
/// first of their octets and have it at the receiver, each for the leaf's parent.
pub fn outer_links_go_to_the_owner_of_octant_zero()
    ensures { (shape : Shape) (levels : ℕ) (ids : List BlockId) (w : Wishes) (owner : BlockId → ℕ) (from to : ℕ) → CanRegrid shape levels ids w
        → outer_told shape (made_proxying shape ids w owner from) to ≡ map (outer_at shape ids w owner) (outer_leaves shape ids w owner from to) }
{}

/// However many outer links a proxy has gathered, those of any leaf of its octet can be gathered: all are few together, and links
/// to one leaf name one rank.
pub fn outer_links_can_be_gathered()
    ensures few { (shape : Shape) (levels : ℕ) (ids : List BlockId) (w : Wishes) (owner : BlockId → ℕ) (rank : ℕ) (proxy : Proxy) → CanRegrid shape levels ids w
        → Contains (made_proxies shape ids w owner rank) proxy → (before : List BlockId) (i : BlockId) → parent_of i ≡ proxy.id
        → length (joined (outer_at shape ids w owner i).1 (all_gathered (map (outer_at shape ids w owner) before) proxy).links) ≤ 56 }
    ensures agree { (shape : Shape) (levels : ℕ) (ids : List BlockId) (w : Wishes) (owner : BlockId → ℕ) (rank : ℕ) (proxy : Proxy) → CanRegrid shape levels ids w
        → Contains (made_proxies shape ids w owner rank) proxy → (before : List BlockId) (i : BlockId) → parent_of i ≡ proxy.id
        → AgreeOnOwners (outer_at shape ids w owner i).1 (all_gathered (map (outer_at shape ids w owner) before) proxy).links }
{}

/// The round of siblings leads from the proxies as their ranks make them to proxies that have all their links.
pub fn the_siblings_round_leads_on()
    ensures { (shape : Shape) (levels : ℕ) (ids : List BlockId) (w : Wishes) (owner : BlockId → ℕ) (members : List ℕ)
        → CanRegrid shape levels ids w → IsStrictlyIncreasing members → AreOwned ids owner members
        → LeadsBy (as_delivery (siblings_play shape)) members (siblings_course shape ids w owner members) (made_proxying shape ids w owner) (linked_proxying shape ids w owner) }
{}

/// The ranks at which proxies are made are members.
pub fn proxies_are_made_at_members()
    ensures { (shape : Shape) (levels : ℕ) (ids : List BlockId) (w : Wishes) (owner : BlockId → ℕ) (members : List ℕ) → CanRegrid shape levels ids w
        → AreOwned ids owner members → AreOwned (regridded_ids shape ids w) (home_of ids owner) members }
{}

/// After both rounds a rank's proxies are the new leaves that come of its own, in their order. Each is linked with exactly the
/// new leaves that touch it, and each link names the rank at which that leaf's proxy is. Its sources are exactly the old
/// leaves with which it has a unit in common, each with its owner.
pub fn after_both_rounds_proxies_are_linked_with_all_that_touch()
    ensures new { (shape : Shape) (ids : List BlockId) (w : Wishes) (owner : BlockId → ℕ) (rank : ℕ)
        → map (λ (proxy : Proxy). proxy.id) (linked_proxies shape ids w owner rank) ≡ filter (λ q. home_of ids owner q == rank) (regridded_ids shape ids w) }
    ensures linked { (shape : Shape) (ids : List BlockId) (w : Wishes) (owner : BlockId → ℕ) (rank : ℕ)
        → All (λ (proxy : Proxy). (link : Link) → Contains proxy.links link ↔ IsLinkOf shape (regridded_ids shape ids w) (home_of ids owner) proxy.id link)
        (linked_proxies shape ids w owner rank) }
    ensures sources { (shape : Shape) (levels : ℕ) (ids : List BlockId) (w : Wishes) (owner : BlockId → ℕ) (rank : ℕ) → CanRegrid shape levels ids w
        → All (λ (proxy : Proxy). (source : Link) → Contains proxy.sources source ↔ IsSourceOf shape ids owner proxy.id source) (linked_proxies shape ids w owner rank) }
{}

/// A local may hold more than homes and proxies, and have the rank, the links and the marks elsewhere. Where they can be read in it, and
/// its homes and proxies be replaced alone, what the rounds lead to, they lead to in such locals.
pub fn proxies_in_a_larger_local_lead_on<L>()
    ensures homes { (view : ProxyView L) (shape : Shape) (ids : List BlockId) (w : Wishes) (owner : BlockId → ℕ) (with : ℕ → List Link → List Proxy → L)
        → IsProxyView view shape ids w owner with → (members : List ℕ) (after : ℕ → Proxying)
        → LeadsBy (as_delivery (homes_play shape)) members (homes_course shape ids w owner members) (unmade_proxying shape ids w owner) after
        → LeadsBy (viewed view (homes_play shape)) members (viewed_course with (homes_course shape ids w owner members))
        (in_larger with (unmade_proxying shape ids w owner)) (in_larger with after) }
    ensures siblings { (view : ProxyView L) (shape : Shape) (ids : List BlockId) (w : Wishes) (owner : BlockId → ℕ) (with : ℕ → List Link → List Proxy → L)
        → IsProxyView view shape ids w owner with → (members : List ℕ) (after : ℕ → Proxying)
        → LeadsBy (as_delivery (siblings_play shape)) members (siblings_course shape ids w owner members) (made_proxying shape ids w owner) after
        → LeadsBy (viewed view (siblings_play shape)) members (viewed_course with (siblings_course shape ids w owner members))
        (in_larger with (made_proxying shape ids w owner)) (in_larger with after) }
{}

/// Whatever a rank has heard and made, its targets are those of the new leaves into which its own leaves go, by rising id, each
/// once and with the rank at which its proxy is made.
pub fn own_targets_are_where_leaves_go()
    ensures { (shape : Shape) (levels : ℕ) (ids : List BlockId) (w : Wishes) (owner : BlockId → ℕ) (homes : List Link) (proxies : List Proxy) (rank : ℕ) → CanRegrid shape levels ids w
        → own_targets (proxying_of shape ids w owner homes proxies rank)
        ≡ map (λ q. (q, home_of ids owner q)) (filter (is_among (go_into (target_of shape ids w) (filter (is_own owner rank) ids))) (regridded_ids shape ids w)) }
{}

/// Of the leaves of a rank that has heard its neighbours' homes the proxies can be made.
pub fn a_rank_can_make_its_proxies()
    ensures { (shape : Shape) (levels : ℕ) (ids : List BlockId) (w : Wishes) (owner : BlockId → ℕ) (proxies : List Proxy) (rank : ℕ) → CanRegrid shape levels ids w
        → CanMake shape (proxying_of shape ids w owner (heard_homes shape ids w owner rank) proxies rank) }
{}

/// Below each leaf of a rank's that is refined there is room.
pub fn a_rank_has_room()
    ensures { (shape : Shape) (levels : ℕ) (ids : List BlockId) (w : Wishes) (owner : BlockId → ℕ) (rank : ℕ) → CanRegrid shape levels ids w
        → All (HasRoom (settled_marking shape ids w owner rank).marks) (settled_marking shape ids w owner rank).marks.leaves }
{}

/// Whatever leaves' outer links the proxies that a rank made have gathered, those of any leaves can be gathered.
pub fn a_rank_can_gather()
    ensures { (shape : Shape) (levels : ℕ) (ids : List BlockId) (w : Wishes) (owner : BlockId → ℕ) (rank : ℕ) (before leaves : List BlockId) → CanRegrid shape levels ids w
        → CanGather (map (outer_at shape ids w owner) leaves) (map (all_gathered (map (outer_at shape ids w owner) before)) (made_proxies shape ids w owner rank)) }
{}
