//! With whom a rank has to do in the round.
ghost use Rattle.std.specs.Prelude.{◌≡◌, ◌==◌, ◌<◌, ◌||◌, ℕ, filter};
ghost use Rattle.std.specs.List.{list_any};
ghost use Rattle.bf_buddy.specs.Members.{is_member};
ghost use Rattle.bf_id.specs.Id.{BlockId};
ghost use Rattle.bf_links.specs.Links.{is_owner};
ghost use Rattle.bf_proxy.specs.declared.proxy.Proxy.{Proxy};
ghost use Rattle.bf_migrate_rounds.specs.Calls.{plan_of};
ghost use Rattle.bf_migrate_rounds.specs.Plays.{is_two_way};

use bf_buddy::Members;
use bf_id::Id;
use bf_links::Link;
use bf_proxy::Proxy;

// Whether a rank owns one of some sources.
fn has_owner(sources: &[Link], rank: u32) -> bool
    ensures { result ≡ is_owner sources.now rank }
{
    sources.iter().any(|source| source.owner == rank)
}

// Whether a rank has one of some targets.
fn has_target(targets: &[(Id, u32)], rank: u32) -> bool
    ensures { result ≡ list_any (λ (target : BlockId × ℕ). target.1 == rank) targets.now }
{
    targets.iter().any(|target| target.1 == rank)
}

// Whether a rank owns a source of one of some proxies.
fn has_source(proxies: &[Proxy], rank: u32) -> bool
    ensures { result ≡ list_any (λ (proxy : Proxy). is_owner proxy.sources rank) proxies.now }
{
    proxies
        .iter()
        .any(|proxy| has_owner(proxy.sources.as_slice(), rank))
}

/// Whether another rank has a proxy into which a block of this rank goes, or owns a source of one of its proxies.
pub fn is_two_way(rank: u32, targets: &[(Id, u32)], proxies: &[Proxy], other: u32) -> bool
    ensures { result ≡ is_two_way (plan_of rank targets.now proxies.now) other }
{
    other != rank && (has_target(targets, other) || has_source(proxies, other))
}

// Some ranks and one more, where that is below 32.
fn with(ranks: Members, rank: u32) -> Members
    ensures { (other : ℕ) → other < 32 → is_member result other ≡ (is_member ranks other || rank == other) }
{
    if rank < 32 { ranks.with(rank) } else { ranks }
}

// Some ranks and those that have targets.
fn with_targets(ranks: Members, targets: &[(Id, u32)]) -> Members
    ensures { (other : ℕ) → other < 32
        → is_member result other ≡ (is_member ranks other || list_any (λ (target : BlockId × ℕ). target.1 == other) targets.now) }
{
    let mut found = ranks;
    for target in targets {
        found = with(found, target.1);
    }
    found
}

// Some ranks and those that own sources.
fn with_owners(ranks: Members, sources: &[Link]) -> Members
    ensures { (other : ℕ) → other < 32 → is_member result other ≡ (is_member ranks other || is_owner sources.now other) }
{
    let mut found = ranks;
    for source in sources {
        found = with(found, source.owner);
    }
    found
}

// Some ranks and those that own sources of proxies.
fn with_sources(ranks: Members, proxies: &[Proxy]) -> Members
    ensures { (other : ℕ) → other < 32
        → is_member result other ≡ (is_member ranks other || list_any (λ (proxy : Proxy). is_owner proxy.sources other) proxies.now) }
{
    let mut found = ranks;
    for proxy in proxies {
        found = with_owners(found, proxy.sources.as_slice());
    }
    found
}

// Those of some members that are among ranks.
#[tactic(auto, using(crate::proofs::CommonLemmas::common_steps))]
fn among(members: Members, ranks: Members) -> Members
    ensures { result ≡ filter (is_member ranks) members }
{
    // members are below 32, so the loop passes none by
    let _ = members.count();
    let mut common = members;
    for other in 0..32u32 {
        if members.has(other) && !ranks.has(other) {
            common = common.without(other);
        }
    }
    common
}

/// The members for which [`is_two_way`] holds, found in one pass over the targets and the proxies.
pub fn two_way(rank: u32, targets: &[(Id, u32)], proxies: &[Proxy], members: Members) -> Members
    ensures { result ≡ filter (is_two_way (plan_of rank targets.now proxies.now)) members }
{
    let _ = members.count();
    let found = with_sources(with_targets(Members::all(0), targets), proxies);
    among(members, found.without(rank))
}
