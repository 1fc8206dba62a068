//! The proxies that come of own leaves.
ghost use Rattle.std.specs.Prelude.{◌≡◌, ◌<◌, ◌++◌, ◌∷◌, [], AllPairs, IfOk, length, map};
ghost use Rattle.bf_case.specs.declared.target.Target.TheVariants.{Merge};
ghost use Rattle.bf_id.specs.Id.{children_of, level_of};
ghost use Rattle.bf_id.specs.Shape.{IsShape};
ghost use Rattle.bf_links.specs.Links.{link_to, ComesBefore};
ghost use Rattle.bf_proxy_rounds.specs.Calls.{knowing, proxies_by, sibling_by, sources_of, CanMake, IsMakable};
ghost use Rattle.bf_proxy_rounds.specs.Plays.{with_made};

use crate::going::{parent_of, sibling_owner};
use crate::homes::own_homes;
use crate::near::near_known;
use bf_case::Target;
use bf_id::{Id, Shape};
use bf_links::{Link, Memory};
use bf_marks::{HasLinks, Marks};
use bf_proxy::{Proxy, make};
use std::alloc::Global;

// The eight leaves that merge into a parent, each with its rank by an own one's links.
fn octet_sources(alloc: Global, rank: u32, parent: Id, links: &[Link]) -> Result<Vec<Link>, Memory>
    requires { level_of parent < 4 }
    ensures { IfOk result (λ sources. sources.items ≡ map (link_to (sibling_by rank links.now)) (children_of parent)) }
{
    let mut sources = Vec::with_capacity(alloc, 8)?;
    for octant in 0..8 {
        let id = parent.child(octant);
        sources.push(Link {
            id,
            owner: sibling_owner(rank, links, id),
        })?;
    }
    Ok(sources)
}

// The leaf alone, with its rank.
fn own_source(alloc: Global, rank: u32, id: Id, links: &[Link]) -> Result<Vec<Link>, Memory>
    ensures { IfOk result (λ sources. sources.items ≡ link_to (sibling_by rank links.now) id ∷ []) }
{
    let owner = sibling_owner(rank, links, id);
    Ok(vec![in alloc; Link { id, owner }]?)
}

// The leaves of which the proxies come that come of an own leaf, each with its rank.
fn sources_of(
    alloc: Global,
    rank: u32,
    id: Id,
    target: Target,
    links: &[Link],
) -> Result<Vec<Link>, Memory>
    ensures { IfOk result (λ sources. sources.items ≡ sources_of rank target id links.now) }
{
    match target {
        Target::Keep => own_source(alloc, rank, id, links),
        Target::Refine => own_source(alloc, rank, id, links),
        Target::Merge => octet_sources(alloc, rank, parent_of(id), links),
    }
}

// The proxies that come of an own leaf.
fn make_of(
    alloc: Global,
    shape: Shape,
    rank: u32,
    marks: &Marks,
    own: &[Link],
    heard: &[Link],
    id: Id,
    links: &[Link],
) -> Result<Vec<Proxy>, Memory>
    requires domain { IsShape shape }
    requires own { AllPairs ComesBefore own.now }
    requires heard { AllPairs ComesBefore heard.now }
    requires makable { IsMakable shape rank marks.now (own.now ++ heard.now) (id, links.now) }
    ensures { IfOk result (λ made. made.items ≡ proxies_by shape rank marks.now (own.now ++ heard.now) (id, links.now)) }
{
    let target = marks.target(id);
    let sources = sources_of(alloc, rank, id, target, links)?;
    let near = near_known(alloc, marks, own, heard, id, links)?;
    make(
        alloc,
        id,
        target,
        sources.as_slice(),
        near.as_slice(),
        shape,
    )
}

/// The proxies that come of own leaves, leaf by leaf: what a rank makes at the end of the round of homes. The links are those of
/// the own leaves, in the order of these, and the homes those of which it was heard.
pub fn make_all<L: HasLinks>(
    alloc: Global,
    shape: Shape,
    rank: u32,
    marks: &Marks,
    links: &[L],
    homes: &[Link],
) -> Result<Vec<Proxy>, Memory>
    requires domain { IsShape shape }
    requires aligned { length links.now ≡ length marks.now.leaves }
    requires known { CanMake shape (knowing rank marks.now (map L.linked links.now) homes.now) }
    ensures { IfOk result (λ made. made.items ≡ (with_made shape (knowing rank marks.now (map L.linked links.now) homes.now)).proxies) }
{
    let own = own_homes(alloc, rank, marks, links)?;
    let mut proxies = Vec::with_capacity(alloc, links.len())?;
    for (place, id) in marks.leaves().iter().enumerate() {
        let beside = links[place].links();
        let mut made = make_of(
            alloc,
            shape,
            rank,
            marks,
            own.as_slice(),
            homes,
            *id,
            beside,
        )?;
        proxies.append(&mut made)?;
    }
    Ok(proxies)
}
