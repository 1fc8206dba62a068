ghost use Rattle.std.specs.Prelude.{◌≡◌, ◌<◌, ◌≤◌, ℕ, length, map, All, AllPairs, Contains, IfOk};
ghost use Rattle.bf_id.specs.Id.{children_of, level_of, BlockId, InShape};
ghost use Rattle.bf_id.specs.Shape.{IsShape};
ghost use Rattle.bf_case.specs.Regrid.{heirs_by};
ghost use Rattle.bf_case.specs.declared.target.Target.TheVariants.{Merge, Refine};
ghost use Rattle.bf_links.specs.Links.{link_to, touching, ComesBefore};
ghost use Rattle.bf_links.specs.declared.link.Link.{Link};
ghost use Rattle.bf_proxy.specs.Proxies.{first_rank, known_links, made_links, proxies_of, AreSources, IsLinked};

use crate::joining::join;
use crate::{Proxy, Sources};
use bf_case::Target;
use bf_id::{Id, Shape};
use bf_links::{Link, Links, Memory};
use std::alloc::Global;

// The rank at which the proxies that come of these leaves are made.
fn first_rank(sources: &[Link]) -> u32
    requires { 0 < length sources.now }
    ensures { result ≡ first_rank sources.now }
{
    sources[0].owner
}

// Links to the children of a leaf.
fn links_to_children(alloc: Global, id: Id, owner: u32) -> Result<Vec<Link>, Memory>
    requires { level_of id < 4 }
    ensures { IfOk result (λ links. links.items ≡ map (link_to (λ _. owner)) (children_of id)) }
{
    let mut links = Vec::with_capacity(alloc, 8)?;
    for octant in 0..8 {
        links.push(Link {
            id: id.child(octant),
            owner,
        })?;
    }
    Ok(links)
}

// The link to the parent of a leaf that is the first of its octet.
fn link_to_parent(alloc: Global, id: Id, owner: u32) -> Result<Vec<Link>, Memory>
    requires { 0 < level_of id }
    ensures { IfOk result (λ links. links.items ≡ made_links owner Merge id) }
{
    let mut links = Vec::new(alloc);
    if let (Some(parent), Some(0)) = (id.parent(), id.octant()) {
        links.push(Link { id: parent, owner })?;
    }
    Ok(links)
}

// Links to the proxies that come of a leaf.
fn links_to_made(alloc: Global, id: Id, target: Target, owner: u32) -> Result<Vec<Link>, Memory>
    requires refines { target ≡ Refine → level_of id < 4 }
    requires merges { target ≡ Merge → 0 < level_of id }
    ensures { IfOk result (λ links. links.items ≡ made_links owner target id) }
{
    match target {
        Target::Keep => Ok(vec![in alloc; Link { id, owner }]?),
        Target::Refine => links_to_children(alloc, id, owner),
        Target::Merge => link_to_parent(alloc, id, owner),
    }
}

/// The proxies that come of a leaf, by rising id: one of a kept leaf, eight of a refined one, one of a merging one that is
/// the first of its octet, and else none. They are made at the rank of the first source.
///
/// The sources are the leaf itself, or for a merging one the eight siblings by octant, with their ranks. Near are the proxies
/// that come of the linked leaves, by rising id, with the ranks at which they are made: up to 448, of which up to 152 touch the
/// leaf. None of the proxies made here is among them.
pub fn make(
    alloc: Global,
    id: Id,
    target: Target,
    sources: &[Link],
    near: &[Link],
    shape: Shape,
) -> Result<Vec<Proxy>, Memory>
    requires domain { IsShape shape }
    requires inside { InShape shape id }
    requires refines { target ≡ Refine → level_of id < 4 }
    requires merges { target ≡ Merge → 0 < level_of id }
    requires sources { AreSources target id sources.now }
    requires near_inside { All (λ (link : Link). InShape shape link.id) near.now }
    requires rising { AllPairs ComesBefore near.now }
    requires others { All (λ (link : Link). Contains (heirs_by target id) link.id → ⊥) near.now }
    requires few { All (λ q. length (touching shape q (known_links target id sources.now near.now)) ≤ 56) (heirs_by target id) }
    ensures proxies { IfOk result (λ proxies. proxies.items ≡ proxies_of shape id target sources.now near.now) }
    ensures linked { IfOk result (λ proxies. All (IsLinked shape near.now (made_links (first_rank sources.now) target id)) proxies.items) }
{
    let made = links_to_made(alloc, id, target, first_rank(sources))?;
    let known = join(alloc, made.as_slice(), near)?;
    let mut proxies = Vec::with_capacity(alloc, made.len())?;
    for link in made.as_slice() {
        proxies.push(Proxy {
            id: link.id,
            origin: target,
            sources: Sources::of(alloc, sources)?,
            links: Links::build(alloc, link.id, known.as_slice(), shape)?,
        })?;
    }
    Ok(proxies)
}
