//! Into which proxies a leaf goes, and where its siblings are.
ghost use Rattle.std.specs.Prelude.{◌≡◌, ◌<◌, ◌++◌, ◌==◌, OnOk, map, unwrap_or};
ghost use Rattle.bf_case.specs.Refinement.{is_among};
ghost use Rattle.bf_case.specs.declared.target.Target.TheVariants.{Refine};
ghost use Rattle.bf_id.specs.Id.{child_of, children_of, level_of, parent_of};
ghost use Rattle.bf_links.specs.Links.{link_to};
ghost use Rattle.bf_proxy.specs.Homes.{goes_into};
ghost use Rattle.bf_proxy_rounds.specs.Calls.{goals_of, sibling_by};
ghost use Rattle.bf_proxy_rounds.specs.Plays.{is_merge};

use bf_case::Target;
use bf_id::Id;
use bf_links::{Link, Memory};

/// Whether a leaf merges.
pub(crate) fn is_merge(target: Target) -> bool
    ensures { result ≡ is_merge target }
{
    matches!(target, Target::Merge)
}

/// The parent of a leaf; a root is its own.
pub(crate) fn parent_of(id: Id) -> Id
    ensures parent { result ≡ parent_of id }
    ensures shallow { level_of result < 4 }
{
    let _valid = id.level();
    match id.parent() {
        Some(parent) => parent,
        None => id,
    }
}

/// Who has a sibling of an own leaf: who the leaf's links say, or for the leaf itself the rank.
pub(crate) fn sibling_owner(rank: u32, links: &[Link], sibling: Id) -> u32
    ensures { result ≡ sibling_by rank links.now sibling }
{
    for link in links {
        if link.id == sibling {
            return link.owner;
        }
    }
    rank
}

/// Who has the first of an own leaf's octet.
pub(crate) fn octet_home(rank: u32, links: &[Link], id: Id) -> u32
    ensures { result ≡ sibling_by rank links.now (child_of (parent_of id) 0) }
{
    sibling_owner(rank, links, parent_of(id).child(0))
}

// Adds links to the children of a leaf.
fn add_children(goals: &mut Vec<Link>, id: Id, home: u32) -> Result<(), Memory>
    requires { level_of id < 4 }
    ensures { OnOk result (goals.new.items ≡ goals.old.items ++ map (link_to (λ q. home)) (children_of id)) }
{
    for octant in 0..8 {
        goals.push(Link {
            id: id.child(octant),
            owner: home,
        })?;
    }
    Ok(())
}

/// Adds links to the proxies into which a leaf goes, all made at one rank.
pub(crate) fn add_goals(
    goals: &mut Vec<Link>,
    id: Id,
    target: Target,
    home: u32,
) -> Result<(), Memory>
    requires { target ≡ Refine → level_of id < 4 }
    ensures { OnOk result (goals.new.items ≡ goals.old.items ++ goals_of target id home) }
{
    match target {
        Target::Keep => goals.push(Link { id, owner: home })?,
        Target::Refine => add_children(goals, id, home)?,
        Target::Merge => goals.push(Link {
            id: parent_of(id),
            owner: home,
        })?,
    }
    Ok(())
}

// Whether a block is a child of another.
fn is_child(parent: Id, id: Id) -> bool
    ensures { result ≡ is_among (children_of parent) id }
{
    match (id.parent(), id.octant()) {
        (Some(above), Some(_)) => above == parent,
        _ => false,
    }
}

/// Whether a leaf goes into a proxy.
pub(crate) fn goes_into(id: Id, target: Target, proxy: Id) -> bool
    ensures { result ≡ is_among (goes_into target id) proxy }
{
    match target {
        Target::Keep => proxy == id,
        Target::Refine => is_child(id, proxy),
        Target::Merge => proxy == parent_of(id),
    }
}
