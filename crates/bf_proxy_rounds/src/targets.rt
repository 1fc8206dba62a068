//! The proxies into which own leaves go.
ghost use Rattle.std.specs.Prelude.{◌≡◌, [], length, map, All, IfOk, if◌then◌else◌};
ghost use Rattle.bf_id.specs.Id.{child_of, parent_of};
ghost use Rattle.bf_proxy_rounds.specs.Calls.{knowing, sibling_by, HasRoom};
ghost use Rattle.bf_proxy_rounds.specs.Plays.{is_merge, leaf_targets, linked_leaves, own_targets};
ghost use Rattle.std.specs.Prelude.{flat_map};

use crate::going::{add_goals, octet_home};
use bf_case::Target;
use bf_id::Id;
use bf_links::{Link, Memory};
use bf_marks::{HasLinks, Marks};
use bf_proxy::join;
use std::alloc::Global;

// Where that is made into which an own leaf goes: at the home of its octet where it merges, and else at the rank.
fn own_home(rank: u32, links: &[Link], id: Id, target: Target) -> u32
    ensures { result ≡ (if is_merge target then sibling_by rank links.now (child_of (parent_of id) 0) else rank) }
{
    match target {
        Target::Keep => rank,
        Target::Refine => rank,
        Target::Merge => octet_home(rank, links, id),
    }
}

// Links to the proxies into which own leaves go, leaf by leaf.
fn all_targets<L: HasLinks>(
    alloc: Global,
    rank: u32,
    marks: &Marks,
    links: &[L],
) -> Result<Vec<Link>, Memory>
    requires aligned { length links.now ≡ length marks.now.leaves }
    requires room { All (HasRoom marks.now) marks.now.leaves }
    ensures { IfOk result (λ goals. goals.items
        ≡ flat_map (leaf_targets (knowing rank marks.now (map L.linked links.now) [])) (linked_leaves (knowing rank marks.now (map L.linked links.now) []))) }
{
    let mut goals = Vec::with_capacity(alloc, links.len())?;
    for (place, id) in marks.leaves().iter().enumerate() {
        let target = marks.target(*id);
        let home = own_home(rank, links[place].links(), *id, target);
        add_goals(&mut goals, *id, target, home)?;
    }
    Ok(goals)
}

/// By rising id the proxies into which own leaves go, each once, with the rank at which it is made. The links are those of the
/// own leaves, in the order of these.
pub fn own_targets<L: HasLinks>(
    alloc: Global,
    rank: u32,
    marks: &Marks,
    links: &[L],
) -> Result<Vec<(Id, u32)>, Memory>
    requires aligned { length links.now ≡ length marks.now.leaves }
    requires room { All (HasRoom marks.now) marks.now.leaves }
    ensures { IfOk result (λ targets. targets.items ≡ own_targets (knowing rank marks.now (map L.linked links.now) [])) }
{
    let goals = all_targets(alloc, rank, marks, links)?;
    // They come in rising order, so that each is put at the end.
    let none = Vec::new(alloc);
    let rising = join(alloc, goals.as_slice(), none.as_slice())?;
    rising
        .iter()
        .map(|link| (link.id, link.owner))
        .collect(alloc)
}
