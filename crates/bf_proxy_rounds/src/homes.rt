//! The homes of merging leaves: the ranks that have the first of their octets.
ghost use Rattle.std.specs.Prelude.{◌≡◌, ◌++◌, ◌∷◌, [], if◌then◌else◌, length, map, AllPairs, IfOk, OnOk};
ghost use Rattle.bf_id.specs.Id.{child_of, parent_of};
ghost use Rattle.bf_links.specs.Links.{link_to, owner_of, ComesBefore};
ghost use Rattle.bf_proxy_rounds.specs.Calls.{home_by, knowing, sibling_by};
ghost use Rattle.bf_proxy_rounds.specs.Plays.{is_merge, own_homes};

use crate::going::{is_merge, octet_home};
use bf_case::Target;
use bf_id::Id;
use bf_items::Items;
use bf_links::{Link, Memory};
use bf_marks::{HasLinks, Marks};
use std::alloc::Global;

// Adds the home of an own leaf, if it merges.
fn add_home(
    homes: &mut Vec<Link>,
    rank: u32,
    id: Id,
    target: Target,
    links: &[Link],
) -> Result<(), Memory>
    ensures { OnOk result (homes.new.items
        ≡ (if is_merge target then homes.old.items ++ link_to (λ i. sibling_by rank links.now (child_of (parent_of i) 0)) id ∷ [] else homes.old.items)) }
{
    if is_merge(target) {
        homes.push(Link {
            id,
            owner: octet_home(rank, links, id),
        })?;
    }
    Ok(())
}

/// The own leaves that merge, by rising id, each with the rank that has the first of its octet: the message of the round of
/// homes, to any peer. The links are those of the own leaves, in the order of these.
pub fn own_homes<L: HasLinks>(
    alloc: Global,
    rank: u32,
    marks: &Marks,
    links: &[L],
) -> Result<Items<Link>, Memory>
    requires { length links.now ≡ length marks.now.leaves }
    ensures { IfOk result (λ homes. homes ≡ own_homes (knowing rank marks.now (map L.linked links.now) [])) }
{
    let mut homes = Vec::new(alloc);
    for (place, id) in marks.leaves().iter().enumerate() {
        let target = marks.target(*id);
        add_home(&mut homes, rank, *id, target, links[place].links())?;
    }
    Ok(Items::of(homes))
}

// The owner that links by rising id name of a leaf, if one is to it.
fn owner_in(links: &[Link], id: Id) -> Option<u32>
    requires { AllPairs ComesBefore links.now }
    ensures { result ≡ owner_of links.now id }
{
    match links.binary_search_by_key(&id, |link| link.id) {
        Ok(place) => Some(links[place].owner),
        Err(_) => None,
    }
}

/// Where that is made into which a linked leaf goes: at the home of its octet, if that is among the own homes or those of which
/// it was heard, and else at its owner.
pub(crate) fn linked_home(own: &[Link], heard: &[Link], link: &Link) -> u32
    requires own { AllPairs ComesBefore own.now }
    requires heard { AllPairs ComesBefore heard.now }
    ensures { result ≡ home_by (own.now ++ heard.now) link.now }
{
    match owner_in(own, link.id) {
        Some(home) => home,
        None => owner_in(heard, link.id).unwrap_or(link.owner),
    }
}
