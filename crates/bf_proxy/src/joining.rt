ghost use Rattle.std.specs.Prelude.{◌≡◌, AllPairs, IfOk, OnOk};
ghost use Rattle.bf_links.specs.Links.{ComesBefore};
ghost use Rattle.bf_proxy.specs.Joined.{joined, put};

use bf_links::{Link, Memory};
use std::alloc::Global;

// Puts a link at its place, if there is none to its leaf.
fn put(link: Link, links: &mut Vec<Link>) -> Result<(), Memory>
    requires { AllPairs ComesBefore links.old.items }
    ensures { OnOk result (links.new.items ≡ put link links.old.items) }
{
    match links
        .as_slice()
        .binary_search_by_key(&link.id, |other| other.id)
    {
        Ok(_) => (),
        Err(place) => links.insert(place, link)?,
    }
    Ok(())
}

/// The links of both lists, of which the second rises by id.
pub fn join(alloc: Global, more: &[Link], links: &[Link]) -> Result<Vec<Link>, Memory>
    requires { AllPairs ComesBefore links.now }
    ensures joined { IfOk result (λ all. all.items ≡ joined more.now links.now) }
    ensures rising { IfOk result (λ all. AllPairs ComesBefore all.items) }
{
    let mut all = Vec::from_slice(alloc, links)?;
    for link in more {
        put(*link, &mut all)?;
    }
    Ok(all)
}
