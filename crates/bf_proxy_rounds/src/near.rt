//! The proxies that come of linked leaves.
ghost use Rattle.std.specs.Prelude.{◌≡◌, ◌++◌, All, AllPairs, IfOk};
ghost use Rattle.bf_links.specs.Links.{ComesBefore};
ghost use Rattle.bf_links.specs.declared.link.Link.{Link};
ghost use Rattle.bf_proxy_rounds.specs.Calls.{linked_goals, near_by, HasRoom};

use crate::going::{add_goals, goes_into};
use crate::homes::linked_home;
use bf_id::Id;
use bf_links::{Link, Memory};
use bf_marks::Marks;
use bf_proxy::join;
use std::alloc::Global;

// Links to the proxies into which linked leaves go, leaf by leaf.
fn linked_goals(
    alloc: Global,
    marks: &Marks,
    own: &[Link],
    heard: &[Link],
    links: &[Link],
) -> Result<Vec<Link>, Memory>
    requires own { AllPairs ComesBefore own.now }
    requires heard { AllPairs ComesBefore heard.now }
    requires room { All (λ (link : Link). HasRoom marks.now link.id) links.now }
    ensures { IfOk result (λ goals. goals.items ≡ linked_goals marks.now (own.now ++ heard.now) links.now) }
{
    let mut goals = Vec::with_capacity(alloc, links.len())?;
    for link in links {
        let target = marks.target(link.id);
        let home = linked_home(own, heard, link);
        add_goals(&mut goals, link.id, target, home)?;
    }
    Ok(goals)
}

/// Links by rising id to the proxies that come of the leaves linked with an own one, but for those into which it goes itself.
/// The homes of merging leaves are the own ones, and those of which it was heard.
pub(crate) fn near_known(
    alloc: Global,
    marks: &Marks,
    own: &[Link],
    heard: &[Link],
    id: Id,
    links: &[Link],
) -> Result<Vec<Link>, Memory>
    requires own { AllPairs ComesBefore own.now }
    requires heard { AllPairs ComesBefore heard.now }
    requires room { All (λ (link : Link). HasRoom marks.now link.id) links.now }
    ensures near { IfOk result (λ near. near.items ≡ near_by marks.now (own.now ++ heard.now) id links.now) }
    ensures rising { IfOk result (λ near. AllPairs ComesBefore near.items) }
{
    let target = marks.target(id);
    let mut goals = linked_goals(alloc, marks, own, heard, links)?;
    goals.retain(|link| !goes_into(id, target, link.id));
    let none = Vec::new(alloc);
    join(alloc, goals.as_slice(), none.as_slice())
}
