//! The round of siblings: what a rank tells.
ghost use Rattle.std.specs.Prelude.{◌≡◌, ◌==◌, ◌&&◌, ◌++◌, ℕ, not, AllPairs, IfOk, length, map};
ghost use Rattle.bf_case.specs.declared.target.Target.TheVariants.{Merge};
ghost use Rattle.bf_id.specs.Id.{child_of, octant_of, parent_of};
ghost use Rattle.bf_id.specs.Shape.{IsShape};
ghost use Rattle.bf_links.specs.Links.{touching, ComesBefore};
ghost use Rattle.bf_marks.specs.Marks.{target_by};
ghost use Rattle.bf_proxy_rounds.specs.Calls.{knowing, near_by, sibling_by, CanMake, IsMakable};
ghost use Rattle.bf_proxy_rounds.specs.Plays.{is_merge, outer_told};

use crate::going::{is_merge, octet_home, parent_of};
use crate::homes::own_homes;
use crate::near::near_known;
use crate::outer::Outer;
use bf_case::Target;
use bf_id::{Id, Shape};
use bf_items::Items;
use bf_links::{Link, Links, Memory};
use bf_marks::{HasLinks, Marks};
use std::alloc::Global;

// Whether a leaf is another than the first of its octet; a root is none.
fn is_later(id: Id) -> bool
    ensures { result ≡ not (octant_of id == 0) }
{
    match id.octant() {
        Some(octant) => octant != 0,
        None => false,
    }
}

// Whether the outer links of an own leaf are for a rank.
fn is_for(to: u32, rank: u32, id: Id, target: Target, links: &[Link]) -> bool
    ensures { result ≡ (is_merge target && (not (octant_of id == 0) && sibling_by rank links.now (child_of (parent_of id) 0) == to)) }
{
    is_merge(target) && is_later(id) && octet_home(rank, links, id) == to
}

// The outer links of an own leaf that merges.
fn outer_of(
    alloc: Global,
    shape: Shape,
    marks: &Marks,
    own: &[Link],
    heard: &[Link],
    id: Id,
    links: &[Link],
) -> Result<Outer, Memory>
    requires domain { IsShape shape }
    requires own { AllPairs ComesBefore own.now }
    requires heard { AllPairs ComesBefore heard.now }
    requires merges { target_by marks.now id ≡ Merge }
    requires makable { (rank : ℕ) × IsMakable shape rank marks.now (own.now ++ heard.now) (id, links.now) }
    ensures { IfOk result (λ outer. outer ≡ (parent_of id, touching shape (parent_of id) (near_by marks.now (own.now ++ heard.now) id links.now))) }
{
    let parent = parent_of(id);
    let near = near_known(alloc, marks, own, heard, id, links)?;
    let links = Links::build(alloc, parent, near.as_slice(), shape)?;
    Ok(Outer::of(parent, links))
}

/// The outer links that are for a rank: those of the own merging leaves that are not the first of their octets and have it there.
/// At the end of its round a rank gathers those for itself. The links are those of the own leaves, in the order of these, and the
/// homes those of which it was heard.
pub fn outer_told<L: HasLinks>(
    alloc: Global,
    shape: Shape,
    rank: u32,
    marks: &Marks,
    links: &[L],
    homes: &[Link],
    to: u32,
) -> Result<Items<Outer>, Memory>
    requires domain { IsShape shape }
    requires aligned { length links.now ≡ length marks.now.leaves }
    requires known { CanMake shape (knowing rank marks.now (map L.linked links.now) homes.now) }
    ensures { IfOk result (λ told. told ≡ outer_told shape (knowing rank marks.now (map L.linked links.now) homes.now) to) }
{
    let own = own_homes(alloc, rank, marks, links)?;
    let mut told = Vec::new(alloc);
    for (place, id) in marks.leaves().iter().enumerate() {
        let beside = links[place].links();
        if is_for(to, rank, *id, marks.target(*id), beside) {
            let outer = outer_of(alloc, shape, marks, own.as_slice(), homes, *id, beside)?;
            told.push(outer)?;
        }
    }
    Ok(Items::of(told))
}
