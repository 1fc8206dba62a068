//! Lists of beads.
ghost use Rattle.std.specs.Prelude.{◌≡◌, filter, map, IfOk};
ghost use Rattle.std.specs.List.{list_any};
ghost use Rattle.bf_beads.specs.Rounds.{is_linked, is_neighbor};
ghost use Rattle.bf_beads.specs.Row.{grown, total};

use crate::{Bead, BeadLocal, Items, Link};
use bf_program::Memory;
use std::alloc::Global;

/// The same beads once more.
pub fn copies(alloc: Global, beads: &[Bead]) -> Result<Items<Bead>, Memory>
    ensures { IfOk result (λ items. items ≡ beads.now) }
{
    let mut all = Vec::with_capacity(alloc, beads.len())?;
    for bead in beads {
        all.push(bead.copied(alloc)?)?;
    }
    Ok(Items::of(all))
}

// Whether a bead is linked with one of a rank.
fn is_linked(bead: &Bead, owner: u32) -> bool
    ensures { result ≡ is_linked owner bead.now }
{
    bead.links
        .as_slice()
        .iter()
        .any(|link: &Link| link.owner == owner)
}

// Whether one of some beads is linked with one of a rank.
fn any_linked(beads: &[Bead], owner: u32) -> bool
    ensures { result ≡ list_any (is_linked owner) beads.now }
{
    beads.iter().any(|bead: &Bead| is_linked(bead, owner))
}

/// Whether another rank has a bead that is linked with an own one.
#[tactic(auto, unfolding(crate::specs::Rounds::is_neighbor))]
pub fn is_neighbor(local: &BeadLocal, other: u32) -> bool
    ensures { result ≡ is_neighbor local.now.rank local.now.beads other }
{
    other != local.rank && any_linked(local.beads.as_slice(), other)
}

/// Copies of those beads that are linked with one of another rank.
pub fn linked_copies(alloc: Global, beads: &[Bead], other: u32) -> Result<Items<Bead>, Memory>
    ensures { IfOk result (λ items. items ≡ filter (is_linked other) beads.now) }
{
    let mut all = Vec::new(alloc);
    for bead in beads {
        if is_linked(bead, other) {
            all.push(bead.copied(alloc)?)?;
        }
    }
    Ok(Items::of(all))
}

/// The beads one step of time later.
pub fn grown(alloc: Global, beads: Items<Bead>, time: u32) -> Result<Items<Bead>, Memory>
    ensures { IfOk result (λ items. items ≡ map (grown time) beads) }
{
    let mut all = Vec::with_capacity(alloc, beads.len())?;
    for bead in beads.into_vec() {
        all.push(bead.grown(time))?;
    }
    Ok(Items::of(all))
}

/// The sum of the values, modulo 2^64.
#[tactic(auto, unfolding(crate::specs::Row::total))]
pub fn total(beads: &[Bead]) -> u64
    ensures { result ≡ total beads.now }
{
    beads.iter().fold(
        0u64,
        |sum: u64, bead: &Bead| sum.wrapping_add(u64::from(bead.value)),
    )
}
