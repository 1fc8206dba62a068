ghost use Rattle.std.specs.Prelude.{◌≡◌, ◌<◌, ◌≤◌, IfOk};
ghost use Rattle.bf_parts.specs.Leaves.{part_of, copy_at};
ghost use Rattle.bf_beads.specs.Meanings.{beads, opened};
ghost use Rattle.bf_beads.specs.Row.{is_beside, links_of, beads_at, home_in};

use crate::{Bead, BeadLocal, BeadSetup, Items, Link};
use bf_buddy::Members;
use bf_parts::Side;
use bf_program::Memory;
use std::alloc::Global;

// Whether a bead stands beside another.
fn is_beside(number: u32, other: u32) -> bool
    requires number { number < 32 }
    requires other { other < 32 }
    ensures { result ≡ is_beside number other }
{
    number == other + 1 || other == number + 1
}

// A bead's links at the opening.
fn first_links(alloc: Global, count: u32, ranks: u32, number: u32) -> Result<Items<Link>, Memory>
    requires count { count ≤ 32 }
    requires ranks { 1 ≤ ranks }
    requires number { number < count }
    ensures { IfOk result (λ links. links ≡ links_of count (home_in ranks) number) }
{
    let mut links = Vec::new(alloc);
    for other in 0..count {
        if is_beside(number, other) {
            links.push(Link {
                number: other,
                owner: other % ranks,
            })?;
        }
    }
    Ok(Items::of(links))
}

// A rank's beads at the opening.
fn first_beads(alloc: Global, count: u32, ranks: u32, rank: u32) -> Result<Items<Bead>, Memory>
    requires count { count ≤ 32 }
    requires ranks { 1 ≤ ranks }
    ensures { IfOk result (λ beads. beads ≡ part_of (beads_at count 0) (home_in ranks) rank) }
{
    let mut beads = Vec::new(alloc);
    for number in 0..count {
        if number % ranks == rank {
            beads.push(Bead {
                number,
                value: number + 1,
                links: first_links(alloc, count, ranks, number)?,
            })?;
        }
    }
    Ok(Items::of(beads))
}

// The predecessor's beads at the opening, where that is another rank.
fn other_beads(
    alloc: Global,
    count: u32,
    ranks: u32,
    rank: u32,
    source: u32,
) -> Result<Items<Bead>, Memory>
    requires count { count ≤ 32 }
    requires ranks { 1 ≤ ranks }
    ensures { IfOk result (λ beads. beads ≡ copy_at (beads_at count 0) (home_in ranks) rank source) }
{
    if source == rank {
        Ok(Items::new(alloc))
    } else {
        first_beads(alloc, count, ranks, source)
    }
}

/// A rank's local at the opening.
#[tactic(auto, using(crate::proofs::OpeningSteps::opening_steps))]
pub fn opened(alloc: Global, setup: &BeadSetup, rank: u32) -> Result<BeadLocal, Memory>
    requires { rank < setup.now.ranks }
    ensures { IfOk result (λ local. local ≡ opened setup.now.beads setup.now.ranks setup.now.shift rank) }
{
    let ranks = setup.ranks();
    let count = setup.beads();
    let homes = Members::all(ranks);
    let source = homes.predecessor(rank, setup.shift());
    let active = Side {
        time: 0,
        homes,
        source,
        own: first_beads(alloc, count, ranks, rank)?,
        other: other_beads(alloc, count, ranks, rank, source)?,
    };
    Ok(BeadLocal {
        rank,
        beads: first_beads(alloc, count, ranks, rank)?,
        heard: Items::new(alloc),
        active,
        spare: Side::bare(alloc),
    })
}

/// The ranks that have a bead at the opening.
#[tactic(auto, using(crate::proofs::FilledSteps::laid_is))]
pub fn filled(setup: &BeadSetup) -> Members
    ensures { result ≡ beads.laid setup.now }
{
    Members::all(setup.beads().min(setup.ranks()))
}
