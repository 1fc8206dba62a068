//! Beads that go to other ranks.
ghost use Rattle.std.specs.Prelude.{◌≡◌, ◌==◌, not, filter, map, IfOk, OnOk};
ghost use Rattle.std.specs.List.{list_any};
ghost use Rattle.bf_beads.specs.Rounds.{goes_to, relinked_one, relinked};

use crate::{Bead, BeadLocal, Items, Link};
use bf_buddy::Members;
use bf_program::Memory;
use std::alloc::Global;

// Whom a bead goes to that an owner has.
#[tactic(auto, unfolding(crate::specs::Rounds::goes_to))]
fn goes_to(members: Members, time: u32, number: u32, owner: u32) -> u32
    ensures { result ≡ goes_to members time number owner }
{
    if number.wrapping_add(time) % 2 == 0 && members.has(owner) {
        members.buddy(owner, 0)
    } else {
        owner
    }
}

// Whether one of a rank's beads goes to another.
fn any_goes(members: Members, time: u32, rank: u32, beads: &[Bead], to: u32) -> bool
    ensures { result ≡ list_any (λ bead. goes_to members time bead.number rank == to) beads.now }
{
    beads.iter().any(|bead: &Bead| goes_to(members, time, bead.number, rank) == to)
}

#[derive(Drop)]
struct Parting {
    staying: Vec<Bead>,
    going: Vec<Bead>,
}

// A rank's beads that stay, and those that go to another.
fn parted(
    alloc: Global,
    members: Members,
    time: u32,
    rank: u32,
    beads: Vec<Bead>,
    to: u32,
) -> Result<Parting, Memory>
    ensures staying { IfOk result (λ parting. parting.staying.items ≡ filter (λ bead. not (goes_to members time bead.number rank == to)) beads.items) }
    ensures going { IfOk result (λ parting. parting.going.items ≡ filter (λ bead. goes_to members time bead.number rank == to) beads.items) }
{
    let mut parting = Parting {
        staying: Vec::new(alloc),
        going: Vec::new(alloc),
    };
    for bead in beads {
        if goes_to(members, time, bead.number, rank) == to {
            parting.going.push(bead)?;
        } else {
            parting.staying.push(bead)?;
        }
    }
    Ok(parting)
}

/// Takes those beads out that go to another rank.
pub fn take_out(
    alloc: Global,
    members: Members,
    time: u32,
    local: &mut BeadLocal,
    to: u32,
) -> Result<Items<Bead>, Memory>
    ensures going { IfOk result (λ items. items ≡ filter (λ bead. goes_to members time bead.number local.old.rank == to) local.old.beads) }
    ensures staying { OnOk result (local.new ≡ record local.old { beads = filter (λ bead. not (goes_to members time bead.number local.old.rank == to)) local.old.beads }) }
{
    if !any_goes(members, time, local.rank, local.beads.as_slice(), to) {
        return Ok(Items::new(alloc));
    }
    let beads = local.beads.moved().into_vec();
    let Parting { staying, going } = parted(alloc, members, time, local.rank, beads, to)?;
    local.beads = Items::of(staying);
    Ok(Items::of(going))
}

// Links to beads where they have gone.
fn relinked_all(
    alloc: Global,
    members: Members,
    time: u32,
    links: &[Link],
) -> Result<Items<Link>, Memory>
    ensures { IfOk result (λ all. all ≡ map (relinked_one members time) links.now) }
{
    let mut all = Vec::with_capacity(alloc, links.len())?;
    for link in links {
        all.push(Link {
            number: link.number,
            owner: goes_to(members, time, link.number, link.owner),
        })?;
    }
    Ok(Items::of(all))
}

/// The beads with links to where all beads have gone.
pub fn relinked(
    alloc: Global,
    members: Members,
    time: u32,
    beads: &[Bead],
) -> Result<Items<Bead>, Memory>
    ensures { IfOk result (λ items. items ≡ map (relinked members time) beads.now) }
{
    let mut all = Vec::with_capacity(alloc, beads.len())?;
    for bead in beads {
        all.push(Bead {
            number: bead.number,
            value: bead.value,
            links: relinked_all(alloc, members, time, bead.links.as_slice())?,
        })?;
    }
    Ok(Items::of(all))
}
