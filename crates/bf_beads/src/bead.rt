ghost use Rattle.std.specs.Prelude.{◌≡◌, IsTrue, IfOk, All, map};
ghost use Rattle.bf_buddy.specs.Members.{is_member};
ghost use Rattle.bf_program.specs.Restores.{heir_of};
ghost use Rattle.bf_beads.specs.declared.bead.Link.{Link};
ghost use Rattle.bf_beads.specs.Row.{with_owner, grown};

use crate::Items;
use bf_buddy::Members;
use bf_parts::{Linked, heir};
use bf_program::Memory;
use std::alloc::Global;

/// A bead beside another, and the rank that has it.
#[derive(Clone, Copy)]
pub struct Link {
    pub number: u32,
    pub owner: u32,
}

/// A numbered bead with a value, linked with the beads beside it.
#[derive(Drop)]
pub struct Bead {
    pub number: u32,
    pub value: u32,
    pub links: Items<Link>,
}

impl Bead {
    /// The same bead once more.
    pub fn copied(&self, alloc: Global) -> Result<Self, Memory>
        ensures { IfOk result (λ bead. bead ≡ self.now) }
    {
        Ok(Bead {
            number: self.number,
            value: self.value,
            links: Items::of(Vec::from_slice(alloc, self.links.as_slice())?),
        })
    }

    /// The bead one step of time later.
    pub fn grown(self, time: u32) -> Self
        ensures { result ≡ grown time self }
    {
        let value = self.value.wrapping_add(self.number).wrapping_add(time);
        Bead {
            number: self.number,
            value,
            links: self.links,
        }
    }
}

// Links in which dead owners are replaced by their buddies.
fn heirs(
    alloc: Global,
    links: &[Link],
    homes: Members,
    live: Members,
    shift: u32,
) -> Result<Items<Link>, Memory>
    requires { All (λ (link : Link). IsTrue (is_member homes link.owner)) links.now }
    ensures { IfOk result (λ all. all ≡ map (with_owner (λ owner. heir_of homes live shift owner)) links.now) }
{
    let mut all = Vec::with_capacity(alloc, links.len())?;
    for link in links {
        all.push(Link {
            number: link.number,
            owner: heir(homes, live, shift, link.owner),
        })?;
    }
    Ok(Items::of(all))
}

impl Linked for Bead {
    ghost use Rattle.bf_beads.specs.Row.{bead_kind, IsOwnedAmong};

    ghost kind = { bead_kind };

    ghost is_among = { IsOwnedAmong };

    fn comes_first(&self, other: &Self) -> bool {
        self.number < other.number
    }

    fn with_heirs(
        &self,
        alloc: Global,
        homes: Members,
        live: Members,
        shift: u32,
    ) -> Result<Self, Memory> {
        Ok(Bead {
            number: self.number,
            value: self.value,
            links: heirs(alloc, self.links.as_slice(), homes, live, shift)?,
        })
    }
}
