ghost use Rattle.std.specs.Prelude.{◌≡◌, ◌≤◌, ◌<◌, length, slice_get, All, AllPairs, IfOk, MatchResult, IsTrue, map};
ghost use Rattle.bf_buddy.specs.Members.{is_member};
ghost use Rattle.bf_id.specs.Id.{InShape, root_id, root_ids};
ghost use Rattle.bf_id.specs.Shape.{IsShape, root_count};
ghost use Rattle.bf_program.specs.Restores.{heir_of};
ghost use Rattle.bf_links.specs.Links.{
  is_owner,
  links_of,
  owner_of,
  owners_of,
  remapped,
  touching,
  with_owner,
  AreLinks,
  ComesBefore,
  IsNoPlaceOf,
  IsPlaceOf,
};
ghost use Rattle.bf_links.specs.Roots.{root_owner};
ghost use Rattle.bf_links.specs.declared.link.Link.{Link};

use crate::Memory;
use crate::link::Link;
use crate::roots::links_of_root;
use bf_buddy::Members;
use bf_id::{Id, Shape};
use bf_parts::heir;
use smallvec::SmallVec;
use std::alloc::Global;
use std::marker::Model;

/// The leaves that touch a leaf, by rising id, each with the rank that owns it.
#[derive(Drop)]
pub struct Links {
    // As many as touch a leaf among leaves of one level stay in the value.
    items: SmallVec<Link, 26>,
    // The ranks that own one of the leaves, so that each peer is told of a block's links without looking at them.
    owners: Members,
}

impl Model for Links {
    ghost use Rattle.std.specs.Prelude.{List};
    ghost use Rattle.bf_links.specs.Links.{AreOwnedLinks};
    ghost use Rattle.bf_links.specs.declared.link.Link.{Link};

    ghost Value = { List Link };

    ghost view = { λ l. l.items.items };

    ghost invariant = { λ l. AreOwnedLinks l.items.items l.owners };
}

// The ranks below 32 that own one of some leaves.
fn owners_of(links: &[Link]) -> Members
    ensures { result ≡ owners_of links.now }
{
    let mut owners = Members::all(0);
    for link in links {
        if link.owner < 32 {
            owners = owners.with(link.owner);
        }
    }
    owners
}

// Links of these leaves.
fn links_with(items: SmallVec<Link, 26>) -> Links
    requires { AreLinks items.items }
    ensures { result ≡ items.items }
{
    let owners = owners_of(items.as_slice());
    Links { items, owners }
}

impl Links {
    /// The links to those of some leaves that touch one. The leaves rise by id, and at most 56 of them touch it.
    pub fn build(alloc: Global, id: Id, leaves: &[Link], shape: Shape) -> Result<Links, Memory>
        requires domain { IsShape shape }
        requires inside { InShape shape id }
        requires leaves_inside { All (λ (leaf : Link). InShape shape leaf.id) leaves.now }
        requires rising { AllPairs ComesBefore leaves.now }
        requires few { length (touching shape id leaves.now) ≤ 56 }
        ensures { IfOk result (λ links. links ≡ touching shape id leaves.now) }
    {
        let mut items = SmallVec::new(alloc);
        for link in leaves {
            if id.touches(link.id, shape) {
                items.push(*link)?;
            }
        }
        Ok(links_with(items))
    }

    /// The links of a root where all leaves are roots, by the owners of the roots in their order. They are looked for
    /// at the places beside the root alone.
    pub fn of_root(alloc: Global, root: u32, owners: &[u32], shape: Shape) -> Result<Links, Memory>
        requires domain { IsShape shape }
        requires inside { root < root_count shape }
        requires owners { length owners.now ≡ root_count shape }
        ensures { IfOk result (λ links. links ≡ links_of shape (root_ids shape) (root_owner owners.now) (root_id root)) }
    {
        let items = links_of_root(alloc, root, owners, shape)?;
        Ok(links_with(items))
    }

    /// These links, which rise by id and are at most 56.
    pub fn of(alloc: Global, links: &[Link]) -> Result<Links, Memory>
        requires { AreLinks links.now }
        ensures { IfOk result (λ made. made ≡ links.now) }
    {
        let items = SmallVec::from_slice(alloc, links)?;
        Ok(links_with(items))
    }

    /// Equal links.
    pub fn copy(&self) -> Result<Links, Memory>
        ensures { IfOk result (λ made. made ≡ self.now) }
    {
        let items = SmallVec::from_slice(*self.items.allocator(), self.items.as_slice())?;
        Ok(Links {
            items,
            owners: self.owners,
        })
    }

    /// The links in their order.
    pub fn as_slice(&self) -> &[Link]
        ensures items { result.now ≡ self.now }
        ensures valid { AreLinks self.now }
    {
        self.items.as_slice()
    }

    /// How many links there are: at most 56.
    pub fn len(&self) -> u32
        ensures value { result ≡ length self.now }
        ensures few { result ≤ 56 }
    {
        self.items.as_slice().len() as u32
    }

    /// The link at a place, counted from 0, if there is one.
    pub fn get(&self, place: u32) -> Option<Link>
        ensures { result ≡ slice_get self.now place }
    {
        self.items.as_slice().get(place as usize).copied()
    }

    // Where the link to a leaf stands, or where it would.
    fn place(&self, id: Id) -> Result<usize, usize>
        ensures { MatchResult result (IsPlaceOf self.now id) (λ _. IsNoPlaceOf self.now id) }
    {
        self.items
            .as_slice()
            .binary_search_by_key(&id, |link| link.id)
    }

    /// The owner of a leaf, if there is a link to it.
    pub fn owner(&self, id: Id) -> Option<u32>
        ensures { result ≡ owner_of self.now id }
    {
        match self.place(id) {
            Ok(place) => Some(self.items.as_slice()[place].owner),
            Err(_) => None,
        }
    }

    /// The ranks below 32 that own one of the leaves.
    pub fn owners(&self) -> Members
        ensures { result ≡ owners_of self.now }
    {
        self.owners
    }

    /// Whether a rank owns one of the leaves. A rank below 32 is looked for without looking at each leaf.
    pub fn has_owner(&self, rank: u32) -> bool
        ensures { result ≡ is_owner self.now rank }
    {
        if rank < 32 {
            self.owners.has(rank)
        } else {
            self.items.as_slice().iter().any(|link| link.owner == rank)
        }
    }

    /// Names another owner of a leaf, if there is a link to it.
    pub fn set_owner(&mut self, id: Id, owner: u32)
        ensures { self.new ≡ with_owner id owner self.old }
    {
        match self.place(id) {
            Ok(place) => {
                self.items.as_mut_slice()[place].owner = owner;
                self.owners = owners_of(self.items.as_slice());
            }
            Err(_) => (),
        }
    }

    /// Names for each owner who goes on for it: itself where it lives, else its buddy among the homes.
    pub fn remap(&mut self, homes: Members, live: Members, shift: u32)
        requires { All (λ (link : Link). IsTrue (is_member homes link.owner)) self.old }
        ensures { self.new ≡ map (remapped (heir_of homes live shift)) self.old }
    {
        remap_all(self.items.as_mut_slice(), homes, live, shift);
        self.owners = owners_of(self.items.as_slice());
    }
}

fn remap_all(links: &mut [Link], homes: Members, live: Members, shift: u32)
    requires { All (λ (link : Link). IsTrue (is_member homes link.owner)) links.old }
    ensures { links.new ≡ map (remapped (heir_of homes live shift)) links.old }
{
    for link in links {
        link.owner = heir(homes, live, shift, link.owner);
    }
}
