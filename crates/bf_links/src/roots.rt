//! The links of a root, where all leaves are roots: they are looked for plane by plane and row by row, in the rising
//! order of the roots, at the places beside the root alone.
ghost use Rattle.std.specs.Prelude.{◌≡◌, ◌+◌, ◌-◌, ◌*◌, ◌<◌, ◌≤◌, length, min, IfOk, OnOk};
ghost use Rattle.bf_id.specs.Id.{root_id, root_ids};
ghost use Rattle.bf_id.specs.Shape.{IsShape, root_count};
ghost use Rattle.bf_links.specs.Links.{links_of};
ghost use Rattle.bf_links.specs.Roots.{links_below, root_owner};

use crate::Memory;
use crate::link::Link;
use bf_id::{Id, Shape};
use smallvec::SmallVec;
use std::alloc::Global;

// Where the places beside one begin along an axis: with the one before, if there is one.
fn first_beside(at: u32) -> u32
    ensures { result ≡ at - 1 }
{
    at.saturating_sub(1)
}

// Where the places beside one end along an axis of so many roots: past the one after, if there is one.
fn end_beside(at: u32, count: u32) -> u32
    requires inside { at < count }
    requires few { count ≤ 16 }
    ensures { result ≡ min (at + 2) count }
{
    (at + 2).min(count)
}

// Adds the link to the next root, if that touches.
fn add_root(
    items: &mut SmallVec<Link, 26>,
    root: u32,
    other: u32,
    owners: &[u32],
    shape: Shape,
) -> Result<(), Memory>
    requires domain { IsShape shape }
    requires inside { root < root_count shape }
    requires other_inside { other < root_count shape }
    requires owners { length owners.now ≡ root_count shape }
    requires so_far { items.old.items ≡ links_below shape owners.now root other }
    ensures { OnOk result (items.new.items ≡ links_below shape owners.now root (other + 1)) }
{
    let id = Id::root_of(other);
    if Id::root_of(root).touches(id, shape) {
        items.push(Link {
            id,
            owner: owners[other as usize],
        })?;
    }
    Ok(())
}

// Adds the links to those roots of the next row along x that touch.
fn add_row(
    items: &mut SmallVec<Link, 26>,
    root: u32,
    row: u32,
    owners: &[u32],
    shape: Shape,
) -> Result<(), Memory>
    requires domain { IsShape shape }
    requires inside { root < root_count shape }
    requires row_inside { row < shape.ny * shape.nz }
    requires owners { length owners.now ≡ root_count shape }
    requires so_far { items.old.items ≡ links_below shape owners.now root (shape.nx * row) }
    ensures { OnOk result (items.new.items ≡ links_below shape owners.now root (shape.nx * (row + 1))) }
{
    let at = root % shape.nx;
    for x in first_beside(at)..end_beside(at, shape.nx) {
        add_root(items, root, shape.nx * row + x, owners, shape)?;
    }
    Ok(())
}

// Adds the links to those roots of the next plane along x and y that touch.
fn add_plane(
    items: &mut SmallVec<Link, 26>,
    root: u32,
    plane: u32,
    owners: &[u32],
    shape: Shape,
) -> Result<(), Memory>
    requires domain { IsShape shape }
    requires inside { root < root_count shape }
    requires plane_inside { plane < shape.nz }
    requires owners { length owners.now ≡ root_count shape }
    requires so_far { items.old.items ≡ links_below shape owners.now root (shape.nx * (shape.ny * plane)) }
    ensures { OnOk result (items.new.items ≡ links_below shape owners.now root (shape.nx * (shape.ny * (plane + 1)))) }
{
    let at = root / shape.nx % shape.ny;
    for y in first_beside(at)..end_beside(at, shape.ny) {
        add_row(items, root, shape.ny * plane + y, owners, shape)?;
    }
    Ok(())
}

/// The links of a root to the roots that touch it.
pub(crate) fn links_of_root(
    alloc: Global,
    root: u32,
    owners: &[u32],
    shape: Shape,
) -> Result<SmallVec<Link, 26>, Memory>
    requires domain { IsShape shape }
    requires inside { root < root_count shape }
    requires owners { length owners.now ≡ root_count shape }
    ensures { IfOk result (λ items. items.items ≡ links_of shape (root_ids shape) (root_owner owners.now) (root_id root)) }
{
    let mut items = SmallVec::new(alloc);
    let at = root / shape.nx / shape.ny;
    for z in first_beside(at)..end_beside(at, shape.nz) {
        add_plane(&mut items, root, z, owners, shape)?;
    }
    Ok(items)
}
