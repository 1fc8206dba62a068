ghost use Rattle.bf_id.specs.Id.{
  box_of,
  child_of,
  id_cmp,
  id_eq,
  level_of,
  octant_of,
  parent_of,
  root_id,
  BlockId,
  InShape,
  IsId,
  Touch,
};
ghost use Rattle.bf_id.specs.Face.{SharesFace};
ghost use Rattle.bf_id.specs.IdText.{text_of};
ghost use Rattle.bf_id.specs.Shape.{IsShape};
ghost use Rattle.std.proofs.Common.{rules};
ghost use Rattle.std.specs.Cmp.Rules.{comparing};
ghost use Rattle.std.specs.Cmp.{partial_order_from_own_ties};
ghost use Rattle.std.specs.Ordering.{as_partial_cmp};
ghost use Rattle.std.specs.Prelude.{ℕ, ◌<◌, ◌^◌, ◌/◌, ◌≡◌, ◌↔◌, ◌∷◌, [], IfSome, IsNone, IsTrue, MatchOption};

use crate::cube::Cube;
use crate::id_text::IdText;
use crate::parse::{from_parts, root_in};
use crate::shape::Shape;
use bf_face::Face;
use itoa::Buffer;
use std::cmp::Ordering;
use std::marker::Model;

/// The identifier of a block: a root, and an octant for each level below it.
///
/// Ids are ordered by root, and then by their octants from the first, so that a block stands
/// before what lies in it, and what lies in it before the next block of its level.
#[derive(Clone, Copy, Debug)]
pub struct Id {
    root: u32,
    // Single bytes, since a map has an id for each of its leaves, however few cells a leaf has.
    level: u8,
    digits: [u8; 4],
}

impl Model for Id {
    ghost use Rattle.bf_id.specs.Id.{BlockId};
    ghost use Rattle.bf_id.specs.IdFields.{padded, shown, IsStored};
    ghost use Rattle.std.specs.Prelude.{length};

    ghost Value = { BlockId };

    ghost view = { λ i. shown i.root i.level i.digits };

    ghost invariant = { λ i. IsStored (shown i.root i.level i.digits) i.level i.digits };

    ghost inverse = { λ i. record { root = i.root; level = length i.digits; digits = padded i.digits } };

    ghost inverse_ok = { λ a h. Prim.rw (← h.level_fits, ← h.places_fit) };
}

impl PartialEq for Id {
    ghost eq = { id_eq };

    ghost laws = { Prim.search (comparing, rules) };

    fn eq(&self, other: &Id) -> bool
        ensures value { result ≡ id_eq self.now other.now }
        ensures same { IsTrue result ↔ (self.now ≡ other.now) }
    {
        self.root == other.root && self.octants() == other.octants()
    }
}

impl Eq for Id {
    ghost laws = { Prim.search (comparing, rules) };
}

impl PartialOrd for Id {
    ghost partial_cmp = { as_partial_cmp id_cmp };

    ghost laws = { partial_order_from_own_ties (Prim.search (comparing, rules)) (Prim.search (comparing, rules)) };

    fn partial_cmp(&self, other: &Id) -> Option<Ordering> {
        Some(self.cmp(other))
    }
}

impl Ord for Id {
    ghost cmp = { id_cmp };

    ghost total = { Prim.search (comparing, rules) };

    ghost matches_partial_cmp = { Prim.search (comparing, rules) };

    ghost matches_eq = { Prim.search (comparing, rules) };

    fn cmp(&self, other: &Id) -> Ordering {
        self.root
            .cmp(&other.root)
            .then(self.octants().cmp(other.octants()))
    }
}

impl Id {
    /// The root of this index.
    pub fn root_of(index: u32) -> Id
        ensures { result ≡ root_id index }
    {
        Id {
            root: index,
            level: 0,
            digits: [0; 4],
        }
    }

    /// The child towards an octant, which is `x + 2 y + 4 z` for a step of 0 or 1 along each axis.
    pub fn child(mut self, octant: u32) -> Id
        requires shallow { level_of self < 4 }
        requires octal { octant < 8 }
        ensures { result ≡ child_of self octant }
    {
        self.digits[self.level as usize] = octant as u8;
        self.level += 1;
        self
    }

    /// The block of which this one is a child; none for a root.
    pub fn parent(mut self) -> Option<Id>
        ensures none { IsNone result ↔ (level_of self ≡ 0) }
        ensures some { IfSome result (λ p. p ≡ parent_of self) }
    {
        if self.level == 0 {
            return None;
        }
        self.level -= 1;
        self.digits[self.level as usize] = 0;
        Some(self)
    }

    /// As which child of its parent this block lies; none for a root.
    pub fn octant(self) -> Option<u32>
        ensures none { IsNone result ↔ (level_of self ≡ 0) }
        ensures some { IfSome result (λ octant. octant ≡ octant_of self) }
        ensures octal { IfSome result (λ octant. octant < 8) }
    {
        if self.level == 0 {
            return None;
        }
        Some(u32::from(self.digits[self.level as usize - 1]))
    }

    /// How many levels below its root the block lies, which is at most 4.
    pub fn level(self) -> u32
        ensures level { result ≡ level_of self }
        ensures valid { IsId self }
    {
        u32::from(self.level)
    }

    pub fn root(self) -> u32
        ensures { result ≡ self.root }
    {
        self.root
    }

    /// The octants from the root down.
    pub fn octants(&self) -> &[u8]
        ensures octants { result.now ≡ self.now.digits }
        ensures valid { IsId self.now }
    {
        &self.digits[..self.level as usize]
    }

    /// The block's box.
    pub fn cube(self, shape: Shape) -> Cube
        requires domain { IsShape shape }
        requires inside { InShape shape self }
        ensures { result ≡ box_of shape self }
    {
        Cube::of_root(shape, self.root).narrowed(self.octants())
    }

    /// The low corner of the block's box, in units.
    pub fn corner(self, shape: Shape) -> [u32; 3]
        requires domain { IsShape shape }
        requires inside { InShape shape self }
        ensures { let low = box_of shape self in
            result ≡ low.x ∷ low.y ∷ low.z ∷ [] }
    {
        self.cube(shape).corner()
    }

    /// The edge of the block's box, in units.
    pub fn edge(self) -> u32
        ensures length { result ≡ 16 / 2 ^ level_of self }
        ensures of_box { (shape : Shape) → result ≡ (box_of shape self).edge }
    {
        16 >> self.level
    }

    /// Whether the blocks touch, at a corner or along an edge too; no block touches itself.
    pub fn touches(self, other: Id, shape: Shape) -> bool
        requires domain { IsShape shape }
        requires inside { InShape shape self }
        requires other_inside { InShape shape other }
        ensures { IsTrue result ↔ Touch shape self other }
    {
        self != other && self.cube(shape).meets(other.cube(shape), shape)
    }

    /// The face of this block of which a part that has area lies on the other block.
    pub fn face(self, other: Id, shape: Shape) -> Option<Face>
        requires domain { IsShape shape }
        requires inside { InShape shape self }
        requires other_inside { InShape shape other }
        ensures { MatchOption result
            ((face : Face) → ¬ SharesFace shape face (box_of shape self) (box_of shape other))
            (λ face. SharesFace shape face (box_of shape self) (box_of shape other)) }
    {
        self.cube(shape).face(other.cube(shape), shape)
    }

    /// The root in decimal and, below a root, a full stop and the octants.
    pub fn text(self) -> IdText
        ensures { result ≡ text_of self }
    {
        let mut text = IdText::new();
        text.push_bytes(Buffer::new().format(self.root).as_bytes());
        text.push_octants(self.octants());
        text
    }

    /// The id that the text spells. An id has one spelling.
    pub fn parse(text: &str) -> Option<Id>
        ensures { MatchOption result
            ((i : BlockId) → IsId i → text_of i ≡ text.now → ⊥)
            (λ i. text_of i ≡ text.now) }
    {
        match text.split_once('.') {
            None => root_in(text).map(Id::root_of),
            Some((root, octants)) => from_parts(root, octants),
        }
    }
}
