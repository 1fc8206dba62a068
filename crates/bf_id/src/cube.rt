ghost use Rattle.bf_id.specs.Axis.{JoinsOn, MeetsOn, OverlapsOn};
ghost use Rattle.bf_id.specs.Cube.{halved, in_boxes, narrowed, Meets, Overlaps};
ghost use Rattle.bf_id.specs.Face.{JoinsX, JoinsY, JoinsZ, OverlapsX, OverlapsY, OverlapsZ, SharesFace};
ghost use Rattle.bf_id.specs.Meeting.{Meet};
ghost use Rattle.bf_id.specs.Neighbours.{place_beside, unit_across, unit_beside, IsAtEdge, IsPlaced};
ghost use Rattle.bf_id.specs.Shape.{root_count, root_cube, InDomain, IsShape};
ghost use Rattle.std.specs.Prelude.{◌≡◌, ◌+◌, ◌<◌, ◌≤◌, ◌↔◌, ◌∷◌, [], All, IsTrue, MatchOption};

use crate::axis::Axis;
use crate::shape::Shape;
use crate::voxel::Voxel;
use bf_face::Face;
use std::marker::Model;

/// A cube of whole units, by its low corner and its edge. It ends where the widest domain does, or
/// before.
#[derive(Clone, Copy)]
pub struct Cube {
    x: u32,
    y: u32,
    z: u32,
    edge: u32,
}

impl Model for Cube {
    ghost use Rattle.bf_id.specs.Cube.{Cube, IsNear};

    ghost Value = { Cube };

    ghost view = { λ r. record { x = r.x; y = r.y; z = r.z; edge = r.edge } };

    ghost invariant = { λ r. IsNear (record { x = r.x; y = r.y; z = r.z; edge = r.edge }) };

    ghost inverse = { λ c. record { x = c.x; y = c.y; z = c.z; edge = c.edge } };
}

impl Cube {
    /// The box of a root.
    pub(crate) fn of_root(shape: Shape, root: u32) -> Cube
        requires domain { IsShape shape }
        requires inside { root < root_count shape }
        ensures { result ≡ root_cube shape root }
    {
        let row = root / shape.nx;
        Cube {
            x: 16 * (root % shape.nx),
            y: 16 * (row % shape.ny),
            z: 16 * (row / shape.ny),
            edge: 16,
        }
    }

    fn halved(self, octant: u32) -> Cube
        requires { octant < 8 }
        ensures { result ≡ halved self octant }
    {
        let half = self.edge / 2;
        Cube {
            x: self.x + octant % 2 * half,
            y: self.y + octant / 2 % 2 * half,
            z: self.z + octant / 4 * half,
            edge: half,
        }
    }

    /// The cube halved once for each octant in turn.
    pub(crate) fn narrowed(self, octants: &[u8]) -> Cube
        requires { All (λ octant. octant < 8) octants.now }
        ensures { result ≡ narrowed self octants.now }
    {
        let mut cube = self;
        for octant in octants {
            cube = cube.halved(u32::from(*octant));
        }
        cube
    }

    /// Whether the closed cubes share a point.
    pub(crate) fn meets(self, other: Cube, shape: Shape) -> bool
        requires domain { IsShape shape }
        ensures { IsTrue result ↔ Meet shape self other }
    {
        meet_along(Axis::x(shape), self.x, self.edge, other.x, other.edge)
            && meet_along(Axis::y(shape), self.y, self.edge, other.y, other.edge)
            && meet_along(Axis::z(shape), self.z, self.edge, other.z, other.edge)
    }

    /// Where the cube begins along each axis.
    pub fn corner(self) -> [u32; 3]
        ensures { result ≡ self.x ∷ self.y ∷ self.z ∷ [] }
    {
        [self.x, self.y, self.z]
    }

    pub fn edge(self) -> u32
        ensures { result ≡ self.edge }
    {
        self.edge
    }

    /// The cube told in boxes of a level: where it begins, and how many of them are along its edge.
    pub fn in_boxes(self, level: u32) -> Cube
        requires { level ≤ 4 }
        ensures { result ≡ in_boxes level self }
    {
        let shift = 4 - level;
        Cube {
            x: self.x >> shift,
            y: self.y >> shift,
            z: self.z >> shift,
            edge: self.edge >> shift,
        }
    }

    /// Whether a face lies at the domain's edge.
    pub fn is_at_edge(self, shape: Shape, face: Face) -> bool
        requires { IsShape shape }
        ensures { IsTrue result ↔ IsAtEdge shape self face }
    {
        match face {
            Face::XLow => Axis::x(shape).is_first(self.x),
            Face::XHigh => Axis::x(shape).is_last(self.x + self.edge),
            Face::YLow => Axis::y(shape).is_first(self.y),
            Face::YHigh => Axis::y(shape).is_last(self.y + self.edge),
            Face::ZLow => Axis::z(shape).is_first(self.z),
            Face::ZHigh => Axis::z(shape).is_last(self.z + self.edge),
        }
    }

    /// The unit just across a face, so many units on from where the face begins along its two
    /// axes, in the order x, y, z.
    pub fn across(self, shape: Shape, face: Face, a: u32, b: u32) -> Voxel
        requires domain { IsShape shape }
        requires a_in { a < self.edge }
        requires b_in { b < self.edge }
        ensures { result ≡ unit_across shape self face a b }
    {
        let Cube { x, y, z, edge } = self;
        match face {
            Face::XLow => Voxel {
                x: Axis::x(shape).back(1, x),
                y: y + a,
                z: z + b,
            },
            Face::XHigh => Voxel {
                x: Axis::x(shape).on(edge, x),
                y: y + a,
                z: z + b,
            },
            Face::YLow => Voxel {
                x: x + a,
                y: Axis::y(shape).back(1, y),
                z: z + b,
            },
            Face::YHigh => Voxel {
                x: x + a,
                y: Axis::y(shape).on(edge, y),
                z: z + b,
            },
            Face::ZLow => Voxel {
                x: x + a,
                y: y + b,
                z: Axis::z(shape).back(1, z),
            },
            Face::ZHigh => Voxel {
                x: x + a,
                y: y + b,
                z: Axis::z(shape).on(edge, z),
            },
        }
    }

    /// The places beside the cube in turn, of which there are 27 with its own corner.
    pub fn beside(self, shape: Shape, step: u32) -> Voxel
        requires domain { IsShape shape }
        requires placed { IsPlaced shape self }
        ensures place { result ≡ place_beside shape self step }
        ensures inside { InDomain shape result }
    {
        Voxel {
            x: unit_beside(Axis::x(shape), self.x, self.edge, step % 3),
            y: unit_beside(Axis::y(shape), self.y, self.edge, step / 3 % 3),
            z: unit_beside(Axis::z(shape), self.z, self.edge, step / 9),
        }
    }

    fn overlaps_x(self, other: Cube, shape: Shape) -> bool
        requires domain { IsShape shape }
        ensures { IsTrue result ↔ OverlapsX shape self other }
    {
        overlap_along(Axis::x(shape), self.x, self.edge, other.x, other.edge)
    }

    fn overlaps_y(self, other: Cube, shape: Shape) -> bool
        requires domain { IsShape shape }
        ensures { IsTrue result ↔ OverlapsY shape self other }
    {
        overlap_along(Axis::y(shape), self.y, self.edge, other.y, other.edge)
    }

    fn overlaps_z(self, other: Cube, shape: Shape) -> bool
        requires domain { IsShape shape }
        ensures { IsTrue result ↔ OverlapsZ shape self other }
    {
        overlap_along(Axis::z(shape), self.z, self.edge, other.z, other.edge)
    }

    fn joins_x(self, other: Cube, shape: Shape) -> bool
        requires domain { IsShape shape }
        ensures { IsTrue result ↔ JoinsX shape self other }
    {
        join_at(Axis::x(shape), self.x + self.edge, other.x)
    }

    fn joins_y(self, other: Cube, shape: Shape) -> bool
        requires domain { IsShape shape }
        ensures { IsTrue result ↔ JoinsY shape self other }
    {
        join_at(Axis::y(shape), self.y + self.edge, other.y)
    }

    fn joins_z(self, other: Cube, shape: Shape) -> bool
        requires domain { IsShape shape }
        ensures { IsTrue result ↔ JoinsZ shape self other }
    {
        join_at(Axis::z(shape), self.z + self.edge, other.z)
    }

    fn shares(self, face: Face, other: Cube, shape: Shape) -> bool
        requires domain { IsShape shape }
        ensures { IsTrue result ↔ SharesFace shape face self other }
    {
        match face {
            Face::XLow => {
                other.joins_x(self, shape)
                    && self.overlaps_y(other, shape)
                    && self.overlaps_z(other, shape)
            }
            Face::XHigh => {
                self.joins_x(other, shape)
                    && self.overlaps_y(other, shape)
                    && self.overlaps_z(other, shape)
            }
            Face::YLow => {
                other.joins_y(self, shape)
                    && self.overlaps_x(other, shape)
                    && self.overlaps_z(other, shape)
            }
            Face::YHigh => {
                self.joins_y(other, shape)
                    && self.overlaps_x(other, shape)
                    && self.overlaps_z(other, shape)
            }
            Face::ZLow => {
                other.joins_z(self, shape)
                    && self.overlaps_x(other, shape)
                    && self.overlaps_y(other, shape)
            }
            Face::ZHigh => {
                self.joins_z(other, shape)
                    && self.overlaps_x(other, shape)
                    && self.overlaps_y(other, shape)
            }
        }
    }

    /// The face of this cube that it shares with the other, which lies on its other side.
    pub(crate) fn face(self, other: Cube, shape: Shape) -> Option<Face>
        requires domain { IsShape shape }
        ensures { MatchOption result
            ((face : Face) → ¬ SharesFace shape face self other)
            (λ face. SharesFace shape face self other) }
    {
        if self.shares(Face::XLow, other, shape) {
            Some(Face::XLow)
        } else if self.shares(Face::XHigh, other, shape) {
            Some(Face::XHigh)
        } else if self.shares(Face::YLow, other, shape) {
            Some(Face::YLow)
        } else if self.shares(Face::YHigh, other, shape) {
            Some(Face::YHigh)
        } else if self.shares(Face::ZLow, other, shape) {
            Some(Face::ZLow)
        } else if self.shares(Face::ZHigh, other, shape) {
            Some(Face::ZHigh)
        } else {
            None
        }
    }
}

/// Whether these are one place of the axis.
fn join_at(axis: Axis, end: u32, low: u32) -> bool
    requires few { axis.extent ≤ 256 }
    requires room { end ≤ 256 }
    requires other_room { low ≤ 256 }
    ensures { IsTrue result ↔ JoinsOn axis end low }
{
    end == low
}

fn meet_at(low: u32, length: u32, other_low: u32, other_length: u32) -> bool
    requires room { low + length ≤ 512 }
    requires other_room { other_low + other_length ≤ 512 }
    ensures { IsTrue result ↔ Meets low length other_low other_length }
{
    low <= other_low + other_length && other_low <= low + length
}

fn meet_along(axis: Axis, low: u32, length: u32, other_low: u32, other_length: u32) -> bool
    requires few { axis.extent ≤ 256 }
    requires room { low + length ≤ 256 }
    requires other_room { other_low + other_length ≤ 256 }
    ensures { IsTrue result ↔ MeetsOn axis low length other_low other_length }
{
    meet_at(low, length, other_low, other_length)
}

fn overlap_at(low: u32, length: u32, other_low: u32, other_length: u32) -> bool
    requires room { low + length ≤ 512 }
    requires other_room { other_low + other_length ≤ 512 }
    ensures { IsTrue result ↔ Overlaps low length other_low other_length }
{
    low < other_low + other_length && other_low < low + length
}

fn overlap_along(axis: Axis, low: u32, length: u32, other_low: u32, other_length: u32) -> bool
    requires few { axis.extent ≤ 256 }
    requires room { low + length ≤ 256 }
    requires other_room { other_low + other_length ≤ 256 }
    ensures { IsTrue result ↔ OverlapsOn axis low length other_low other_length }
{
    overlap_at(low, length, other_low, other_length)
}

/// Along one axis, one of three units beside a stretch, by its side: 0 for the last before it, 1
/// for its first, 2 for the first after it. At the domain's edge the first of the stretch stands
/// for one that lies outside.
fn unit_beside(axis: Axis, low: u32, length: u32, side: u32) -> u32
    requires room { low + length ≤ axis.extent }
    requires some { 0 < length }
    requires few { axis.extent ≤ 256 }
    ensures exact { result ≡ unit_beside axis low length side }
    ensures inside { result < axis.extent }
{
    match side {
        0 => {
            if axis.is_first(low) {
                low
            } else {
                axis.back(1, low)
            }
        }
        1 => low,
        _ => {
            if axis.is_last(low + length) {
                low
            } else {
                axis.on(length, low)
            }
        }
    }
}
