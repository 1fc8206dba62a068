ghost use Rattle.bf_id.specs.Axis.{back, on, IsFirst, IsLast};
ghost use Rattle.bf_id.specs.Shape.{axis_x, axis_y, axis_z, IsShape};
ghost use Rattle.std.specs.Prelude.{◌≡◌, ◌+◌, ◌^◌, ◌<◌, ◌≤◌, ◌↔◌, IsTrue};

use crate::shape::Shape;
use std::marker::Model;

/// One axis of the domain, by its length in units.
#[derive(Clone, Copy)]
pub struct Axis {
    pub extent: u32,
}

impl Model for Axis {
    ghost use Rattle.bf_id.specs.Axis.{Axis};

    ghost Value = { Axis };

    ghost view = { λ a. record { extent = a.extent } };

    ghost inverse = { λ a. record { extent = a.extent } };
}

impl Axis {
    pub fn x(shape: Shape) -> Axis
        requires { IsShape shape }
        ensures axis { result ≡ axis_x shape }
        ensures some { 0 < result.extent }
        ensures few { result.extent ≤ 256 }
    {
        Axis {
            extent: 16 * shape.nx,
        }
    }

    pub fn y(shape: Shape) -> Axis
        requires { IsShape shape }
        ensures axis { result ≡ axis_y shape }
        ensures some { 0 < result.extent }
        ensures few { result.extent ≤ 256 }
    {
        Axis {
            extent: 16 * shape.ny,
        }
    }

    pub fn z(shape: Shape) -> Axis
        requires { IsShape shape }
        ensures axis { result ≡ axis_z shape }
        ensures some { 0 < result.extent }
        ensures few { result.extent ≤ 256 }
    {
        Axis {
            extent: 16 * shape.nz,
        }
    }

    /// Whether the place lies at the domain's edge, at the beginning of the axis.
    pub fn is_first(self, place: u32) -> bool
        ensures { IsTrue result ↔ IsFirst self place }
    {
        place == 0
    }

    /// Whether a stretch that ends here ends at the domain's edge.
    pub fn is_last(self, end: u32) -> bool
        ensures { IsTrue result ↔ IsLast self end }
    {
        end == self.extent
    }

    /// The place so far before one that isn't at the domain's edge. An axis without an end would go round here, which a step
    /// longer than the axis, or past its beginning, couldn't: so both are asked.
    pub fn back(self, step: u32, place: u32) -> u32
        requires fits { step ≤ self.extent }
        requires far { 0 < place → step ≤ place }
        ensures { result ≡ back self step place }
    {
        place.saturating_sub(step)
    }

    /// The place so far after one that isn't at the domain's edge.
    pub fn on(self, step: u32, place: u32) -> u32
        requires { place + step < 2 ^ 32 }
        ensures { result ≡ on self step place }
    {
        place + step
    }
}
