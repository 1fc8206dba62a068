//! The faces of a block's box: the units across their quarters.
ghost use Rattle.std.specs.Prelude.{◌≡◌, ◌+◌, ◌*◌, ◌/◌, ◌<◌, ◌≤◌};
ghost use Rattle.bf_id.specs.Neighbours.{unit_across};
ghost use Rattle.bf_id.specs.Shape.{IsShape};

use bf_face::Face;
use bf_id::{Cube, Shape, Voxel};

/// The unit just across a face where a quarter of the face begins, which is told by its halves along the face's two axes.
pub(crate) fn across_quarter(
    cube: Cube,
    shape: Shape,
    face: Face,
    half_a: u32,
    half_b: u32,
) -> Voxel
    requires domain { IsShape shape }
    requires some { 0 < cube.edge }
    requires half_a { half_a < 2 }
    requires half_b { half_b < 2 }
    ensures { result ≡ unit_across shape cube face (half_a * (cube.edge / 2)) (half_b * (cube.edge / 2)) }
{
    let half = cube.edge() / 2;
    cube.across(shape, face, half_a * half, half_b * half)
}
