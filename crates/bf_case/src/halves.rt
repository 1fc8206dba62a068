ghost use Rattle.std.specs.Prelude.{◌≡◌, ◌<◌};
ghost use Rattle.bf_id.specs.Id.{octant_of};
ghost use Rattle.bf_case.specs.Halves.{first_half, second_half};

use bf_face::Face;
use bf_id::Id;

// The octant of its parent that a block is; 0 for a root.
fn octant_of(id: Id) -> u32
    ensures value { result ≡ octant_of id }
    ensures octal { result < 8 }
{
    match id.octant() {
        Some(octant) => octant,
        None => 0,
    }
}

/// On which half of its parent a block lies, along the first of a face's two axes and along the second: 0 for the low half, 1 for
/// the high one. A root counts as its octant 0.
pub fn halves_along(face: Face, id: Id) -> (u32, u32)
    ensures first { result.0 ≡ first_half face (octant_of id) }
    ensures second { result.1 ≡ second_half face (octant_of id) }
    ensures first_bit { result.0 < 2 }
    ensures second_bit { result.1 < 2 }
{
    let octant = octant_of(id);
    match face {
        Face::XLow | Face::XHigh => (octant / 2 % 2, octant / 4),
        Face::YLow | Face::YHigh => (octant % 2, octant / 4),
        Face::ZLow | Face::ZHigh => (octant % 2, octant / 2 % 2),
    }
}
