//! The laws of blocks' boxes. Each function does nothing, and its contract is the law.

ghost use Rattle.std.specs.Prelude.{◌≡◌, ◌⊎◌, ℕ, ◌+◌, ◌*◌, ◌/◌, ◌%◌, ◌^◌, ◌<◌, ◌≤◌, List, Contains};
ghost use Rattle.bf_id.specs.Cube.{Cube, Voxel, Holds, Within, Apart};
ghost use Rattle.bf_id.specs.Meeting.{Meet};
ghost use Rattle.bf_id.specs.Shape.{IsShape, root_count, root_cube, InDomain};
ghost use Rattle.bf_id.specs.Id.{BlockId, IsId, level_of, root_ids, child_of, box_of, InShape, Touch, Begins};
ghost use Rattle.bf_face.specs.Face.{opposite_of};
ghost use Rattle.bf_id.specs.Face.{SharesFace};
ghost use Rattle.bf_id.specs.Tiling.{Tiles, IsBalanced, split_at, merged_at};
ghost use Rattle.bf_face.specs.declared.face.Face.{Face};
ghost use Rattle.bf_id.specs.declared.shape.Shape.{Shape};

/// Touching goes both ways.
#[tactic(auto, using(crate::proofs::Boxes::Touch_sym))]
pub fn touching_is_symmetric()
    ensures { (shape : Shape) (i j : BlockId) → Touch shape i j → Touch shape j i }
{}

/// A face that a cube shares with another lies on the other as the opposite face.
#[tactic(auto, using(crate::proofs::Cubes::opposite_face))]
pub fn faces_are_opposite()
    ensures { (shape : Shape) (f : Face) (c d : Cube) → SharesFace shape f c d → SharesFace shape (opposite_of f) d c }
{}

/// Two cubes that are no wider than a root share one face at most.
#[tactic(auto, using(crate::proofs::Cubes::one_face))]
pub fn a_face_is_one()
    ensures { (shape : Shape) (f g : Face) (c d : Cube) → IsShape shape → c.edge ≤ 16 → d.edge ≤ 16 → SharesFace shape f c d → SharesFace shape g c d → f ≡ g }
{}

/// Cubes that share a face meet.
pub fn sharing_a_face_meets()
    ensures { (shape : Shape) (f : Face) (c d : Cube) → SharesFace shape f c d → Meet shape c d }
{}

/// The edge of a box is a root's edge, halved once for each level.
pub fn edges_halve()
    ensures whole { (shape : Shape) (i : BlockId) → level_of i ≤ 4 → (box_of shape i).edge * 2 ^ level_of i ≡ 16 }
    ensures edge { (shape : Shape) (i : BlockId) → level_of i ≤ 4 → (box_of shape i).edge ≡ 16 / 2 ^ level_of i }
{}

/// A child lies in its parent.
#[tactic(auto, using(crate::proofs::Boxes::child_within))]
pub fn a_child_lies_in_its_parent()
    ensures { (shape : Shape) (i : BlockId) (octant : ℕ) → octant < 8 → Within (box_of shape (child_of i octant)) (box_of shape i) }
{}

/// Each voxel of a block is in exactly one of its eight children.
pub fn children_tile_their_parent()
    ensures covered { (shape : Shape) (i : BlockId) (v : Voxel) → level_of i < 4 → Holds (box_of shape i) v → (octant : ℕ) × (octant < 8) × Holds (box_of shape (child_of i octant)) v }
    ensures apart { (shape : Shape) (i : BlockId) (v : Voxel) (a b : ℕ) → a < 8 → b < 8 → Holds (box_of shape (child_of i a)) v → Holds (box_of shape (child_of i b)) v → a ≡ b }
{}

/// The boxes of two blocks lie apart, or one lies in the other. They share a voxel only if one
/// block begins the other, and a block lies in each that begins it.
pub fn boxes_nest_or_are_apart()
    ensures nest { (shape : Shape) (i j : BlockId) → IsShape shape → IsId i → IsId j → Apart (box_of shape i) (box_of shape j) ⊎ Within (box_of shape i) (box_of shape j) ⊎ Within (box_of shape j) (box_of shape i) }
    ensures begins { (shape : Shape) (i j : BlockId) (v : Voxel) → IsShape shape → IsId i → IsId j → Holds (box_of shape i) v → Holds (box_of shape j) v → Begins i j ⊎ Begins j i }
    ensures within { (shape : Shape) (i j : BlockId) → IsId j → Begins i j → Within (box_of shape j) (box_of shape i) }
{}

/// The number of a root is that of its coordinates, x fastest. Each voxel of the domain is in the
/// root over whose coordinates it lies.
pub fn roots_are_told_by_coordinates()
    ensures number { (shape : Shape) (root : ℕ) → root % shape.nx + shape.nx * (root / shape.nx % shape.ny + shape.ny * (root / shape.nx / shape.ny)) ≡ root }
    ensures holding { (shape : Shape) (v : Voxel) → InDomain shape v → (r : ℕ) × (r ≡ v.x / 16 + shape.nx * (v.y / 16 + shape.ny * (v.z / 16))) × (r < root_count shape) × Holds (root_cube shape r) v }
{}

/// A block of one of the domain's roots lies in the domain.
pub fn blocks_lie_in_the_domain()
    ensures { (shape : Shape) (i : BlockId) (v : Voxel) → IsShape shape → IsId i → InShape shape i → Holds (box_of shape i) v → InDomain shape v }
{}

/// The roots tile the domain, and are balanced.
pub fn roots_tile()
    ensures tile { (shape : Shape) → IsShape shape → Tiles shape (root_ids shape) }
    ensures balanced { (shape : Shape) → IsBalanced shape (root_ids shape) }
{}

/// Where a leaf gives way to its eight children, a tiling stays one.
pub fn splitting_keeps_a_tiling()
    ensures { (shape : Shape) (ids : List BlockId) (i : BlockId) → Tiles shape ids → Contains ids i → level_of i < 4 → Tiles shape (split_at i ids) }
{}

/// Where eight leaves give way to their parent, a tiling stays one.
pub fn merging_keeps_a_tiling()
    ensures { (shape : Shape) (ids : List BlockId) (parent : BlockId) → Tiles shape ids → ((octant : ℕ) → octant < 8 → Contains ids (child_of parent octant)) → level_of parent < 4 → Tiles shape (merged_at parent ids) }
{}

/// No leaf of a tiling lies below another.
pub fn no_leaf_lies_below_another()
    ensures { (shape : Shape) (ids : List BlockId) (i j : BlockId) → Tiles shape ids → Contains ids i → Contains ids j → IsId j → Begins i j → i ≡ j }
{}
