//! The laws of strips. Each function does nothing, and its contract is the law.
ghost use Rattle.std.specs.Prelude.{◌≡◌, ◌↔◌, ℕ, List, Contains, filter, Some};
ghost use Rattle.bf_face.specs.declared.face.Face.{Face};
ghost use Rattle.bf_id.specs.declared.shape.Shape.{Shape};
ghost use Rattle.bf_id.specs.Face.{SharesFace};
ghost use Rattle.bf_id.specs.Id.{box_of, touches, BlockId};
ghost use Rattle.bf_id.specs.Shape.{IsShape};
ghost use Rattle.bf_id.specs.Sharing.{shared_face};
ghost use Rattle.bf_id.specs.Tiling.{IsBalanced};
ghost use Rattle.bf_cells.specs.Grid.{Grid};
ghost use Rattle.bf_case.specs.declared.case.Case.{Case};
ghost use Rattle.bf_case.specs.Beside.{HoldSamples};
ghost use Rattle.bf_case.specs.Map.{ids_of, IsMap, Leaf};
ghost use Rattle.bf_block.specs.declared.point.Point.{Point};
ghost use Rattle.bf_block.specs.Block.{leaf_of, map_at, BlockValue, IsModels};
ghost use Rattle.bf_ghost.specs.Filling.{AreStripsFor, IsStripFor};
ghost use Rattle.bf_ghost.specs.Strips.{StripValue};
ghost use Rattle.bf_ghost.specs.Surrounding.{surrounding};
ghost use Rattle.bf_ghost.specs.Telling.{heard_by, linked_strips, strip_between, strips_among, strips_by, told_strips, AreAllLeaves};

/// The face that is found of two blocks is the one that they share.
pub fn a_shared_face_is_found()
    ensures { (shape : Shape) (i j : BlockId) (face : Face)
        → IsShape shape
        → ((shared_face shape (box_of shape i) (box_of shape j) ≡ Some face) ↔ SharesFace shape face (box_of shape i) (box_of shape j)) }
{}

/// What a block tells to a leaf of its map is a strip for it, as [`crate::fill`] asks.
pub fn what_a_block_tells_is_a_strip_for_it()
    ensures { (b : BlockValue) (i : BlockId) (strip : StripValue)
        → IsModels b → strip_between b.case.roots (leaf_of b) i ≡ Some strip
        → IsStripFor b.case.roots (map_at b.case b.point) i strip }
{}

/// The strips that a leaf is told by the leaves that touch it are the strips of all leaves that share a face with it.
pub fn strips_of_links_are_all()
    ensures { (shape : Shape) (side : ℕ) (leaves : List Leaf) (cells : BlockId → Grid) (near : List BlockId) (i : BlockId) (g : Grid)
        → IsShape shape → IsMap shape side leaves → Contains leaves (i, g)
        → ((leaf : Leaf) → Contains leaves leaf → cells leaf.0 ≡ leaf.1)
        → near ≡ filter (touches shape i) (ids_of leaves)
        → AreStripsFor shape leaves i (strips_among shape cells near i) }
{}

/// The strips that a leaf is told by all leaves' blocks are those of all leaves that share a face with it.
pub fn strips_of_all_leaves_are_all()
    ensures { (c : Case) (p : Point) (blocks : List BlockValue) (i : BlockId)
        → AreAllLeaves c p blocks
        → AreStripsFor c.roots (map_at c p) i (strips_by blocks i) }
{}

/// Which strips a leaf needs is no matter of their order.
pub fn strips_come_in_any_order()
    ensures { (shape : Shape) (leaves : List Leaf) (i : BlockId) (strips others : List StripValue)
        → AreStripsFor shape leaves i strips
        → ((strip : StripValue) → Contains strips strip ↔ Contains others strip)
        → AreStripsFor shape leaves i others }
{}

/// A block's own cells with the strips of all leaves that share a face with it laid over them, in their order, hold the samples
/// around it.
pub fn all_strips_surround_a_block()
    ensures { (shape : Shape) (side : ℕ) (leaves : List Leaf) (i : BlockId) (g : Grid) (strips : List StripValue)
        → IsShape shape → IsMap shape side leaves → IsBalanced shape (ids_of leaves) → Contains leaves (i, g) → AreStripsFor shape leaves i strips
        → HoldSamples shape leaves i g (surrounding g strips) }
{}

/// What ranks tell to a leaf of one of them are the strips of all leaves that share a face with it, where the owner of each of
/// those is among these ranks.
pub fn strips_told_are_all()
    ensures { (shape : Shape) (side : ℕ) (leaves : List Leaf) (owner : BlockId → ℕ) (ranks : List ℕ) (i : BlockId) (g : Grid)
        → IsShape shape → IsMap shape side leaves → Contains leaves (i, g)
        → ((leaf : Leaf) (face : Face) → Contains leaves leaf → SharesFace shape face (box_of shape i) (box_of shape leaf.0) → Contains ranks (owner leaf.0))
        → AreStripsFor shape leaves i (heard_by shape leaves owner ranks (owner i) i) }
{}

/// Where each leaf is linked with those that touch it, what a rank tells another by the links of its leaves is all that it has to
/// tell it.
pub fn links_tell_all_strips()
    ensures { (shape : Shape) (side : ℕ) (leaves : List Leaf) (links : BlockId → List BlockId) (owner : BlockId → ℕ) (from to : ℕ)
        → IsShape shape → IsMap shape side leaves
        → ((leaf : Leaf) → Contains leaves leaf → links leaf.0 ≡ filter (touches shape leaf.0) (ids_of leaves))
        → linked_strips shape leaves links owner from to ≡ told_strips shape leaves owner from to }
{}
