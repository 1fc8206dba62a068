//! The laws of maps. Each function does nothing, and its contract is the law.

ghost use Rattle.std.specs.Prelude.{◌≡◌, ◌+◌, ◌*◌, ◌/◌, ◌<◌, ◌≤◌, ◌↔◌, ℕ, length, true, All, AllPairs, Bool, Contains, IsTrue, List, Some};
ghost use Rattle.std.specs.List.{slice_index_or};
ghost use Rattle.bf_id.specs.Cube.{Holds, Voxel};
ghost use Rattle.bf_face.specs.Face.{opposite_of};
ghost use Rattle.bf_id.specs.Id.{box_of, child_of, level_of, octant_of, root_id, root_ids, BlockId, IsId};
ghost use Rattle.bf_id.specs.Shape.{root_count, IsShape};
ghost use Rattle.bf_face.specs.declared.face.Face.{Face};
ghost use Rattle.bf_id.specs.Tiling.{IsBalanced, Tiles};
ghost use Rattle.bf_id.specs.Walk.{IsBefore};
ghost use Rattle.bf_id.specs.declared.shape.Shape.{Shape};
ghost use Rattle.bf_cells.specs.Grid.{cell_at, table, Grid};
ghost use Rattle.bf_cells.specs.Kernel.{relaxed_grid};
ghost use Rattle.bf_cells.specs.Levels.{face_mean};
ghost use Rattle.bf_cells.specs.Octant.{octant_copy_of};
ghost use Rattle.bf_cells.specs.Shell.{face_cell, Walls};
ghost use Rattle.bf_case.specs.Around.{walls_around, IsAround};
ghost use Rattle.bf_case.specs.Balanced.{AreBalancedLeaves};
ghost use Rattle.bf_id.specs.Neighbours.{IsAtEdge};
ghost use Rattle.bf_case.specs.Beside.{first_low, second_low, value_beside, HoldSamples, LiesAcross};
ghost use Rattle.bf_case.specs.Case.{IsSized, IsValid};
ghost use Rattle.bf_case.specs.Halves.{first_half, is_opposite, second_half, ShareFace};
ghost use Rattle.bf_case.specs.Map.{cells_at, ids_of, IsBalancedMap, IsMap, Leaf};
ghost use Rattle.bf_case.specs.Merging.{merges, Merges};
ghost use Rattle.bf_case.specs.Model.{filled_root, initial, model, model_at, NeverRefines};
ghost use Rattle.bf_case.specs.Refinement.{is_among, refined_ids, IsRefined};
ghost use Rattle.bf_case.specs.Regrid.{merged_grid, regrid, regridded_ids, sampled_leaf, target_in};
ghost use Rattle.bf_case.specs.Sample.{cell_corner, sample};
ghost use Rattle.bf_case.specs.Stencil.{stencil, stepped_value};
ghost use Rattle.bf_case.specs.Wishes.{Wishes};
ghost use Rattle.bf_case.specs.declared.case.Case.{Case};
ghost use Rattle.bf_case.specs.declared.target.Target.TheVariants.{Keep, Merge, Refine};

/// The refined leaves, as they are computed in rounds, are those to which a chain leads from a leaf
/// that wishes to be refined.
pub fn refined_leaves_end_chains()
    ensures { (shape : Shape) (ids : List BlockId) (w : Wishes) (i : BlockId)
        → All (λ j. level_of j ≤ 4) ids
        → (IsTrue (is_among (refined_ids shape ids w) i) ↔ IsRefined shape ids w i) }
{}

/// Which octets merge, as it is computed down from a parent through at most four levels, is what the rule says: the
/// eight are leaves that wish to be coarsened, none is refined, no refined leaf of their level touches one of them, and
/// each leaf one level finer that touches one of them merges too.
pub fn an_octet_merges_by_its_rule()
    ensures { (shape : Shape) (ids : List BlockId) (w : Wishes) (refined : List BlockId) (parent : BlockId)
        → All (λ j. level_of j ≤ 4) ids
        → (IsTrue (merges shape ids w refined parent) ↔ Merges shape ids w refined parent) }
{}

/// At a leaf's level, a map has the leaf's own cells as its samples there.
pub fn a_map_samples_its_own_cells()
    ensures { (shape : Shape) (side : ℕ) (leaves : List Leaf) (i : BlockId) (g : Grid) (x y z : ℕ)
        → IsMap shape side leaves → Contains leaves (i, g) → x < side → y < side → z < side
        → sample shape side leaves (level_of i) (cell_corner shape side i x y z) ≡ cell_at g x y z }
{}

/// Where a leaf is kept, a map samples the leaf as it is.
pub fn a_kept_leaf_keeps_its_cells()
    ensures { (shape : Shape) (side : ℕ) (leaves : List Leaf) (i : BlockId) (g : Grid)
        → IsMap shape side leaves → Contains leaves (i, g)
        → sampled_leaf shape side leaves i ≡ (i, g) }
{}

/// At a child of a leaf, a map samples the octant of the leaf that the child takes: each of its cells eight times.
pub fn a_refined_leaf_gives_its_octants()
    ensures { (shape : Shape) (side : ℕ) (leaves : List Leaf) (i : BlockId) (g : Grid) (octant : ℕ)
        → IsMap shape side leaves → Contains leaves (i, g) → level_of i < 4 → octant < 8
        → sampled_leaf shape side leaves (child_of i octant) ≡ (child_of i octant, octant_copy_of g octant) }
{}

/// At the parent of eight leaves, whose cells are told by octant, a map samples the means of those cells.
pub fn a_merging_octet_gives_its_means()
    ensures { (shape : Shape) (side : ℕ) (leaves : List Leaf) (parent : BlockId) (g : ℕ → Grid)
        → IsMap shape side leaves
        → ((octant : ℕ) → octant < 8 → Contains leaves (child_of parent octant, g octant))
        → sampled_leaf shape side leaves parent ≡ (parent, merged_grid side g) }
{}

/// Which cells the new leaves of a regrid have: those of the old leaf, or an octant of the leaf that was refined, or
/// the means of the eight that merge.
pub fn a_regrid_gives_each_leaf_its_cells()
    ensures kept { (c : Case) (leaves : List Leaf) (i : BlockId) (g : Grid)
        → IsMap c.roots c.side leaves → cells_at leaves i ≡ Some g
        → target_in c leaves i ≡ Keep
        → cells_at (regrid c leaves) i ≡ Some g }
    ensures refined { (c : Case) (leaves : List Leaf) (i : BlockId) (g : Grid) (octant : ℕ)
        → c.levels ≤ 4 → IsMap c.roots c.side leaves → cells_at leaves i ≡ Some g
        → target_in c leaves i ≡ Refine → octant < 8
        → cells_at (regrid c leaves) (child_of i octant) ≡ Some (octant_copy_of g octant) }
    ensures merged { (c : Case) (leaves : List Leaf) (parent : BlockId) (g : ℕ → Grid)
        → IsMap c.roots c.side leaves
        → ((octant : ℕ) → octant < 8 → cells_at leaves (child_of parent octant) ≡ Some (g octant))
        → target_in c leaves (child_of parent 0) ≡ Merge
        → cells_at (regrid c leaves) parent ≡ Some (merged_grid c.side g) }
{}

/// A step changes no id, and what it makes is a map again: each new value has 32 bits.
pub fn a_step_keeps_the_leaves()
    ensures ids { (shape : Shape) (side : ℕ) (leaves : List Leaf)
        → ids_of (stencil shape side leaves) ≡ ids_of leaves }
    ensures map { (shape : Shape) (side : ℕ) (leaves : List Leaf)
        → IsMap shape side leaves → IsMap shape side (stencil shape side leaves) }
{}

/// What a step makes of a balanced map is balanced: its leaves are the same.
pub fn a_step_keeps_a_balanced_map()
    ensures { (c : Case) (leaves : List Leaf) → IsBalancedMap c leaves
        → IsBalancedMap c (stencil c.roots c.side leaves) }
{}

/// By whatever wishes, a regrid makes balanced leaves of balanced leaves, where no leaf of the finest level wishes to
/// be refined.
pub fn a_regrid_keeps_balanced_leaves()
    ensures { (shape : Shape) (levels : ℕ) (ids : List BlockId) (w : Wishes)
        → levels ≤ 4
        → ((i : BlockId) → Contains ids i → IsTrue (w.finer i) → level_of i < levels)
        → AreBalancedLeaves shape levels ids
        → AreBalancedLeaves shape levels (regridded_ids shape ids w) }
{}

/// What a regrid makes of a balanced map of a case is balanced again, and each leaf has its cells.
pub fn a_regrid_keeps_a_balanced_map()
    ensures { (c : Case) (leaves : List Leaf) → IsSized c → IsBalancedMap c leaves
        → IsBalancedMap c (regrid c leaves) }
{}

/// Where level 0 is the finest, a map of roots comes back from a regrid as it is.
pub fn one_level_regrids_to_itself()
    ensures { (c : Case) (leaves : List Leaf)
        → c.levels ≡ 0 → IsMap c.roots c.side leaves → All (λ i. level_of i ≡ 0) (ids_of leaves)
        → regrid c leaves ≡ leaves }
{}

/// A valid case begins with a map of the roots.
pub fn the_first_map_has_the_roots()
    ensures ids { (c : Case) → ids_of (initial c) ≡ root_ids c.roots }
    ensures map { (c : Case) → IsValid c → IsMap c.roots c.side (initial c) }
{}

/// At each time of a valid case, before a regrid and after it, the model's map is balanced. So its leaves tile the
/// domain, touching ones differ by at most one level, and they stand in rising order.
pub fn every_map_is_balanced()
    ensures map { (c : Case) (time : ℕ) (after : Bool) → IsValid c
        → IsBalancedMap c (model_at c time after) }
    ensures tiles { (c : Case) (time : ℕ) (after : Bool) → IsValid c
        → Tiles c.roots (ids_of (model_at c time after)) }
    ensures balanced { (c : Case) (time : ℕ) (after : Bool) → IsValid c
        → IsBalanced c.roots (ids_of (model_at c time after)) }
    ensures rises { (c : Case) (time : ℕ) (after : Bool) → IsValid c
        → AllPairs IsBefore (ids_of (model_at c time after)) }
{}

/// Where level 0 is the finest, the roots stay the leaves at every time, and no regrid changes the map.
pub fn one_level_keeps_the_roots()
    ensures ids { (c : Case) (time : ℕ) → IsValid c → c.levels ≡ 0
        → ids_of (model c time) ≡ root_ids c.roots }
    ensures map { (c : Case) (time : ℕ) → IsValid c → c.levels ≡ 0
        → IsMap c.roots c.side (model c time) }
    ensures regridded { (c : Case) (time : ℕ) → IsValid c → c.levels ≡ 0
        → model_at c time true ≡ model c time }
{}

/// Where nothing regrids, the roots stay the leaves at every time.
pub fn where_nothing_regrids_the_roots_stay()
    ensures ids { (c : Case) (time : ℕ) → IsValid c → c.regrid ≡ 0
        → ids_of (model c time) ≡ root_ids c.roots }
    ensures map { (c : Case) (time : ℕ) → IsValid c → c.regrid ≡ 0
        → IsMap c.roots c.side (model c time) }
    ensures regridded { (c : Case) (time : ℕ) → IsValid c → c.regrid ≡ 0
        → model_at c time true ≡ model c time }
{}

/// The leaves of a map are what is found in it by id.
pub fn a_leaf_is_found_by_its_id()
    ensures { (shape : Shape) (side : ℕ) (leaves : List Leaf) (i : BlockId) (g : Grid)
        → IsMap shape side leaves
        → (Contains leaves (i, g) ↔ (cells_at leaves i ≡ Some g)) }
{}

/// A step gives each cell of each leaf its new value.
pub fn a_step_steps_each_leaf()
    ensures { (shape : Shape) (side : ℕ) (leaves : List Leaf) (i : BlockId) (g : Grid)
        → IsMap shape side leaves → cells_at leaves i ≡ Some g
        → cells_at (stencil shape side leaves) i
        ≡ Some (table side (λ x y z.
        stepped_value shape side leaves (level_of i) (cell_corner shape side i x y z))) }
{}

/// A root is found at the beginning, filled.
pub fn a_root_begins_filled()
    ensures { (c : Case) (root : ℕ) → IsValid c → root < root_count c.roots
        → cells_at (initial c) (root_id root) ≡ Some (filled_root c root).1 }
{}

/// Where no leaf is ever refined, a step of a root is the kernel between the walls around it, if all cells meant are those
/// of the model: the root's own, and those of the roots across its faces.
pub fn a_root_steps_between_its_walls()
    ensures { (c : Case) (time root : ℕ) (grid : ℕ → Grid)
        → IsValid c → NeverRefines c → root < root_count c.roots
        → ((k : ℕ) → IsAround c.roots root k → cells_at (model c time) (root_id k) ≡ Some (grid k))
        → cells_at (model c (time + 1)) (root_id root)
        ≡ Some (relaxed_grid (grid root) (walls_around c.roots c.side grid root)) }
{}

/// Between walls that hold the samples beside its faces, the kernel makes of a leaf what the step makes of it.
pub fn the_kernel_between_samples_is_the_stencil()
    ensures { (shape : Shape) (side : ℕ) (leaves : List Leaf) (i : BlockId) (g : Grid) (walls : Walls)
        → IsShape shape → IsMap shape side leaves → cells_at leaves i ≡ Some g
        → walls.side ≡ g.side → HoldSamples shape leaves i g walls
        → cells_at (stencil shape side leaves) i ≡ Some (relaxed_grid g walls) }
{}

/// What a map samples beside the cells of a leaf's face. At the domain's edge it is the leaf's own cell. Elsewhere the leaf across
/// says it: of the same level by its own cell on the opposite face, one level coarser by the cell that is as wide as two, one
/// level finer by the mean, rounded down, of the eight cells that are as wide as one.
pub fn samples_lie_across_a_face()
    ensures edge { (shape : Shape) (side : ℕ) (leaves : List Leaf) (i : BlockId) (g : Grid) (face : Face) (a b : ℕ)
        → IsShape shape → IsMap shape side leaves → Contains leaves (i, g) → IsAtEdge shape (box_of shape i) face
        → value_beside shape leaves i g face a b ≡ face_cell g face a b }
    ensures same { (shape : Shape) (side : ℕ) (leaves : List Leaf) (i j : BlockId) (g h : Grid) (face : Face) (a b : ℕ)
        → IsShape shape → LiesAcross shape side leaves (i, g) face 0 0 (j, h) → level_of j ≡ level_of i → a < side → b < side
        → value_beside shape leaves i g face a b ≡ face_cell h (opposite_of face) a b }
    ensures coarser { (shape : Shape) (side : ℕ) (leaves : List Leaf) (i j : BlockId) (g h : Grid) (face : Face) (half_a half_b a b : ℕ)
        → IsShape shape → LiesAcross shape side leaves (i, g) face 0 0 (j, h) → level_of j + 1 ≡ level_of i
        → half_a < 2 → first_low face (box_of shape i) ≡ first_low face (box_of shape j) + half_a * (box_of shape i).edge
        → half_b < 2 → second_low face (box_of shape i) ≡ second_low face (box_of shape j) + half_b * (box_of shape i).edge
        → a < side → b < side
        → value_beside shape leaves i g face a b
        ≡ face_cell h (opposite_of face) (half_a * (side / 2) + a / 2) (half_b * (side / 2) + b / 2) }
    ensures finer { (shape : Shape) (side : ℕ) (leaves : List Leaf) (i j : BlockId) (g h : Grid) (face : Face) (half_a half_b a b : ℕ)
        → IsShape shape → half_a < 2 → half_b < 2
        → LiesAcross shape side leaves (i, g) face (half_a * ((box_of shape i).edge / 2)) (half_b * ((box_of shape i).edge / 2)) (j, h)
        → level_of j ≡ level_of i + 1 → a < side / 2 → b < side / 2
        → value_beside shape leaves i g face (half_a * (side / 2) + a) (half_b * (side / 2) + b)
        ≡ face_mean h (opposite_of face) a b }
{}

/// In a balanced map a leaf that has a unit just across another one's face is at most one level finer or coarser. So
/// the three kinds of leaf across a face are all there are.
pub fn what_lies_across_is_near()
    ensures { (shape : Shape) (side : ℕ) (leaves : List Leaf) (i j : BlockId) (g h : Grid) (face : Face) (a b : ℕ)
        → IsShape shape → IsBalanced shape (ids_of leaves) → LiesAcross shape side leaves (i, g) face a b (j, h)
        → a < (box_of shape i).edge → b < (box_of shape i).edge
        → (level_of i ≤ level_of j + 1) × (level_of j ≤ level_of i + 1) }
{}

/// Where leaves tile the domain and rise, the eight children of a block stand together, by rising octant. Here
/// `k` is the place of the first of them.
pub fn siblings_stand_together()
    ensures { (shape : Shape) (ids : List BlockId) (parent : BlockId) (k octant : ℕ) (d : BlockId)
        → Tiles shape ids → All IsId ids → AllPairs IsBefore ids
        → ((o : ℕ) → o < 8 → Contains ids (child_of parent o))
        → k < length ids → slice_index_or ids k d ≡ child_of parent 0 → octant < 8
        → (k + octant < length ids) × (slice_index_or ids (k + octant) d ≡ child_of parent octant) }
{}

/// Where leaves tile the domain and rise, a unit lies in the leaf at one place.
pub fn a_unit_has_one_place()
    ensures { (shape : Shape) (ids : List BlockId) (v : Voxel) (j k : ℕ) (d : BlockId)
        → Tiles shape ids → AllPairs IsBefore ids → j < length ids → k < length ids
        → Holds (box_of shape (slice_index_or ids j d)) v
        → Holds (box_of shape (slice_index_or ids k d)) v
        → j ≡ k }
{}

/// What a map samples beside the cells of a face that a leaf shares with another. Of the same level it is the other one's own
/// cell there; of one level coarser the cell that is as wide as two, in the quarter that the leaf's octant tells; of one level
/// finer the mean of the eight cells that are as wide as one, in the quarter that the other one's octant tells.
pub fn samples_lie_in_the_leaf_that_shares_the_face()
    ensures same { (shape : Shape) (side : ℕ) (leaves : List Leaf) (i j : BlockId) (g h : Grid) (face : Face) (a b : ℕ)
        → ShareFace shape side leaves (i, g) face (j, h) → level_of j ≡ level_of i → a < side → b < side
        → value_beside shape leaves i g face a b ≡ face_cell h (opposite_of face) a b }
    ensures coarser { (shape : Shape) (side : ℕ) (leaves : List Leaf) (i j : BlockId) (g h : Grid) (face : Face) (a b : ℕ)
        → ShareFace shape side leaves (i, g) face (j, h) → level_of j + 1 ≡ level_of i → a < side → b < side
        → value_beside shape leaves i g face a b ≡ face_cell h (opposite_of face)
        (first_half face (octant_of i) * (side / 2) + a / 2) (second_half face (octant_of i) * (side / 2) + b / 2) }
    ensures finer { (shape : Shape) (side : ℕ) (leaves : List Leaf) (i j : BlockId) (g h : Grid) (face : Face) (a b : ℕ)
        → ShareFace shape side leaves (i, g) face (j, h) → level_of j ≡ level_of i + 1 → a < side / 2 → b < side / 2
        → value_beside shape leaves i g face (first_half face (octant_of j) * (side / 2) + a) (second_half face (octant_of j) * (side / 2) + b)
        ≡ face_mean h (opposite_of face) a b }
{}

/// In a balanced map, leaves that share a face are at most one level apart, and each cell at a face that doesn't lie at the
/// domain's edge lies beside a leaf that shares the face.
pub fn leaves_that_share_a_face_are_near_and_leave_no_place_out()
    ensures near { (shape : Shape) (side : ℕ) (leaves : List Leaf) (i j : BlockId) (g h : Grid) (face : Face)
        → ShareFace shape side leaves (i, g) face (j, h) → IsBalanced shape (ids_of leaves)
        → (level_of i ≤ level_of j + 1) × (level_of j ≤ level_of i + 1) }
    ensures all { (shape : Shape) (side : ℕ) (leaves : List Leaf) (i : BlockId) (g : Grid) (face : Face) (a b : ℕ)
        → IsShape shape → IsMap shape side leaves → IsBalanced shape (ids_of leaves) → Contains leaves (i, g)
        → (IsAtEdge shape (box_of shape i) face → ⊥) → a < side → b < side
        → (other : Leaf) × ShareFace shape side leaves (i, g) face other × IsTrue (is_opposite side face i other.0 a b) }
{}
