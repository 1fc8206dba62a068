//! Laws of blocks, each the contract of a call that does nothing.
ghost use Rattle.std.specs.Prelude.{◌≡◌, ℕ, ◌+◌, ◌<◌, ◌≤◌, All, List, Some, Contains, IsFalse, IsTrue, map};
ghost use Rattle.bf_id.specs.Id.{level_of, root_id, BlockId};
ghost use Rattle.bf_id.specs.Shape.{root_count};
ghost use Rattle.bf_cells.specs.Grid.{Grid, spread_of};
ghost use Rattle.bf_case.specs.declared.case.Case.{Case};
ghost use Rattle.bf_case.specs.declared.target.Target.TheVariants.{Keep, Merge, Refine};
ghost use Rattle.bf_case.specs.Around.{walls_around, IsAround};
ghost use Rattle.bf_case.specs.Map.{cells_at, ids_of};
ghost use Rattle.bf_case.specs.Model.{model, regrids};
ghost use Rattle.bf_block.specs.Runs.{CanRun};
ghost use Rattle.bf_case.specs.Beside.{HoldSamples};
ghost use Rattle.bf_block.specs.Block.{BlockValue, IsModels, IsRegriddedTo, after_regrid, before_regrid, map_at};
ghost use Rattle.bf_block.specs.Eighth.{AreOctet, AreSiblings, eighth_of};

/// Where nothing regrids, the walls around a root hold the samples around it, if all cells meant are those of the model: the
/// root's own, and those of the roots across its faces.
pub fn the_walls_around_a_root_hold_samples()
    ensures { (c : Case) (time root : ℕ) (grid : ℕ → Grid)
        → CanRun c → c.regrid ≡ 0 → root < root_count c.roots
        → ((k : ℕ) → IsAround c.roots root k → cells_at (model c time) (root_id k) ≡ Some (grid k))
        → HoldSamples c.roots (map_at c (after_regrid time)) (root_id root) (grid root) (walls_around c.roots c.side grid root) }
{}

/// Where nothing regrids, each block is a leaf still after the regrid of its time.
pub fn where_nothing_regrids_each_block_is_kept()
    ensures { (b : BlockValue)
        → IsModels b → b.case.regrid ≡ 0 → IsFalse b.point.regridded
        → Contains (ids_of (map_at b.case (after_regrid b.point.time))) b.id }
{}

/// A block whose cells spread too far is refined by the regrid of its time, if it isn't of the finest level.
pub fn a_block_that_spreads_is_refined()
    ensures { (b : BlockValue)
        → IsModels b → IsTrue (regrids b.case b.point.time) → IsFalse b.point.regridded
        → b.case.refine < spread_of b.cells → level_of b.id < b.case.levels
        → IsRegriddedTo Refine b.case b.point b.id }
{}

/// At the beginning a block whose cells don't spread too far is kept: all leaves are roots, so no finer one forces it.
pub fn at_the_beginning_a_block_that_does_not_spread_is_kept()
    ensures { (b : BlockValue)
        → IsModels b → IsTrue (regrids b.case b.point.time) → b.point ≡ before_regrid 0
        → spread_of b.cells ≤ b.case.refine
        → IsRegriddedTo Keep b.case b.point b.id }
{}

/// A block that a regrid keeps is a leaf after it.
pub fn a_block_that_is_kept_stays()
    ensures { (b : BlockValue)
        → IsModels b → IsRegriddedTo Keep b.case b.point b.id
        → Contains (ids_of (map_at b.case (after_regrid b.point.time))) b.id }
{}

/// Eight siblings of the finest level merge where none of them spreads above `coarsen`: no leaf is finer than they are, and
/// none of their level is refined.
pub fn siblings_of_the_finest_level_that_spread_little_merge()
    ensures { (c : Case) (time : ℕ) (parent : BlockId) (blocks : List BlockValue)
        → AreSiblings c time parent blocks → All IsModels blocks
        → IsTrue (regrids c time) → level_of parent + 1 ≡ c.levels
        → All (λ (b : BlockValue). spread_of b.cells ≤ c.coarsen) blocks
        → All (λ (b : BlockValue). IsRegriddedTo Merge b.case b.point b.id) blocks }
{}

/// The eighths of eight siblings are those of which their parent is made.
pub fn eighths_of_siblings_are_an_octet()
    ensures { (c : Case) (time : ℕ) (parent : BlockId) (blocks : List BlockValue)
        → AreSiblings c time parent blocks → AreOctet c time parent (map eighth_of blocks) }
{}
