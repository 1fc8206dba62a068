ghost use Rattle.std.specs.Prelude.{◌≡◌, ℕ, ◌<◌, Contains, IsFalse, IsTrue, IfErr, IfOk};
ghost use Rattle.bf_id.specs.Shape.{root_count};
ghost use Rattle.bf_id.specs.Id.{BlockId};
ghost use Rattle.bf_case.specs.declared.case.Case.{Case};
ghost use Rattle.bf_case.specs.declared.target.Target.TheVariants.{Merge, Refine};
ghost use Rattle.bf_case.specs.Map.{ids_of};
ghost use Rattle.bf_case.specs.Beside.{HoldSamples};
ghost use Rattle.bf_block.specs.Runs.{CanRun};
ghost use Rattle.bf_block.specs.Setup.{case_of};
ghost use Rattle.bf_block.specs.Block.{IsModels, IsRegriddedTo, block_with, child_block, initial_block, kept_block, split_blocks, stepped_block, map_at, after_regrid};
ghost use Rattle.bf_block.specs.Eighth.{AreOctet, eighth_of, merged_block};

use crate::merging::merge;
use crate::{Eighth, Kept, Memory, Opening, Point, Setup};
use bf_case::{AsLeaf, filled_root};
use bf_cells::{Cells, Shell};
use bf_id::{Id, Shape};
use std::alloc::Global;
use std::marker::Model;

/// A leaf of the model at a point of a run, with the cells that the model has of it there.
#[derive(Drop)]
pub struct Block {
    setup: Setup,
    point: Point,
    id: Id,
    cells: Cells,
}

impl Model for Block {
    ghost use Rattle.bf_block.specs.Block.{BlockValue, IsModels};

    ghost Value = { BlockValue };

    ghost use Rattle.bf_block.specs.BlockFields.{block_in};

    ghost view = { block_in };

    ghost invariant = { λ b. IsModels (block_in b) };
}

impl AsLeaf for Block {
    ghost use Rattle.bf_block.specs.Block.{leaf_of};

    ghost leaf = { leaf_of };

    fn id(&self) -> Id {
        self.id
    }

    fn cells(&self) -> &Cells {
        &self.cells
    }
}

impl Block {
    /// A root at the beginning. It takes an opening, so no rank can make one.
    pub fn initial(alloc: Global, opening: &Opening, root: u32) -> Result<Block, Memory>
        requires { root < root_count opening.now.roots }
        ensures { IfOk result (λ block. block ≡ initial_block opening.now root) }
    {
        let setup = opening.setup();
        let cells = filled_root(alloc, setup.case(), root)?;
        Ok(Block {
            setup: setup.share()?,
            point: Point::before_regrid(0),
            id: Id::root_of(root),
            cells,
        })
    }

    // A block of what is known to be the model's.
    pub(crate) fn of_model(setup: Setup, point: Point, id: Id, cells: Cells) -> Block
        requires { IsModels (block_with (case_of setup) point id cells) }
        ensures { result ≡ block_with (case_of setup) point id cells }
    {
        Block {
            setup,
            point,
            id,
            cells,
        }
    }

    /// Its id among the leaves of the model's map.
    pub fn id(&self) -> Id
        ensures { result ≡ self.now.id }
    {
        self.id
    }

    /// The time at which it stands, before or after that time's regrid.
    pub fn point(&self) -> Point
        ensures { result ≡ self.now.point }
    {
        self.point
    }

    /// How many roots the domain has along each axis.
    pub fn shape(&self) -> Shape
        ensures value { result ≡ self.now.case.roots }
        ensures runs { CanRun self.now.case }
    {
        self.setup.roots()
    }

    /// The cells, which are those of the model.
    pub fn cells(&self) -> &Cells
        ensures cells { result.now ≡ self.now.cells }
        ensures side { result.now.side ≡ self.now.case.side }
        ensures model { IsModels self.now }
    {
        &self.cells
    }

    /// The same leaf after its time's regrid, which kept it.
    pub fn kept(self) -> Block
        requires fresh { IsFalse self.point.regridded }
        requires leaf { Contains (ids_of (map_at self.case (after_regrid self.point.time))) self.id }
        ensures { result ≡ kept_block self }
    {
        let Block {
            setup,
            point,
            id,
            cells,
        } = self;
        Block {
            setup,
            point: Point::after_regrid(point.time),
            id,
            cells,
        }
    }

    // The child of a refined leaf towards an octant.
    fn child(&self, octant: u32) -> Result<Block, Memory>
        requires refined { IsRegriddedTo Refine self.now.case self.now.point self.now.id }
        requires octal { octant < 8 }
        ensures { IfOk result (λ block. block ≡ child_block self.now octant) }
    {
        Ok(Block {
            setup: self.setup.share()?,
            point: Point::after_regrid(self.point.time),
            id: self.id.child(octant),
            cells: self.cells.octant_copy(octant)?,
        })
    }

    // The eight children of a refined leaf.
    fn children(&self, alloc: Global) -> Result<Vec<Block>, Memory>
        requires { IsRegriddedTo Refine self.now.case self.now.point self.now.id }
        ensures { IfOk result (λ blocks. blocks.items ≡ split_blocks self.now) }
    {
        let mut blocks = Vec::with_capacity(alloc, 8)?;
        for octant in 0..8 {
            blocks.push(self.child(octant)?)?;
        }
        Ok(blocks)
    }

    /// The eight children into which the regrid of its time refines this leaf, by rising octant. Where there is no memory for
    /// all of them, the block comes back as it was.
    pub fn split(self, alloc: Global) -> Result<Vec<Block>, Kept<Block>>
        requires { IsRegriddedTo Refine self.case self.point self.id }
        ensures blocks { IfOk result (λ blocks. blocks.items ≡ split_blocks self) }
        ensures kept { IfErr result (λ kept. kept.value ≡ self) }
    {
        match self.children(alloc) {
            Ok(blocks) => Ok(blocks),
            Err(_) => Err(Kept { value: self }),
        }
    }

    /// What this leaf gives to its parent, into which the regrid of its time merges it with its seven siblings.
    pub fn eighth(&self) -> Result<Eighth, Memory>
        requires { IsRegriddedTo Merge self.now.case self.now.point self.now.id }
        ensures { IfOk result (λ eighth. eighth ≡ eighth_of self.now) }
    {
        Eighth::of_leaf(self.setup.share()?, self.point, self.id, &self.cells)
    }

    /// The block into which the eighths of eight siblings merge, which stand by rising octant. Where there is no memory for its
    /// cells, the eighths come back as they were.
    pub fn merged(alloc: Global, parts: Vec<Eighth>) -> Result<Block, Kept<Vec<Eighth>>>
        requires { (c : Case) × ((time : ℕ) × ((parent : BlockId) × AreOctet c time parent parts.items)) }
        ensures block { (c : Case) (time : ℕ) (parent : BlockId) → AreOctet c time parent parts.items
            → IfOk result (λ block. block ≡ merged_block c time parent parts.items) }
        ensures kept { IfErr result (λ kept. kept.value ≡ parts) }
    {
        match merge(alloc, parts.as_slice()) {
            Ok(block) => Ok(block),
            Err(_) => Err(Kept { value: parts }),
        }
    }

    // The same leaf one step later, where the shell holds the samples around it.
    fn advanced(&self, alloc: Global, shell: &Shell) -> Result<Block, Memory>
        requires regridded { IsTrue self.now.point.regridded }
        requires time { self.now.point.time < self.now.case.steps }
        requires side { shell.now.side ≡ self.now.cells.side }
        requires samples { HoldSamples self.now.case.roots (map_at self.now.case self.now.point) self.now.id self.now.cells shell.now }
        ensures block { IfOk result (λ block. block ≡ stepped_block self.now shell.now) }
        ensures model { IfOk result IsModels }
    {
        let mut cells = Cells::filled(alloc, self.cells.side(), 0)?;
        self.cells.kernel(shell, &mut cells);
        Ok(Block {
            setup: self.setup.share()?,
            point: Point::before_regrid(self.point.time + 1),
            id: self.id,
            cells,
        })
    }

    /// The same leaf one step later, in place of this one. Where there is no memory for its new cells, the block comes
    /// back as it was.
    pub fn stepped(self, alloc: Global, shell: &Shell) -> Result<Block, Kept<Block>>
        requires regridded { IsTrue self.point.regridded }
        requires time { self.point.time < self.case.steps }
        requires side { shell.now.side ≡ self.cells.side }
        requires samples { HoldSamples self.case.roots (map_at self.case self.point) self.id self.cells shell.now }
        ensures block { IfOk result (λ block. block ≡ stepped_block self shell.now) }
        ensures kept { IfErr result (λ kept. kept.value ≡ self) }
    {
        match self.advanced(alloc, shell) {
            Ok(block) => Ok(block),
            Err(_) => Err(Kept { value: self }),
        }
    }

    /// An equal block, for a message or a snapshot.
    pub fn copy(&self) -> Result<Block, Memory>
        ensures { IfOk result (λ block. block ≡ self.now) }
    {
        Ok(Block {
            setup: self.setup.share()?,
            point: self.point,
            id: self.id,
            cells: self.cells.copy()?,
        })
    }
}
