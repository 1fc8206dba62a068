ghost use Rattle.std.specs.Prelude.{◌≡◌, ◌/◌, ◌<◌, ◌≤◌, length, sum, IfOk};
ghost use Rattle.bf_cells.specs.Means.{with_octant};
ghost use Rattle.bf_case.specs.declared.target.Target.TheVariants.{Merge};
ghost use Rattle.bf_block.specs.Setup.{case_of};
ghost use Rattle.bf_block.specs.Block.{IsModels, IsRegriddedTo, block_with};
ghost use Rattle.bf_block.specs.Eighth.{AreMeans, eighth_of};

use crate::{Memory, Point, Setup};
use bf_cells::Cells;
use bf_id::Id;
use std::marker::Model;

/// What a merging leaf gives to its parent: the means, rounded down, of each eight of its cells that form a cube.
#[derive(Drop)]
pub struct Eighth {
    setup: Setup,
    point: Point,
    id: Id,
    means: Vec<u32>,
}

impl Model for Eighth {
    ghost use Rattle.bf_block.specs.Eighth.{AreMeans, EighthValue};

    ghost Value = { EighthValue };

    ghost use Rattle.bf_block.specs.EighthFields.{eighth_in};

    ghost view = { eighth_in };

    ghost invariant = { λ e. AreMeans (eighth_in e) };
}

// The sum of the values of a cube of at most 8 by 8 by 8.
fn sum_of(values: &[u32]) -> u64
    requires { length values.now ≤ 512 }
    ensures { result ≡ sum values.now }
{
    let mut sum = 0u64;
    for value in values {
        sum += u64::from(*value);
    }
    sum
}

impl Eighth {
    // The eighth of a leaf of the model.
    pub(crate) fn of_leaf(
        setup: Setup,
        point: Point,
        id: Id,
        cells: &Cells,
    ) -> Result<Eighth, Memory>
        requires model { IsModels (block_with (case_of setup) point id cells.now) }
        requires merges { IsRegriddedTo Merge (case_of setup) point id }
        ensures { IfOk result (λ eighth. eighth ≡ eighth_of (block_with (case_of setup) point id cells.now)) }
    {
        let means = cells.means()?;
        Ok(Eighth {
            setup,
            point,
            id,
            means,
        })
    }

    /// The leaf that gives it, whose cells in the model have these means.
    pub fn id(&self) -> Id
        ensures value { result ≡ self.now.id }
        ensures model { AreMeans self.now }
    {
        self.id
    }

    pub(crate) fn point(&self) -> Point
        ensures { result ≡ self.now.point }
    {
        self.point
    }

    pub(crate) fn setup(&self) -> &Setup
        ensures { case_of result.now ≡ self.now.case }
    {
        &self.setup
    }

    /// The sum of its means.
    pub fn sum(&self) -> u64
        ensures { result ≡ sum self.now.means.values }
    {
        sum_of(self.means.as_slice())
    }

    // Writes its means into an octant of the parent's cells.
    pub(crate) fn load_into(&self, octant: u32, cells: &mut Cells)
        requires octal { octant < 8 }
        requires fits { self.now.means.side ≡ cells.old.side / 2 }
        ensures cells { cells.new ≡ with_octant cells.old octant self.now.means.values }
        ensures side { cells.new.side ≡ cells.old.side }
    {
        cells.load_octant(octant, self.means.as_slice());
    }
}
