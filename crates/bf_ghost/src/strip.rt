ghost use Rattle.std.specs.Prelude.{◌≡◌, ℕ, ◌*◌, ◌%◌, ◌/◌, ◌^◌, ◌≤◌, length, sum, IfOk, Some, None};
ghost use Rattle.bf_id.specs.Face.{SharesFace};
ghost use Rattle.bf_id.specs.Id.{box_of, InShape};
ghost use Rattle.bf_block.specs.Block.{leaf_of};
ghost use Rattle.bf_ghost.specs.Strips.{level_cmp, strip_of, strip_side, strip_values, with_strip};
ghost use Rattle.bf_ghost.specs.Telling.{strip_between};

use crate::Memory;
use bf_block::Block;
use bf_case::halves_along;
use bf_cells::{Cells, Shell};
use bf_face::Face;
use bf_id::Id;
use std::alloc::Global;
use std::cmp::Ordering;
use std::marker::Model;

/// What a block tells of its cells to a block that shares a face with it.
#[derive(Debug, Drop)]
pub struct Strip {
    source: Id,
    target: Id,
    face: Face,
    values: Vec<u32>,
}

impl Model for Strip {
    ghost use Rattle.bf_ghost.specs.Strips.{StripValue};

    ghost Value = { StripValue };

    ghost view = { λ s. record { source = s.source; target = s.target; face = s.face; values = s.values.items } };
}

impl Strip {
    /// The block that tells it.
    pub fn source(&self) -> Id
        ensures { result ≡ self.now.source }
    {
        self.source
    }

    /// The block to which it is told.
    pub fn target(&self) -> Id
        ensures { result ≡ self.now.target }
    {
        self.target
    }

    /// The target's face on which the source lies.
    pub fn face(&self) -> Face
        ensures { result ≡ self.now.face }
    {
        self.face
    }

    /// The values, by the two other coordinates of a cell on the face in the order x, y, z, the first fastest.
    pub fn values(&self) -> &[u32]
        ensures { result.now ≡ self.now.values }
    {
        self.values.as_slice()
    }

    /// The sum of the values, modulo 2^64.
    pub fn sum(&self) -> u64
        ensures { result ≡ sum self.now.values % 2 ^ 64 }
    {
        sum_of(self.values.as_slice())
    }
}

/// The sum of values, modulo 2^64.
pub fn sum_of(values: &[u32]) -> u64
    ensures { result ≡ sum values.now % 2 ^ 64 }
{
    let mut sum = 0u64;
    for value in values {
        sum = sum.wrapping_add(u64::from(*value));
    }
    sum
}

// How the level of one block stands to another's.
fn level_cmp(block: Id, other: Id) -> Ordering
    ensures { result ≡ level_cmp block other }
{
    block.level().cmp(&other.level())
}

// How many values there are along the edge of a strip.
fn strip_side(side: u32, source: Id, target: Id) -> u32
    requires { side ≤ 16 }
    ensures value { result ≡ strip_side side source target }
    ensures within { result ≤ 16 }
{
    match level_cmp(source, target) {
        Ordering::Equal => side,
        _ => side / 2,
    }
}

// Reads what a leaf tells to a block, on whose face it lies.
fn read_strip(cells: &Cells, source: Id, target: Id, face: Face, into: &mut [u32])
    requires { length into.old ≡ strip_side cells.now.side source target * strip_side cells.now.side source target }
    ensures { into.new ≡ strip_values cells.now source target face }
{
    let own_face = face.opposite();
    match level_cmp(source, target) {
        Ordering::Less => {
            let (half_a, half_b) = halves_along(face, target);
            cells.read_quarter(own_face, half_a, half_b, into);
        }
        Ordering::Equal => cells.read_face(own_face, into),
        Ordering::Greater => cells.read_means(own_face, into),
    }
}

// What a leaf tells to a block, on whose face it lies.
pub(crate) fn strip_across(
    alloc: Global,
    source: Id,
    cells: &Cells,
    target: Id,
    face: Face,
) -> Result<Strip, Memory>
    ensures { IfOk result (λ strip. strip ≡ strip_of (source, cells.now) face target) }
{
    let side = strip_side(cells.side(), source, target);
    let mut values = vec![in alloc; 0u32; (side * side) as usize]?;
    read_strip(cells, source, target, face, values.as_mut_slice());
    Ok(Strip {
        source,
        target,
        face,
        values,
    })
}

/// What a block tells to a block with which it shares a face.
pub fn strip_for(alloc: Global, block: &Block, target: Id) -> Result<Strip, Memory>
    requires inside { InShape block.now.case.roots target }
    requires share { (face : Face) × SharesFace block.now.case.roots face (box_of block.now.case.roots target) (box_of block.now.case.roots block.now.id) }
    ensures { IfOk result (λ strip. Some strip ≡ strip_between block.now.case.roots (leaf_of block.now) target) }
{
    let _model = block.cells();
    match strip_to(alloc, block, target)? {
        Some(strip) => Ok(strip),
        None => unreachable!(),
    }
}

/// What a block tells to another one, if the two share a face.
pub fn strip_to(alloc: Global, block: &Block, target: Id) -> Result<Option<Strip>, Memory>
    requires inside { InShape block.now.case.roots target }
    ensures { IfOk result (λ told. told ≡ strip_between block.now.case.roots (leaf_of block.now) target) }
{
    let cells = block.cells();
    match target.face(block.id(), block.shape()) {
        Some(face) => {
            let strip = strip_across(alloc, block.id(), cells, target, face)?;
            Ok(Some(strip))
        }
        None => Ok(None),
    }
}

// Lays values that one block tells another beside a face of the other.
fn lay_values(shell: &mut Shell, source: Id, target: Id, face: Face, values: &[u32])
    requires { length values.now ≡ strip_side shell.old.side source target * strip_side shell.old.side source target }
    ensures walls { shell.new ≡ with_strip shell.old (record { source = source; target = target; face = face; values = values.now }) }
    ensures side { shell.new.side ≡ shell.old.side }
{
    match level_cmp(source, target) {
        Ordering::Less => shell.lay_doubled(face, values),
        Ordering::Equal => shell.lay(face, values),
        Ordering::Greater => {
            let (half_a, half_b) = halves_along(face, source);
            shell.lay_quarter(face, half_a, half_b, values);
        }
    }
}

/// Lays a strip beside its target's face.
pub(crate) fn lay(shell: &mut Shell, strip: &Strip)
    requires { let s = strip.now in length s.values ≡ strip_side shell.old.side s.source s.target * strip_side shell.old.side s.source s.target }
    ensures walls { shell.new ≡ with_strip shell.old strip.now }
    ensures side { shell.new.side ≡ shell.old.side }
{
    lay_values(
        shell,
        strip.source(),
        strip.target(),
        strip.face(),
        strip.values(),
    );
}
