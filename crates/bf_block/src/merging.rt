//! The parent into which eight eighths merge.
ghost use Rattle.std.specs.Prelude.{◌≡◌, ℕ, ◌/◌, ◌%◌, ◌<◌, ◌≤◌, All, IfOk, length};
ghost use Rattle.bf_id.specs.Id.{level_of, parent_of, BlockId};
ghost use Rattle.bf_case.specs.declared.case.Case.{Case};
ghost use Rattle.bf_block.specs.Eighth.{AreMeans, AreOctet, EighthValue, means_in, merged_block, octants_joined};

use crate::{Block, Eighth, Memory, Point};
use bf_cells::Cells;
use bf_id::Id;
use std::alloc::Global;

// What is known of all of some eighths.
fn all_known(parts: &[Eighth])
    ensures { All AreMeans parts.now }
{
    for part in parts {
        let _model = part.id();
    }
}

// The cells of a parent, octant by octant.
fn joined(alloc: Global, parts: &[Eighth], side: u32) -> Result<Cells, Memory>
    requires even { side % 2 ≡ 0 }
    requires wide { 2 ≤ side }
    requires narrow { side ≤ 16 }
    requires eight { length parts.now ≡ 8 }
    requires sides { All (λ (e : EighthValue). e.means.side ≡ side / 2) parts.now }
    ensures { IfOk result (λ cells. cells ≡ octants_joined side (means_in parts.now)) }
{
    let mut cells = Cells::filled(alloc, side, 0)?;
    for octant in 0..8 {
        parts[octant as usize].load_into(octant, &mut cells);
    }
    Ok(cells)
}

// The parent of a block that is no root.
fn above(id: Id) -> Id
    requires { 0 < level_of id }
    ensures { result ≡ parent_of id }
{
    match id.parent() {
        Some(parent) => parent,
        None => id,
    }
}

/// The block into which the eighths of eight siblings merge.
pub fn merge(alloc: Global, parts: &[Eighth]) -> Result<Block, Memory>
    requires { (c : Case) × ((time : ℕ) × ((parent : BlockId) × AreOctet c time parent parts.now)) }
    ensures { (c : Case) (time : ℕ) (parent : BlockId) → AreOctet c time parent parts.now
        → IfOk result (λ block. block ≡ merged_block c time parent parts.now) }
{
    all_known(parts);
    let first = &parts[0];
    let cells = joined(alloc, parts, first.setup().side())?;
    Ok(Block::of_model(
        first.setup().share()?,
        Point::after_regrid(first.point().time),
        above(first.id()),
        cells,
    ))
}
