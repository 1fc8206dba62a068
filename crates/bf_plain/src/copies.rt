//! Copies of leaves.
ghost use Rattle.std.specs.Prelude.{◌≡◌, IfOk};

use bf_cells::Cells;
use bf_edge::Memory;
use bf_id::Id;
use std::alloc::Global;

/// The same leaves, with cells of their own.
pub(crate) fn copied(alloc: Global, leaves: &[(Id, Cells)]) -> Result<Vec<(Id, Cells)>, Memory>
    ensures { IfOk result (λ copy. copy.items ≡ leaves.now) }
{
    let mut copy = Vec::with_capacity(alloc, leaves.len())?;
    for (id, cells) in leaves {
        copy.push((*id, cells.copy()?))?;
    }
    Ok(copy)
}
