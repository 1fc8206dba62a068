//! Regrids of whole maps.
ghost use Rattle.std.specs.Prelude.{◌≡◌, map, IfOk};
ghost use Rattle.bf_case.specs.Case.{IsValid};
ghost use Rattle.bf_case.specs.Map.{ids_of, IsBalancedMap};
ghost use Rattle.bf_case.specs.Regrid.{regrid, target_in};

use crate::atlas::Atlas;
use crate::copies::copied;
use crate::rebuild::rebuild;
use crate::targets::targets_of;
use bf_case::{Case, Items, Map, Target};
use bf_cells::Cells;
use bf_edge::Memory;
use bf_id::Id;
use std::alloc::Global;

/// What becomes of each leaf. The atlas that tells it is let go, so that its memory is free for new cells.
fn targets_in(alloc: Global, case: &Case, leaves: &[(Id, Cells)]) -> Result<Vec<Target>, Memory>
    requires valid { IsValid case.now }
    requires forest { IsBalancedMap case.now leaves.now }
    ensures { IfOk result (λ targets. targets.items ≡ map (target_in case.now leaves.now) (ids_of leaves.now)) }
{
    let atlas = Atlas::of(alloc, case, leaves)?;
    targets_of(alloc, case, leaves, &atlas)
}

/// The leaves after a regrid. The cells of kept leaves are moved, not copied.
pub(crate) fn regrid_owned(
    alloc: Global,
    case: &Case,
    leaves: Vec<(Id, Cells)>,
) -> Result<Vec<(Id, Cells)>, Memory>
    requires valid { IsValid case.now }
    requires forest { IsBalancedMap case.now leaves.items }
    ensures { IfOk result (λ new. new.items ≡ regrid case.now leaves.items) }
{
    let targets = targets_in(alloc, case, leaves.as_slice())?;
    rebuild(alloc, case, leaves, targets)
}

/// A map after a regrid, beside the map before it: both have cells of their own.
pub fn regridded(alloc: Global, case: &Case, map: &Map) -> Result<Map, Memory>
    requires valid { IsValid case.now }
    requires side { map.now.side ≡ case.now.side }
    requires forest { IsBalancedMap case.now map.now.leaves }
    ensures leaves { IfOk result (λ new. new.leaves ≡ regrid case.now map.now.leaves) }
    ensures side { IfOk result (λ new. new.side ≡ case.now.side) }
{
    let leaves = copied(alloc, map.leaves.as_slice())?;
    Ok(Map {
        side: map.side,
        leaves: Items::of(regrid_owned(alloc, case, leaves)?),
    })
}
