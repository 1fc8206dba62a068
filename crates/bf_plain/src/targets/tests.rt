//! Roots that stand two by one by three.
ghost use Rattle.std.specs.Prelude.{◌≡◌, IfOk};
ghost use Rattle.bf_case.specs.Case.{IsValid};
ghost use Rattle.bf_case.specs.Map.{IsBalancedMap};

use super::targets_of;
use crate::atlas::Atlas;
use bf_case::{Case, Fill, Target, filled_root};
use bf_cells::Cells;
use bf_edge::Memory;
use bf_id::{Id, Shape, Voxel};
use bf_items::Items;
use std::alloc::Global;
use std::test::Fail;

const ROOTS: Shape = Shape {
    nx: 2,
    ny: 1,
    nz: 3,
};

/// A cell of level 0 with a value.
fn spot(place: [u32; 3], value: u32) -> Fill {
    Fill {
        low: place,
        high: place,
        value,
    }
}

/// The first root's spread is equal to the limit, and the fourth one's is above it.
fn spotted(alloc: Global, levels: u32) -> Result<Case, Memory> {
    Ok(Case {
        roots: ROOTS,
        side: 2,
        levels,
        ranks: 1,
        steps: 0,
        snapshot: 1,
        regrid: 1,
        refine: 400,
        coarsen: 0,
        flow: 0,
        turns: 0,
        shift: 0,
        fills: Items::of(vec![in alloc; spot([0, 0, 0], 400), spot([3, 1, 3], 401)]?),
        dies: Items::of(Vec::new(alloc)),
        order: Items::of(Vec::new(alloc)),
    })
}

/// The roots with their cells at the beginning.
fn filled_roots(alloc: Global, case: &Case) -> Result<Vec<(Id, Cells)>, Memory>
    requires { IsValid case.now }
    ensures { IfOk result (λ leaves. IsBalancedMap case.now leaves.items) }
{
    let count = case.root_count();
    let mut leaves = Vec::with_capacity(alloc, count as usize)?;
    for root in 0..count {
        leaves.push((Id::root_of(root), filled_root(alloc, case, root)?))?;
    }
    Ok(leaves)
}

#[test]
fn a_unit_is_in_the_root_over_which_it_lies(rt: HostRuntime) -> Result<(), Fail> {
    let case = spotted(rt.alloc(), 2)?;
    assert!(rt; case.valid());
    assert!(rt; case.roots == ROOTS);
    let leaves = filled_roots(rt.alloc(), &case)?;
    let atlas = Atlas::of(rt.alloc(), &case, &leaves)?;
    let places = [
        (0, 0, 0, 0),
        (16, 0, 0, 1),
        (15, 15, 16, 2),
        (31, 0, 31, 3),
        (0, 15, 32, 4),
        (31, 15, 47, 5),
    ];
    for (x, y, z, root) in places {
        assert!(rt; x < 32 && y < 16 && z < 48);
        assert_eq!(rt; atlas.leaf_at(Voxel { x, y, z }), root);
    }
    Ok(())
}

#[test]
fn a_root_is_refined_where_its_spread_is_above_the_limit(rt: HostRuntime) -> Result<(), Fail> {
    let expected = [(0, Target::Keep), (2, Target::Refine)];
    for (levels, fourth) in expected {
        let case = spotted(rt.alloc(), levels)?;
        assert!(rt; case.valid());
        let leaves = filled_roots(rt.alloc(), &case)?;
        let atlas = Atlas::of(rt.alloc(), &case, &leaves)?;
        let targets = targets_of(rt.alloc(), &case, &leaves, &atlas)?;
        let keep = Target::Keep;
        assert_eq!(rt;
            targets.as_slice(),
            [keep, keep, keep, fourth, keep, keep].as_slice()
        );
    }
    Ok(())
}
