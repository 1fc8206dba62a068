//! Runs of small cases whose maps are worked out by hand.
use super::one_run;
use bf_case::{Case, Fill, Items, Map};
use bf_edge::Memory;
use bf_id::{Id, Shape};
use std::alloc::Global;
use std::process::Abort;
use std::test::Fail;

/// One root of eight cells, which is never regridded, with these fills.
fn lone(alloc: Global, fills: &[Fill]) -> Result<Case, Memory> {
    Ok(Case {
        roots: Shape {
            nx: 1,
            ny: 1,
            nz: 1,
        },
        side: 2,
        levels: 0,
        ranks: 1,
        steps: 0,
        snapshot: 1,
        regrid: 0,
        refine: u32::MAX,
        coarsen: 0,
        flow: 0,
        turns: 0,
        shift: 0,
        fills: Items::of(fills.to_vec(alloc)?),
        dies: Items::new(alloc),
        order: Items::new(alloc),
    })
}

/// One cell with this value.
fn spot(place: [u32; 3], value: u32) -> Fill {
    Fill {
        low: place,
        high: place,
        value,
    }
}

/// A whole root of eight cells with this value.
fn full(value: u32) -> Fill {
    Fill {
        low: [0, 0, 0],
        high: [1, 1, 1],
        value,
    }
}

/// The map after all steps.
fn last_map(rt: &impl Abort, alloc: Global, case: &Case) -> Result<Map, Fail> {
    assert!(rt; case.valid());
    let map = one_run(alloc, case, case.steps)?;
    assert_eq!(rt; map.side, case.side);
    Ok(map)
}

/// Expects these leaves with these cells, x fastest.
fn expect(rt: &impl Abort, map: &Map, expected: &[(&str, [u32; 8])]) {
    assert_eq!(rt; map.leaves.len(), expected.len());
    for ((id, cells), (name, values)) in map.leaves.as_slice().iter().zip(expected) {
        assert_eq!(rt; Some(*id), Id::parse(name));
        assert_eq!(rt; cells.values(), values.as_slice());
    }
}

/// Expects the map after all steps to have one root with these cells.
fn expect_lone(rt: &impl Abort, alloc: Global, case: &Case, values: [u32; 8]) -> Result<(), Fail> {
    expect(rt, &last_map(rt, alloc, case)?, &[("0", values)]);
    Ok(())
}

#[test]
fn a_fill_sets_each_cell(rt: HostRuntime) -> Result<(), Fail> {
    let alloc = rt.alloc();
    let case = lone(alloc, &[full(8)])?;
    expect_lone(&rt, alloc, &case, [8; 8])
}

#[test]
fn a_drop_spreads(rt: HostRuntime) -> Result<(), Fail> {
    let alloc = rt.alloc();
    let mut case = lone(alloc, &[spot([0, 0, 0], 8)])?;
    case.steps = 1;
    expect_lone(&rt, alloc, &case, [5, 1, 1, 0, 1, 0, 0, 0])
}

#[test]
fn the_greatest_value_stays(rt: HostRuntime) -> Result<(), Fail> {
    let alloc = rt.alloc();
    let mut case = lone(alloc, &[full(u32::MAX)])?;
    case.steps = 128;
    expect_lone(&rt, alloc, &case, [u32::MAX; 8])
}

#[test]
fn a_value_flows_into_the_next_root(rt: HostRuntime) -> Result<(), Fail> {
    let alloc = rt.alloc();
    let mut case = lone(alloc, &[full(80)])?;
    case.roots.nx = 2;
    case.steps = 2;
    let expected = [
        ("0", [78, 63, 78, 63, 78, 63, 78, 63]),
        ("1", [16, 1, 16, 1, 16, 1, 16, 1]),
    ];
    expect(&rt, &last_map(&rt, alloc, &case)?, &expected);
    Ok(())
}

#[test]
fn two_levels_meet(rt: HostRuntime) -> Result<(), Fail> {
    let alloc = rt.alloc();
    let mut case = lone(alloc, &[spot([0, 0, 0], 800), spot([3, 1, 1], 400)])?;
    case.roots.nx = 2;
    case.levels = 1;
    case.steps = 1;
    case.regrid = 1;
    case.refine = 400;
    let expected = [
        ("0.0", [800, 700, 700, 600, 700, 600, 600, 500]),
        ("0.1", [100, 0, 100, 0, 100, 0, 100, 0]),
        ("0.2", [100, 100, 0, 0, 100, 100, 0, 0]),
        ("0.3", [0; 8]),
        ("0.4", [100, 100, 100, 100, 0, 0, 0, 0]),
        ("0.5", [0; 8]),
        ("0.6", [0; 8]),
        ("0.7", [0; 8]),
        ("1", [0, 0, 0, 50, 0, 50, 50, 250]),
    ];
    expect(&rt, &last_map(&rt, alloc, &case)?, &expected);
    Ok(())
}

/// One root that is refined at time 0 and regridded once more, with this limit for leaves that wish to merge.
fn refined_once(alloc: Global, coarsen: u32) -> Result<Case, Memory> {
    let mut case = lone(alloc, &[spot([0, 0, 0], 15)])?;
    case.levels = 1;
    case.steps = 2;
    case.regrid = 1;
    case.refine = 14;
    case.coarsen = coarsen;
    Ok(case)
}

#[test]
fn eight_leaves_merge(rt: HostRuntime) -> Result<(), Fail> {
    let alloc = rt.alloc();
    let case = refined_once(alloc, 6)?;
    expect_lone(&rt, alloc, &case, [7, 1, 1, 0, 1, 0, 0, 0])
}

#[test]
fn seven_leaves_stay(rt: HostRuntime) -> Result<(), Fail> {
    let alloc = rt.alloc();
    let case = refined_once(alloc, 5)?;
    let expected = [
        ("0.0", [14, 11, 11, 8, 11, 8, 8, 6]),
        ("0.1", [2, 0, 2, 0, 2, 0, 1, 0]),
        ("0.2", [2, 2, 0, 0, 2, 1, 0, 0]),
        ("0.3", [0; 8]),
        ("0.4", [2, 2, 2, 1, 0, 0, 0, 0]),
        ("0.5", [0; 8]),
        ("0.6", [0; 8]),
        ("0.7", [0; 8]),
    ];
    expect(&rt, &last_map(&rt, alloc, &case)?, &expected);
    Ok(())
}

/// Eight roots, of which the first is refined at time 0, and every second one of its leaves at time 1.
fn corner(alloc: Global) -> Result<Case, Memory> {
    let bar = Fill {
        low: [2, 0, 0],
        high: [3, 1, 1],
        value: 1600,
    };
    let mut case = lone(alloc, &[bar, spot([1, 1, 1], 104)])?;
    case.roots = Shape {
        nx: 2,
        ny: 2,
        nz: 2,
    };
    case.levels = 2;
    case.steps = 2;
    case.regrid = 1;
    case.refine = 100;
    Ok(case)
}

/// Adds the ids of a block's eight children.
fn push_children(rt: &impl Abort, parent: Id, ids: &mut Vec<Id>) -> Result<(), Fail> {
    assert!(rt; parent.level() < 4);
    for octant in 0..8 {
        ids.push(parent.child(octant))?;
    }
    Ok(())
}

#[test]
fn a_corner_forces_refinement(rt: HostRuntime) -> Result<(), Fail> {
    let alloc = rt.alloc();
    let map = last_map(&rt, alloc, &corner(alloc)?)?;
    let mut expected = Vec::new(alloc);
    for octant in 0..8 {
        let leaf = Id::root_of(0).child(octant);
        if octant % 2 == 0 {
            expected.push(leaf)?;
        } else {
            push_children(&rt, leaf, &mut expected)?;
        }
    }
    for root in 1..8 {
        push_children(&rt, Id::root_of(root), &mut expected)?;
    }
    assert_eq!(rt; map.leaves.len(), 92);
    assert_eq!(rt; expected.len(), 92);
    for ((id, _), expected_id) in map.leaves.as_slice().iter().zip(expected.as_slice()) {
        assert_eq!(rt; id, expected_id);
    }
    Ok(())
}
