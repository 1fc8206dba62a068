//! Maps of three levels that are regridded and stepped.
ghost use Rattle.std.specs.Prelude.{◌≡◌, ◌-◌, ◌<◌, ◌≤◌, ◌++◌, length, map, IfOk, OnOk};
ghost use Rattle.std.specs.List.{range_with_len};
ghost use Rattle.bf_id.specs.Id.{child_of, level_of};
ghost use Rattle.bf_case.specs.Map.{IsBalancedMap};
ghost use Rattle.bf_case.specs.Rows.{blank, three_levels, two_roots};

use crate::{Memory, regridded, stepped};
use bf_case::rows::the_maps_of_three_levels_are_balanced;
use bf_case::{Case, Items, Map};
use bf_cells::Cells;
use bf_id::{Id, Shape};
use std::alloc::Global;
use std::process::Abort;
use std::test::Fail;

/// Two roots beside each other, level 2 the finest. No leaf wishes to be refined, and those whose cells are alike wish to be coarsened.
fn two_roots(alloc: Global) -> Case
    ensures { result ≡ two_roots }
{
    Case {
        roots: Shape {
            nx: 2,
            ny: 1,
            nz: 1,
        },
        side: 2,
        levels: 2,
        ranks: 1,
        steps: 0,
        snapshot: 1,
        regrid: 0,
        refine: u32::MAX,
        coarsen: 0,
        flow: 0,
        turns: 0,
        shift: 0,
        fills: Items::new(alloc),
        dies: Items::new(alloc),
        order: Items::new(alloc),
    }
}

/// Adds some children of a block, with cells of 0.
fn push_blanks(
    alloc: Global,
    parent: Id,
    from: u32,
    end: u32,
    leaves: &mut Vec<(Id, Cells)>,
) -> Result<(), Memory>
    requires above { level_of parent < 4 }
    requires ordered { from ≤ end }
    requires octal { end ≤ 8 }
    ensures { OnOk result (leaves.new.items
        ≡ leaves.old.items ++ map blank (map (child_of parent) (range_with_len from (end - from)))) }
{
    for octant in from..end {
        leaves.push((parent.child(octant), Cells::filled(alloc, 2, 0)?))?;
    }
    Ok(())
}

/// Both roots in octets, and the second root's first child too. All cells are 0.
fn three_levels(alloc: Global) -> Result<Map, Memory>
    ensures leaves { IfOk result (λ map. map.leaves ≡ three_levels) }
    ensures side { IfOk result (λ map. map.side ≡ 2) }
{
    let second = Id::root_of(1);
    let mut leaves = Vec::new(alloc);
    push_blanks(alloc, Id::root_of(0), 0, 8, &mut leaves)?;
    push_blanks(alloc, second.child(0), 0, 8, &mut leaves)?;
    push_blanks(alloc, second, 1, 8, &mut leaves)?;
    Ok(Map {
        side: 2,
        leaves: Items::of(leaves),
    })
}

/// A map with another value at a cell of one of its leaves. It stays balanced.
fn with_spot(map: Map, leaf: usize, x: u32, y: u32, z: u32, value: u32) -> Map
    requires balanced { IsBalancedMap two_roots map.leaves }
    requires leaf_in { leaf < length map.leaves }
    requires x_in { x < 2 }
    requires y_in { y < 2 }
    requires z_in { z < 2 }
    ensures balanced { IsBalancedMap two_roots result.leaves }
    ensures count { length result.leaves ≡ length map.leaves }
    ensures side { result.side ≡ map.side }
{
    let Map { side, leaves } = map;
    let mut leaves = leaves.into_vec();
    let (_, cells) = &mut leaves[leaf];
    cells.put(x, y, z, value);
    Map {
        side,
        leaves: Items::of(leaves),
    }
}

/// Expects these leaves with these cells.
fn expect(rt: &impl Abort, map: &Map, expected: &[(Id, Cells)]) -> Result<(), Fail> {
    assert_eq!(rt; map.leaves.len(), expected.len());
    for ((id, cells), (expected_id, expected_cells)) in map.leaves.as_slice().iter().zip(expected) {
        assert_eq!(rt; id, expected_id);
        assert_eq!(rt; cells.values(), expected_cells.values());
    }
    Ok(())
}

#[test]
fn two_octets_merge_at_once(rt: HostRuntime) -> Result<(), Fail> {
    let alloc = rt.alloc();
    let case = two_roots(alloc);
    let map = three_levels(alloc)?;
    the_maps_of_three_levels_are_balanced();
    let new = regridded(alloc, &case, &map)?;
    let mut expected = vec![in alloc; (Id::root_of(0), Cells::filled(alloc, 2, 0)?)]?;
    push_blanks(alloc, Id::root_of(1), 0, 8, &mut expected)?;
    expect(&rt, &new, expected.as_slice())
}

#[test]
fn a_spot_keeps_both_octets(rt: HostRuntime) -> Result<(), Fail> {
    let alloc = rt.alloc();
    let case = two_roots(alloc);
    let blank = three_levels(alloc)?;
    the_maps_of_three_levels_are_balanced();
    assert_eq!(rt; blank.leaves.len(), 23);
    let map = with_spot(blank, 15, 0, 0, 0, 1);
    let new = regridded(alloc, &case, &map)?;
    expect(&rt, &new, map.leaves.as_slice())
}

/// Expects the leaves of a map, where those that are named have these cells, x fastest, and all others zeros.
fn expect_cells(rt: &impl Abort, map: &Map, before: &Map, named: &[(&str, [u32; 8])]) {
    assert_eq!(rt; map.leaves.len(), before.leaves.len());
    let leaves = map.leaves.as_slice().iter().zip(before.leaves.as_slice());
    for ((id, cells), (id_before, _)) in leaves {
        assert_eq!(rt; id, id_before);
        assert_eq!(rt; cells.values(), cells_named(*id, named).as_slice());
    }
}

/// The cells that are named for a leaf, or zeros.
fn cells_named(id: Id, named: &[(&str, [u32; 8])]) -> [u32; 8] {
    for (name, values) in named {
        if Id::parse(name) == Some(id) {
            return *values;
        }
    }
    [0; 8]
}

// Leaf 1.07 has a cell of 140, and a mean of 17. Leaf 1.1, which is coarser and lies across its face, has a cell of 60 there.
#[test]
fn a_step_carries_spots_across_levels(rt: HostRuntime) -> Result<(), Fail> {
    let alloc = rt.alloc();
    let case = two_roots(alloc);
    let blank = three_levels(alloc)?;
    the_maps_of_three_levels_are_balanced();
    assert_eq!(rt; blank.leaves.len(), 23);
    let map = with_spot(with_spot(blank, 15, 1, 0, 1, 140), 16, 0, 1, 1, 60);
    let new = stepped(alloc, &case, &map)?;
    let expected = [
        ("1.05", [0, 0, 0, 0, 0, 0, 0, 17]),
        ("1.07", [0, 25, 0, 7, 17, 42, 0, 25]),
        ("1.1", [0, 0, 7, 0, 7, 0, 17, 7]),
        ("1.2", [0, 0, 0, 0, 0, 2, 0, 0]),
        ("1.3", [0, 0, 0, 0, 7, 0, 0, 0]),
        ("1.4", [0, 0, 0, 2, 0, 0, 0, 0]),
        ("1.5", [0, 0, 7, 0, 0, 0, 0, 0]),
    ];
    expect_cells(&rt, &new, &map, &expected);
    Ok(())
}
