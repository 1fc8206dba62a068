use super::{Case, Fill};
use crate::filling::filled_root;
use bf_id::Shape;
use bf_items::Items;
use std::alloc::{AllocError, Global};
use std::test::Fail;

/// Two roots, with these numbers: side, levels, ranks, steps, snapshot, regrid, refine, coarsen,
/// flow, turns, shift.
fn numbered(alloc: Global, numbers: [u32; 11]) -> Case {
    let [
        side,
        levels,
        ranks,
        steps,
        snapshot,
        regrid,
        refine,
        coarsen,
        flow,
        turns,
        shift,
    ] = numbers;
    Case {
        roots: Shape {
            nx: 2,
            ny: 1,
            nz: 1,
        },
        side,
        levels,
        ranks,
        steps,
        snapshot,
        regrid,
        refine,
        coarsen,
        flow,
        turns,
        shift,
        fills: Items::of(Vec::new(alloc)),
        dies: Items::of(Vec::new(alloc)),
        order: Items::of(Vec::new(alloc)),
    }
}

/// The least number in each place.
const LEAST: [u32; 11] = [2, 0, 1, 0, 1, 0, 0, 0, 0, 0, 0];

fn replaced(place: usize, number: u32) -> [u32; 11] {
    let mut numbers = LEAST;
    if let Some(old) = numbers.get_mut(place) {
        *old = number;
    }
    numbers
}

#[test]
fn each_number_has_its_limits(rt: HostRuntime) {
    let inside = [
        (0, 2),
        (0, 16),
        (1, 4),
        (2, 16),
        (3, 128),
        (4, 128),
        (5, 128),
        (6, 4294967295),
        (8, 8),
        (9, 8),
        (10, 1000),
    ];
    for (place, number) in inside {
        assert!(rt; numbered(rt.alloc(), replaced(place, number)).valid());
    }
    let outside = [
        (0, 0),
        (0, 3),
        (0, 18),
        (1, 5),
        (2, 0),
        (2, 17),
        (3, 129),
        (4, 0),
        (4, 129),
        (5, 129),
        (7, 1),
        (8, 9),
        (9, 9),
        (10, 1001),
    ];
    for (place, number) in outside {
        assert!(rt; !numbered(rt.alloc(), replaced(place, number)).valid());
    }
}

#[test]
fn the_domain_has_its_limits(rt: HostRuntime) {
    let shapes = [
        (1, 1, 1, 3, true),
        (2, 1, 1, 3, false),
        (1, 16, 16, 0, true),
        (1, 17, 1, 0, false),
        (1, 1, 0, 0, false),
    ];
    for (nx, ny, nz, levels, is_valid) in shapes {
        let mut case = numbered(rt.alloc(), [16, levels, 1, 0, 1, 0, 0, 0, 0, 0, 0]);
        case.roots = Shape { nx, ny, nz };
        assert_eq!(rt; case.valid(), is_valid);
    }
}

fn filled(alloc: Global, low: [u32; 3], high: [u32; 3]) -> Result<Case, AllocError> {
    let mut case = numbered(alloc, LEAST);
    case.fills = Items::of(vec![in alloc;
        Fill {
            low,
            high,
            value: 1
        },
    ]?);
    Ok(case)
}

fn dying(alloc: Global, first: u32, second: u32) -> Result<Case, AllocError> {
    let mut case = numbered(alloc, LEAST);
    case.ranks = 3;
    case.dies = Items::of(vec![in alloc; (first, 7), (second, 7)]?);
    Ok(case)
}

#[test]
fn lists_fit_the_case(rt: HostRuntime) -> Result<(), Fail> {
    for (high, is_valid) in [([3, 1, 1], true), ([4, 1, 1], false), ([3, 0, 1], false)] {
        assert_eq!(rt; filled(rt.alloc(), [0, 1, 0], high)?.valid(), is_valid);
    }
    for (first, second, is_valid) in [(0, 2, true), (2, 2, false), (1, 0, false), (1, 3, false)] {
        assert_eq!(rt; dying(rt.alloc(), first, second)?.valid(), is_valid);
    }
    let mut case = numbered(rt.alloc(), LEAST);
    case.order = Items::of(vec![in rt.alloc(); 0, 1]?);
    assert!(rt; !case.valid());
    Ok(())
}

#[test]
fn a_fill_spans_two_roots(rt: HostRuntime) -> Result<(), Fail> {
    let alloc = rt.alloc();
    let fill = Fill {
        low: [1, 0, 0],
        high: [2, 1, 1],
        value: 8,
    };
    let mut case = numbered(alloc, LEAST);
    case.fills = Items::of(vec![in alloc; fill]?);
    assert!(rt; case.valid());
    for root in 0..case.root_count() {
        let cells = filled_root(alloc, &case, root)?;
        let want = if root == 0 {
            [0, 8, 0, 8, 0, 8, 0, 8]
        } else {
            [8, 0, 8, 0, 8, 0, 8, 0]
        };
        assert_eq!(rt; cells.values(), want.as_slice());
    }
    Ok(())
}
