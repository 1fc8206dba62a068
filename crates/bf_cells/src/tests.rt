ghost use Rattle.std.specs.Prelude.{◌≡◌, IfOk};

use crate::{Cells, Memory, Shell};
use bf_face::Face;
use std::alloc::Global;
use std::test::Fail;

// A shell that gives each cell at a face its own value as the neighbour.
fn mirror(alloc: Global, cells: &Cells) -> Result<Shell, Memory>
    ensures { IfOk result (λ s. s.side ≡ cells.now.side) }
{
    let mut shell = Shell::blank(alloc, cells.side())?;
    for face in Face::ALL {
        shell.set_wall(face, cells, face);
    }
    Ok(shell)
}

#[test]
fn a_corner_spreads(rt: HostRuntime) -> Result<(), Fail> {
    let mut cells = Cells::filled(rt.alloc(), 2, 0)?;
    cells.put(0, 0, 0, 8);
    let mut next = cells.copy()?;
    let shell = mirror(rt.alloc(), &cells)?;
    cells.kernel(&shell, &mut next);
    assert_eq!(rt; next.values(), [5, 1, 1, 0, 1, 0, 0, 0].as_slice());
    assert_eq!(rt; next.spread(), 5);
    Ok(())
}

#[test]
fn the_greatest_values_stay(rt: HostRuntime) -> Result<(), Fail> {
    let cells = Cells::filled(rt.alloc(), 2, u32::MAX)?;
    let mut next = Cells::filled(rt.alloc(), 2, 0)?;
    let shell = mirror(rt.alloc(), &cells)?;
    cells.kernel(&shell, &mut next);
    assert_eq!(rt; next.values(), [u32::MAX; 8].as_slice());
    Ok(())
}

#[test]
fn octants_go_both_ways(rt: HostRuntime) -> Result<(), Fail> {
    let mut cells = Cells::filled(rt.alloc(), 2, 3)?;
    cells.put_row(0, 2, 1, 0, 10);
    let copy = cells.octant_copy(2)?;
    assert_eq!(rt; copy.values(), [10; 8].as_slice());
    let mut into = Cells::filled(rt.alloc(), 2, 0)?;
    cells.octant_mean(4, &mut into);
    assert_eq!(rt; into.values(), [0, 0, 0, 0, 4, 0, 0, 0].as_slice());
    Ok(())
}

#[test]
fn a_wall_counts_once(rt: HostRuntime) -> Result<(), Fail> {
    let cells = Cells::filled(rt.alloc(), 2, 0)?;
    let mut next = cells.copy()?;
    let mut shell = Shell::blank(rt.alloc(), 2)?;
    shell.put(Face::YHigh, 1, 0, 80);
    cells.kernel(&shell, &mut next);
    assert_eq!(rt; next.values(), [0, 0, 0, 10, 0, 0, 0, 0].as_slice());
    Ok(())
}

// Cells of side 4 whose values rise by 8 from one to the next.
fn rising(alloc: Global) -> Result<Cells, Memory>
    ensures { IfOk result (λ c. c.side ≡ 4) }
{
    let mut cells = Cells::filled(alloc, 4, 0)?;
    for k in 0..64 {
        cells.put(k % 4, k / 4 % 4, k / 16, 8 * k);
    }
    Ok(cells)
}

#[test]
fn a_coarser_face_is_doubled(rt: HostRuntime) -> Result<(), Fail> {
    let cells = Cells::filled(rt.alloc(), 4, 0)?;
    let coarser = rising(rt.alloc())?;
    let mut next = cells.copy()?;
    let mut shell = Shell::blank(rt.alloc(), 4)?;
    shell.set_wall_doubled(Face::XLow, &coarser, Face::XHigh, 1, 0);
    cells.kernel(&shell, &mut next);
    let first = [
        next.get(0, 0, 0),
        next.get(0, 1, 0),
        next.get(0, 2, 0),
        next.get(0, 3, 0),
    ];
    let third = [
        next.get(0, 0, 2),
        next.get(0, 1, 2),
        next.get(0, 2, 3),
        next.get(0, 3, 3),
    ];
    assert_eq!(rt; first, [11, 11, 15, 15]);
    assert_eq!(rt; third, [27, 27, 31, 31]);
    assert_eq!(rt; next.get(1, 0, 0), 0);
    Ok(())
}

#[test]
fn a_finer_face_is_averaged(rt: HostRuntime) -> Result<(), Fail> {
    let cells = Cells::filled(rt.alloc(), 4, 0)?;
    let finer = rising(rt.alloc())?;
    let mut next = cells.copy()?;
    let mut shell = Shell::blank(rt.alloc(), 4)?;
    shell.set_quarter_means(Face::YLow, 1, 1, &finer, Face::YHigh);
    cells.kernel(&shell, &mut next);
    let inside = [
        next.get(2, 0, 2),
        next.get(3, 0, 2),
        next.get(2, 0, 3),
        next.get(3, 0, 3),
    ];
    let beside = [
        next.get(1, 0, 2),
        next.get(2, 0, 1),
        next.get(2, 1, 2),
        next.get(2, 3, 2),
    ];
    assert_eq!(rt; inside, [18, 20, 50, 52]);
    assert_eq!(rt; beside, [0; 4]);
    Ok(())
}

#[test]
fn means_stand_in_a_list(rt: HostRuntime) -> Result<(), Fail> {
    let mut cells = Cells::filled(rt.alloc(), 2, 3)?;
    cells.put_row(0, 2, 1, 0, 10);
    assert_eq!(rt; cells.means()?.as_slice(), [4].as_slice());
    let means = rising(rt.alloc())?.means()?;
    assert_eq!(rt;
        means.as_slice(),
        [84, 100, 148, 164, 340, 356, 404, 420].as_slice()
    );
    Ok(())
}

#[test]
fn an_octant_is_loaded(rt: HostRuntime) -> Result<(), Fail> {
    let mut cells = Cells::filled(rt.alloc(), 4, 9)?;
    cells.load_octant(6, [1, 2, 3, 4, 5, 6, 7, 8].as_slice());
    let inside = [
        cells.get(0, 2, 2),
        cells.get(1, 2, 2),
        cells.get(0, 3, 2),
        cells.get(1, 3, 3),
    ];
    let beside = [
        cells.get(2, 2, 2),
        cells.get(0, 1, 2),
        cells.get(0, 2, 1),
        cells.get(3, 3, 3),
    ];
    assert_eq!(rt; inside, [1, 2, 3, 8]);
    assert_eq!(rt; beside, [9; 4]);
    Ok(())
}

#[test]
fn values_are_loaded(rt: HostRuntime) -> Result<(), Fail> {
    let mut cells = Cells::filled(rt.alloc(), 2, 9)?;
    cells.load([1, 2, 3, 4, 5, 6, 7, 8].as_slice());
    assert_eq!(rt; cells.get(1, 0, 0), 2);
    assert_eq!(rt; cells.get(0, 1, 1), 7);
    Ok(())
}
