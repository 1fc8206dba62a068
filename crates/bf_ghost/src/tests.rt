//! Strips that are read off cells and laid beside other blocks.
ghost use Rattle.std.specs.Prelude.{◌≡◌, IfOk};

use crate::Memory;
use crate::strip::{Strip, lay, strip_across};
use bf_cells::{Cells, Shell};
use bf_face::Face;
use bf_id::Id;
use std::alloc::Global;
use std::test::Fail;

mod blocks;
mod levels;
mod places;
mod tilings;

// Cells whose values rise by 8 from one to the next.
fn rising_twos(alloc: Global) -> Result<Cells, Memory>
    ensures { IfOk result (λ c. c.side ≡ 2) }
{
    let mut cells = Cells::filled(alloc, 2, 0)?;
    cells.load([0, 8, 16, 24, 32, 40, 48, 56].as_slice());
    Ok(cells)
}

fn rising_fours(alloc: Global) -> Result<Cells, Memory>
    ensures { IfOk result (λ c. c.side ≡ 4) }
{
    let mut cells = Cells::filled(alloc, 4, 0)?;
    for k in 0..64 {
        cells.put(k % 4, k / 4 % 4, k / 16, 8 * k);
    }
    Ok(cells)
}

// A block of zeros after a step beside a strip alone: an eighth of each value that was laid.
fn eighths(alloc: Global, side: u32, shell: &Shell) -> Result<Cells, Memory>
    requires { shell.now.side ≡ side }
    ensures { IfOk result (λ c. c.side ≡ side) }
{
    let _valid = shell.side();
    let zeros = Cells::filled(alloc, side, 0)?;
    let mut after = zeros.copy()?;
    zeros.kernel(shell, &mut after);
    Ok(after)
}

// A strip that is read off cells, and laid.
fn tell(
    alloc: Global,
    source: Id,
    cells: &Cells,
    target: Id,
    face: Face,
    shell: &mut Shell,
) -> Result<Strip, Memory>
    requires { shell.old.side ≡ cells.now.side }
    ensures { shell.new.side ≡ shell.old.side }
{
    let strip = strip_across(alloc, source, cells, target, face)?;
    lay(shell, &strip);
    Ok(strip)
}

// A strip that is read off cells, and eighths of what is laid by it.
fn told(
    alloc: Global,
    source: Id,
    cells: &Cells,
    target: Id,
    face: Face,
) -> Result<(Strip, Cells), Memory>
    ensures { IfOk result (λ told. told.1.side ≡ cells.now.side) }
{
    let side = cells.side();
    let mut shell = Shell::blank(alloc, side)?;
    let strip = tell(alloc, source, cells, target, face, &mut shell)?;
    let after = eighths(alloc, side, &shell)?;
    Ok((strip, after))
}

#[test]
fn one_level_tells_its_face(rt: HostRuntime) -> Result<(), Fail> {
    let cells = rising_twos(rt.alloc())?;
    let (first, second) = (Id::root_of(0), Id::root_of(1));
    let (strip, after) = told(rt.alloc(), second, &cells, first, Face::XHigh)?;
    assert_eq!(rt; strip.values(), [0, 16, 32, 48].as_slice());
    assert_eq!(rt; after.values(), [0, 0, 0, 2, 0, 4, 0, 6].as_slice());
    assert_eq!(rt; strip.source(), second);
    assert_eq!(rt; strip.target(), first);
    assert_eq!(rt; strip.face(), Face::XHigh);
    assert_eq!(rt; strip.sum(), 96);
    Ok(())
}

#[test]
fn a_coarser_block_tells_a_quarter(rt: HostRuntime) -> Result<(), Fail> {
    let (first, second) = (Id::root_of(0), Id::root_of(1).child(2));
    let twos = rising_twos(rt.alloc())?;
    let (strip, after) = told(rt.alloc(), first, &twos, second, Face::XLow)?;
    assert_eq!(rt; strip.values(), [24].as_slice());
    assert_eq!(rt; after.values(), [3, 0, 3, 0, 3, 0, 3, 0].as_slice());
    let fours = rising_fours(rt.alloc())?;
    let (strip, after) = told(rt.alloc(), first, &fours, second, Face::XLow)?;
    assert_eq!(rt; strip.values(), [88, 120, 216, 248].as_slice());
    let laid = [
        after.get(0, 1, 1),
        after.get(0, 2, 1),
        after.get(0, 1, 2),
        after.get(0, 3, 3),
    ];
    assert_eq!(rt; laid, [11, 15, 27, 31]);
    Ok(())
}

#[test]
fn a_finer_block_tells_means(rt: HostRuntime) -> Result<(), Fail> {
    let (first, second) = (Id::root_of(0), Id::root_of(1).child(2));
    let mut odd = Cells::filled(rt.alloc(), 2, 0)?;
    odd.load([1, 2, 3, 4, 5, 6, 7, 8].as_slice());
    let (strip, _) = told(rt.alloc(), second, &odd, first, Face::XHigh)?;
    assert_eq!(rt; strip.values(), [4].as_slice());
    let fours = rising_fours(rt.alloc())?;
    let (strip, after) = told(rt.alloc(), second, &fours, first, Face::XHigh)?;
    assert_eq!(rt; strip.values(), [84, 148, 340, 404].as_slice());
    let laid = [
        after.get(3, 2, 0),
        after.get(3, 3, 0),
        after.get(3, 2, 1),
        after.get(3, 3, 1),
    ];
    assert_eq!(rt; laid, [10, 18, 42, 50]);
    let beside = [
        after.get(3, 1, 0),
        after.get(3, 2, 2),
        after.get(0, 2, 0),
        after.get(2, 2, 0),
    ];
    assert_eq!(rt; beside, [0; 4]);
    Ok(())
}
