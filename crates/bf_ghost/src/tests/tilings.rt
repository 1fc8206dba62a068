//! Whatever the leaves of a tiling of three levels tell each other, each is left with what is found beside it by place.
ghost use Rattle.std.specs.Prelude.{◌≡◌, IfOk};
ghost use Rattle.bf_id.specs.Shape.{root_count, IsShape};

use super::places::{Leaf, Tiling};
use super::{Fail, tell};
use crate::Memory;
use bf_cells::{Cells, Shell};
use bf_face::Face;
use bf_id::{Id, Shape};
use std::alloc::Global;
use std::process::Abort;

// How many roots the domains have along each axis.
const ROOTS: [[u32; 3]; 5] = [[2, 1, 1], [1, 2, 1], [1, 1, 2], [2, 2, 1], [2, 2, 2]];

// Numbers that jump about.
#[derive(Drop)]
struct Numbers {
    state: u64,
}

impl Numbers {
    fn next(&mut self) -> u32 {
        self.state = self
            .state
            .wrapping_mul(6364136223846793005)
            .wrapping_add(1442695040888963407);
        (self.state >> 32) as u32
    }

    // One of any size, and as often near the greatest as near zero.
    fn value(&mut self) -> u32 {
        let number = self.next() >> (self.next() % 32);
        if self.next() % 2 == 0 {
            number
        } else {
            u32::MAX - number
        }
    }
}

// Cells of any values.
fn jumping(
    rt: &impl Abort,
    alloc: Global,
    side: u32,
    numbers: &mut Numbers,
) -> Result<Cells, Memory> {
    assert!(rt; 2 <= side && side <= 16 && side % 2 == 0);
    let mut cells = Cells::filled(alloc, side, 0)?;
    for k in 0..side * side * side {
        cells.put(
            k % side,
            k / side % side,
            k / side / side % side,
            numbers.value(),
        );
    }
    Ok(cells)
}

// How many roots a domain has.
fn count_roots(rt: &impl Abort, shape: Shape) -> u32
    ensures shape { IsShape shape }
    ensures count { result ≡ root_count shape }
{
    let Shape { nx, ny, nz } = shape;
    assert!(rt; 1 <= nx && nx <= 16);
    assert!(rt; 1 <= ny && ny <= 16);
    assert!(rt; 1 <= nz && nz <= 16);
    nx * (ny * nz)
}

fn is_touched(rt: &impl Abort, shape: Shape, id: Id, others: &[Id]) -> bool {
    let count = count_roots(rt, shape);
    assert!(rt; id.root() < count);
    for other in others {
        assert!(rt; other.root() < count);
        if id.touches(*other, shape) {
            return true;
        }
    }
    false
}

fn add_children(rt: &impl Abort, ids: &mut Vec<Id>, id: Id) -> Result<(), Memory> {
    assert!(rt; id.level() < 4);
    for octant in 0..8 {
        ids.push(id.child(octant))?;
    }
    Ok(())
}

// The parts of a root, of which some that touch no whole root are cut once more.
fn add_parts(
    rt: &impl Abort,
    shape: Shape,
    whole: &[Id],
    numbers: &mut Numbers,
    ids: &mut Vec<Id>,
    root: Id,
) -> Result<(), Memory> {
    assert!(rt; root.level() < 4);
    for octant in 0..8 {
        let part = root.child(octant);
        if numbers.next() % 3 == 0 && !is_touched(rt, shape, part, whole) {
            add_children(rt, ids, part)?;
        } else {
            ids.push(part)?;
        }
    }
    Ok(())
}

// Some of the roots.
fn some_roots(alloc: Global, count: u32, numbers: &mut Numbers) -> Result<Vec<Id>, Memory> {
    let mut roots = Vec::new(alloc);
    for root in 0..count {
        if numbers.next() % 3 == 0 {
            roots.push(Id::root_of(root))?;
        }
    }
    Ok(roots)
}

// The leaves of a tiling, which is balanced: where one touches a root that stays whole, it is a part of a root.
fn balanced(
    rt: &impl Abort,
    alloc: Global,
    shape: Shape,
    numbers: &mut Numbers,
) -> Result<Vec<Id>, Memory> {
    let count = count_roots(rt, shape);
    let whole = some_roots(alloc, count, numbers)?;
    let mut ids = Vec::new(alloc);
    for root in 0..count {
        let root = Id::root_of(root);
        if whole.as_slice().contains(&root) {
            ids.push(root)?;
        } else {
            add_parts(rt, shape, whole.as_slice(), numbers, &mut ids, root)?;
        }
    }
    Ok(ids)
}

// A block with this side's cells.
fn leaf(
    rt: &impl Abort,
    alloc: Global,
    shape: Shape,
    side: u32,
    numbers: &mut Numbers,
    id: Id,
) -> Result<Leaf, Memory> {
    assert!(rt; id.root() < count_roots(rt, shape));
    let [x, y, z] = id.corner(shape);
    let low = [
        x.wrapping_mul(side),
        y.wrapping_mul(side),
        z.wrapping_mul(side),
    ];
    let cells = jumping(rt, alloc, side, numbers)?;
    Ok(Leaf { id, low, cells })
}

fn tiling(
    rt: &impl Abort,
    alloc: Global,
    shape: Shape,
    side: u32,
    numbers: &mut Numbers,
) -> Result<Tiling, Memory> {
    let mut leaves = Vec::new(alloc);
    for id in balanced(rt, alloc, shape, numbers)?.as_slice() {
        leaves.push(leaf(rt, alloc, shape, side, numbers, *id)?)?;
    }
    Ok(Tiling { shape, leaves })
}

// How two leaves lie that share a face of the target: their levels, and whether they are parts of one root.
#[derive(Clone, Copy, Debug, PartialEq, Eq)]
struct Sharing {
    face: Face,
    target: u32,
    source: u32,
    one_root: bool,
}

impl Sharing {
    fn between(target: Id, source: Id, face: Face) -> Sharing {
        Sharing {
            face,
            target: target.level(),
            source: source.level(),
            one_root: source.root() == target.root(),
        }
    }
}

fn face_between(rt: &impl Abort, shape: Shape, target: Id, source: Id) -> Option<Face> {
    let count = count_roots(rt, shape);
    assert!(rt; target.root() < count);
    assert!(rt; source.root() < count);
    target.face(source, shape)
}

// Tells a leaf all strips, and notes how it lies to those that tell one. Blocks are always a model's, so the strips of tilings that
// no case has are made and laid by what the calls on blocks stand on.
fn told(
    rt: &impl Abort,
    alloc: Global,
    tiling: &Tiling,
    target: &Leaf,
    seen: &mut Vec<Sharing>,
) -> Result<Shell, Memory> {
    let mut shell = Shell::blank(alloc, target.cells.side())?;
    for source in tiling.leaves.as_slice() {
        if let Some(face) = face_between(rt, tiling.shape, target.id, source.id) {
            assert!(rt; shell.side() == source.cells.side());
            tell(alloc, source.id, &source.cells, target.id, face, &mut shell)?;
            let sharing = Sharing::between(target.id, source.id, face);
            if !seen.as_slice().contains(&sharing) {
                seen.push(sharing)?;
            }
        }
    }
    Ok(shell)
}

fn samples(
    rt: &impl Abort,
    alloc: Global,
    tiling: &Tiling,
    target: &Leaf,
) -> Result<Shell, Memory> {
    let mut shell = Shell::blank(alloc, target.cells.side())?;
    for face in Face::ALL {
        tiling.put_samples(rt, target, face, &mut shell);
    }
    Ok(shell)
}

// Compares shells by what they print, which is all their values.
fn expect_samples(
    rt: &impl Abort,
    alloc: Global,
    tiling: &Tiling,
    seen: &mut Vec<Sharing>,
) -> Result<(), Memory> {
    for target in tiling.leaves.as_slice() {
        let laid = told(rt, alloc, tiling, target, seen)?;
        let expected = samples(rt, alloc, tiling, target)?;
        assert_eq!(rt;
            format!(in alloc; "{laid:?}")?,
            format!(in alloc; "{expected:?}")?
        );
    }
    Ok(())
}

// Four tilings of each shape, among which leaves lie in all 66 ways: across each of six faces, 4 pairs of levels in one root, where
// none is 0, and 7 in two, all but 0 and 2.
fn expect_tilings(rt: &impl Abort, alloc: Global, side: u32) -> Result<(), Memory> {
    let mut numbers = Numbers { state: 8 };
    let mut seen = Vec::new(alloc);
    for k in 0..20 {
        let [nx, ny, nz] = ROOTS[k % 5];
        let tiling = tiling(rt, alloc, Shape { nx, ny, nz }, side, &mut numbers)?;
        expect_samples(rt, alloc, &tiling, &mut seen)?;
    }
    assert_eq!(rt; seen.len(), 66);
    Ok(())
}

#[test]
fn strips_of_two_are_samples(rt: HostRuntime) -> Result<(), Fail> {
    expect_tilings(&rt, rt.alloc(), 2)?;
    Ok(())
}

#[test]
fn strips_of_four_are_samples(rt: HostRuntime) -> Result<(), Fail> {
    expect_tilings(&rt, rt.alloc(), 4)?;
    Ok(())
}

#[test]
fn strips_of_six_are_samples(rt: HostRuntime) -> Result<(), Fail> {
    expect_tilings(&rt, rt.alloc(), 6)?;
    Ok(())
}
