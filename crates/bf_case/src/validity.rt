//! The tests of a case's parts.

ghost use Rattle.std.specs.Prelude.{◌≡◌, ℕ, ◌+◌, ◌*◌, ◌^◌, ◌<◌, ◌≤◌, ◌↔◌, IsTrue, All, map};
ghost use Rattle.std.specs.List.Sorted.{IsStrictlyIncreasing};
ghost use Rattle.bf_id.specs.Shape.{IsShape, root_count};
ghost use Rattle.bf_case.specs.Case.{IsStretch, IsFill, IsDeath};

use crate::case::Fill;
use bf_id::Shape;

fn is_axis(roots: u32) -> bool
    ensures { IsTrue result ↔ ((0 < roots) × (roots ≤ 16)) }
{
    0 < roots && roots <= 16
}

pub fn is_shape(shape: Shape) -> bool
    ensures { IsTrue result ↔ IsShape shape }
{
    is_axis(shape.nx) && is_axis(shape.ny) && is_axis(shape.nz)
}

/// How many roots the domain has.
pub fn roots_of(shape: Shape) -> u32
    requires few_x { shape.nx ≤ 16 }
    requires few_y { shape.ny ≤ 16 }
    requires few_z { shape.nz ≤ 16 }
    ensures exact { result ≡ root_count shape }
    ensures few { result ≤ 4096 }
    ensures some { IsShape shape → 0 < result }
{
    shape.nx * (shape.ny * shape.nz)
}

fn blocks_of_root(levels: u32) -> u64
    requires { levels ≤ 4 }
    ensures exact { result ≡ 8 ^ levels }
    ensures few { result ≤ 4096 }
{
    8u64.pow(levels)
}

fn cells_of_block(side: u32) -> u64
    requires { side ≤ 16 }
    ensures exact { result ≡ side * side * side }
    ensures few { result ≤ 4096 }
{
    let side = u64::from(side);
    side * side * side
}

/// How many cells the domain has where all its blocks are of the finest level.
pub fn cells_of(shape: Shape, side: u32, levels: u32) -> u64
    requires few_x { shape.nx ≤ 16 }
    requires few_y { shape.ny ≤ 16 }
    requires few_z { shape.nz ≤ 16 }
    requires narrow { side ≤ 16 }
    requires shallow { levels ≤ 4 }
    ensures { result ≡ root_count shape * 8 ^ levels * (side * side * side) }
{
    u64::from(roots_of(shape)) * blocks_of_root(levels) * cells_of_block(side)
}

fn is_stretch(low: u32, high: u32, cells: u32) -> bool
    ensures { IsTrue result ↔ IsStretch low high cells }
{
    low <= high && high < cells
}

pub fn is_fill(shape: Shape, side: u32, fill: &Fill) -> bool
    requires shape { IsShape shape }
    requires narrow { side ≤ 16 }
    ensures { IsTrue result ↔ IsFill shape side fill.now }
{
    let _value = fill.value;
    let [low_x, low_y, low_z] = fill.low;
    let [high_x, high_y, high_z] = fill.high;
    is_stretch(low_x, high_x, shape.nx * side)
        && is_stretch(low_y, high_y, shape.ny * side)
        && is_stretch(low_z, high_z, shape.nz * side)
}

pub fn are_fills(shape: Shape, side: u32, fills: &[Fill]) -> bool
    requires shape { IsShape shape }
    requires narrow { side ≤ 16 }
    ensures { IsTrue result ↔ All (IsFill shape side) fills.now }
{
    fills.iter().all(|fill| is_fill(shape, side, fill))
}

fn is_death(ranks: u32, death: (u32, u32)) -> bool
    ensures { IsTrue result ↔ IsDeath ranks death }
{
    death.0 < ranks
}

pub fn are_deaths(ranks: u32, deaths: &[(u32, u32)]) -> bool
    ensures { IsTrue result ↔ All (IsDeath ranks) deaths.now }
{
    deaths.iter().all(|death| is_death(ranks, *death))
}

/// Whether each death names a greater rank than the one before.
pub fn are_rising(deaths: &[(u32, u32)]) -> bool
    ensures { IsTrue result ↔ IsStrictlyIncreasing (map (λ (death : ℕ × ℕ). death.0) deaths.now) }
{
    for i in 1..deaths.len() {
        if deaths[i].0 <= deaths[i - 1].0 {
            return false;
        }
    }
    true
}

pub fn are_ranks(ranks: u32, order: &[u32]) -> bool
    ensures { IsTrue result ↔ All (λ rank. rank < ranks) order.now }
{
    order.iter().all(|&rank| rank < ranks)
}
