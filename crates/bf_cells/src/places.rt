ghost use Rattle.std.specs.Prelude.{◌≡◌, ◌+◌, ◌*◌, ◌<◌, ◌≤◌};
ghost use Rattle.bf_cells.specs.Grid.{place};
ghost use Rattle.bf_cells.specs.Shell.{wall_place};

// Where a cell stands in the list of a cube.
#[inline]
pub(crate) fn cube_place(side: u32, x: u32, y: u32, z: u32) -> usize
    requires high { side ≤ 16 }
    requires x_below { x < side }
    requires y_below { y < side }
    requires z_below { z < side }
    ensures { result ≡ place side x y z }
{
    (x + side * (y + side * z)) as usize
}

// Where a value stands in the list of a square.
#[inline]
pub(crate) fn square_place(side: u32, a: u32, b: u32) -> usize
    requires high { side ≤ 16 }
    requires a_below { a < side }
    requires b_below { b < side }
    ensures { result ≡ wall_place side a b }
{
    (a + side * b) as usize
}

// Where the row at y and z begins in the list of a cube.
#[inline]
pub(crate) fn row_start(side: u32, y: u32, z: u32) -> usize
    requires high { side ≤ 16 }
    requires y_below { y < side }
    requires z_below { z < side }
    ensures { result ≡ side * (y + side * z) }
{
    (side * (y + side * z)) as usize
}
