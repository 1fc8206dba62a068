/// A point of a run: a time, before or after its regrid. A time without a regrid has both points too.
#[derive(Clone, Copy, Debug, PartialEq, Eq)]
pub struct Point {
    pub time: u32,
    pub regridded: bool,
}

impl Point {
    ghost use Rattle.std.specs.Prelude.{◌≡◌};
    ghost use Rattle.bf_block.specs.Block.{before_regrid, after_regrid};

    pub(crate) fn before_regrid(time: u32) -> Point
        ensures { result ≡ before_regrid time }
    {
        Point {
            time,
            regridded: false,
        }
    }

    pub(crate) fn after_regrid(time: u32) -> Point
        ensures { result ≡ after_regrid time }
    {
        Point {
            time,
            regridded: true,
        }
    }
}
