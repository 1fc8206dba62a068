ghost use Rattle.std.specs.Prelude.{◌≡◌, ◌+◌, ◌*◌, ◌/◌, ◌%◌, ◌<◌, ◌≤◌, length, IfOk};
ghost use Rattle.bf_cells.specs.Grid.{IsGrid, grid_with, cell_at, filled_with, with_cell, with_row, spread_of};
ghost use Rattle.bf_cells.specs.Kernel.{relaxed_grid};
ghost use Rattle.bf_cells.specs.Levels.{mean_values, quarter_values};
ghost use Rattle.bf_cells.specs.Means.{means_of, with_octant};
ghost use Rattle.bf_cells.specs.Octant.{octant_copy_of, with_octant_mean};
ghost use Rattle.bf_cells.specs.Shell.{face_values};

use crate::Memory;
use crate::cubes::relax_cube;
use crate::extremes::{greatest, least};
use crate::faces::copy_face;
use crate::means::{load_part, mean_all};
use crate::octants::{copy_part, mean_part, octant_low};
use crate::places::{cube_place, row_start};
use crate::quarters::{copy_quarter, mean_face};
use crate::rows::fill_between;
use crate::shell::Shell;
use bf_face::Face;
use std::alloc::Global;
use std::marker::Model;

/// A cube of cells, each a number of 32 bits.
#[derive(Debug, Drop)]
pub struct Cells {
    side: u32,
    values: Vec<u32>,
}

impl Model for Cells {
    ghost use Rattle.bf_cells.specs.Grid.{Grid, IsGrid};

    ghost Value = { Grid };

    ghost view = { λ c. record { side = c.side; values = c.values.items } };

    ghost invariant = { λ c. IsGrid (record { side = c.side; values = c.values.items }) };
}

impl Cells {
    /// A cube whose cells all have one value.
    pub fn filled(alloc: Global, side: u32, value: u32) -> Result<Self, Memory>
        requires even { side % 2 ≡ 0 }
        requires low { 2 ≤ side }
        requires high { side ≤ 16 }
        ensures cells { IfOk result (λ c. c ≡ filled_with side value) }
        ensures side { IfOk result (λ c. c.side ≡ side) }
    {
        let count = (side * side * side) as usize;
        let values = vec![in alloc; value; count]?;
        Ok(Cells { side, values })
    }

    /// How many cells an edge has.
    pub fn side(&self) -> u32
        ensures side { result ≡ self.now.side }
        ensures valid { IsGrid self.now }
    {
        self.side
    }

    /// The value of a cell.
    pub fn get(&self, x: u32, y: u32, z: u32) -> u32
        requires x_below { x < self.now.side }
        requires y_below { y < self.now.side }
        requires z_below { z < self.now.side }
        ensures { result ≡ cell_at self.now x y z }
    {
        let values = self.values.as_slice();
        values[cube_place(self.side, x, y, z)]
    }

    /// Gives a cell another value.
    pub fn put(&mut self, x: u32, y: u32, z: u32, value: u32)
        requires x_below { x < self.old.side }
        requires y_below { y < self.old.side }
        requires z_below { z < self.old.side }
        ensures { self.new ≡ with_cell self.old x y z value }
    {
        let at = cube_place(self.side, x, y, z);
        self.values[at] = value;
    }

    /// All values, x fastest, then y, then z.
    pub fn values(&self) -> &[u32]
        ensures values { result.now ≡ self.now.values }
        ensures len { length result.now ≡ self.now.side * self.now.side * self.now.side }
        ensures valid { IsGrid self.now }
    {
        self.values.as_slice()
    }

    /// Copies the cells on a face, by their two other coordinates in the order x, y, z, the first fastest.
    pub fn read_face(&self, face: Face, into: &mut [u32])
        requires { length into.old ≡ self.now.side * self.now.side }
        ensures { into.new ≡ face_values self.now face }
    {
        copy_face(self.values.as_slice(), self.side as usize, face, into);
    }

    /// Copies the cells on a quarter of a face, which is told by its half along each of the face's two axes, in the order
    /// x, y, z: 0 is the low one, and 1 the high one.
    pub fn read_quarter(&self, face: Face, half_a: u32, half_b: u32, into: &mut [u32])
        requires half_a { half_a < 2 }
        requires half_b { half_b < 2 }
        requires into { length into.old ≡ self.now.side / 2 * (self.now.side / 2) }
        ensures { into.new ≡ quarter_values self.now face half_a half_b }
    {
        let side = self.side as usize;
        let a = half_a as usize;
        let b = half_b as usize;
        copy_quarter(self.values.as_slice(), side, face, a, b, into);
    }

    /// Takes the mean, rounded down, of each eight cells that form a cube next to a face.
    pub fn read_means(&self, face: Face, into: &mut [u32])
        requires { length into.old ≡ self.now.side / 2 * (self.now.side / 2) }
        ensures { into.new ≡ mean_values self.now face }
    {
        mean_face(self.values.as_slice(), self.side as usize, face, into);
    }

    /// Gives all cells other values, x fastest, then y, then z.
    pub fn load(&mut self, values: &[u32])
        requires { length values.now ≡ self.old.side * self.old.side * self.old.side }
        ensures cells { self.new ≡ grid_with self.old.side values.now }
        ensures side { self.new.side ≡ self.old.side }
    {
        self.values.as_mut_slice().copy_from_slice(values);
    }

    /// Cells of the same values.
    pub fn copy(&self) -> Result<Self, Memory>
        ensures { IfOk result (λ c. c ≡ self.now) }
    {
        let values = self.values.as_slice().to_vec(*self.values.allocator())?;
        Ok(Cells {
            side: self.side,
            values,
        })
    }

    /// One step: each cell of `into` becomes the mean of this cell, counted twice, and its six neighbours, rounded down.
    /// Beyond a face the shell's values are the neighbours.
    pub fn kernel(&self, shell: &Shell, into: &mut Cells)
        requires shell { shell.now.side ≡ self.now.side }
        requires into { into.old.side ≡ self.now.side }
        ensures cells { into.new ≡ relaxed_grid self.now shell.now }
        ensures side { into.new.side ≡ into.old.side }
    {
        relax_cube(
            shell.around(self.values.as_slice()),
            into.values.as_mut_slice(),
        );
    }

    /// The greatest value of a cell less the least.
    pub fn spread(&self) -> u32
        ensures { result ≡ spread_of self.now }
    {
        let values = self.values.as_slice();
        greatest(values) - least(values)
    }

    /// Each cell of an octant, eight times. Octant `x + 2y + 4z` lies on the high half of each axis that is 1.
    pub fn octant_copy(&self, octant: u32) -> Result<Self, Memory>
        requires { octant < 8 }
        ensures cells { IfOk result (λ c. c ≡ octant_copy_of self.now octant) }
        ensures side { IfOk result (λ c. c.side ≡ self.now.side) }
    {
        let side = self.side as usize;
        let (x0, y0, z0) = octant_low(side, octant as usize);
        let alloc = *self.values.allocator();
        let mut values = vec![in alloc; 0u32; side * side * side]?;
        copy_part(
            self.values.as_slice(),
            side,
            x0,
            y0,
            z0,
            values.as_mut_slice(),
        );
        Ok(Cells {
            side: self.side,
            values,
        })
    }

    /// Writes into an octant of `into` the mean of each eight cells that form a cube, rounded down.
    pub fn octant_mean(&self, octant: u32, into: &mut Cells)
        requires octant { octant < 8 }
        requires sides { into.old.side ≡ self.now.side }
        ensures cells { into.new ≡ with_octant_mean self.now octant into.old }
        ensures side { into.new.side ≡ into.old.side }
    {
        let side = self.side as usize;
        let (x0, y0, z0) = octant_low(side, octant as usize);
        mean_part(
            self.values.as_slice(),
            side,
            x0,
            y0,
            z0,
            into.values.as_mut_slice(),
        );
    }

    /// The means, rounded down, of each eight cells that form a cube: x fastest, then y, then z.
    pub fn means(&self) -> Result<Vec<u32>, Memory>
        ensures { IfOk result (λ means. means.items ≡ (means_of self.now).values) }
    {
        let side = self.side as usize;
        let half = side / 2;
        let alloc = *self.values.allocator();
        let mut means = vec![in alloc; 0u32; half * half * half]?;
        mean_all(self.values.as_slice(), side, means.as_mut_slice());
        Ok(means)
    }

    /// Gives the cells of an octant other values, x fastest, then y, then z.
    pub fn load_octant(&mut self, octant: u32, values: &[u32])
        requires octant { octant < 8 }
        requires values { length values.now ≡ self.old.side / 2 * (self.old.side / 2) * (self.old.side / 2) }
        ensures cells { self.new ≡ with_octant self.old octant values.now }
        ensures side { self.new.side ≡ self.old.side }
    {
        let side = self.side as usize;
        let (x0, y0, z0) = octant_low(side, octant as usize);
        load_part(values, side, x0, y0, z0, self.values.as_mut_slice());
    }

    /// Gives one value to the cells from `x` up to `end`, which is not among them, of the row at y and z.
    pub fn put_row(&mut self, x: u32, end: u32, y: u32, z: u32, value: u32)
        requires ordered { x ≤ end }
        requires end { end ≤ self.old.side }
        requires y_below { y < self.old.side }
        requires z_below { z < self.old.side }
        ensures cells { self.new ≡ with_row self.old x end y z value }
        ensures side { self.new.side ≡ self.old.side }
    {
        let side = self.side as usize;
        let start = row_start(self.side, y, z);
        let row = &mut self.values[start..start + side];
        fill_between(row, x as usize, end as usize, value);
    }
}
