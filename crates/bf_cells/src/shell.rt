ghost use Rattle.std.specs.Prelude.{◌≡◌, ◌+◌, ◌*◌, ◌/◌, ◌%◌, ◌<◌, ◌≤◌, length, IfOk};
ghost use Rattle.bf_cells.specs.Shell.{IsShell, blank_walls, with_value, with_wall, wall_of, face_values};
ghost use Rattle.bf_cells.specs.Levels.{doubled_face, doubled_square, face_mean, square_at, with_quarter};

use crate::Memory;
use crate::cells::Cells;
use crate::cubes::Cube;
use crate::faces::copy_face;
use crate::levels::{double_face, mean_quarter};
use crate::places::square_place;
use crate::quarters::{double_square, write_quarter};
use crate::squares::Squares;
use bf_face::Face;
use std::alloc::Global;
use std::marker::Model;

/// What surrounds a cube of cells: one square of values for each face.
#[derive(Debug, Drop)]
pub struct Shell {
    side: u32,
    squares: Squares,
}

impl Model for Shell {
    ghost use Rattle.bf_cells.specs.Shell.{Walls, IsShell};

    ghost Value = { Walls };

    ghost use Rattle.bf_cells.specs.ShellFields.{walls_in};

    ghost view = { walls_in };

    ghost invariant = { λ s. IsShell (walls_in s) };
}

impl Shell {
    /// A shell of zeros.
    pub fn blank(alloc: Global, side: u32) -> Result<Self, Memory>
        requires even { side % 2 ≡ 0 }
        requires low { 2 ≤ side }
        requires high { side ≤ 16 }
        ensures { IfOk result (λ s. s ≡ blank_walls side) }
    {
        let count = (side * side) as usize;
        Ok(Shell {
            side,
            squares: Squares {
                x_low: vec![in alloc; 0u32; count]?,
                x_high: vec![in alloc; 0u32; count]?,
                y_low: vec![in alloc; 0u32; count]?,
                y_high: vec![in alloc; 0u32; count]?,
                z_low: vec![in alloc; 0u32; count]?,
                z_high: vec![in alloc; 0u32; count]?,
            },
        })
    }

    /// How many values an edge of a square has.
    pub fn side(&self) -> u32
        ensures side { result ≡ self.now.side }
        ensures valid { IsShell self.now }
    {
        self.side
    }

    /// Gives another value to the place next to a face's cell, by the cell's two other coordinates in the order x, y, z.
    pub fn put(&mut self, face: Face, a: u32, b: u32, value: u32)
        requires a_below { a < self.old.side }
        requires b_below { b < self.old.side }
        ensures values { self.new ≡ with_value self.old face a b value }
        ensures side { self.new.side ≡ self.old.side }
    {
        let at = square_place(self.side, a, b);
        self.squares.square_mut(face)[at] = value;
    }

    /// Makes the square of a face hold the cells' own values on one of their faces, in the same order.
    pub fn set_wall(&mut self, face: Face, cells: &Cells, of_face: Face)
        requires sides { cells.now.side ≡ self.old.side }
        ensures values { self.new ≡ with_wall self.old face (face_values cells.now of_face) }
        ensures side { self.new.side ≡ self.old.side }
    {
        let side = self.side as usize;
        let square = self.squares.square_mut(face);
        copy_face(cells.values(), side, of_face, square);
    }

    /// Makes the square of a face hold a quarter of a face of cells one level coarser, each value at four places. The quarter is
    /// told by its half along each of the face's two axes, in the order x, y, z: 0 is the low one, and 1 the high one.
    pub fn set_wall_doubled(
        &mut self,
        face: Face,
        cells: &Cells,
        of_face: Face,
        half_a: u32,
        half_b: u32,
    )
        requires half_a { half_a < 2 }
        requires half_b { half_b < 2 }
        requires sides { cells.now.side ≡ self.old.side }
        ensures values { self.new ≡ with_wall self.old face (doubled_face cells.now of_face half_a half_b) }
        ensures side { self.new.side ≡ self.old.side }
    {
        let side = self.side as usize;
        let a = half_a as usize;
        let b = half_b as usize;
        let square = self.squares.square_mut(face);
        double_face(cells.values(), side, of_face, a, b, square);
    }

    /// Writes into a quarter of a face's square the means, rounded down, of each eight cells that form a cube next to a face of
    /// cells one level finer. The quarter is told by its halves, as in [`Shell::set_wall_doubled`].
    pub fn set_quarter_means(
        &mut self,
        face: Face,
        half_a: u32,
        half_b: u32,
        cells: &Cells,
        of_face: Face,
    )
        requires half_a { half_a < 2 }
        requires half_b { half_b < 2 }
        requires sides { cells.now.side ≡ self.old.side }
        ensures values { self.new
            ≡ with_wall self.old face (with_quarter self.old.side half_a half_b (face_mean cells.now of_face) (wall_of self.old face)) }
        ensures side { self.new.side ≡ self.old.side }
    {
        let side = self.side as usize;
        let a = half_a as usize;
        let b = half_b as usize;
        let square = self.squares.square_mut(face);
        mean_quarter(cells.values(), side, of_face, a, b, square);
    }

    /// Makes the square of a face hold these values.
    pub fn lay(&mut self, face: Face, values: &[u32])
        requires { length values.now ≡ self.old.side * self.old.side }
        ensures values { self.new ≡ with_wall self.old face values.now }
        ensures side { self.new.side ≡ self.old.side }
    {
        let square = self.squares.square_mut(face);
        square.copy_from_slice(values);
    }

    /// Makes the square of a face hold the values of a square of half the side, each at four places.
    pub fn lay_doubled(&mut self, face: Face, values: &[u32])
        requires { length values.now ≡ self.old.side / 2 * (self.old.side / 2) }
        ensures values { self.new ≡ with_wall self.old face (doubled_square self.old.side values.now) }
        ensures side { self.new.side ≡ self.old.side }
    {
        let side = self.side as usize;
        let square = self.squares.square_mut(face);
        double_square(values, side, square);
    }

    /// Writes a square of half the side into a quarter of a face's square, which is told by its halves, as in
    /// [`Shell::set_wall_doubled`].
    pub fn lay_quarter(&mut self, face: Face, half_a: u32, half_b: u32, values: &[u32])
        requires half_a { half_a < 2 }
        requires half_b { half_b < 2 }
        requires values { length values.now ≡ self.old.side / 2 * (self.old.side / 2) }
        ensures values { self.new
            ≡ with_wall self.old face (with_quarter self.old.side half_a half_b (square_at (self.old.side / 2) values.now) (wall_of self.old face)) }
        ensures side { self.new.side ≡ self.old.side }
    {
        let side = self.side as usize;
        let a = half_a as usize;
        let b = half_b as usize;
        let square = self.squares.square_mut(face);
        write_quarter(values, side, a, b, square);
    }

    // A cube of cells with this shell round it.
    pub(crate) fn around<'a>(&'a self, cells: &'a [u32]) -> Cube<'a>
        requires { length cells.now ≡ self.now.side * self.now.side * self.now.side }
        ensures valid { IsShell self.now }
        ensures side { result.side ≡ self.now.side }
        ensures cells { result.cells.now ≡ cells.now }
        ensures x_low { result.x_low.now ≡ self.now.x_low }
        ensures x_high { result.x_high.now ≡ self.now.x_high }
        ensures y_low { result.y_low.now ≡ self.now.y_low }
        ensures y_high { result.y_high.now ≡ self.now.y_high }
        ensures z_low { result.z_low.now ≡ self.now.z_low }
        ensures z_high { result.z_high.now ≡ self.now.z_high }
    {
        Cube {
            side: self.side as usize,
            cells,
            x_low: self.squares.x_low.as_slice(),
            x_high: self.squares.x_high.as_slice(),
            y_low: self.squares.y_low.as_slice(),
            y_high: self.squares.y_high.as_slice(),
            z_low: self.squares.z_low.as_slice(),
            z_high: self.squares.z_high.as_slice(),
        }
    }
}
