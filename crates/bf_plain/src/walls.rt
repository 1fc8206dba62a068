//! The walls around a leaf: what lies next to its faces, in leaves of its level and of the levels beside it.
ghost use Rattle.std.specs.Prelude.{◌≡◌, ℕ, ◌+◌, ◌-◌, ◌*◌, ◌/◌, ◌%◌, ◌<◌, ◌≤◌, length, Contains};
ghost use Rattle.bf_id.specs.Cube.{Holds};
ghost use Rattle.bf_face.specs.Face.{opposite_of};
ghost use Rattle.bf_id.specs.Id.{box_of, level_of, octant_of};
ghost use Rattle.bf_id.specs.Shape.{InDomain};
ghost use Rattle.bf_cells.specs.Levels.{doubled_face};
ghost use Rattle.bf_cells.specs.Shell.{with_wall};
ghost use Rattle.bf_id.specs.Neighbours.{IsAtEdge};
ghost use Rattle.bf_case.specs.Beside.{HoldsBeside, HoldSamples};
ghost use Rattle.bf_case.specs.Halves.{first_half, second_half};
ghost use Rattle.bf_plain.specs.Survey.{IsCharted, IsFinerAcross, IsSite, KeepsOthers};

use crate::atlas::Atlas;
use crate::faces::across_quarter;
use bf_case::{Case, halves_along};
use bf_cells::{Cells, Shell};
use bf_face::Face;
use bf_id::{Cube, Id, Voxel};

/// The leaves of a map, with their atlas.
#[derive(Clone, Copy)]
pub(crate) struct Survey<'a> {
    pub case: &'a Case,
    pub leaves: &'a [(Id, Cells)],
    pub atlas: &'a Atlas,
}

/// A leaf of a map, with its box.
#[derive(Clone, Copy)]
pub(crate) struct Site<'a> {
    pub id: Id,
    pub cells: &'a Cells,
    pub cube: Cube,
}

/// Lays next to a face of a block the quarter that lies across it of a leaf one level coarser.
fn lay_coarser(shell: &mut Shell, id: Id, face: Face, cells: &Cells)
    requires { cells.now.side ≡ shell.old.side }
    ensures wall { shell.new ≡ with_wall shell.old face (doubled_face cells.now (opposite_of face)
        (first_half face (octant_of id)) (second_half face (octant_of id))) }
    ensures side { shell.new.side ≡ shell.old.side }
{
    let (half_a, half_b) = halves_along(face, id);
    shell.set_wall_doubled(face, cells, face.opposite(), half_a, half_b);
}

impl<'a> Survey<'a> {
    /// The leaf that has a unit.
    fn leaf_with(self, unit: Voxel) -> &'a (Id, Cells)
        requires charted { IsCharted self.case.now self.leaves.now self.atlas.now }
        requires inside { InDomain self.case.now.roots unit }
        ensures found { Contains self.entry.leaves.now result.now }
        ensures holds { Holds (box_of self.entry.case.now.roots result.now.0) unit }
    {
        &self.leaves[self.atlas.leaf_at(unit)]
    }

    /// Lays next to a face of a leaf the means of the four leaves across it, which are one level finer.
    fn lay_finer(self, shell: &mut Shell, site: &Site<'_>, face: Face)
        requires site { IsSite self.case.now self.leaves.now self.atlas.now site.now.id site.now.cells.now site.now.cube }
        requires finer { IsFinerAcross self.case.now self.leaves.now site.now.id site.now.cells.now face }
        requires side { shell.old.side ≡ self.case.now.side }
        ensures face { HoldsBeside self.entry.case.now.roots self.entry.leaves.now site.now.id site.now.cells.now shell.new face }
        ensures others { KeepsOthers shell.old shell.new face }
        ensures side { shell.new.side ≡ shell.old.side }
    {
        for quarter in 0..4 {
            let half_a = quarter % 2;
            let half_b = quarter / 2;
            let unit = across_quarter(site.cube, self.case.roots, face, half_a, half_b);
            let (_, cells) = self.leaf_with(unit);
            shell.set_quarter_means(face, half_a, half_b, cells, face.opposite());
        }
    }

    /// Lays what lies across a face of a leaf, which isn't at the domain's edge.
    fn lay_across(self, shell: &mut Shell, site: &Site<'_>, face: Face)
        requires site { IsSite self.case.now self.leaves.now self.atlas.now site.now.id site.now.cells.now site.now.cube }
        requires inner { IsAtEdge self.case.now.roots site.now.cube face → ⊥ }
        requires side { shell.old.side ≡ self.case.now.side }
        ensures face { HoldsBeside self.entry.case.now.roots self.entry.leaves.now site.now.id site.now.cells.now shell.new face }
        ensures others { KeepsOthers shell.old shell.new face }
        ensures side { shell.new.side ≡ shell.old.side }
    {
        let unit = site.cube.across(self.case.roots, face, 0, 0);
        let (other, cells) = self.leaf_with(unit);
        if other.level() > site.id.level() {
            self.lay_finer(shell, site, face);
        } else if other.level() < site.id.level() {
            lay_coarser(shell, site.id, face, cells);
        } else {
            shell.set_wall(face, cells, face.opposite());
        }
    }

    /// Lays what lies next to a face of a leaf: what lies across it, or at the domain's edge the leaf's own cells.
    fn lay_face(self, shell: &mut Shell, site: &Site<'_>, face: Face)
        requires site { IsSite self.case.now self.leaves.now self.atlas.now site.now.id site.now.cells.now site.now.cube }
        requires side { shell.old.side ≡ self.case.now.side }
        ensures face { HoldsBeside self.entry.case.now.roots self.entry.leaves.now site.now.id site.now.cells.now shell.new face }
        ensures others { KeepsOthers shell.old shell.new face }
        ensures side { shell.new.side ≡ shell.old.side }
    {
        if site.cube.is_at_edge(self.case.roots, face) {
            shell.set_wall(face, site.cells, face);
        } else {
            self.lay_across(shell, site, face);
        }
    }

    /// Lays what lies next to all faces of a leaf.
    pub(crate) fn surround(self, shell: &mut Shell, site: &Site<'_>)
        requires site { IsSite self.case.now self.leaves.now self.atlas.now site.now.id site.now.cells.now site.now.cube }
        requires side { shell.old.side ≡ self.case.now.side }
        ensures samples { HoldSamples self.entry.case.now.roots self.entry.leaves.now site.now.id site.now.cells.now shell.new }
        ensures side { shell.new.side ≡ shell.old.side }
    {
        for face in Face::ALL {
            self.lay_face(shell, site, face);
        }
    }
}
