//! The run of a case.
ghost use Rattle.std.specs.Prelude.{◌≡◌, ◌≤◌, IfOk};
ghost use Rattle.bf_case.specs.Case.{IsValid};
ghost use Rattle.bf_case.specs.Map.{IsBalancedMap};
ghost use Rattle.bf_case.specs.Model.{model, regridded, regrids};
ghost use Rattle.bf_case.specs.Regrid.{regrid};
ghost use Rattle.bf_case.specs.Stencil.{stencil};
ghost use Rattle.bf_plain.specs.Runs.{IsReady};

use crate::atlas::Atlas;
use crate::beginning::beginning;
use crate::regridding::regrid_owned;
use crate::step::{blank_values, step};
use bf_case::{Case, Items, Map};
use bf_cells::{Cells, Shell};
use bf_edge::Memory;
use bf_id::Id;
use std::alloc::Global;

/// What a run holds from step to step.
#[derive(Drop)]
struct Run {
    leaves: Vec<(Id, Cells)>,
    atlas: Atlas,
    /// Working space, for one leaf after another.
    shell: Shell,
    scratch: Cells,
    /// Room for the new values of all leaves.
    fresh: Vec<u32>,
}

/// Whether there is a regrid at a time.
fn regrids(case: &Case, time: u32) -> bool
    ensures { result ≡ regrids case.now time }
{
    0 < case.regrid && time % case.regrid == 0
}

impl Run {
    /// A run that has these leaves.
    fn of(alloc: Global, case: &Case, leaves: Vec<(Id, Cells)>) -> Result<Run, Memory>
        requires valid { IsValid case.now }
        requires forest { IsBalancedMap case.now leaves.items }
        ensures leaves { IfOk result (λ run. run.leaves.items ≡ leaves.items) }
        ensures ready { IfOk result (IsReady case.now) }
    {
        let atlas = Atlas::of(alloc, case, leaves.as_slice())?;
        let shell = Shell::blank(alloc, case.side)?;
        let scratch = Cells::filled(alloc, case.side, 0)?;
        let fresh = blank_values(alloc, case.side, leaves.len())?;
        Ok(Run {
            leaves,
            atlas,
            shell,
            scratch,
            fresh,
        })
    }

    /// The leaves. All else is let go, so that what a regrid takes can stand in its place.
    fn into_leaves(self) -> Vec<(Id, Cells)>
        ensures { result.items ≡ self.leaves.items }
    {
        let Run { leaves, .. } = self;
        leaves
    }

    /// The run after a regrid. The leaves of before are spent, so there is never more than one map.
    fn regridded(self, alloc: Global, case: &Case) -> Result<Run, Memory>
        requires ready { IsReady case.now self }
        ensures leaves { IfOk result (λ run. run.leaves.items ≡ regrid case.now self.leaves.items) }
        ensures ready { IfOk result (IsReady case.now) }
    {
        let leaves = regrid_owned(alloc, case, self.into_leaves())?;
        Run::of(alloc, case, leaves)
    }

    /// The run after the regrid of this time, if there is one.
    fn regridded_at(self, alloc: Global, case: &Case, time: u32) -> Result<Run, Memory>
        requires ready { IsReady case.now self }
        ensures leaves { IfOk result (λ run. run.leaves.items ≡ regridded case.now time self.leaves.items) }
        ensures ready { IfOk result (IsReady case.now) }
    {
        if regrids(case, time) {
            self.regridded(alloc, case)
        } else {
            Ok(self)
        }
    }

    /// One step.
    fn step(&mut self, case: &Case)
        requires ready { IsReady case.now self.old }
        ensures leaves { self.new.leaves.items ≡ stencil case.now.roots case.now.side self.old.leaves.items }
        ensures ready { IsReady case.now self.new }
    {
        step(
            case,
            self.leaves.as_mut_slice(),
            &self.atlas,
            &mut self.shell,
            &mut self.scratch,
            self.fresh.as_mut_slice(),
        );
    }
}

/// The map of a case at a time: before the regrid of this time, if there is one. `Err` is only for want of memory.
///
/// There is one map at a time: cells that a regrid keeps are moved, and a step is done in place.
pub fn one_run(alloc: Global, case: &Case, time: u32) -> Result<Map, Memory>
    requires valid { IsValid case.now }
    requires within { time ≤ case.now.steps }
    ensures leaves { IfOk result (λ map. map.leaves ≡ model case.now time) }
    ensures side { IfOk result (λ map. map.side ≡ case.now.side) }
{
    let mut run = Run::of(alloc, case, beginning(alloc, case)?)?;
    for now in 0..time {
        run = run.regridded_at(alloc, case, now)?;
        run.step(case);
    }
    Ok(Map {
        side: case.side,
        leaves: Items::of(run.into_leaves()),
    })
}

#[cfg(test)]
mod tests;
