use crate::validity::{are_deaths, are_fills, are_ranks, are_rising, cells_of, is_shape, roots_of};
use bf_id::Shape;
use bf_items::Items;

/// A box of cells and the value that it is filled with; both corners are included.
#[derive(Clone, Copy, Debug, PartialEq, Eq)]
pub struct Fill {
    /// The low corner in cells of level 0: x, y, z.
    pub low: [u32; 3],
    /// The high corner, which is filled too.
    pub high: [u32; 3],
    pub value: u32,
}

/// A simulation: its domain, its limits, and what happens in it.
#[derive(Drop)]
pub struct Case {
    pub roots: Shape,
    /// Cells along the edge of a block.
    pub side: u32,
    /// The finest level.
    pub levels: u32,
    pub ranks: u32,
    pub steps: u32,
    /// Steps from one snapshot to the next.
    pub snapshot: u32,
    /// Steps from one regrid to the next; 0 for none.
    pub regrid: u32,
    /// A leaf whose spread is above this wishes to refine.
    pub refine: u32,
    /// A leaf whose spread is at most this wishes to coarsen.
    pub coarsen: u32,
    /// Flow turns in a main turn.
    pub flow: u32,
    /// Main turns in a regrid.
    pub turns: u32,
    /// How far a buddy stands beyond the next member.
    pub shift: u32,
    pub fills: Items<Fill>,
    /// The rank that dies, and how many events it has by then.
    pub dies: Items<(u32, u32)>,
    /// The ranks that have the first turns.
    pub order: Items<u32>,
}

/// The greatest number of cells in a whole domain of finest blocks.
pub const CELL_LIMIT: u64 = 2_097_152;

impl Case {
    ghost use Rattle.std.specs.Prelude.{◌≤◌, ◌≡◌, ◌<◌, ◌↔◌, IsTrue};
    ghost use Rattle.bf_id.specs.Shape.{root_count};
    ghost use Rattle.bf_case.specs.Case.{IsSized, IsScheduled, IsValid, first_rank_of};

    /// Whether every field is in its range and the fields fit each other: for whoever makes a case by hand, since the reader of
    /// texts tells the first fault by its line and needs no answer of the whole.
    pub fn valid(&self) -> bool
        ensures { IsTrue result ↔ IsValid self.now }
    {
        self.is_sized()
            && self.is_scheduled()
            && are_fills(self.roots, self.side, self.fills.as_slice())
            && are_deaths(self.ranks, self.dies.as_slice())
            && are_rising(self.dies.as_slice())
            && are_ranks(self.ranks, self.order.as_slice())
    }

    fn is_sized(&self) -> bool
        ensures { IsTrue result ↔ IsSized self.now }
    {
        is_shape(self.roots)
            && self.side % 2 == 0
            && 2 <= self.side
            && self.side <= 16
            && self.levels <= 4
            && cells_of(self.roots, self.side, self.levels) <= CELL_LIMIT
    }

    fn is_scheduled(&self) -> bool
        ensures { IsTrue result ↔ IsScheduled self.now }
    {
        let _refine = self.refine;
        1 <= self.ranks
            && self.ranks <= 16
            && self.steps <= 128
            && 1 <= self.snapshot
            && self.snapshot <= 128
            && self.regrid <= 128
            && self.coarsen <= self.refine
            && self.flow <= 8
            && self.turns <= 8
            && self.shift <= 1000
    }

    /// How many roots the domain has.
    pub fn root_count(&self) -> u32
        requires { IsValid self.now }
        ensures exact { result ≡ root_count self.now.roots }
        ensures few { result ≤ 4096 }
    {
        roots_of(self.roots)
    }

    /// The rank at which a root begins: the roots are dealt in order, evenly.
    pub fn root_rank(&self, root: u32) -> u32
        requires valid { IsValid self.now }
        requires in_shape { root < root_count self.now.roots }
        ensures exact { result ≡ first_rank_of self.now root }
        ensures below { result < self.now.ranks }
    {
        root * self.ranks / roots_of(self.roots)
    }
}

#[cfg(test)]
mod tests;
