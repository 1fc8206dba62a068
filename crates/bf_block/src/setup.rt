ghost use Rattle.std.proofs.Props.{props};
ghost use Rattle.bf_block.specs.Runs.{CanRun};

use crate::Memory;
use crate::shared_case::SharedCase;
use bf_case::Case;
use bf_id::Shape;
use std::alloc::Global;

/// The case of a run, of which a rank reads everything but the fills. So no rank can compute initial cells.
#[derive(Drop)]
pub struct Setup {
    case: SharedCase,
    pub ghost runs: { CanRun case } by { Prim.hlevel props },
}

impl Setup {
    ghost use Rattle.std.specs.Prelude.{◌≡◌, ◌+◌, ◌*◌, ◌%◌, ◌^◌, ◌<◌, ◌≤◌, IfOk, All, map, ℕ};
    ghost use Rattle.std.specs.List.Sorted.{IsStrictlyIncreasing};
    ghost use Rattle.bf_id.specs.Shape.{IsShape, root_count};
    ghost use Rattle.bf_case.specs.Case.{IsDeath, first_rank_of};
    ghost use Rattle.bf_block.specs.Runs.{CanRun};
    ghost use Rattle.bf_block.specs.Setup.{case_of};

    /// The setup of a case.
    pub(crate) fn of(alloc: Global, case: Case) -> Result<Setup, Memory>
        requires { CanRun case }
        ensures { IfOk result (λ setup. case_of setup ≡ case) }
    {
        let case = SharedCase::of(alloc, case)?;
        Ok(Setup { case })
    }

    /// An equal setup, of the same case.
    pub fn share(&self) -> Result<Setup, Memory>
        ensures { IfOk result (λ setup. setup ≡ self.now) }
    {
        let case = self.case.share()?;
        Ok(Setup { case })
    }

    pub(crate) fn case(&self) -> &Case
        ensures case { result.now ≡ case_of self.now }
        ensures runs { CanRun result.now }
    {
        self.case.get()
    }

    /// How many root blocks the domain has along each axis.
    pub fn roots(&self) -> Shape
        ensures value { result ≡ (case_of self.now).roots }
        ensures shape { IsShape result }
    {
        self.case().roots
    }

    /// How many roots there are: 1 to 4096.
    pub fn root_count(&self) -> u32
        ensures value { result ≡ root_count (case_of self.now).roots }
        ensures some { 0 < result }
        ensures few { result ≤ 4096 }
    {
        self.case().root_count()
    }

    /// The rank at which a root begins.
    pub fn root_rank(&self, root: u32) -> u32
        requires { root < root_count (case_of self.now).roots }
        ensures value { result ≡ first_rank_of (case_of self.now) root }
        ensures below { result < (case_of self.now).ranks }
    {
        self.case().root_rank(root)
    }

    /// Cells along the edge of a block: an even number.
    pub fn side(&self) -> u32
        ensures value { result ≡ (case_of self.now).side }
        ensures even { result % 2 ≡ 0 }
        ensures wide { 2 ≤ result }
        ensures narrow { result ≤ 16 }
    {
        self.case().side
    }

    /// The finest level to which a regrid may refine.
    pub fn levels(&self) -> u32
        ensures value { result ≡ (case_of self.now).levels }
        ensures shallow { result ≤ 4 }
    {
        self.case().levels
    }

    /// How many ranks share the blocks: 1 to 16.
    pub fn ranks(&self) -> u32
        ensures value { result ≡ (case_of self.now).ranks }
        ensures some { 1 ≤ result }
        ensures few { result ≤ 16 }
    {
        self.case().ranks
    }

    /// How many steps the run has: at most 128.
    pub fn steps(&self) -> u32
        ensures value { result ≡ (case_of self.now).steps }
        ensures few { result ≤ 128 }
    {
        self.case().steps
    }

    /// Steps from one snapshot to the next.
    pub fn snapshot(&self) -> u32
        ensures value { result ≡ (case_of self.now).snapshot }
        ensures some { 1 ≤ result }
        ensures few { result ≤ 128 }
    {
        self.case().snapshot
    }

    /// Steps from one regrid to the next: 0, for none.
    pub fn regrid(&self) -> u32
        ensures { result ≡ (case_of self.now).regrid }
    {
        self.case().regrid
    }

    /// A leaf whose spread is above this wishes to refine.
    pub fn refine(&self) -> u32
        ensures { result ≡ (case_of self.now).refine }
    {
        self.case().refine
    }

    /// A leaf whose spread is at most this wishes to coarsen.
    pub fn coarsen(&self) -> u32
        ensures value { result ≡ (case_of self.now).coarsen }
        ensures uncrossed { result ≤ (case_of self.now).refine }
    {
        self.case().coarsen
    }

    /// Flow turns in a main turn.
    pub fn flow(&self) -> u32
        ensures value { result ≡ (case_of self.now).flow }
        ensures few { result ≤ 8 }
    {
        self.case().flow
    }

    /// Main turns in a regrid.
    pub fn turns(&self) -> u32
        ensures value { result ≡ (case_of self.now).turns }
        ensures few { result ≤ 8 }
    {
        self.case().turns
    }

    /// How far a buddy stands beyond the next member.
    pub fn shift(&self) -> u32
        ensures value { result ≡ (case_of self.now).shift }
        ensures near { result ≤ 1000 }
    {
        self.case().shift
    }

    /// The ranks that die, rising, and how many events each has by then.
    pub fn dies(&self) -> &[(u32, u32)]
        ensures value { result.now ≡ (case_of self.now).dies }
        ensures ranks { All (IsDeath (case_of self.now).ranks) result.now }
        ensures rising { IsStrictlyIncreasing (map (λ (death : ℕ × ℕ). death.0) result.now) }
    {
        self.case().dies.as_slice()
    }

    /// The ranks that have the first turns.
    pub fn order(&self) -> &[u32]
        ensures value { result.now ≡ (case_of self.now).order }
        ensures ranks { All (λ rank. rank < (case_of self.now).ranks) result.now }
    {
        self.case().order.as_slice()
    }
}
