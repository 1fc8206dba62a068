ghost use Rattle.std.specs.Prelude.{◌≡◌};
ghost use Rattle.bf_block.specs.Setup.{case_of as case_in};

use bf_block::Memory;
use bf_id::Shape;

/// The setup of a case without regrids, which alone ranks can run.
#[derive(Drop)]
pub struct Setup {
    setup: bf_block::Setup,
    pub ghost rests: { (case_in setup).regrid ≡ 0 },
}

impl Setup {
    ghost use Rattle.std.specs.Prelude.{◌%◌, ◌<◌, ◌≤◌, IfOk, All, map, ℕ};
    ghost use Rattle.std.specs.List.Sorted.{IsStrictlyIncreasing};
    ghost use Rattle.bf_id.specs.Shape.{root_count};
    ghost use Rattle.bf_case.specs.Case.{IsDeath, first_rank_of};
    ghost use Rattle.bf_forest.specs.Setup.{case_of};

    /// The same setup, of a case that has no regrids.
    pub fn of(setup: bf_block::Setup) -> Setup
        requires { (case_in setup).regrid ≡ 0 }
        ensures { case_of result ≡ case_in setup }
    {
        Setup { setup }
    }

    /// An equal setup, of the same case.
    pub fn share(&self) -> Result<Setup, Memory>
        ensures { IfOk result (λ setup. setup ≡ self.now) }
    {
        let setup = self.setup.share()?;
        Ok(Setup { setup })
    }

    /// How many root blocks the domain has along each axis.
    pub fn roots(&self) -> Shape
        ensures value { result ≡ (case_of self.now).roots }
    {
        self.setup.roots()
    }

    /// How many roots there are: 1 to 4096.
    pub fn root_count(&self) -> u32
        ensures value { result ≡ root_count (case_of self.now).roots }
        ensures some { 0 < result }
        ensures few { result ≤ 4096 }
    {
        self.setup.root_count()
    }

    /// The rank at which a root begins.
    pub fn root_rank(&self, root: u32) -> u32
        requires { root < root_count (case_of self.now).roots }
        ensures value { result ≡ first_rank_of (case_of self.now) root }
        ensures below { result < (case_of self.now).ranks }
    {
        self.setup.root_rank(root)
    }

    /// Cells along the edge of a block: an even number.
    pub fn side(&self) -> u32
        ensures value { result ≡ (case_of self.now).side }
        ensures even { result % 2 ≡ 0 }
        ensures wide { 2 ≤ result }
        ensures narrow { result ≤ 16 }
    {
        self.setup.side()
    }

    pub fn ranks(&self) -> u32
        ensures value { result ≡ (case_of self.now).ranks }
        ensures some { 1 ≤ result }
        ensures few { result ≤ 16 }
    {
        self.setup.ranks()
    }

    pub fn steps(&self) -> u32
        ensures value { result ≡ (case_of self.now).steps }
        ensures few { result ≤ 128 }
    {
        self.setup.steps()
    }

    /// Steps from one snapshot to the next.
    pub fn snapshot(&self) -> u32
        ensures value { result ≡ (case_of self.now).snapshot }
        ensures some { 1 ≤ result }
        ensures few { result ≤ 128 }
    {
        self.setup.snapshot()
    }

    /// How far a buddy stands beyond the next member.
    pub fn shift(&self) -> u32
        ensures value { result ≡ (case_of self.now).shift }
        ensures near { result ≤ 1000 }
    {
        self.setup.shift()
    }

    /// The ranks that die, rising, and how many events each has by then.
    pub fn dies(&self) -> &[(u32, u32)]
        ensures value { result.now ≡ (case_of self.now).dies }
        ensures ranks { All (IsDeath (case_of self.now).ranks) result.now }
        ensures rising { IsStrictlyIncreasing (map (λ (death : ℕ × ℕ). death.0) result.now) }
    {
        self.setup.dies()
    }

    /// The ranks that have the first turns.
    pub fn order(&self) -> &[u32]
        ensures value { result.now ≡ (case_of self.now).order }
        ensures ranks { All (λ rank. rank < (case_of self.now).ranks) result.now }
    {
        self.setup.order()
    }
}
