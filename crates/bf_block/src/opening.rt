ghost use Rattle.std.specs.Prelude.{◌≡◌, IfOk};
ghost use Rattle.bf_block.specs.Runs.{CanRun};
ghost use Rattle.bf_block.specs.Setup.{case_of};

use crate::{Memory, Setup};
use bf_case::Case;
use std::alloc::Global;
use std::marker::Model;

/// The right to the first blocks of a run. It is spent before the ranks begin.
#[derive(Drop)]
pub struct Opening {
    setup: Setup,
}

impl Model for Opening {
    ghost use Rattle.bf_case.specs.declared.case.Case.{Case};

    ghost Value = { Case };

    ghost use Rattle.bf_block.specs.Setup.{case_of};

    ghost view = { λ opening. case_of opening.setup };
}

impl Opening {
    /// Spends a case: the opening and the setup have it.
    pub fn of(alloc: Global, case: Case) -> Result<(Opening, Setup), Memory>
        requires { CanRun case }
        ensures opening { IfOk result (λ pair. pair.0 ≡ case) }
        ensures setup { IfOk result (λ pair. case_of pair.1 ≡ case) }
    {
        let setup = Setup::of(alloc, case)?;
        let opening = Opening {
            setup: setup.share()?,
        };
        Ok((opening, setup))
    }

    pub(crate) fn setup(&self) -> &Setup
        ensures { case_of result.now ≡ self.now }
    {
        &self.setup
    }
}
