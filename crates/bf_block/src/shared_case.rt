ghost use Rattle.std.specs.Prelude.{◌≡◌, IfOk};

use crate::Memory;
use bf_case::Case;
use std::alloc::Global;
use std::marker::Model;
use std::sync::Arc;

/// A case that all setups of a run share. Contracts see the case alone, so two setups that share it are equal.
#[derive(Drop)]
pub struct SharedCase {
    case: Arc<Case, Global>,
}

impl Model for SharedCase {
    ghost use Rattle.std.specs.Arc.{arc_value};
    ghost use Rattle.bf_case.specs.declared.case.Case.{Case};

    ghost Value = { Case };

    ghost view = { λ shared. arc_value shared.case };
}

impl SharedCase {
    pub fn of(alloc: Global, case: Case) -> Result<SharedCase, Memory>
        ensures { IfOk result (λ shared. shared ≡ case) }
    {
        let case = Arc::new(alloc, case)?;
        Ok(SharedCase { case })
    }

    pub fn share(&self) -> Result<SharedCase, Memory>
        ensures { IfOk result (λ shared. shared ≡ self.now) }
    {
        let case = Arc::try_clone(&self.case)?;
        Ok(SharedCase { case })
    }

    pub fn get(&self) -> &Case
        ensures { result.now ≡ self.now }
    {
        &self.case
    }
}
