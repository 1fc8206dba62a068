//! Reading an input for a command.
ghost use Rattle.std.specs.Prelude.{◌≡◌, IfOk};
ghost use Rattle.bf_cli.specs.Commands.{serves};
ghost use Rattle.bf_cli.specs.Inputs.{if_served, input_for};

use crate::command::Command;
use bf_case::Case;
use bf_edge::Memory;
use bf_text::{CaseFault, read_case};
use std::alloc::Global;

/// What a command makes of the bytes of an input.
#[derive(Drop)]
pub enum Input {
    /// The case that the command runs.
    Accepted(Case),
    /// Where and why it runs none. Lines count from 1, and line 0 is the whole input.
    Refused { line: u32, code: u32 },
}

/// The code of a case that the command doesn't serve.
const NOT_SERVED: u32 = 99;

/// Whether the command serves the case.
fn serves(command: Command, case: &Case) -> bool
    ensures { result ≡ serves command case.now }
{
    match command {
        Command::One => true,
        Command::Drive => case.regrid == 0,
    }
}

fn if_served(command: Command, case: Case) -> Input
    ensures { result ≡ if_served command case }
{
    if serves(command, &case) {
        return Input::Accepted(case);
    }
    Input::Refused {
        line: 0,
        code: NOT_SERVED,
    }
}

/// Reads an input for a command.
pub fn read_input(alloc: Global, command: Command, bytes: &[u8]) -> Result<Input, Memory>
    ensures { IfOk result (λ input. input ≡ input_for command bytes.now) }
{
    match read_case(alloc, bytes) {
        Ok(case) => Ok(if_served(command, case)),
        Err(CaseFault::Refused(refusal)) => Ok(Input::Refused {
            line: refusal.line,
            code: refusal.code.number(),
        }),
        Err(CaseFault::Memory) => Err(Memory),
    }
}
