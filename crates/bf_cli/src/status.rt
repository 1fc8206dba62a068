//! How the program ends.
ghost use Rattle.std.specs.Prelude.{◌≡◌};

use bf_forest::Forest;
use bf_world::World;

/// What a call of the program comes to.
#[derive(Clone, Copy, Debug, PartialEq, Eq)]
pub enum Status {
    /// The command was done.
    Ok,
    /// The words are no command.
    Usage,
    /// The input spells no case, or one that the command doesn't serve. Lines count from 1; line 0 is the whole input.
    Refused { line: u32, code: u32 },
    /// Both holders of a part of the agreed snapshot have died: the snapshot's time, the part's home, and its buddy.
    Lost { time: u32, home: u32, buddy: u32 },
    /// Memory was refused before anything was written.
    Memory,
    /// The source failed.
    ReadFault,
    /// The sink failed.
    WriteFault,
}

impl Status {
    ghost use Rattle.bf_cli.specs.Answers.{number_of};

    /// The number with which the program ends.
    pub fn number(self) -> u8
        ensures { result ≡ number_of self }
    {
        match self {
            Status::Ok => 0,
            Status::Usage => 2,
            Status::Refused { .. } => 3,
            Status::Lost { .. } => 4,
            Status::Memory => 5,
            Status::ReadFault => 6,
            Status::WriteFault => 7,
        }
    }
}

/// The end of a call of the program.
#[derive(Drop)]
pub struct Ended {
    pub status: Status,
    /// What the ranks have run, where ranks were to run.
    pub world: Option<World<Forest>>,
}
