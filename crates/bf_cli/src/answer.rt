//! What is to be told, and telling it.
ghost use Rattle.std.specs.Prelude.{◌≡◌, ℕ, List, ◌≤◌, ◌++◌, Some, OnOk, OnErr, decimal, map};
ghost use Rattle.bf_case.specs.MapText.{map_text};
ghost use Rattle.bf_cli.specs.Answers.{status_line, Tells};
ghost use Rattle.bf_cli.specs.Ends.{sink_ends};
ghost use Rattle.bf_cli.specs.Driven.{outcome_of};
ghost use Rattle.bf_cli.specs.Told.{IsMeantBy};
ghost use Rattle.bf_core.specs.declared.outcome.Outcome.TheVariants.{Finished};
ghost use Rattle.bf_edge.specs.Faults.{Rose};
ghost use Rattle.bf_edge.specs.Sheet.{Prints};
ghost use Rattle.bf_edge.specs.Sink.{appended, AppendsPrefix};

use crate::status::{Ended, Status};
use bf_case::{AsLeaf, Map};
use bf_core::Outcome;
use bf_driven::laws::{a_finished_run_has_the_leaves, leaves_in_order_are_the_map};
use bf_driven::leaves;
use bf_edge::{Failed, Sheet, Sink, finish, print, print_number};
use bf_forest::Forest;
use bf_map_text::write_map;
use bf_world::World;
use std::alloc::Global;

/// What a call has to tell.
#[derive(Drop)]
pub(crate) enum Answer {
    Map(Map),
    World(World<Forest>),
    Line(Status),
}

/// Prints a text, and then a number.
fn print_numbered<W: Sink>(sink: &mut W, sheet: &mut Sheet, text: &[u8], number: u32)
    ensures { Prints W.written W.faults sink.old sink.new sheet.old sheet.new (text.now ++ decimal number) }
{
    print(sink, sheet, text);
    print_number(sink, sheet, number);
}

/// Prints the line of a refusal.
fn print_refusal<W: Sink>(sink: &mut W, sheet: &mut Sheet, line: u32, code: u32)
    ensures { Prints W.written W.faults sink.old sink.new sheet.old sheet.new (status_line (Status.Refused line code)) }
{
    print_numbered(sink, sheet, b"refused line ", line);
    print_numbered(sink, sheet, b" code ", code);
    print(sink, sheet, b"\n");
}

/// Prints the line of a loss.
fn print_loss<W: Sink>(sink: &mut W, sheet: &mut Sheet, time: u32, home: u32, buddy: u32)
    ensures { Prints W.written W.faults sink.old sink.new sheet.old sheet.new (status_line (Status.Lost time home buddy)) }
{
    print_numbered(sink, sheet, b"lost time ", time);
    print_numbered(sink, sheet, b" home ", home);
    print_numbered(sink, sheet, b" buddy ", buddy);
    print(sink, sheet, b"\n");
}

/// Prints the line that tells a status.
fn print_status<W: Sink>(sink: &mut W, sheet: &mut Sheet, status: Status)
    ensures { Prints W.written W.faults sink.old sink.new sheet.old sheet.new (status_line status) }
{
    match status {
        Status::Ok | Status::WriteFault => print(sink, sheet, b""),
        Status::Usage => print(sink, sheet, b"usage\n"),
        Status::Refused { line, code } => print_refusal(sink, sheet, line, code),
        Status::Lost { time, home, buddy } => print_loss(sink, sheet, time, home, buddy),
        Status::Memory => print(sink, sheet, b"memory\n"),
        Status::ReadFault => print(sink, sheet, b"read fault\n"),
    }
}

/// Writes the line that tells a status.
fn write_status<W: Sink>(sink: &mut W, status: Status) -> Result<(), Failed>
    ensures all { OnOk result (W.written sink.new ≡ appended (W.written sink.old) (status_line status)) }
    ensures steady { OnOk result (W.faults sink.new ≡ W.faults sink.old) }
    ensures rose { OnErr result (Rose (W.faults sink.old) (W.faults sink.new)) }
    ensures prefix { OnErr result (AppendsPrefix (W.written sink.old) (W.written sink.new) (status_line status)) }
    ensures never_falls { W.faults sink.old ≤ W.faults sink.new }
{
    let mut sheet = Sheet::new();
    print_status(sink, &mut sheet, status);
    finish(sink, &mut sheet)
}

/// The status of a call that has told what it means.
fn status_told(told: Result<(), Failed>, meant: Status) -> Status
    ensures ok { OnOk told (result ≡ meant) }
    ensures err { OnErr told (result ≡ Status.WriteFault) }
{
    match told {
        Ok(()) => meant,
        Err(_failed) => Status::WriteFault,
    }
}

/// Tells a status by its line, and gives the status that the call then has.
fn tell_line<W: Sink>(sink: &mut W, status: Status) -> Status
    ensures { Tells status (status_line status) result (sink_ends W.written W.faults sink.old sink.new) }
{
    let told = write_status(sink, status);
    status_told(told, status)
}

/// Tells a map by its text.
fn tell_map<W: Sink, L: AsLeaf>(sink: &mut W, leaves: &[L]) -> Status
    ensures { Tells Status.Ok (map_text (map L.leaf leaves.now)) result (sink_ends W.written W.faults sink.old sink.new) }
{
    let told = write_map(sink, leaves);
    status_told(told, Status::Ok)
}

/// Tells the leaves of a finished world, or that memory was wanting for their list.
fn tell_leaves<W: Sink>(alloc: Global, sink: &mut W, world: &World<Forest>) -> Status
    requires finished { outcome_of world.now ≡ Some Finished }
    ensures { (meant : Status) × ((text : List ℕ) × (IsMeantBy world.now (Some Finished) meant text
        × Tells meant text result (sink_ends W.written W.faults sink.old sink.new))) }
{
    world.known();
    a_finished_run_has_the_leaves();
    leaves_in_order_are_the_map();
    match leaves(alloc, world.parcels()) {
        Ok(found) => tell_map(sink, found.as_slice()),
        Err(_refused) => tell_line(sink, Status::Memory),
    }
}

/// Tells what a run came to, as it ended: its leaves, a loss, or that memory was wanting.
fn tell_world<W: Sink>(alloc: Global, sink: &mut W, world: &World<Forest>) -> Status
    ensures { (meant : Status) × ((text : List ℕ) × (IsMeantBy world.now (outcome_of world.now) meant text
        × Tells meant text result (sink_ends W.written W.faults sink.old sink.new))) }
{
    match world.outcome() {
        Some(Outcome::Finished) => tell_leaves(alloc, sink, world),
        Some(Outcome::Lost { time, home, buddy }) => {
            tell_line(sink, Status::Lost { time, home, buddy })
        }
        Some(Outcome::Memory) | None => tell_line(sink, Status::Memory),
    }
}

impl Answer {
    ghost use Rattle.std.specs.Prelude.{ℕ, List};
    ghost use Rattle.bf_cli.specs.Told.{IsMeant};
    ghost use Rattle.bf_cli.specs.Answers.{Tells};
    ghost use Rattle.bf_cli.specs.Ends.{sink_ends};

    /// Tells the answer, and gives how the call then ends.
    pub(crate) fn tell<W: Sink>(self, alloc: Global, sink: &mut W) -> Ended
        ensures { (meant : Status) × ((text : List ℕ) × (IsMeant self meant text result.world
            × Tells meant text result.status (sink_ends W.written W.faults sink.old sink.new))) }
    {
        match self {
            Answer::Map(map) => Ended {
                status: tell_map(sink, map.leaves.as_slice()),
                world: None,
            },
            Answer::World(world) => Ended {
                status: tell_world(alloc, sink, &world),
                world: Some(world),
            },
            Answer::Line(status) => Ended {
                status: tell_line(sink, status),
                world: None,
            },
        }
    }
}
