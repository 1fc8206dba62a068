//! The top call: words, a source and a sink.
ghost use Rattle.std.specs.Prelude.{ℕ, List, IfOk, IsTrue};
ghost use Rattle.bf_case.specs.Case.{IsValid};
ghost use Rattle.bf_cli.specs.Answers.{Answers, AnswersDue, IsAnswer, IsAnswerOf};
ghost use Rattle.bf_cli.specs.Commands.{serves};
ghost use Rattle.bf_cli.specs.Ends.{source_ends, sink_ends, source_of, IsLeft};
ghost use Rattle.bf_cli.specs.Inputs.{Accepts};
ghost use Rattle.bf_cli.specs.Told.{IsCaused};

use crate::answer::Answer;
use crate::command::{Command, command_of};
use crate::input::{Input, read_input};
use crate::status::{Ended, Status};
use bf_case::Case;
use bf_driven::laws::{
    a_case_without_deaths_ends, a_complete_run_ends,
    a_run_is_lost_exactly_where_both_holders_of_a_block_died,
};
use bf_driven::run;
use bf_edge::{Memory, ReadEnd, Sink, Source, read_up_to};
use bf_plain::one_run;
use bf_text::INPUT_LIMIT;
use bf_text::laws::what_is_read_is_valid;
use std::alloc::Global;

/// Runs a case as a command says.
fn run_case(alloc: Global, command: Command, case: Case) -> Result<Answer, Memory>
    requires valid { IsValid case }
    requires served { IsTrue (serves command case) }
    ensures { IfOk result (λ answer. (bytes : List ℕ) → Accepts command bytes case → IsCaused (IsAnswerOf command (source_of bytes)) answer) }
{
    match command {
        Command::One => {
            let map = one_run(alloc, &case, case.steps)?;
            Ok(Answer::Map(map))
        }
        Command::Drive => {
            let world = run(alloc, case)?;
            world.known();
            a_complete_run_ends();
            a_run_is_lost_exactly_where_both_holders_of_a_block_died();
            Ok(Answer::World(world))
        }
    }
}

/// Reads a case from its bytes and runs it.
fn run_bytes(alloc: Global, command: Command, bytes: &[u8]) -> Result<Answer, Memory>
    ensures { IfOk result (IsCaused (IsAnswerOf command (source_of bytes.now))) }
{
    what_is_read_is_valid();
    match read_input(alloc, command, bytes)? {
        Input::Accepted(case) => run_case(alloc, command, case),
        Input::Refused { line, code } => Ok(Answer::Line(Status::Refused { line, code })),
    }
}

/// Reads the source and runs the case that it gives.
fn run_source<R: Source>(alloc: Global, command: Command, source: &mut R) -> Answer
    ensures cause { IsCaused (IsAnswerOf command (source_ends R.left R.faults source.old source.new)) result }
    ensures left { IsLeft (source_ends R.left R.faults source.old source.new) }
{
    match read_up_to(alloc, source, INPUT_LIMIT) {
        Ok(bytes) => match run_bytes(alloc, command, bytes.as_slice()) {
            Ok(answer) => answer,
            Err(_refused) => Answer::Line(Status::Memory),
        },
        Err(ReadEnd::Fault) => Answer::Line(Status::ReadFault),
        Err(ReadEnd::Memory) => Answer::Line(Status::Memory),
    }
}

/// What there is to answer to the words and the source.
fn answer_to<R: Source>(alloc: Global, words: &[&str], source: &mut R) -> Answer
    ensures cause { IsCaused (IsAnswer words.now (source_ends R.left R.faults source.old source.new)) result }
    ensures left { IsLeft (source_ends R.left R.faults source.old source.new) }
{
    match command_of(words) {
        Some(command) => run_source(alloc, command, source),
        None => Answer::Line(Status::Usage),
    }
}

/// Does what the words say, and tells on the sink what came of it.
///
/// The commands are `one` and `drive`. Both read a case, in at most 1,048,576 bytes, and print the map after all steps: `one`
/// by one process alone, `drive` by ranks whose turns follow the case's order. An input that spells no case is refused by
/// its first line at fault and the number of the cause (`bf_text::Code`). A case with a regrid is refused by `drive` with
/// line 0 and code 99, since it doesn't serve it. Where both holders of a part of the agreed snapshot have died, `drive`
/// says that it is lost. All memory is taken before the first byte is written. Where several answers could be given the
/// order is: usage, a fault in reading, a refusal, the map or a loss, a fault in writing. Want of memory may come in place
/// of a refusal or the map, but where ranks have run, only as their run ended, or for the list of a finished run's leaves.
pub fn plain<R: Source, W: Sink>(
    alloc: Global,
    words: &[&str],
    source: &mut R,
    sink: &mut W,
) -> Ended
    // Why this answer, and what is written: the text of an answer that has its cause, or the front of it where the sink fails.
    ensures answers { Answers words.now
        (source_ends R.left R.faults source.old source.new)
        (sink_ends W.written W.faults sink.old sink.new)
        result.world
        result.status }

    // An answer that is due comes, or one that may come in its place.
    ensures due { AnswersDue words.now
        (source_ends R.left R.faults source.old source.new)
        (sink_ends W.written W.faults sink.old sink.new)
        result.world
        result.status }

    // What is left of the source.
    ensures left { IsLeft (source_ends R.left R.faults source.old source.new) }
{
    a_case_without_deaths_ends();
    let answer = answer_to(alloc, words, source);
    answer.tell(alloc, sink)
}
