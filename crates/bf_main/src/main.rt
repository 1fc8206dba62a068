//! The program: the words of its command line and the standard streams, given to the top call.
#![tactic(auto)]

use bf_cli::{Status, plain};
use bf_edge::{Memory, StdSink, StdSource};
use std::process::ExitCode;
use std::rt::Env;
use std::{env, io};

/// The words of the command line after the program's name; none, where they are no text.
fn words_of<R: Env + AllocGlobal>(rt: &R) -> Result<Vec<String>, Memory> {
    match env::args(rt) {
        Ok(words) => words.skip(1).collect(rt.alloc()),
        Err(error) if error.kind() == io::ErrorKind::OutOfMemory => Err(Memory),
        Err(_unreadable) => Ok(Vec::new(rt.alloc())),
    }
}

/// Calls `plain` on the standard streams.
fn run_words<R: Env + AllocGlobal + Input + Print>(rt: &R) -> Result<Status, Memory> {
    let words = words_of(rt)?;
    let texts: Vec<&str> = words.iter().map(|word| word.as_str()).collect(rt.alloc())?;
    let mut source = StdSource::new(rt.reader());
    let mut sink = StdSink::new(io::writer(rt));
    Ok(plain(rt.alloc(), texts.as_slice(), &mut source, &mut sink).status)
}

fn main(rt: HostRuntime) -> ExitCode {
    let status = run_words(&rt).unwrap_or(Status::Memory);
    ExitCode::from(status.number())
}
