//! The program: its words, standard input, standard output and status.
#![tactic(auto)]

use oz_outside::{OpenGate, StdSink, StdSource};
use oz_top::oz_call;
use std::alloc::Global;
use std::env::Env;
use std::process::ExitCode;
use std::{env, io};

/// The words after the program's name.
fn words(rt: &(impl Env + AllocGlobal), alloc: Global) -> io::Result<Vec<String>> {
    Ok(env::args(rt)?.skip(1).collect(alloc)?)
}

fn main(rt: HostRuntime) -> ExitCode {
    let mut source = StdSource::new(rt.stdin());
    let mut sink = StdSink::new(rt.stdout());
    let words = match words(&rt, rt.alloc()) {
        Ok(words) => words,
        Err(error) if error.kind() == io::ErrorKind::OutOfMemory => return ExitCode::from(7),
        // A word that is no text is in no command, and neither is the empty list.
        Err(_) => Vec::new(rt.alloc()),
    };
    let outcome = oz_call(
        &rt,
        rt.alloc(),
        words.as_slice(),
        &mut source,
        &mut sink,
        &OpenGate,
    );
    ExitCode::from(outcome.status)
}
