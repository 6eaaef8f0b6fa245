//! What `benchmarks/run` measures beside the program: passes of propagators, claims of a pool, and texts of deep terms. The one
//! word says which.
#![tactic(auto)]

mod passes;
mod pool;
mod texts;

use passes::make_passes;
use pool::explore;
use std::alloc::{AllocError, Global};
use std::env::Env;
use std::process::ExitCode;
use std::{env, io};
use texts::print_chain;

/// The words after the program's name.
fn words(rt: &(impl Env + AllocGlobal), alloc: Global) -> io::Result<Vec<String>> {
    Ok(env::args(rt)?.skip(1).collect(alloc)?)
}

/// Does the work of a word. False where there is no such word, or not all of it was done.
fn measure(alloc: Global, word: &str) -> Result<bool, AllocError> {
    match word {
        // 1,000,000 passes of X + Y =< Z
        "passes" => make_passes(alloc, &[1, 1, -1], 1_000_000),
        // 100,000 passes over 64 terms
        "terms" => make_passes(alloc, &[1; 64], 100_000),
        // a node with 1,000,000 children, and a claim and a leaf for each of them
        "claims" => explore(alloc, 1_000_000),
        // the text of 100,000 records inside one another
        "text" => print_chain(alloc, 100_000),
        _ => Ok(false),
    }
}

fn main(rt: HostRuntime) -> ExitCode {
    let Ok(words) = words(&rt, rt.alloc()) else {
        return ExitCode::from(2);
    };
    let [word] = words.as_slice() else {
        return ExitCode::from(2);
    };
    match measure(rt.alloc(), word.as_str()) {
        Ok(true) => ExitCode::from(0),
        Ok(false) => ExitCode::from(1),
        Err(_) => ExitCode::from(7),
    }
}
