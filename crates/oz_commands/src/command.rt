//! What the words of the command line ask for.

/// A command with its numbers.
#[derive(Clone, Copy, Debug, PartialEq, Eq)]
pub enum Command {
    /// `all`: the leaves of the search of a script, by that many workers (1 to 64) and for no more than that many steps
    /// (1 to 281474976710656).
    All { workers: u32, budget: u64 },
    /// `run`: what the program shows, for no more than that many steps (1 to 281474976710656).
    Run { budget: u64 },
    /// `best`: a solution of the least cost of a finite-domain script with a cost, by that many workers (1 to 64) and for no more than
    /// that many steps (1 to 281474976710656).
    Best { workers: u32, budget: u64 },
    /// `kernel`: the program's kernel, as a text.
    Kernel,
}
