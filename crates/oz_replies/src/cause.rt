//! Why a call of the program ended.
use oz_base::Sequence;
use oz_language::Fault;
use oz_search::{Costed, Entry};
use pool_state::{Best, Path};

/// Why a call of the program ended.
#[derive(Drop)]
pub enum Cause {
    Done,
    /// The top ended with an exception of this text.
    Raised {
        text: Sequence<u8>,
    },
    /// The words of the command line are not understood.
    Usage,
    /// The text is not accepted.
    Refused(Fault),
    ReadFault,
    WriteFault,
    /// The budget of steps, `total`, is exceeded.
    Spent {
        total: u64,
    },
    /// `best`: the budget is exceeded, by so many steps in all, of which the history of the search tells.
    SpentBest {
        total: u128,
        entries: Sequence<Entry<Path<Best>, Costed>>,
    },
    NoMemory,
    /// So many bytes were read, one more than a text may have.
    TooLarge {
        count: u64,
    },
    /// The program makes `Script` no procedure of one parameter.
    NoScript,
    /// `best`: the text is no finite-domain script with a variable `Cost`.
    NotFd,
}
