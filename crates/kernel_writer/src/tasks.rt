//! What is left to be done.
use crate::goals::Goal;
use kernel_output::Numbers;
use oz_base::Sequence;
use oz_language::{Comparison, Identifier, Piece, Statement};
use oz_syntax::Phrase;

/// What a chain of tests goes on with where none of them holds.
#[derive(Drop)]
pub enum Last<'a> {
    Skip,
    NoMatch,
    Raise(Identifier),
    Phrase(&'a Phrase),
}

/// A statement whose bodies end. It goes behind the body around them.
#[derive(Drop)]
pub enum Closing {
    Local {
        names: Sequence<Identifier>,
    },
    Procedure {
        name: Identifier,
        parameters: Sequence<Identifier>,
    },
    Thread,
    If {
        condition: Identifier,
    },
    Case {
        subject: Identifier,
        pattern: Sequence<Piece>,
    },
    Try {
        exception: Identifier,
    },
}

/// One task. Where a task has others inside it, it puts them in front of what is left.
#[derive(Drop)]
pub enum Task<'a> {
    Phrase {
        goal: Goal,
        phrase: &'a Phrase,
    },
    /// Statements, one behind the other.
    Each {
        phrases: &'a [Phrase],
    },
    /// Statements, and the value of the last phrase.
    ValuedLast {
        name: Identifier,
        phrases: &'a [Phrase],
    },
    /// The values of parts, whose identifiers are numbered by `names`.
    Filled {
        names: Numbers,
        parts: &'a [Phrase],
    },
    /// `[e ..]`, as the value of a name.
    List {
        name: Identifier,
        elements: &'a [Phrase],
    },
    /// `e|..|e`, as the value of a name.
    Chain {
        name: Identifier,
        elements: &'a [Phrase],
    },
    /// The references of a side of a relation, whose identifiers are numbered by `names`.
    References {
        names: Numbers,
        side: &'a Phrase,
    },
    /// The products of a relation, and the relation itself. Its identifiers are numbered by `names`.
    Relation {
        comparison: Comparison,
        names: Numbers,
        left: &'a Phrase,
        right: &'a Phrase,
    },
    /// The arms of an `if`.
    Arms {
        goal: Goal,
        arms: &'a [Phrase],
        last: Last<'a>,
    },
    /// The clauses of a `case`.
    Clauses {
        goal: Goal,
        subject: Identifier,
        clauses: &'a [Phrase],
        last: Last<'a>,
    },
    /// The body of the first clause of a `try`.
    Handled {
        clauses: &'a [Phrase],
    },
    /// A `choice`, by the bodies that are written and the phrases of those to come.
    Alternatives {
        goal: Goal,
        bodies: Sequence<Sequence<u32>>,
        phrases: &'a [Phrase],
    },
    /// The same, where one more body ends.
    Gather {
        goal: Goal,
        bodies: Sequence<Sequence<u32>>,
        phrases: &'a [Phrase],
    },
    /// A statement with no others inside it.
    Statement {
        statement: Statement,
    },
    /// A body begins.
    Begin,
    /// A body ends, or two do.
    Close {
        closing: Closing,
    },
}
