//! The constructs that are open while a text is read.
use oz_language::{Comparison, Connective, Constant, Literal, Operator};
use oz_syntax::Phrase;

/// As what something may be read: as a statement, or as a value.
#[derive(Clone, Copy, Debug, PartialEq, Eq)]
pub struct Ways {
    pub states: bool,
    pub values: bool,
}

/// Nothing was read yet that is no statement, and nothing that is no value.
pub const BOTH_WAYS: Ways = Ways {
    states: true,
    values: true,
};

/// What is read where an operand may begin.
#[derive(Clone, Copy, Debug, PartialEq, Eq)]
pub enum Kind {
    Expression,
    Pattern,
    /// The right side of a relation.
    Side,
}

/// What holds a sequence of phrases, with what was read before it. Where bodies were read before, the ways are those of all of
/// them.
#[derive(Drop)]
pub enum Opener {
    Program,
    /// The declarations of a `local`.
    Declaring {
        at: usize,
    },
    /// The body of a `local`, and its declarations.
    Local {
        at: usize,
        declarations: Vec<Phrase>,
    },
    /// The body of a procedure, and its head.
    Proc {
        at: usize,
        head: Box<Phrase>,
    },
    /// The body of a function, with the place of `lazy` where that stands before its head.
    Fun {
        at: usize,
        lazy: Option<usize>,
        head: Box<Phrase>,
    },
    Thread {
        at: usize,
    },
    /// An alternative, and those before it.
    Choice {
        at: usize,
        ways: Ways,
        alternatives: Vec<Phrase>,
    },
    /// The body behind a `then`, with the arms before it and the condition.
    Then {
        at: usize,
        ways: Ways,
        arms: Vec<Phrase>,
        condition: Box<Phrase>,
    },
    /// The body behind the `else` of an `if`.
    Else {
        at: usize,
        ways: Ways,
        arms: Vec<Phrase>,
    },
    /// The body of a clause of a `case`, with the clauses before it.
    Clause {
        at: usize,
        subject: Box<Phrase>,
        ways: Ways,
        clauses: Vec<Phrase>,
        pattern: Box<Phrase>,
    },
    /// The body behind the `else` of a `case`.
    CaseElse {
        at: usize,
        subject: Box<Phrase>,
        ways: Ways,
        clauses: Vec<Phrase>,
    },
    Try,
    /// The body of a clause of a `catch`, with what is tried and the clauses before it.
    Catch {
        body: Box<Phrase>,
        clauses: Vec<Phrase>,
        pattern: Box<Phrase>,
    },
    /// A parenthesis where a statement may begin.
    Paren {
        at: usize,
    },
}

/// What a head is read for.
#[derive(Clone, Copy, Debug, PartialEq, Eq)]
pub enum Maker {
    Proc { at: usize },
    /// With the place of `lazy`, where that stands before the head.
    Fun { at: usize, lazy: Option<usize> },
}

/// A sequence of phrases that is open.
#[derive(Drop)]
pub struct Block {
    pub opener: Opener,
    /// The phrases may all be declarations.
    pub declares: bool,
    /// The phrases may all be statements.
    pub states: bool,
    /// Those before `in`.
    pub declarations: Vec<Phrase>,
    pub phrases: Vec<Phrase>,
}

/// A record that is open.
#[derive(Drop)]
pub struct Fields {
    /// It stands in a pattern.
    pub in_pattern: bool,
    pub label: Literal,
    pub at: usize,
    pub phrases: Vec<Phrase>,
}

/// A list that is open.
#[derive(Drop)]
pub struct Listing {
    /// It stands in a pattern.
    pub in_pattern: bool,
    pub at: usize,
    pub elements: Vec<Phrase>,
}

/// A construct that is open.
#[derive(Drop)]
pub enum Frame {
    Block(Block),
    /// A phrase that has come to an end, if no operator follows.
    Whole {
        phrase: Phrase,
        ways: Ways,
    },
    /// What stands before an operator.
    Left {
        operator: Operator,
        operand: Box<Phrase>,
    },
    /// What stands before each `|` of a chain.
    Barred(Vec<Phrase>),
    /// What stands before each `#` of a chain.
    Hashed(Vec<Phrase>),
    /// `e.`
    Dotted(Box<Phrase>),
    /// `@`
    Accessing {
        at: usize,
    },
    /// The left side of a statement with two sides.
    Connecting {
        connective: Connective,
        left: Box<Phrase>,
    },
    /// The left side of a relation.
    Relating {
        comparison: Comparison,
        left: Box<Phrase>,
    },
    Fields(Fields),
    /// A field of which the key was read, and whether it stands in a pattern.
    Key {
        in_pattern: bool,
        key: Constant,
        at: usize,
    },
    Listing(Listing),
    /// A parenthesis of one expression or pattern.
    Enclosing {
        in_pattern: bool,
        at: usize,
    },
    /// The parts of a call.
    Parts {
        at: usize,
        parts: Vec<Phrase>,
    },
    /// `proc` and `fun`
    Heading(Maker),
    /// A head that is open.
    Heads {
        maker: Maker,
        at: usize,
        names: Vec<Phrase>,
    },
    Raising {
        at: usize,
    },
    /// The condition of an arm is to come, behind the arms before it.
    Testing {
        at: usize,
        ways: Ways,
        arms: Vec<Phrase>,
    },
    /// The subject of a `case` is to come.
    Matching {
        at: usize,
    },
    /// A pattern of a `case` is to come, behind the subject and the clauses before it.
    Patterns {
        at: usize,
        subject: Box<Phrase>,
        ways: Ways,
        clauses: Vec<Phrase>,
    },
    /// A pattern of a `catch` is to come, behind what is tried and the clauses before it.
    Catching {
        body: Box<Phrase>,
        clauses: Vec<Phrase>,
    },
    Accepted(Phrase),
}
