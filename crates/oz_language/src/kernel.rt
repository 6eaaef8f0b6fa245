//! Kernel programs (CTM 2.3), with their statements numbered.
use crate::Literal;
use oz_base::{Copies, Sequence, Words};
use std::alloc::{AllocError, Global};

/// An identifier of a kernel program.
#[derive(Clone, Copy, Debug, PartialEq, Eq)]
pub enum Identifier {
    /// A word of the program's text, by its number.
    Word(u32),
    /// One that the translation made, by its number, from 1.
    Fresh(u32),
}

impl Copies for Identifier {
    fn copied(&self, _alloc: Global) -> Result<Self, AllocError> {
        Ok(*self)
    }
}

/// A value that stands in a program's text.
#[derive(Clone, Copy, Debug, PartialEq, Eq)]
pub enum Constant {
    /// An integer from -2^127 to 2^127-1.
    Int(i128),
    Literal(Literal),
}

impl Copies for Constant {
    fn copied(&self, _alloc: Global) -> Result<Self, AllocError> {
        Ok(*self)
    }
}

/// A node of a pattern. A pattern is the list of its nodes, each before those inside it, in the order in which a match goes
/// through them.
#[derive(Drop)]
pub enum Piece {
    Variable(Identifier),
    /// `_`
    Any,
    Constant(Constant),
    /// `l(F ..)`, by its label and the features of its fields in the order of arities. The fields' own nodes follow.
    Record {
        label: Literal,
        features: Sequence<Constant>,
    },
}

/// What a program calls by an operator and not by a variable.
#[derive(Clone, Copy, Debug, PartialEq, Eq)]
pub enum Operation {
    /// `==`
    Same,
    /// `\=`
    Differs,
    /// `<`
    Less,
    /// `=<`
    AtMost,
    /// `>`
    Greater,
    /// `>=`
    AtLeast,
    /// `+`
    Plus,
    /// `-`
    Minus,
    /// `*`
    Times,
    /// `div`
    Div,
    /// `mod`
    Mod,
    /// `.`
    Select,
    /// `::`
    Bound,
    /// `:::`
    BoundEach,
}

/// What is said of a sum: how it stands to 0.
#[derive(Clone, Copy, Debug, PartialEq, Eq)]
pub enum Sign {
    /// It is 0.
    Zero,
    /// It is not 0.
    NotZero,
    /// It is below 0.
    Negative,
    /// It is at most 0.
    NotPositive,
}

/// A term of a sum: a coefficient from -2^31 to 2^31, and a variable.
#[derive(Clone, Copy, Debug, PartialEq, Eq)]
pub struct LinearTerm {
    pub coefficient: i64,
    pub variable: Identifier,
}

impl Copies for LinearTerm {
    fn copied(&self, _alloc: Global) -> Result<Self, AllocError> {
        Ok(*self)
    }
}

/// A kernel statement. A body is the list of the numbers of its statements, in their order.
#[derive(Drop)]
pub enum Statement {
    Skip,
    Fail,
    /// `local X .. in S .. end`
    Local {
        names: Sequence<Identifier>,
        body: Sequence<u32>,
    },
    /// `X=Y`
    Equate {
        left: Identifier,
        right: Identifier,
    },
    /// `X=v`
    Bind {
        name: Identifier,
        value: Constant,
    },
    /// `X=l(F:Y ..)`, with one field at least. The features stand in the order of arities.
    BindRecord {
        name: Identifier,
        label: Literal,
        features: Sequence<Constant>,
        fields: Sequence<Identifier>,
    },
    /// `X=proc {$ Y ..} S .. end`
    BindProcedure {
        name: Identifier,
        parameters: Sequence<Identifier>,
        body: Sequence<u32>,
    },
    /// `{X Y ..}`
    Call {
        procedure: Identifier,
        arguments: Sequence<Identifier>,
    },
    /// `choice S .. [] S .. end`: the bodies of its alternatives.
    Choice {
        alternatives: Sequence<Sequence<u32>>,
    },
    /// `if X then S .. else S .. end`
    If {
        condition: Identifier,
        accepted: Sequence<u32>,
        otherwise: Sequence<u32>,
    },
    /// `case X of P then S .. else S .. end`
    Case {
        subject: Identifier,
        pattern: Sequence<Piece>,
        accepted: Sequence<u32>,
        otherwise: Sequence<u32>,
    },
    /// No clause of a `case` matches.
    NoMatch,
    /// `{'op' X Y ..}`
    Operate {
        operation: Operation,
        arguments: Sequence<Identifier>,
    },
    /// `thread S .. end`
    Thread {
        body: Sequence<u32>,
    },
    /// `try S .. catch X then S .. end`
    Try {
        body: Sequence<u32>,
        exception: Identifier,
        handler: Sequence<u32>,
    },
    /// `raise X end`
    Raise {
        name: Identifier,
    },
    /// `post(S C A*X ..)`: what the sum of a constant and terms is. There are at most 64 terms, and the constant is at most
    /// 64 times 2^31 in size.
    Post {
        sign: Sign,
        constant: i64,
        terms: Sequence<LinearTerm>,
    },
    /// `post(times X Y Z)`: Z is the product of X and Y.
    PostTimes {
        left: Identifier,
        right: Identifier,
        product: Identifier,
    },
}

/// A program in kernel form.
#[derive(Drop)]
pub struct Kernel {
    /// The texts of names, atoms and strings, each once. The first are those that each text has, `Script` and `Show` before the
    /// others.
    pub words: Words,
    pub statements: Sequence<Statement>,
    /// What the program itself does.
    pub body: Sequence<u32>,
}
