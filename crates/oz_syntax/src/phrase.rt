//! Phrases, as the grammar has them.
use oz_language::{Comparison, Connective, Constant, Literal, Operator};

/// A phrase of the language: an expression, a pattern, a statement, a declaration, a clause or a body. A place is that of a
/// phrase's first byte.
#[derive(Drop)]
pub enum Phrase {
    /// A variable, by its number among the words of the text.
    Var {
        name: u32,
        at: usize,
    },
    /// `_`
    Any {
        at: usize,
    },
    /// An integer from -2^127 to 2^127-1.
    Int {
        value: i128,
        at: usize,
    },
    /// A string, by the number of its text among the words.
    String {
        text: u32,
        at: usize,
    },
    Literal {
        literal: Literal,
        at: usize,
    },
    /// `l(F ..)`
    Record {
        label: Literal,
        at: usize,
        fields: Vec<Phrase>,
    },
    /// A field with its key: `k:e`.
    Keyed {
        key: Constant,
        at: usize,
        value: Box<Phrase>,
    },
    /// `[e ..]`
    List {
        at: usize,
        elements: Vec<Phrase>,
    },
    /// `(e)`, `(S ..)` and `(P)`: what stands in parentheses.
    Paren {
        at: usize,
        inner: Vec<Phrase>,
    },
    /// `e op e`
    Binary {
        operator: Operator,
        left: Box<Phrase>,
        right: Box<Phrase>,
    },
    /// `e|e|..`
    Bars {
        elements: Vec<Phrase>,
    },
    /// `e#e#..`
    Hashes {
        elements: Vec<Phrase>,
    },
    /// `e.f`
    Select {
        record: Box<Phrase>,
        feature: Box<Phrase>,
    },
    /// `@e`
    Access {
        at: usize,
        cell: Box<Phrase>,
    },
    Skip,
    Fail {
        at: usize,
    },
    /// `raise e end`
    Raise {
        at: usize,
        value: Box<Phrase>,
    },
    /// A statement with two sides: `e = e`, `e := e`, `e :: e` and `e ::: e`.
    Connected {
        connective: Connective,
        left: Box<Phrase>,
        right: Box<Phrase>,
    },
    /// A relation of finite domains between two sums.
    Relate {
        comparison: Comparison,
        left: Box<Phrase>,
        right: Box<Phrase>,
    },
    /// `{e ..}`: what is called, and its arguments.
    Call {
        at: usize,
        parts: Vec<Phrase>,
    },
    /// `$`, which stands in place of a procedure's name.
    Dollar,
    /// `{X Y ..}`, the head of a procedure: its name, or `$`, and its parameters.
    Head {
        at: usize,
        names: Vec<Phrase>,
    },
    /// `proc H B end`
    Proc {
        at: usize,
        head: Box<Phrase>,
        body: Box<Phrase>,
    },
    /// `fun H B end`, with the place of `lazy` where that stands in it.
    Fun {
        at: usize,
        lazy: Option<usize>,
        head: Box<Phrase>,
        body: Box<Phrase>,
    },
    /// `local D .. in B end`
    Local {
        at: usize,
        declarations: Vec<Phrase>,
        body: Box<Phrase>,
    },
    /// `thread B end`
    Thread {
        at: usize,
        body: Box<Phrase>,
    },
    /// `choice B [] .. end`
    Choice {
        at: usize,
        alternatives: Vec<Phrase>,
    },
    /// `if A elseif .. end`
    If {
        at: usize,
        arms: Vec<Phrase>,
    },
    /// `if A elseif .. else B end`
    IfElse {
        at: usize,
        arms: Vec<Phrase>,
        otherwise: Box<Phrase>,
    },
    /// An arm of an `if`: `e then B`.
    Arm {
        condition: Box<Phrase>,
        body: Box<Phrase>,
    },
    /// `case e of C [] .. end`
    Case {
        at: usize,
        subject: Box<Phrase>,
        clauses: Vec<Phrase>,
    },
    /// `case e of C [] .. else B end`
    CaseElse {
        at: usize,
        subject: Box<Phrase>,
        clauses: Vec<Phrase>,
        otherwise: Box<Phrase>,
    },
    /// A clause of a `case` or a `catch`: `P then B`.
    Clause {
        pattern: Box<Phrase>,
        body: Box<Phrase>,
    },
    /// `try B catch C [] .. end`
    Try {
        body: Box<Phrase>,
        clauses: Vec<Phrase>,
    },
    /// `D .. in S ..`, or statements alone, of which the last may be an expression.
    Body {
        declarations: Vec<Phrase>,
        phrases: Vec<Phrase>,
    },
}
