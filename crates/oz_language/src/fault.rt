//! What is wrong with a text.

/// What is wrong with a text.
#[derive(Clone, Copy, Debug, PartialEq, Eq)]
pub enum RefusalKind {
    /// No token begins at a byte.
    Byte,
    /// A token lies in more than 200 open constructs.
    Deep,
    /// The tokens up to one begin no program, or the text ends before its program does.
    Syntax,
    /// A variable has no binding in scope.
    Unbound,
    /// A parameter stands twice in one head, a variable in one pattern, or a feature in one record.
    Linear,
}

/// What is wrong with a text, and at which byte, from 0.
#[derive(Clone, Copy, Debug, PartialEq, Eq)]
pub struct Fault {
    pub kind: RefusalKind,
    pub at: usize,
}
