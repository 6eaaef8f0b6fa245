//! Values, and what a space is told of variables (CTM 2.2, 2.3).
use environments::Environment;
use oz_base::{Copies, Ident, Interval, Sequence, Shared, SpaceName};
use oz_language::{Constant, Identifier, Literal, Operation};
use std::alloc::{AllocError, Global};

/// A procedure value: a name of its own, its parameters and body, and the environment in which it was made.
#[derive(Drop)]
pub struct Procedure {
    pub name: Ident,
    pub parameters: Sequence<Identifier>,
    pub body: Sequence<u32>,
    pub environment: Environment,
}

/// A record: a label, its features in the order of arities, and a variable for each of them.
#[derive(Drop)]
pub struct Record {
    pub label: Literal,
    pub features: Sequence<Constant>,
    pub fields: Sequence<Ident>,
}

/// A procedure of the language itself.
#[derive(Clone, Copy, Debug, PartialEq, Eq)]
pub enum Builtin {
    /// What an operator calls.
    Operation(Operation),
    /// `Label`, of two parameters: the label of a record.
    Label,
    /// `Width`, of two parameters: how many features a record has.
    Width,
    /// `Arity`, of two parameters: the list of the features of a record.
    Arity,
    /// `NewName`, of one parameter: a name that is no other.
    NewName,
    /// `Wait`, of one parameter: until it is determined.
    Wait,
    /// `NewCell`, of two parameters: a cell with this content.
    NewCell,
    /// `Access`, of two parameters: what a cell contains.
    Access,
    /// `Assign`, of two parameters: what a cell contains from now on.
    Assign,
    /// `Exchange`, of three parameters: what a cell contains, and what it contains from now on.
    Exchange,
    /// `NewPort`, of two parameters: a port with this stream.
    NewPort,
    /// `Send`, of two parameters: puts something at the end of a port's stream.
    Send,
    /// `ByNeed`, of two parameters: a procedure is applied to a variable once that is needed.
    ByNeed,
    /// `Show`, of one parameter: writes the text of a term as a line.
    Show,
    /// `NewSpace`, of two parameters: a computation space in which a procedure is applied to the root variable.
    NewSpace,
    /// `Choose`, of two parameters: offers so many alternatives, and waits for the number of one of them.
    Choose,
    /// What is done to a computation space.
    OnSpace(SpaceOperation),
    /// `FD.distinct`, of one parameter: the elements of a vector are different integers.
    Distinct,
    /// `FD.distribute`, of two parameters: tries the values of the elements of a vector by a rule.
    Distribute,
}

/// An operation on a computation space, each of two parameters: the space, and another.
#[derive(Clone, Copy, Debug, PartialEq, Eq)]
pub enum SpaceOperation {
    /// `Ask`: its state.
    Ask,
    /// `Commit`: it goes on with the alternative of this number.
    Commit,
    /// `Clone`: a copy of it.
    Clone,
    /// `Inject`: a procedure is applied to its root variable.
    Inject,
    /// `Merge`: its root variable, as it becomes a part of the space that it is in.
    Merge,
}

/// A value of the language. Copies of a record and of a procedure share it. Names, cells and ports are told apart by the space that made
/// them and a number in it; what a cell contains, and where the stream of a port ends, stands in the layer of that space. A computation
/// space is told apart by its name.
#[derive(Drop)]
pub enum Value {
    Constant(Constant),
    Name(Ident),
    Record(Shared<Record>),
    Procedure(Shared<Procedure>),
    Builtin(Builtin),
    Cell(Ident),
    Port(Ident),
    Space(SpaceName),
}

impl Copies for Value {
    fn copied(&self, alloc: Global) -> Result<Self, AllocError> {
        match self {
            Value::Constant(constant) => Ok(Value::Constant(*constant)),
            Value::Name(name) => Ok(Value::Name(name.copied(alloc)?)),
            Value::Record(record) => Ok(Value::Record(record.copied(alloc)?)),
            Value::Procedure(procedure) => Ok(Value::Procedure(procedure.copied(alloc)?)),
            Value::Builtin(builtin) => Ok(Value::Builtin(*builtin)),
            Value::Cell(cell) => Ok(Value::Cell(cell.copied(alloc)?)),
            Value::Port(port) => Ok(Value::Port(port.copied(alloc)?)),
            Value::Space(space) => Ok(Value::Space(space.copied(alloc)?)),
        }
    }
}

/// What a space was told.
#[derive(Drop)]
pub enum Tell {
    /// `x=y`
    Equal {
        left: Ident,
        right: Ident,
    },
    /// `x=v`
    Is {
        variable: Ident,
        value: Value,
    },
    /// `x` is an integer of one of these intervals, which ascend, with gaps between them.
    Within {
        variable: Ident,
        intervals: Sequence<Interval>,
    },
}

impl Copies for Tell {
    fn copied(&self, alloc: Global) -> Result<Self, AllocError> {
        match self {
            Tell::Equal { left, right } => Ok(Tell::Equal {
                left: left.copied(alloc)?,
                right: right.copied(alloc)?,
            }),
            Tell::Is { variable, value } => Ok(Tell::Is {
                variable: variable.copied(alloc)?,
                value: value.copied(alloc)?,
            }),
            Tell::Within {
                variable,
                intervals,
            } => Ok(Tell::Within {
                variable: variable.copied(alloc)?,
                intervals: intervals.copied(alloc)?,
            }),
        }
    }
}
