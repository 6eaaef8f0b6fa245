//! What a statement answers: it acts, raises an exception, or can't step yet (CTM 2.4). An operation on a space goes by the state of that.
use environments::Environment;
use oz_base::{Ident, Relation, Sequence, Shared, SpaceName};
use oz_language::{Constant, Identifier};
use oz_semantics::{Frame, RaiseKind, SpaceOperation, Tell, Value};

/// A body, and identifiers that stand for new variables in it. The others stand for what they stand for in the environment.
#[derive(Drop)]
pub struct Declaration {
    pub environment: Environment,
    pub names: Sequence<Identifier>,
    pub body: Sequence<u32>,
}

/// A new procedure but for its name. The identifiers of its body that are no parameters stand for what they stand for in the environment.
#[derive(Drop)]
pub struct Closure {
    pub parameters: Sequence<Identifier>,
    pub body: Sequence<u32>,
    pub environment: Environment,
}

/// A relation that is posted between variables, and the domains that they are told first.
#[derive(Drop)]
pub struct Posting {
    pub tells: Sequence<Tell>,
    pub relation: Relation,
    pub variables: Sequence<Ident>,
}

/// What a step does, in words of the thread and of its space. Cells and ports are those of this space, by their numbers.
#[derive(Drop)]
pub enum Act {
    /// Nothing.
    Passes,
    /// These go on, before what is left of the stack.
    GoesOn(Sequence<Frame>),
    /// A body goes on, in which these identifiers stand for new variables.
    Declares(Shared<Declaration>),
    /// A new thread with these.
    Starts(Sequence<Frame>),
    /// The variable is this value.
    GivesValue {
        variable: Ident,
        value: Value,
    },
    /// The variable is the list of these.
    GivesList {
        variable: Ident,
        items: Sequence<Constant>,
    },
    /// The variable is what the other is.
    GivesVariable {
        variable: Ident,
        other: Ident,
    },
    /// The variable is a new procedure.
    MakesProcedure {
        variable: Ident,
        procedure: Shared<Closure>,
    },
    /// The variable is a new name.
    MakesName {
        variable: Ident,
    },
    /// The variable is a new cell with this content.
    MakesCell {
        variable: Ident,
        content: Ident,
    },
    /// The variable is what the cell contains.
    Reads {
        cell: u64,
        variable: Ident,
    },
    /// The cell contains this from now on.
    Writes {
        cell: u64,
        content: Ident,
    },
    /// The variable is what the cell contains, and from now on the cell contains this.
    Exchanges {
        cell: u64,
        variable: Ident,
        content: Ident,
    },
    /// The variable is a new port with this stream.
    MakesPort {
        variable: Ident,
        stream: Ident,
    },
    /// The item is the next in the stream of the port.
    Sends {
        port: u64,
        item: Ident,
    },
    /// The procedure is applied to the variable once that is needed.
    Delays {
        procedure: Ident,
        variable: Ident,
    },
    /// These domains are told.
    Confines(Sequence<Tell>),
    /// So are these, and the relation is posted.
    Posts(Shared<Posting>),
    /// The text of the variable is shown.
    Shows(Ident),
}

/// What a step does with the spaces in the thread's own. A built-in answers that it creates one; the others are what an operation on a
/// space comes to, by the state of that.
#[derive(Drop)]
pub enum Edit {
    /// The variable is a new space, in which the procedure is applied to the root variable.
    Creates { procedure: Ident, variable: Ident },
    /// The space goes on with the alternative of this number.
    Commits { space: SpaceName, index: u64 },
    /// The variable is a copy of the space.
    Copies { space: SpaceName, variable: Ident },
    /// In the space the procedure is applied to the root variable.
    Injects { space: SpaceName, procedure: Ident },
    /// The space becomes a part of the thread's, and the variable is its root variable.
    TakesIn { space: SpaceName, variable: Ident },
}

/// What a statement answers.
#[derive(Drop)]
pub enum Answer {
    /// A step.
    Acts(Act),
    /// A step that changes the tree of spaces.
    Edits(Edit),
    /// A step too: an exception of the machine.
    RaisesKind(RaiseKind),
    /// And the exception that is the term of the variable.
    RaisesTerm(Ident),
    /// An operation on a space in the thread's own, with its other argument: what it answers goes by the state of that space.
    Operates {
        operation: SpaceOperation,
        space: SpaceName,
        argument: Ident,
    },
    /// A step too: these domains are told, and the statement stays.
    Widens(Sequence<Tell>),
    /// It can't step yet.
    Rests,
}

/// What a statement can do where it stands.
#[derive(Drop)]
pub enum Readiness {
    Steps,
    /// It waits until one of these variables is determined, or becomes equal to another.
    Waits(Sequence<Ident>),
    /// It waits until this space neither runs nor is suspended.
    WaitsForState(SpaceName),
    /// It offers so many alternatives, and waits as well until one of these variables is determined, or becomes equal to another.
    Offers { count: u64, waits: Sequence<Ident> },
}
