//! What comes with what a space is told.
use oz_base::{Ident, Relation, Sequence};

/// What comes with what a space is told: what it gives out, and what becomes of its cells, ports and propagators.
#[derive(Drop)]
pub enum Given {
    Nothing,
    /// So many variables.
    Variables(u64),
    /// A number for a procedure.
    Procedure,
    /// A number for a name.
    Name,
    /// A new cell with this content.
    Cell(Ident),
    /// The cell of this number contains this from now on.
    Content {
        cell: u64,
        content: Ident,
    },
    /// A new port with this stream.
    Port(Ident),
    /// A variable, and the stream of the port of this number ends here from now on.
    End {
        port: u64,
        end: Ident,
    },
    /// A new propagator, which has not run.
    Propagator {
        relation: Relation,
        variables: Sequence<Ident>,
    },
}
