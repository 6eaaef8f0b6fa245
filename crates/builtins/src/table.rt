//! The table of built-ins (CTM appendix B).
ghost use Rattle.std.specs.Prelude.{◌≡◌, map};
ghost use Rattle.std.specs.List.{filter_map};
ghost use Rattle.oz_base.specs.Lists.{first, list_eq};
ghost use Rattle.oz_semantics.specs.Builtins.{rows};
ghost use Rattle.builtins.specs.Tables.{row_of, worded, word_of, called, named_builtin};

use oz_language::Operation;
use oz_semantics::{Builtin, SpaceOperation};

/// What stands in a row of the table. The number of a row is that of the built-in's variable.
#[derive(Clone, Copy)]
pub enum Row {
    /// What an operator calls.
    Operator(Operation),
    /// A built-in with a name, which is the word of this number in each text.
    Named {
        word: u32,
        name: &'static [u8],
        builtin: Builtin,
    },
    /// A built-in that is a field of the record `FD`, at the atom that is the word of this number.
    Part {
        word: u32,
        name: &'static [u8],
        builtin: Builtin,
    },
}

static ROWS: [Row; 36] = [
    Row::Operator(Operation::Plus),
    Row::Operator(Operation::Minus),
    Row::Operator(Operation::Times),
    Row::Operator(Operation::Div),
    Row::Operator(Operation::Mod),
    Row::Operator(Operation::Less),
    Row::Operator(Operation::AtMost),
    Row::Operator(Operation::Greater),
    Row::Operator(Operation::AtLeast),
    Row::Operator(Operation::Same),
    Row::Operator(Operation::Differs),
    Row::Operator(Operation::Select),
    Row::Named {
        word: 3,
        name: b"Label",
        builtin: Builtin::Label,
    },
    Row::Named {
        word: 4,
        name: b"Width",
        builtin: Builtin::Width,
    },
    Row::Named {
        word: 5,
        name: b"Arity",
        builtin: Builtin::Arity,
    },
    Row::Named {
        word: 6,
        name: b"NewName",
        builtin: Builtin::NewName,
    },
    Row::Named {
        word: 7,
        name: b"Wait",
        builtin: Builtin::Wait,
    },
    Row::Named {
        word: 8,
        name: b"NewCell",
        builtin: Builtin::NewCell,
    },
    Row::Named {
        word: 9,
        name: b"Access",
        builtin: Builtin::Access,
    },
    Row::Named {
        word: 10,
        name: b"Assign",
        builtin: Builtin::Assign,
    },
    Row::Named {
        word: 11,
        name: b"Exchange",
        builtin: Builtin::Exchange,
    },
    Row::Named {
        word: 12,
        name: b"NewPort",
        builtin: Builtin::NewPort,
    },
    Row::Named {
        word: 13,
        name: b"Send",
        builtin: Builtin::Send,
    },
    Row::Named {
        word: 14,
        name: b"ByNeed",
        builtin: Builtin::ByNeed,
    },
    Row::Named {
        word: 1,
        name: b"Show",
        builtin: Builtin::Show,
    },
    Row::Named {
        word: 15,
        name: b"NewSpace",
        builtin: Builtin::NewSpace,
    },
    Row::Named {
        word: 16,
        name: b"Ask",
        builtin: Builtin::OnSpace(SpaceOperation::Ask),
    },
    Row::Named {
        word: 17,
        name: b"Choose",
        builtin: Builtin::Choose,
    },
    Row::Named {
        word: 18,
        name: b"Commit",
        builtin: Builtin::OnSpace(SpaceOperation::Commit),
    },
    Row::Named {
        word: 19,
        name: b"Clone",
        builtin: Builtin::OnSpace(SpaceOperation::Clone),
    },
    Row::Named {
        word: 20,
        name: b"Inject",
        builtin: Builtin::OnSpace(SpaceOperation::Inject),
    },
    Row::Named {
        word: 21,
        name: b"Merge",
        builtin: Builtin::OnSpace(SpaceOperation::Merge),
    },
    Row::Operator(Operation::Bound),
    Row::Operator(Operation::BoundEach),
    Row::Part {
        word: 57,
        name: b"distinct",
        builtin: Builtin::Distinct,
    },
    Row::Part {
        word: 58,
        name: b"distribute",
        builtin: Builtin::Distribute,
    },
];

/// The rows of the table.
pub fn rows() -> &'static [Row]
    ensures rows { map row_of result.now ≡ rows }
    ensures words { map worded result.now ≡ map word_of rows }
{
    &ROWS
}

fn same_name(left: &[u8], right: &[u8]) -> bool
    ensures { result ≡ list_eq left.now right.now }
{
    left == right
}

/// The built-in of a row that has this name.
fn called(row: &Row, name: &[u8]) -> Option<Builtin>
    ensures { result ≡ called name.now (row_of row.now) }
{
    match row {
        Row::Named {
            name: own,
            builtin,
            ..
        } => {
            if same_name(own, name) {
                Some(*builtin)
            } else {
                None
            }
        }
        Row::Operator(_) | Row::Part { .. } => None,
    }
}

fn first_called(rows: &[Row], name: &[u8]) -> Option<Builtin>
    ensures { result ≡ first (filter_map (λ r. called name.now (row_of r)) rows.now) }
{
    for row in rows {
        if let Some(builtin) = called(row, name) {
            return Some(builtin);
        }
    }
    None
}

/// The built-in with this name. None exactly where the table has none.
pub fn lookup(name: &[u8]) -> Option<Builtin>
    ensures { result ≡ named_builtin name.now }
{
    first_called(rows(), name)
}
