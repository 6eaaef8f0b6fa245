//! What a phrase is written for.
ghost use Rattle.std.specs.Prelude.{◌≡◌};
ghost use Rattle.oz_language.specs.Translation.{result_in};
ghost use Rattle.kernel_writer.specs.Parts.{result_names};
ghost use Rattle.kernel_writer.specs.Goals.{goal_of};

use oz_language::Identifier;

/// A phrase is written as a statement, or so that a name gets its value.
#[derive(Clone, Copy, Debug, PartialEq, Eq)]
pub enum Goal {
    Statement,
    Value(Identifier),
}

impl Goal {
    /// The name that gets the value.
    pub fn name(self) -> Option<Identifier>
        ensures { result_names result ≡ result_in (goal_of self) }
    {
        match self {
            Goal::Statement => None,
            Goal::Value(name) => Some(name),
        }
    }
}
