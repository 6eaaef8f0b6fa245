//! What an operation on a space comes to.
use builtins::Answer;
use oz_base::{Ident, Sequence};
use oz_raise::Node;

/// What an operation on a space comes to.
#[derive(Drop)]
pub enum Outcome {
    /// What a statement may answer by itself: a step, or that it still goes by the state of the space.
    Answers(Answer),
    /// A step: the variable is the term of these nodes.
    GivesTerm {
        variable: Ident,
        nodes: Sequence<Node>,
    },
}
