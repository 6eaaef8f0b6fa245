//! Finite-domain scripts.
use fd_problems::Problem;
use oz_base::Sequence;
use oz_language::{Constant, Literal};

/// A script that states a problem. Its answer is a record with a label and with features in the order of arities; or the label alone,
/// where there are no variables. Variable i of the problem is the field at place i.
#[derive(Drop)]
pub struct FdScript {
    pub label: Literal,
    pub features: Sequence<Constant>,
    /// The word that each variable has in the text.
    pub variables: Sequence<u32>,
    pub problem: Problem,
}
