//! The terms that the machine tells by itself: the exceptions that it raises, and lists of constants (CTM 2.3, 2.7).
#![tactic(auto)]

mod failures;
mod node;
mod tells;
mod terms;
mod words;

pub use failures::is_failure;
pub use node::Node;
pub use tells::{NewTerm, new_term, term_tells};
pub use terms::{list_term, term};
pub use words::BAR;
