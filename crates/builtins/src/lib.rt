//! What steps are made of, and what the built-in procedures answer.
//!
//! `answer` has the types of answers. The built-ins answer by what the store says of the variables that they are called with, in
//! a time that grows with what their operands are alone. `ready_given` and `ready_call` say whether they can step, and build no
//! answer. An operation on a space is told by its name alone: what it comes to goes by the state of the space.
#![tactic(auto)]

mod answer;
mod calls;
mod choices;
mod delays;
mod domain_readiness;
mod domains;
mod given;
mod integers;
mod objects;
mod operations;
mod readiness;
mod records;
mod spaces;
mod table;

pub use answer::{Act, Answer, Closure, Declaration, Edit, Posting, Readiness};
pub use calls::{answer_call, answer_given, arguments_of};
pub use choices::choice_of;
pub use domains::{part_of, posts};
pub use readiness::{ready_by, ready_call, ready_given, ready_one};
pub use records::field_of;
pub use table::{Row, lookup, rows};
