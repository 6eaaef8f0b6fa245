//! The language as it is written (CTM 2.3 and 2.6): the plain data that the definitions in `specs/` speak of.
//!
//! The definitions, in the order in which to read them: `Tokens`, `Wording`, `Grammar`, `Refusals`, `Kernels`, `Constants`, `Arities`,
//! `Translation`, `SimpleTexts`, `KernelTexts`.
#![tactic(auto)]

mod constants;
mod fault;
mod kernel;
mod text;
mod token;

pub use constants::{constant_eq, literal_eq, same_arity};
pub use fault::{Fault, RefusalKind};
pub use kernel::{Constant, Identifier, Kernel, LinearTerm, Operation, Piece, Sign, Statement};
pub use text::Form;
pub use token::{Comparison, Connective, Lexeme, Literal, Operator, Sort, Token};
