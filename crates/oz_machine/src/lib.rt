//! The abstract machine (CTM 2.4, 2.7, 4.1, 12.4): it loads a program, makes its steps one at a time in a fixed order, and has what a
//! search asks for.
#![tactic(auto)]

mod bounding;
mod course;
mod declarations;
mod editing;
mod following;
mod foreseeing;
mod head;
mod machine;
mod opening;
mod propagating;
mod quiet;
mod raising;
mod runs;
mod scripts;
mod searching;
mod settling;
mod texts;
mod told;
mod turn;

pub use machine::Machine;
pub use runs::Ran;
pub use texts::Text;
