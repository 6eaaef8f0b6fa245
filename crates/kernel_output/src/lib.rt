//! What is written of a kernel: its statements, the identifiers of its parts, what is declared, and the cells of strings.
//!
//! `output` has the statements that are written, with the numbers of those of the body that goes on, and `names` the identifiers of
//! parts, in their order. `declarations` has what phrases declare, each once. `strings` writes the list of the codes of a string by
//! `cells`, one inside the other. `words` and `given` have what the translation itself speaks of.
#![tactic(auto)]

mod cells;
mod declarations;
mod given;
mod lists;
mod names;
mod output;
mod strings;
mod words;

pub use cells::{Cell, Cells, bind_cell};
pub use declarations::{declared, name_in};
pub use given::{access, assign, by_need};
pub use lists::split;
pub use names::{Numbers, fresh_among, last_variable, one_name, two_names, variable_of};
pub use output::Output;
pub use strings::codes;
pub use words::{bar, hash, nil, text_of};
