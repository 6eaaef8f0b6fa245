//! The tree of computation spaces (CTM 12.4; Schulte 4): what each was told and sees, its threads, and the edits of which the
//! machine's steps are made.
#![tactic(auto)]

mod advances;
mod constraints;
mod copying;
mod declarations;
mod domains;
mod edits;
mod ended;
mod fates;
mod firing;
mod given;
mod homes;
mod level;
mod levels;
mod looking;
mod merging;
mod plain;
mod posting;
mod remaking;
mod renaming;
mod sights;
mod silence;
mod spaces;
mod stacks;
mod telling;
mod thread_list;
mod threads;
mod tree;

pub use declarations::bind_from;
pub use given::Given;
pub use levels::Levels;
