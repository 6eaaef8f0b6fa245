//! Computation spaces (CTM 12.4; Schulte 4 and 10): what threads answer and can do by the states of the spaces in their own, whether
//! something in a space goes on, which propagator is the least that is due, whether the space is stable, its state, and what a commitment
//! of it comes to.
//!
//! A thread goes by the states of the spaces in its own, and the state of a space by the threads of it and below it. So the states are made
//! from the last space to the first, each by those behind it, in one pass (`states_of`). Where no space is a value no thread asks for a state,
//! and none are made.
#![tactic(auto)]

mod activity;
mod answers;
mod behind;
mod due;
mod known;
mod offers;
mod parts;
mod places;
mod readiness;
mod state;
mod waits;
mod whole;

pub use answers::answer_in;
pub use behind::states_of;
pub use due::{DuePropagator, is_due_below, least_due};
pub use known::States;
pub use offers::{Choice, chosen, first_offer};
pub use readiness::{can_step, ready_by, ready_in};
pub use whole::{goes_on, rested_state, runnable, space_state};
