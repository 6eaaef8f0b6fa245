//! What the built-ins of finite domains read off their arguments (CTM 12.3, 12.4; Schulte 2): bounds of domains, vectors, and what a
//! distributor does.
#![tactic(auto)]

mod descriptions;
mod distribution;
mod input;
mod news;
mod parts;
mod values;
mod vectors;
mod words;

pub use descriptions::{Range, WHOLE, bounds, interval_of, refusal_of};
pub use distribution::{Distribution, distribute, distributor_waits};
pub use input::{Input, both};
pub use news::interval_news;
pub use values::integer_in;
pub use vectors::vector;
