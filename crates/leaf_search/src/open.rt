//! Nodes: as they come to rest, and while their alternatives wait.
ghost use Rattle.std.specs.Prelude.{◌+◌, ◌<◌, ◌^◌};

use oz_machine::Machine;
use oz_semantics::State;

/// A node of which so many alternatives were taken, and so many are left.
#[derive(Drop)]
pub struct Open {
    pub machine: Machine,
    pub taken: u64,
    pub left: u64,
    ghost fits: { taken + left < 2 ^ 64 },
}

/// A space came to rest in this state, by so many steps.
#[derive(Drop)]
pub struct Rest {
    pub state: State,
    pub steps: u64,
}
