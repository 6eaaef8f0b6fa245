//! The states of the last spaces, by which the threads of those before them go.
ghost use Rattle.std.specs.Prelude.{◌≡◌, ◌∷◌, [], OnOk, OnErr, length, reverse, slice_get, option_copied};

use oz_base::Stack;
use oz_semantics::State;
use std::alloc::{AllocError, Global};
use std::marker::Model;

/// The states of some spaces, the last in the order of names, made from the last one on. Contracts see them in the order of names.
#[derive(Drop)]
pub struct States {
    states: Stack<State>,
}

impl Model for States {
    ghost use Rattle.std.specs.Prelude.{List};
    ghost use Rattle.oz_semantics.specs.declared.outcome.State.{State};

    ghost Value = { List State };

    ghost view = { λ s. s.states };
}

/// What stands at a place from the end.
fn from_end(states: &[State], place: usize) -> Option<&State>
    ensures { option_copied result ≡ slice_get (reverse states.now) place }
{
    if place < states.len() {
        Some(&states[states.len() - 1 - place])
    } else {
        None
    }
}

impl States {
    /// No states. It takes no memory.
    pub fn new(alloc: Global) -> States
        ensures { result ≡ [] }
    {
        States {
            states: Stack::new(alloc),
        }
    }

    /// How many there are.
    pub fn len(&self) -> usize
        ensures { result ≡ length self.now }
    {
        self.states.from_bottom().len()
    }

    pub fn get(&self, place: usize) -> Option<&State>
        ensures { option_copied result ≡ slice_get self.now place }
    {
        from_end(self.states.from_bottom(), place)
    }

    /// Puts the state of one more space before the others.
    pub fn push(&mut self, state: State) -> Result<(), AllocError>
        ensures ok { OnOk result (self.new ≡ state ∷ self.old) }
        ensures err { OnErr result (self.new ≡ self.old) }
    {
        self.states.push(state)?;
        Ok(())
    }
}
