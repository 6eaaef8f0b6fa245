//! Where a search starts. All workers share it.
ghost use Rattle.std.specs.Prelude.{◌≡◌, ◌≤◌, ◌^◌, refl, IfOk, OnOk};
ghost use Rattle.machine_search.proofs.MakerLaws.{maker_law};
ghost use Rattle.recompute.specs.Origins.{origin};
ghost use Rattle.recompute.specs.Ways.{StandsAfter};

use crate::source::Source;
use crate::waypoint::run_to_rest;
use node_pool::{Plain, Tree};
use oz_base::{Copies, SpaceName};
use oz_machine::Machine;
use oz_search::{Outcome, Report};
use std::alloc::{AllocError, Global};
use std::marker::Model;

/// A machine in which the search root was just made, the root's name, and the steps that are left for the search. Contracts
/// see these. Copies share what was told so far. It is the tag of the tree that is searched.
#[derive(Drop)]
pub struct Frozen {
    machine: Machine,
    space: SpaceName,
    budget: u64,
}

impl Model for Frozen {
    ghost use Rattle.std.specs.Prelude.{◌≤◌, ◌^◌};
    ghost use Rattle.std.specs.Coded.{codes};
    ghost use Rattle.environments.specs.contracts.environment.Environment as environment;
    ghost use Rattle.recompute.specs.Origins.{Origin, origin};

    ghost Value = { Origin };

    ghost coded = { Prim.hlevel (codes, environment.the_row.coded) };

    ghost view = { λ f. origin f.machine f.space f.budget };

    ghost invariant = { λ f. f.budget ≤ 2 ^ 48 };
}

impl Tree for Frozen {
    type Kind = Plain;

    ghost use Rattle.recompute.specs.Origins.{tree_of};

    ghost within = { tree_of };

    fn laws(&self) {}
}

impl Source for Frozen {
    ghost use Rattle.recompute.specs.Origins.{maker_of};

    ghost origin = { λ o. o };

    ghost maker = { maker_of };

    fn copy(&self, alloc: Global) -> Result<Frozen, AllocError> {
        Ok(Frozen {
            machine: self.machine.copy(alloc)?,
            space: self.space.copied(alloc)?,
            budget: self.budget,
        })
    }

    fn frozen(&self) -> &Frozen {
        self
    }

    fn commit(
        &self,
        alloc: Global,
        branch: u32,
        mut machine: Machine,
    ) -> Result<Machine, AllocError> {
        machine.commit(alloc, &self.space, branch as u64)?;
        Ok(machine)
    }

    fn run(
        &self,
        alloc: Global,
        machine: &mut Machine,
        fuel: u64,
    ) -> Result<Option<Report<Outcome>>, AllocError> {
        run_to_rest(alloc, &self.space, machine, fuel)
    }

    ghost makes = { λ o. maker_law o.kernel o.space };

    ghost grows = { λ o fuel. refl };
}

impl Frozen {
    /// The start of a search, where the space was just made in the machine.
    pub fn new(machine: Machine, space: SpaceName, budget: u64) -> Frozen
        requires small { budget ≤ 2 ^ 48 }
        ensures { result ≡ origin machine space budget }
    {
        Frozen {
            machine,
            space,
            budget,
        }
    }

    /// The machine in which the root was just made, to be run.
    pub fn machine(&self, alloc: Global) -> Result<Machine, AllocError>
        ensures kernel { IfOk result (λ machine. machine.kernel ≡ self.now.kernel) }
        ensures config { IfOk result (λ machine. machine.config ≡ self.now.config) }
    {
        self.machine.copy(alloc)
    }

    /// The space that is searched.
    pub fn space(&self) -> &SpaceName
        ensures { result.now ≡ self.now.space }
    {
        &self.space
    }

    /// The steps that are left for the search.
    pub fn budget(&self) -> u64
        ensures budget { result ≡ self.now.budget }
        ensures small { result ≤ 2 ^ 48 }
    {
        self.budget
    }

    /// Nothing: its clause says that there are no more steps for the search than a pool counts.
    pub fn small(&self)
        ensures { self.now.budget ≤ 2 ^ 48 }
    {
        let _ = &self.budget;
    }
}
