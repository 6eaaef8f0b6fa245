//! Where a best search starts.
ghost use Rattle.std.specs.Prelude.{◌≡◌, refl};
ghost use Rattle.oz_search.specs.Best.{cost_by};
ghost use Rattle.oz_search.specs.Trees.{report};
ghost use Rattle.oz_semantics.specs.BestSearch.{costed_kind};
ghost use Rattle.machine_search.proofs.BestMakerLaws.{best_maker_law};
ghost use Rattle.recompute.specs.Bests.{best_origin};

use crate::frozen::Frozen;
use crate::source::Source;
use crate::waypoint::run_to_rest;
use node_pool::{Best, Tree};
use oz_language::Constant;
use oz_machine::Machine;
use oz_search::{Bounded, Costed, Kind, Outcome, Report};
use std::alloc::{AllocError, Global};
use std::marker::Model;

/// Where a search starts, and the feature of its cost: the field of the root variable there. It is the tag of the tree of best search.
#[derive(Drop)]
pub struct FrozenBest {
    frozen: Frozen,
    feature: Constant,
}

impl Model for FrozenBest {
    ghost use Rattle.std.specs.Coded.{codes};
    ghost use Rattle.environments.specs.contracts.environment.Environment as environment;
    ghost use Rattle.recompute.specs.Bests.{BestOrigin, best_origin};

    ghost Value = { BestOrigin };

    ghost coded = { Prim.hlevel (codes, environment.the_row.coded) };

    ghost view = { λ f. best_origin f.frozen f.feature };
}

/// The cost of a leaf, where it is solved.
fn cost_by(outcome: &Outcome, cost: Option<i128>) -> Option<i128>
    ensures { result ≡ cost_by outcome.now cost }
{
    match outcome {
        Outcome::Failed => None,
        Outcome::Solved(_) => cost,
        Outcome::Stuck(_) => None,
        Outcome::Raised(_) => None,
        Outcome::Suspended => None,
    }
}

/// What a node is in best search, with this cost.
fn costed(kind: Kind<Outcome>, cost: Option<i128>) -> Kind<Costed>
    ensures { result ≡ costed_kind cost kind }
{
    match kind {
        Kind::Alternatives(count) => Kind::Alternatives(count),
        Kind::End(outcome) => {
            let cost = cost_by(&outcome, cost);
            Kind::End(Costed { outcome, cost })
        }
    }
}

impl Tree for FrozenBest {
    type Kind = Best;

    ghost use Rattle.recompute.specs.Bests.{best_tree_of};

    ghost within = { best_tree_of };

    fn laws(&self) {}
}

impl Source for FrozenBest {
    ghost use Rattle.recompute.specs.Bests.{best_maker_of};

    ghost origin = { λ o. o.start };

    ghost maker = { best_maker_of };

    fn copy(&self, alloc: Global) -> Result<FrozenBest, AllocError> {
        Ok(FrozenBest {
            frozen: self.frozen.copy(alloc)?,
            feature: self.feature,
        })
    }

    fn frozen(&self) -> &Frozen {
        &self.frozen
    }

    fn commit(
        &self,
        alloc: Global,
        branch: Bounded,
        machine: Machine,
    ) -> Result<Machine, AllocError> {
        machine.commit_below(alloc, self.frozen.space(), self.feature, branch)
    }

    fn run(
        &self,
        alloc: Global,
        machine: &mut Machine,
        fuel: u64,
    ) -> Result<Option<Report<Costed>>, AllocError> {
        let space = self.frozen.space();
        let Some(report) = run_to_rest(alloc, space, machine, fuel)? else {
            return Ok(None);
        };
        let cost = machine.field(alloc, space, self.feature)?;
        let Report { kind, steps } = report;
        let kind = costed(kind, cost);
        Ok(Some(Report { kind, steps }))
    }

    ghost makes = { λ o. best_maker_law o.start.kernel o.start.space o.feature };

    ghost grows = { λ o fuel. refl };
}

impl FrozenBest {
    /// The start of a best search, whose cost is at this feature.
    pub fn new(frozen: Frozen, feature: Constant) -> FrozenBest
        ensures { result ≡ best_origin frozen feature }
    {
        FrozenBest { frozen, feature }
    }
}
