//! Best search by branch and bound.
ghost use Rattle.std.specs.Prelude.{◌≡◌, refl, None};
ghost use Rattle.oz_search.specs.declared.best.Bounded.{Bounded};
ghost use Rattle.oz_search.specs.declared.best.Costed.{Costed};
ghost use Rattle.oz_search.specs.Best.{best, cost_of, lesser, branch_cmp, cost_by};
ghost use Rattle.search_law.specs.Taken.{taken};
ghost use Rattle.search_law.proofs.Instances.{best_search};
ghost use Rattle.search_law.proofs.Takings.{taken_law};
ghost use Rattle.pool_state.specs.BestClaims.{least, under, branches_total, claim_admitted};

use crate::SearchKind;
use oz_search::{Bounded, Costed, Outcome};
use std::cmp::Ordering;

/// Best search: a claim is under the least cost so far.
#[derive(Drop)]
pub struct Best {}

fn cost_of(leaf: &Costed) -> Option<i128>
    ensures { result ≡ cost_of leaf.now }
{
    match &leaf.outcome {
        Outcome::Failed => None,
        Outcome::Solved(_) => leaf.cost,
        Outcome::Stuck(_) => None,
        Outcome::Raised(_) => None,
        Outcome::Suspended => None,
    }
}

fn lesser(cost: Option<i128>, other: Option<i128>) -> Option<i128>
    ensures { result ≡ lesser cost other }
{
    let Some(one) = cost else {
        return other;
    };
    let Some(two) = other else {
        return cost;
    };
    Some(one.min(two))
}

impl SearchKind for Best {
    type Branch = Bounded;

    type Leaf = Costed;

    type SoFar = Option<i128>;

    ghost search = { best };

    ghost first = { None };

    ghost more = { least };

    ghost bears = { under };

    ghost takes = { taken best };

    fn number(branch: Bounded) -> u32 {
        branch.alternative
    }

    fn free(alternative: u32) -> Bounded {
        Bounded {
            alternative,
            bound: None,
        }
    }

    fn compare(branch: Bounded, other: Bounded) -> Ordering {
        branch
            .alternative
            .cmp(&other.alternative)
            .then(branch.bound.cmp(&other.bound))
    }

    fn fails(leaf: &Costed) -> bool {
        leaf.outcome.is_failed()
    }

    fn first() -> Option<i128> {
        None
    }

    fn more(so_far: Option<i128>, leaf: &Costed) -> Option<i128> {
        lesser(so_far, cost_of(leaf))
    }

    fn bears(so_far: Option<i128>, branch: Bounded) -> Bounded {
        Bounded {
            alternative: branch.alternative,
            bound: so_far,
        }
    }

    ghost searches = { best_search };

    ghost total = { branches_total };

    ghost same_number = { λ c b. refl };

    ghost admitted = { claim_admitted };

    ghost follows = { λ budget h replays. taken_law Bounded Costed best best_search budget h replays };
}
