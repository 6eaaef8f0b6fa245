//! Plain search, for all leaves.
ghost use Rattle.std.specs.Prelude.{refl};
ghost use Rattle.std.proofs.lemmas.Cmp.{nat_cmp_total};
ghost use Rattle.oz_search.specs.declared.leaf.Outcome.{Outcome};
ghost use Rattle.oz_search.specs.Plain.{outcomes, itself, is_failed};
ghost use Rattle.search_law.proofs.Instances.{plain_search};

use crate::SearchKind;
use oz_search::Outcome;
use std::cmp::Ordering;

/// Plain search: a branch is its alternative alone, and a claim bears nothing.
#[derive(Drop)]
pub struct Plain {}

impl SearchKind for Plain {
    type Branch = u32;

    type Leaf = Outcome;

    type SoFar = ();

    ghost search = { outcomes };

    ghost first = { tt };

    ghost more = { λ c l. c };

    ghost bears = { λ c b. b };

    ghost takes = { λ h. itself };

    fn number(branch: u32) -> u32 {
        branch
    }

    fn free(alternative: u32) -> u32 {
        alternative
    }

    fn compare(branch: u32, other: u32) -> Ordering {
        branch.cmp(&other)
    }

    fn fails(leaf: &Outcome) -> bool {
        leaf.is_failed()
    }

    fn first() {}

    fn more(_so_far: (), _leaf: &Outcome) {}

    fn bears(_so_far: (), branch: u32) -> u32 {
        branch
    }

    ghost searches = { plain_search Outcome is_failed };

    ghost total = { nat_cmp_total };

    ghost same_number = { λ c b. refl };

    ghost admitted = { λ h p. refl };

    ghost follows = { λ budget h replays. (λ p i. refl, λ p b claimed. refl) };
}
