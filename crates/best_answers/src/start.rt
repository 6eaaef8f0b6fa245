//! Where the search of a script begins.
ghost use Rattle.std.specs.Prelude.{◌≡◌, ◌≤◌, ◌^◌, ℕ, [], IfOk};
ghost use Rattle.oz_semantics.specs.BestSearch.{script_best};
ghost use Rattle.oz_semantics.specs.Runs.{Ended, run, opening};
ghost use Rattle.oz_semantics.specs.Search.{script_variable};
ghost use Rattle.oz_semantics.specs.declared.configuration.Configuration.{Configuration};
ghost use Rattle.recompute.specs.Bests.{best_tree_of};

use answer_plans::run_top;
use oz_base::{Ident, SpaceName};
use oz_language::{Constant, Kernel};
use oz_machine::{Machine, Ran};
use recompute::{Frozen, FrozenBest};
use std::alloc::{AllocError, Global};

/// The machine in which the top has come to rest, and the steps that are left.
pub fn rested(alloc: Global, kernel: Kernel, budget: u64) -> Result<(Machine, u64), AllocError>
    requires { (top : Configuration) × (left : ℕ) × (run kernel [] (opening kernel) budget ≡ Ended top left) }
    ensures kernel { IfOk result (λ rested. rested.0.kernel ≡ kernel) }
    ensures run { IfOk result (λ rested. run kernel [] (opening kernel) budget ≡ Ended rested.0.config rested.1) }
    ensures left { IfOk result (λ rested. rested.1 ≤ budget) }
{
    let (machine, ran) = run_top(alloc, kernel, budget)?;
    match ran {
        Ran::Ended { steps, .. } => Ok((machine, budget - steps)),
        Ran::TopEnded { .. } => unreachable!(),
        Ran::OutOfFuel => unreachable!(),
    }
}

/// The variable `Script` of the top.
fn script_variable() -> Ident
    ensures { result ≡ script_variable }
{
    Ident {
        space: SpaceName::top(),
        number: 0,
    }
}

/// Where the best search of the script begins, whose cost is at this feature.
pub fn start(
    alloc: Global,
    mut machine: Machine,
    feature: Constant,
    left: u64,
) -> Result<FrozenBest, AllocError>
    requires small { left ≤ 2 ^ 48 }
    ensures tree { IfOk result (λ start. best_tree_of start ≡ script_best machine.kernel feature machine.config) }
    ensures budget { IfOk result (λ start. start.start.budget ≡ left) }
{
    let space = machine.root(alloc, script_variable())?;
    let frozen = Frozen::new(machine, space, left);
    Ok(FrozenBest::new(frozen, feature))
}
