//! The leaves of the tree of a script.
ghost use Rattle.std.specs.Prelude.{◌≡◌, ◌≤◌, ◌^◌, IfOk};
ghost use Rattle.oz_semantics.specs.Search.{with_root, search_space};
ghost use Rattle.machine_search.specs.Visits.{found_below, leaves_of};

use leaf_search::depth_first;
use oz_base::{Ident, Sequence, SpaceName};
use oz_machine::Machine;
use oz_outside::Gate;
use oz_search::Outcome;
use recompute::Frozen;
use search_all::search_all;
use std::alloc::{AllocError, Global};
use std::sync::Wait;
use std::thread::Threads;

/// The leaves of the tree below a space that was just made, from left to right, by so many workers. `None` exactly where it takes more
/// steps than are left.
fn leaves_below<R: Threads + Wait + Sync, G: Gate>(
    rt: &R,
    alloc: Global,
    machine: Machine,
    space: SpaceName,
    workers: u32,
    left: u64,
    gate: &G,
) -> Result<Option<Sequence<Outcome>>, AllocError>
    requires workers { (1 ≤ workers) × (workers ≤ 64) }
    requires small { left ≤ 2 ^ 48 }
    ensures { IfOk result (λ found. found ≡ leaves_of (found_below machine.kernel space machine.config left)) }
{
    if workers == 1 {
        return depth_first(alloc, machine, &space, left, gate);
    }
    let frozen = Frozen::new(machine, space, left);
    search_all(rt, alloc, &frozen, workers, gate)
}

/// The leaves of the tree of a script, which is this variable, from left to right, by so many workers. `None` exactly where it takes more
/// steps than are left. It refuses where there is no memory. The gate is called round the solving of each node.
pub fn leaves<R: Threads + Wait + Sync, G: Gate>(
    rt: &R,
    alloc: Global,
    mut machine: Machine,
    script: Ident,
    workers: u32,
    left: u64,
    gate: &G,
) -> Result<Option<Sequence<Outcome>>, AllocError>
    requires workers { (1 ≤ workers) × (workers ≤ 64) }
    requires small { left ≤ 2 ^ 48 }
    ensures { IfOk result (λ found. found
        ≡ leaves_of (found_below machine.kernel (search_space machine.config) (with_root machine.kernel.statements script machine.config) left)) }
{
    let space = machine.root(alloc, script)?;
    leaves_below(rt, alloc, machine, space, workers, left, gate)
}
