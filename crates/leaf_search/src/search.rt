//! The depth-first search. Of each node with alternatives one machine is kept, and an alternative is copied from it when it
//! is opened.
ghost use Rattle.std.specs.Prelude.{◌≡◌, ◌+◌, ◌<◌, ◌++◌, ◌∷◌, [], ℕ, List, None, IfOk, OnOk, MatchOption};
ghost use Rattle.oz_language.specs.declared.kernel.Kernel.{Kernel};
ghost use Rattle.oz_semantics.specs.Search.{node_at};
ghost use Rattle.machine_search.specs.Visits.{Visits, found_below, leaves_of};
ghost use Rattle.leaf_search.specs.Searching.{waiting, AreOf, OpensNext, is_no_node, RestsBy, children_by, leaf_by};

use crate::open::{Open, Rest};
use oz_base::{Sequence, SpaceName, Stack};
use oz_machine::{Machine, Ran, Text};
use oz_outside::Gate;
use oz_search::Outcome;
use oz_semantics::State;
use std::alloc::{AllocError, Global};

/// Opens the next alternative of a node.
fn open_next(
    alloc: Global,
    space: &SpaceName,
    node: Open,
    opened: &mut Stack<Open>,
) -> Result<Machine, AllocError>
    requires { 0 < node.left }
    ensures { IfOk result (OpensNext space.now (node ∷ opened.old) opened.new) }
{
    let Open {
        mut machine,
        taken,
        left,
    } = node;
    if left == 1 {
        machine.commit(alloc, space, taken + 1)?;
        return Ok(machine);
    }
    let mut child = machine.copy(alloc)?;
    child.commit(alloc, space, taken + 1)?;
    opened.push(Open {
        machine,
        taken: taken + 1,
        left: left - 1,
    })?;
    Ok(child)
}

/// Lets go of a node without alternatives.
fn let_go(_node: Open) {}

/// Lets go of the machine of a leaf.
fn drop_machine(_machine: Machine) {}

/// Opens the leftmost alternative that waits, if there is one.
fn take_next(
    alloc: Global,
    space: &SpaceName,
    opened: &mut Stack<Open>,
) -> Result<Option<Machine>, AllocError>
    ensures { IfOk result (λ next. MatchOption next (waiting space.now opened.old ≡ []) (OpensNext space.now opened.old opened.new)) }
{
    'nodes: while let Some(node) = opened.pop() {
        if node.left > 0 {
            return Ok(Some(open_next(alloc, space, node, opened)?));
        }
        let_go(node);
    }
    Ok(None)
}

/// Keeps what a node adds: its alternatives wait, or it is a leaf, or it has failed.
fn keep(
    machine: Machine,
    state: State,
    text: Text,
    opened: &mut Stack<Open>,
    leaves: &mut Sequence<Outcome>,
) -> Result<(), AllocError>
    ensures opened { (space : List ℕ) → OnOk result (waiting space opened.new ≡ children_by machine.kernel space machine.config state ++ waiting space opened.old) }
    ensures leaves { OnOk result (leaves.new ≡ leaves.old ++ leaf_by state text.bytes) }
    ensures kernel { (k : Kernel) → AreOf k opened.old → machine.kernel ≡ k → OnOk result (AreOf k opened.new) }
{
    match state {
        State::Failed | State::Running | State::Merged => {
            drop_machine(machine);
            Ok(())
        }
        State::Alternatives(count) => opened.push(Open {
            machine,
            taken: 0,
            left: count,
        }),
        State::Solved => {
            drop_machine(machine);
            leaves.push(Outcome::Solved(text.bytes))
        }
        State::Stuck => {
            drop_machine(machine);
            leaves.push(Outcome::Stuck(text.bytes))
        }
        State::Raised(_) => {
            drop_machine(machine);
            leaves.push(Outcome::Raised(text.bytes))
        }
        State::Suspended => {
            drop_machine(machine);
            leaves.push(Outcome::Suspended)
        }
    }
}

/// Whether a node is never in this state: the space still runs, or has become a part of another one, as the search makes none.
fn is_no_node(state: &State) -> bool
    ensures { result ≡ is_no_node state.now }
{
    matches!(state, State::Running | State::Merged)
}

fn in_state(state: Option<State>, steps: u64) -> Option<Rest>
    ensures { RestsBy (Ran.Ended state steps) result }
{
    match state {
        None => None,
        Some(state) => {
            if is_no_node(&state) {
                return None;
            }
            Some(Rest { state, steps })
        }
    }
}

/// How a space has come to rest by a run, if it has.
fn at_rest(ran: Ran) -> Option<Rest>
    ensures { RestsBy ran result }
{
    match ran {
        Ran::OutOfFuel => None,
        Ran::TopEnded { .. } => None,
        Ran::Ended { state, steps } => in_state(state, steps),
    }
}

/// Solves a node that was just created or committed, and keeps what it adds. Gives what is left of the fuel, or `None` where
/// it does not suffice.
fn visit(
    alloc: Global,
    space: &SpaceName,
    mut machine: Machine,
    fuel: u64,
    opened: &mut Stack<Open>,
    leaves: &mut Sequence<Outcome>,
) -> Result<Option<u64>, AllocError>
    ensures finds { IfOk result (λ after. MatchOption after (node_at machine.kernel space.now fuel machine.config ≡ None)
        (λ left. Visits machine.kernel space.now machine.config fuel left (waiting space.now opened.old) (waiting space.now opened.new) leaves.old leaves.new)) }
    ensures kernel { (k : Kernel) → AreOf k opened.old → machine.kernel ≡ k → OnOk result (AreOf k opened.new) }
{
    if fuel == 0 {
        return Ok(None);
    }
    let ran = machine.run(alloc, space, fuel - 1)?;
    let Some(rest) = at_rest(ran) else {
        return Ok(None);
    };
    let Rest { state, steps } = rest;
    let left = fuel - 1 - steps;
    let Some(text) = machine.leaf_text(alloc, space, &state, left)? else {
        return Ok(None);
    };
    let left = left - text.steps;
    keep(machine, state, text, opened, leaves)?;
    Ok(Some(left))
}

/// The leaves of the tree below a node that was just created, from left to right. `None` exactly where the tree takes more
/// steps than the fuel. The gate is called round the solving of each node, by worker 1.
pub fn depth_first<G: Gate>(
    alloc: Global,
    root: Machine,
    space: &SpaceName,
    fuel: u64,
    gate: &G,
) -> Result<Option<Sequence<Outcome>>, AllocError>
    ensures { IfOk result (λ found. found ≡ leaves_of (found_below root.kernel space.now root.config fuel)) }
{
    let mut opened = Stack::new(alloc);
    let mut leaves = Sequence::new(alloc);
    let mut nth: u64 = 1;
    gate.before(1, nth);
    let visited = visit(alloc, space, root, fuel, &mut opened, &mut leaves);
    gate.after(1, nth);
    let Some(mut left) = visited? else {
        return Ok(None);
    };
    'nodes: while let Some(machine) = take_next(alloc, space, &mut opened)? {
        nth = nth.saturating_add(1);
        gate.before(1, nth);
        let visited = visit(alloc, space, machine, left, &mut opened, &mut leaves);
        gate.after(1, nth);
        let Some(after) = visited? else {
            return Ok(None);
        };
        left = after;
    }
    Ok(Some(leaves))
}
