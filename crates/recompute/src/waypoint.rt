//! Nodes that were solved, on the way to others.
ghost use Rattle.std.specs.Prelude.{◌≡◌, IfOk};
ghost use Rattle.oz_semantics.specs.Search.{kind_of};
ghost use Rattle.recompute.specs.Ways.{offers, RestsBy, ComesToRest, MakesNode, Opens};

use crate::source::Source;
use node_pool::SearchKind;
use oz_base::{Sequence, SpaceName};
use oz_machine::{Machine, Ran};
use oz_search::{Kind, Outcome, Report};
use oz_semantics::State;
use std::alloc::{AllocError, Global};

/// A node: the branch by which it was reached, which says nothing at the root; the machine that has come to rest there; and
/// what is known of the node.
#[derive(Drop)]
pub struct Waypoint<B, L> {
    pub branch: B,
    pub machine: Machine,
    pub report: Report<L>,
}

/// A space came to rest in this state, by so many steps.
#[derive(Drop)]
pub struct Rest {
    pub state: State,
    pub steps: u64,
}

fn in_state(state: Option<State>, steps: u64) -> Option<Rest>
    ensures { RestsBy (Ran.Ended state steps) result }
{
    match state {
        None => None,
        Some(state) => Some(Rest { state, steps }),
    }
}

/// How a space has come to rest by a run, if it has.
fn at_rest(ran: Ran) -> Option<Rest>
    ensures { RestsBy ran result }
{
    match ran {
        Ran::OutOfFuel => None,
        Ran::TopEnded { .. } => None,
        Ran::Ended { state, steps } => in_state(state, steps),
    }
}

/// A choice between so many alternatives. Paths have no numbers of more than 32 bits.
fn choice(count: u64) -> Result<Kind<Outcome>, AllocError>
    ensures { IfOk result (λ kind. kind ≡ Kind.Alternatives count) }
{
    match u32::try_from(count) {
        Ok(count) => Ok(Kind::Alternatives(count)),
        Err(_) => Err(AllocError),
    }
}

/// What a node in this state is, with the text that is shown of it.
fn kind_of(state: State, text: Sequence<u8>) -> Result<Option<Kind<Outcome>>, AllocError>
    ensures { IfOk result (λ kind. kind ≡ kind_of state text) }
{
    let outcome = match state {
        State::Running | State::Merged => return Ok(None),
        State::Alternatives(count) => return Ok(Some(choice(count)?)),
        State::Failed => Outcome::Failed,
        State::Solved => Outcome::Solved(text),
        State::Stuck => Outcome::Stuck(text),
        State::Raised(_) => Outcome::Raised(text),
        State::Suspended => Outcome::Suspended,
    };
    Ok(Some(Kind::End(outcome)))
}

/// Runs a space that was just made, or committed, until it rests, and says what its node is. None exactly where the node has more own
/// steps than the fuel.
pub fn run_to_rest(
    alloc: Global,
    space: &SpaceName,
    machine: &mut Machine,
    fuel: u64,
) -> Result<Option<Report<Outcome>>, AllocError>
    ensures { IfOk result (ComesToRest space.now fuel machine.old machine.new) }
{
    if fuel == 0 {
        return Ok(None);
    }
    let ran = machine.run(alloc, space, fuel - 1)?;
    let Some(rest) = at_rest(ran) else {
        return Ok(None);
    };
    let Rest { state, steps } = rest;
    let left = fuel - 1 - steps;
    let Some(text) = machine.leaf_text(alloc, space, &state, left)? else {
        return Ok(None);
    };
    let steps = fuel - (left - text.steps);
    let Some(kind) = kind_of(state, text.bytes)? else {
        return Ok(None);
    };
    Ok(Some(Report { kind, steps }))
}

/// The node of a machine whose space was just made, or committed to this branch. None exactly where it has more own steps than the
/// fuel.
pub fn solved<T: Source>(
    alloc: Global,
    source: &T,
    branch: <T::Kind as SearchKind>::Branch,
    mut machine: Machine,
    fuel: u64,
) -> Result<
    Option<Waypoint<<T::Kind as SearchKind>::Branch, <T::Kind as SearchKind>::Leaf>>,
    AllocError,
>
    requires { machine.kernel ≡ (T.origin source.now).kernel }
    ensures { IfOk result (MakesNode (T.maker source.now) branch fuel machine) }
{
    match source.run(alloc, &mut machine, fuel)? {
        None => Ok(None),
        Some(report) => Ok(Some(Waypoint {
            branch,
            machine,
            report,
        })),
    }
}

/// Whether the node is a choice of which the branch takes an alternative.
fn offers<K: SearchKind>(kind: &Kind<K::Leaf>, branch: K::Branch) -> bool
    ensures { result ≡ offers K.search kind.now branch }
{
    let alternative = K::number(branch);
    match kind {
        Kind::Alternatives(count) => 1 <= alternative && alternative <= *count,
        Kind::End(_) => false,
    }
}

/// The machine of a node, committed to a branch. None exactly where the node does not offer it.
pub fn opened<T: Source>(
    alloc: Global,
    source: &T,
    node: &Waypoint<<T::Kind as SearchKind>::Branch, <T::Kind as SearchKind>::Leaf>,
    branch: <T::Kind as SearchKind>::Branch,
) -> Result<Option<Machine>, AllocError>
    requires { node.now.machine.kernel ≡ (T.origin source.now).kernel }
    ensures { IfOk result (Opens T.Kind.search (T.maker source.now) node.now branch) }
{
    if !offers::<T::Kind>(&node.report.kind, branch) {
        return Ok(None);
    }
    let machine = node.machine.copy(alloc)?;
    Ok(Some(source.commit(alloc, branch, machine)?))
}

/// The machine of a node that is of no use afterwards, committed to a branch. None exactly where the node does not offer it.
pub fn opened_last<T: Source>(
    alloc: Global,
    source: &T,
    node: Waypoint<<T::Kind as SearchKind>::Branch, <T::Kind as SearchKind>::Leaf>,
    branch: <T::Kind as SearchKind>::Branch,
) -> Result<Option<Machine>, AllocError>
    requires { node.machine.kernel ≡ (T.origin source.now).kernel }
    ensures { IfOk result (Opens T.Kind.search (T.maker source.now) node branch) }
{
    if !offers::<T::Kind>(&node.report.kind, branch) {
        return Ok(None);
    }
    let Waypoint {
        branch: _,
        machine,
        report: _,
    } = node;
    Ok(Some(source.commit(alloc, branch, machine)?))
}
