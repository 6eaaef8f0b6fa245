//! Spaces that end and begin.
ghost use Rattle.std.specs.Prelude.{◌≡◌, true, ◌∷◌, [], ◌+◌, ◌-◌, length, take, not, filter, IfOk, OnOk, OnErr, MatchOption, position};
ghost use Rattle.std.specs.List.{find};
ghost use Rattle.oz_base.specs.Lists.{list_eq};
ghost use Rattle.oz_semantics.specs.Names.{is_properly_below, is_child_of, parent_of, space_lt, root_of};
ghost use Rattle.oz_semantics.specs.Configurations.{raised_by, applying, next_child};
ghost use Rattle.oz_semantics.specs.declared.configuration.Layer.{Layer};
ghost use Rattle.space_core.specs.Ending.{IsChild, IsAdded, fallen};
ghost use Rattle.space_core.specs.Places.{IsAbsent, IsFirst};
ghost use Rattle.space_core.specs.Shown.{shown, shown_all, is_named, IsQuiet};
ghost use Rattle.space_core.specs.declared.level.Level.{Level};

use crate::constraints::Constraints;
use crate::homes::is_properly_above;
use crate::level::{Level, Numbers};
use crate::threads::Threads;
use cells_ports::Objects;
use environments::Environment;
use oz_base::{Copies, Ident, Sequence, SpaceName};
use oz_semantics::{Code, Frame, Status};
use std::alloc::{AllocError, Global};
use term_store::Store;

fn equal_slices(left: &[u64], right: &[u64]) -> bool
    ensures { result ≡ list_eq left.now right.now }
{
    left == right
}

/// Whether the numbers are those of a space, but for its last.
#[tactic(auto, using(crate::proofs::ParentLaws::parent_take))]
fn is_front(numbers: &[u64], space: &[u64]) -> bool
    ensures { result ≡ list_eq numbers.now (parent_of space.now) }
{
    if space.is_empty() {
        return equal_slices(numbers, space);
    }
    equal_slices(numbers, &space[..space.len() - 1])
}

/// Whether the level is that of the parent of a space.
pub fn is_parent(level: &Level, space: &SpaceName) -> bool
    ensures { result ≡ list_eq level.now.space (parent_of space.now) }
{
    is_front(level.space.as_slice(), space.as_slice())
}

/// Whether a space is a child of another one.
pub fn is_child(parent: &SpaceName, child: &SpaceName) -> bool
    ensures { result ≡ is_child_of parent.now child.now }
{
    !child.is_top() && is_front(parent.as_slice(), child.as_slice())
}

fn parent_position(levels: &[Level], space: &SpaceName) -> Option<usize>
    ensures { result ≡ position (is_named (parent_of space.now)) levels.now }
{
    levels.iter().position(|level| is_parent(level, space))
}

/// The place of the parent of a space.
pub fn parent_place(levels: &[Level], space: &SpaceName) -> Option<usize>
    ensures { MatchOption result (IsAbsent (is_named (parent_of space.now)) levels.now)
        (λ place. (l : Level) × IsFirst (is_named (parent_of space.now)) levels.now place l) }
{
    parent_position(levels, space)
}

/// All spaces below this one are gone.
pub fn drop_below(levels: &mut Vec<Level>, space: &SpaceName)
    ensures { levels.new.items ≡ filter (λ (l : Level). not (is_properly_below space.now l.space)) levels.old.items }
{
    levels.retain(|level| !is_properly_above(space, &level.space));
}

/// The space fails, and nothing is kept of what it sees.
pub fn fail(alloc: Global, level: &mut Level)
    ensures { level.new ≡ fallen level.old }
{
    level.status = Status::Failed;
    level.constraints = Constraints::new(alloc);
    level.told_from = 0;
    level.touched = Sequence::new(alloc);
    level.threads.stop_all(alloc);
    level.triggers = Sequence::new(alloc);
    level.objects = Objects::new();
    level.traced = true;
    level.knows_space = false;
    level.bare = !level.space.is_top();
}

/// The space is ended by the exception that is the variable's term.
pub fn raise(alloc: Global, level: &mut Level, exception: Ident)
    ensures { IsQuiet (raised_by exception) level.old level.new }
{
    level.status = Status::Raised(exception);
    level.threads.stop_all(alloc);
    level.triggers = Sequence::new(alloc);
    level.constraints.drop_propagators(alloc);
}

/// `{P X}` of the procedure and the space's root variable.
pub fn starting_frame(
    alloc: Global,
    space: &SpaceName,
    procedure: Ident,
) -> Result<Frame, AllocError>
    ensures { IfOk result (λ frame. frame ≡ applying procedure (root_of space.now)) }
{
    Ok(Frame {
        code: Code::Call {
            procedure,
            argument: Ident {
                space: space.copied(alloc)?,
                number: 0,
            },
        },
        environment: Environment::new(),
    })
}

fn starting_threads(
    alloc: Global,
    space: &SpaceName,
    procedure: Ident,
) -> Result<Threads, AllocError>
    ensures { IfOk result (λ threads. threads ≡ record { list = record { number = 1; frames = applying procedure (root_of space.now) ∷ [] } ∷ []; next = 2 }) }
{
    let mut frames = Vec::new(alloc);
    frames.push(starting_frame(alloc, space, procedure)?)?;
    let mut threads = Threads::new(alloc);
    threads.spawn(alloc, frames)?;
    Ok(threads)
}

/// A space in which a thread applies the procedure to the root variable. The store is of what its parent sees.
fn child_level(
    alloc: Global,
    space: SpaceName,
    store: Store,
    procedure: Ident,
) -> Result<Level, AllocError>
    ensures { IfOk result (IsChild space procedure store) }
{
    let threads = starting_threads(alloc, &space, procedure)?;
    Ok(Level {
        space,
        status: Status::Open,
        told_from: store.len(),
        constraints: Constraints::seeing(alloc, store),
        touched: Sequence::new(alloc),
        threads,
        triggers: Sequence::new(alloc),
        objects: Objects::new(),
        numbers: Numbers {
            variable: 1,
            procedure: 1,
            name: 1,
            child: 1,
        },
        traced: true,
        knows_space: false,
        bare: false,
    })
}

/// Whether a space's name is less than another.
fn is_less(left: &[u64], right: &[u64]) -> bool
    ensures { result ≡ space_lt left.now right.now }
{
    left.cmp(right).is_lt()
}

fn greater_position(levels: &[Level], space: &SpaceName) -> Option<usize>
    ensures { result ≡ position (λ (l : Level). space_lt space.now (shown l).space) levels.now }
{
    levels
        .iter()
        .position(|level| is_less(space.as_slice(), level.space.as_slice()))
}

/// The place of the first space with a greater name.
fn greater_place(levels: &[Level], space: &SpaceName) -> Option<usize>
    ensures { MatchOption result (IsAbsent (λ (other : Layer). space_lt space.now other.space) (shown_all levels.now))
        (λ place. (l : Layer) × IsFirst (λ (other : Layer). space_lt space.now other.space) (shown_all levels.now) place l) }
{
    greater_position(levels, space)
}

/// The number of children of a space, with one more.
pub fn child_count(level: &Level) -> Result<u64, AllocError>
    ensures { IfOk result (λ count. count ≡ level.now.numbers.child + 1) }
{
    level.numbers.child.checked_add(1).ok_or(AllocError)
}

/// The child that a space gives out next, in which a thread applies the procedure to the root variable.
pub fn child_of(alloc: Global, level: &Level, procedure: Ident) -> Result<Level, AllocError>
    ensures { IfOk result (IsChild (next_child (shown level.now)) procedure level.now.constraints.store) }
{
    let space = level.space.child(alloc, level.numbers.child)?;
    let store = level.constraints.store().copied(alloc)?;
    child_level(alloc, space, store, procedure)
}

/// Puts a space among the others, in the order of names.
pub fn add_level(levels: &mut Vec<Level>, level: Level) -> Result<(), AllocError>
    ensures ok { OnOk result (IsAdded levels.old.items levels.new.items level) }
    ensures err { OnErr result (levels.new.items ≡ levels.old.items) }
{
    match greater_place(levels.as_slice(), &level.space) {
        None => levels.push(level)?,
        Some(place) => levels.insert(place, level)?,
    }
    Ok(())
}
