//! After a step that told a space something, where it is known who may wake by that.
ghost use Rattle.std.specs.Prelude.{ℕ, ◌≡◌, ◌⊎◌, ◌∷◌, ◌++◌, [], true, false, Contains, if◌then◌else◌, List, map, filter, IfOk, OnOk, OnErr};
ghost use Rattle.oz_base.specs.declared.names.Ident.{Ident};
ghost use Rattle.oz_semantics.specs.Names.{named};
ghost use Rattle.sleep_laws.specs.Woken.{top_able, is_asked_still, told_queue};
ghost use Rattle.oz_sleep.specs.Laid.{Lays, LaysMore, RestsIn, RestsOr};

use crate::sleeping::Sleeping;
use oz_base::{Copies, Ident, SpaceName, same_space};
use oz_language::Statement;
use oz_threads::Queue;
use space_core::Levels;
use std::alloc::{AllocError, Global};

/// Whether a thread of the queue stays there: it is of another space, or can step.
fn stays(
    alloc: Global,
    statements: &[Statement],
    levels: &Levels,
    space: &SpaceName,
    id: &Ident,
    sleeping: &mut Sleeping,
) -> Result<bool, AllocError>
    ensures able { IfOk result (λ stays. stays ≡ is_asked_still statements.now levels.now space.now id.now) }
    ensures more { LaysMore levels.now sleeping.old sleeping.new }
    ensures rests { IfOk result (λ stays. stays ≡ false → RestsIn statements.now levels.now sleeping.new id.now) }
{
    if !same_space(&id.space, space) {
        return Ok(true);
    }
    sleeping.asks(alloc, statements, levels, id)
}

/// Those of the queue that stay there.
fn staying(
    alloc: Global,
    statements: &[Statement],
    levels: &Levels,
    space: &SpaceName,
    queue: &Queue,
    sleeping: &mut Sleeping,
) -> Result<Vec<Ident>, AllocError>
    ensures able { IfOk result (λ able. able.items ≡ filter (is_asked_still statements.now levels.now space.now) queue.now) }
    ensures more { LaysMore levels.now sleeping.old sleeping.new }
    ensures rests { IfOk result (λ able. (id : Ident) → Contains queue.now id → (is_asked_still statements.now levels.now space.now id ≡ true) ⊎ RestsIn statements.now levels.now sleeping.new id) }
{
    let mut rest = queue.copied(alloc)?;
    let mut able = Vec::new(alloc);
    'queued: while let Some(id) = rest.next() {
        if stays(alloc, statements, levels, space, &id, sleeping)? {
            able.push(id)?;
        }
    }
    Ok(able)
}

/// Adds a thread, if it can step.
fn add_able(
    alloc: Global,
    statements: &[Statement],
    levels: &Levels,
    id: Ident,
    sleeping: &mut Sleeping,
    able: &mut Vec<Ident>,
) -> Result<(), AllocError>
    ensures able { OnOk result (able.new.items ≡ able.old.items ++ (if top_able statements.now levels.now id then id ∷ [] else [])) }
    ensures more { LaysMore levels.now sleeping.old sleeping.new }
    ensures rests { OnOk result (RestsOr statements.now levels.now sleeping.new id) }
{
    if sleeping.asks(alloc, statements, levels, &id)? {
        able.push(id)?;
    }
    Ok(())
}

/// Adds the threads of a space with these numbers, as far as they can step.
fn add_woken(
    alloc: Global,
    statements: &[Statement],
    levels: &Levels,
    space: &SpaceName,
    woken: &[u64],
    sleeping: &mut Sleeping,
    able: &mut Vec<Ident>,
) -> Result<(), AllocError>
    ensures able { OnOk result (able.new.items ≡ able.old.items ++ filter (top_able statements.now levels.now) (map (named space.now) woken.now)) }
    ensures more { LaysMore levels.now sleeping.old sleeping.new }
    ensures rests { OnOk result ((n : ℕ) → Contains woken.now n → RestsOr statements.now levels.now sleeping.new (named space.now n)) }
{
    for number in woken {
        let id = Ident {
            space: space.copied(alloc)?,
            number: *number,
        };
        add_able(alloc, statements, levels, id, sleeping, able)?;
    }
    Ok(())
}

/// Of the queue those stay that are of another space, or can step; the thread that told its space something joins the end, and then those
/// of its space with these numbers, as far as they can step. Those that can't fall asleep.
pub fn ask_told(
    alloc: Global,
    statements: &[Statement],
    levels: &Levels,
    mover: &Ident,
    woken: &[u64],
    queue: &mut Queue,
    sleeping: &mut Sleeping,
) -> Result<(), AllocError>
    requires { Lays statements.now levels.now sleeping.old (queue.old ++ mover.now ∷ map (named mover.now.space) woken.now) }
    ensures ok { OnOk result (queue.new ≡ told_queue statements.now levels.now mover.now woken.now queue.old) }
    ensures laid { OnOk result (Lays statements.now levels.now sleeping.new queue.new) }
    ensures err { OnErr result (queue.new ≡ queue.old) }
    ensures left { OnErr result (Lays statements.now levels.now sleeping.new (queue.old ++ mover.now ∷ map (named mover.now.space) woken.now)) }
{
    let mut able = staying(alloc, statements, levels, &mover.space, queue, sleeping)?;
    add_able(
        alloc,
        statements,
        levels,
        mover.copied(alloc)?,
        sleeping,
        &mut able,
    )?;
    add_woken(
        alloc,
        statements,
        levels,
        &mover.space,
        woken,
        sleeping,
        &mut able,
    )?;
    queue.requeue(alloc, &able, Some(mover))
}
