//! What comes before each step: those who are due are asked whether they can step.
ghost use Rattle.std.specs.Prelude.{◌≡◌, ◌<◌, ◌++◌, ◌∷◌, [], true, map, Some, length, position, option_copied, option_to_list, IfOk, OnOk, OnErr};
ghost use Rattle.oz_semantics.specs.Configurations.{is_of, stack_of};
ghost use Rattle.oz_semantics.specs.Settling.{runnable, queue_after};
ghost use Rattle.oz_semantics.specs.Spaces.{sight};
ghost use Rattle.oz_semantics.specs.Statements.{stack_answer};
ghost use Rattle.builtins.specs.Answers.{IsAnswer};
ghost use Rattle.oz_machine.specs.declared.course.Due.TheVariants.{Nobody};
ghost use Rattle.oz_machine.specs.declared.head.Head.TheVariants.{Answers, Unknown};
ghost use Rattle.builtins.specs.declared.answer.Answer as builtin;
ghost use Rattle.oz_base.specs.Lists.{first};
ghost use Rattle.oz_semantics.specs.Names.{named};
ghost use Rattle.sleep_laws.specs.Woken.{told_queue};
ghost use Rattle.oz_machine.specs.Asleep.{AreLaidBut, Sleeps};
ghost use Rattle.oz_sleep.specs.Laid.{Lays};
ghost use Rattle.oz_sleep.specs.declared.sleeping.Sleeping.{Sleeping};
ghost use Rattle.oz_machine.specs.Courses.{asked, config_of, layers_after};
ghost use Rattle.oz_machine.specs.Quiet.{top_steps, able_in, waits, IsHeadAnswer};

use crate::course::{Course, Due};
use crate::declarations::declaring;
use crate::head::{Head, note};
use builtins::Answer;
use oz_base::{Copies, Ident};
use oz_language::Statement;
use oz_semantics::Frame;
use oz_sleep::{Sleeping, ask_told};
use oz_threads::{Queue, is_step};
use space_core::Levels;
use stability::runnable;
use statements::{answer, ready};
use std::alloc::{AllocError, Global};

/// What the statement on top of a thread's stack answers, of the space at a place.
pub fn top_answer(
    alloc: Global,
    statements: &[Statement],
    levels: &Levels,
    place: usize,
    id: &Ident,
) -> Result<Answer, AllocError>
    requires within { place < length levels.now }
    requires place { Some place ≡ position (is_of id.now.space) levels.now }
    ensures { IfOk result (IsAnswer (stack_answer (sight statements.now levels.now id.now.space) (stack_of levels.now id.now))) }
{
    match levels.top_frame(id) {
        None => Ok(Answer::Rests),
        Some(frame) => answer(alloc, statements, &id.space, levels.store_at(place), frame),
    }
}

/// Whether the statement on top of the stack of a thread can step, of the space at a place.
fn steps_at(
    alloc: Global,
    statements: &[Statement],
    levels: &Levels,
    place: usize,
    id: &Ident,
) -> Result<bool, AllocError>
    requires within { place < length levels.now }
    requires place { Some place ≡ position (is_of id.now.space) levels.now }
    ensures { IfOk result (λ steps. steps ≡ top_steps statements.now levels.now id.now) }
{
    let Some(frame) = levels.top_frame(id) else {
        return Ok(false);
    };
    let ready = ready(alloc, statements, &id.space, levels.store_at(place), frame)?;
    Ok(is_step(&ready))
}

/// Whether the statement on top of a thread's stack can step.
pub fn steps(
    alloc: Global,
    statements: &[Statement],
    levels: &Levels,
    id: &Ident,
) -> Result<bool, AllocError>
    ensures { IfOk result (λ steps. steps ≡ top_steps statements.now levels.now id.now) }
{
    let Some(place) = levels.place(&id.space) else {
        return Ok(false);
    };
    steps_at(alloc, statements, levels, place, id)
}

/// The thread, if it can step.
fn able(
    alloc: Global,
    statements: &[Statement],
    levels: &Levels,
    id: &Ident,
) -> Result<Option<Ident>, AllocError>
    ensures { IfOk result (λ able. option_to_list able ≡ able_in statements.now levels.now id.now) }
{
    if steps(alloc, statements, levels, id)? {
        Ok(Some(id.copied(alloc)?))
    } else {
        Ok(None)
    }
}

/// A thread joins the end of the queue, if it can step.
fn join_able(
    alloc: Global,
    statements: &[Statement],
    levels: &Levels,
    id: &Ident,
    queue: &mut Queue,
) -> Result<(), AllocError>
    ensures ok { OnOk result (queue.new ≡ queue.old ++ able_in statements.now levels.now id.now) }
    ensures err { OnErr result (queue.new ≡ queue.old) }
{
    match able(alloc, statements, levels, id)? {
        None => Ok(()),
        Some(id) => queue.push(id),
    }
}

/// Two threads join the end of the queue, as far as they can step.
fn join_both(
    alloc: Global,
    statements: &[Statement],
    levels: &Levels,
    id: &Ident,
    other: &Ident,
    queue: &mut Queue,
) -> Result<(), AllocError>
    ensures ok { OnOk result (queue.new ≡ (queue.old ++ able_in statements.now levels.now id.now) ++ able_in statements.now levels.now other.now) }
    ensures err { OnErr result (queue.new ≡ queue.old) }
{
    let first = able(alloc, statements, levels, id)?;
    let second = able(alloc, statements, levels, other)?;
    queue.push_both(alloc, first, second)
}

/// Whether by this answer alone a thread can't step: it rests, or goes by the state of a space.
fn waits(answer: &Answer) -> bool
    ensures { result ≡ waits answer.now }
{
    match answer {
        Answer::Rests | Answer::Operates { .. } => true,
        Answer::Acts(_)
        | Answer::Edits(_)
        | Answer::RaisesKind(_)
        | Answer::RaisesTerm(_)
        | Answer::Widens(_) => false,
    }
}

/// What the statement on top of a thread's stack answers is left in `answered`. Whether the thread can't step by that alone.
fn note_answer(
    alloc: Global,
    statements: &[Statement],
    levels: &Levels,
    place: usize,
    id: &Ident,
    frame: &Frame,
    answered: &mut Head,
) -> Result<bool, AllocError>
    requires within { place < length levels.now }
    requires place { Some place ≡ position (is_of id.now.space) levels.now }
    requires top { Some frame.now ≡ first (stack_of levels.now id.now) }
    ensures { IfOk result (λ waiting. (a : builtin.Answer) × (answered.new ≡ Answers place a)
        × IsAnswer (stack_answer (sight statements.now levels.now id.now.space) (stack_of levels.now id.now)) a × (waiting ≡ waits a)) }
{
    let answer = answer(alloc, statements, &id.space, levels.store_at(place), frame)?;
    let waiting = waits(&answer);
    note(answered, Head::Answers { place, answer });
    Ok(waiting)
}

/// A thread joins the queue, in which no other is, if it can step. What its statement does is left in `answered`.
fn join_alone(
    alloc: Global,
    statements: &[Statement],
    levels: &Levels,
    id: &Ident,
    queue: &mut Queue,
    answered: &mut Head,
) -> Result<(), AllocError>
    requires queue { queue.old ≡ [] }
    requires answered { answered.old ≡ Unknown }
    ensures ok { OnOk result (queue.new ≡ queue.old ++ able_in statements.now levels.now id.now) }
    ensures answer { OnOk result (IsHeadAnswer statements.now levels.now queue.new answered.new) }
    ensures err { OnErr result (queue.new ≡ queue.old) }
{
    let Some(place) = levels.place(&id.space) else {
        return Ok(());
    };
    let Some(frame) = levels.top_frame(id) else {
        return Ok(());
    };
    if let Some(number) = declaring(statements, frame) {
        note(answered, Head::Declares { number });
        queue.push(id.copied(alloc)?)?;
        return Ok(());
    }
    if note_answer(alloc, statements, levels, place, id, frame, answered)? {
        return Ok(());
    }
    queue.push(id.copied(alloc)?)?;
    Ok(())
}

/// All threads that can step make the queue, and the one that stepped, if one did, joins before the others.
fn requeue(
    alloc: Global,
    statements: &[Statement],
    levels: &Levels,
    mover: Option<&Ident>,
    queue: &mut Queue,
) -> Result<(), AllocError>
    ensures ok { OnOk result (queue.new ≡ queue_after (runnable statements.now levels.now) (option_copied mover.entry) queue.old) }
    ensures err { OnErr result (queue.new ≡ queue.old) }
{
    let ids = runnable(alloc, statements, levels)?;
    queue.requeue(alloc, &ids, mover)
}

/// A thread joins the end of the queue, if it can step. What its statement does is left in
/// `answered`, where no other was in the queue and it joins.
fn join_mover(
    alloc: Global,
    statements: &[Statement],
    levels: &Levels,
    id: &Ident,
    queue: &mut Queue,
    answered: &mut Head,
) -> Result<(), AllocError>
    requires { answered.old ≡ Unknown }
    ensures ok { OnOk result (queue.new ≡ queue.old ++ able_in statements.now levels.now id.now) }
    ensures answer { OnOk result (IsHeadAnswer statements.now levels.now queue.new answered.new) }
    ensures err { OnErr result (queue.new ≡ queue.old) }
{
    if queue.len() == 0 {
        return join_alone(alloc, statements, levels, id, queue, answered);
    }
    join_able(alloc, statements, levels, id, queue)
}

/// A thread joins the end of the queue, if it can step, and else falls asleep. Its answer is left in `answered`, where no other was in
/// the queue and it is a step.
fn join_or_sleep(
    alloc: Global,
    statements: &[Statement],
    levels: &Levels,
    id: &Ident,
    queue: &mut Queue,
    answered: &mut Head,
    sleeping: &mut Sleeping,
) -> Result<(), AllocError>
    requires answered { answered.old ≡ Unknown }
    requires asleep { Lays statements.now levels.now sleeping.old (queue.old ++ id.now ∷ []) }
    ensures ok { OnOk result (queue.new ≡ queue.old ++ able_in statements.now levels.now id.now) }
    ensures answer { OnOk result (IsHeadAnswer statements.now levels.now queue.new answered.new) }
    ensures asleep { OnOk result (Lays statements.now levels.now sleeping.new queue.new) }
    ensures err { OnErr result (queue.new ≡ queue.old) }
    ensures left { OnErr result (sleeping.new ≡ sleeping.old) }
{
    let before = queue.len();
    join_mover(alloc, statements, levels, id, queue, answered)?;
    if queue.len() != before {
        return Ok(());
    }
    sleeping.lay_down(alloc, statements, levels, id);
    Ok(())
}

/// Two threads join the end of the queue, as far as they can step, and else fall asleep.
fn join_both_or_sleep(
    alloc: Global,
    statements: &[Statement],
    levels: &Levels,
    id: &Ident,
    other: &Ident,
    queue: &mut Queue,
    sleeping: &mut Sleeping,
) -> Result<(), AllocError>
    requires asleep { Lays statements.now levels.now sleeping.old (queue.old ++ id.now ∷ other.now ∷ []) }
    ensures ok { OnOk result (queue.new ≡ (queue.old ++ able_in statements.now levels.now id.now) ++ able_in statements.now levels.now other.now) }
    ensures asleep { OnOk result (Lays statements.now levels.now sleeping.new queue.new) }
    ensures err { OnErr result (queue.new ≡ queue.old) }
    ensures left { OnErr result (sleeping.new ≡ sleeping.old) }
{
    let before = queue.len();
    join_both(alloc, statements, levels, id, other, queue)?;
    let joined = queue.len() - before;
    if joined == 2 {
        return Ok(());
    }
    sleeping.lay_down(alloc, statements, levels, id);
    sleeping.lay_down(alloc, statements, levels, other);
    Ok(())
}

/// The thread that told its space something joins the queue, as those do with these numbers, as far as they can step.
fn join_told(
    alloc: Global,
    statements: &[Statement],
    levels: &Levels,
    mover: &Ident,
    woken: &[u64],
    queue: &mut Queue,
    answered: &mut Head,
    sleeping: &mut Sleeping,
) -> Result<(), AllocError>
    requires answered { answered.old ≡ Unknown }
    requires asleep { Lays statements.now levels.now sleeping.old (queue.old ++ mover.now ∷ map (named mover.now.space) woken.now) }
    ensures ok { OnOk result (queue.new ≡ told_queue statements.now levels.now mover.now woken.now queue.old) }
    ensures answer { OnOk result (IsHeadAnswer statements.now levels.now queue.new answered.new) }
    ensures asleep { OnOk result (Lays statements.now levels.now sleeping.new queue.new) }
    ensures err { OnErr result (queue.new ≡ queue.old) }
    ensures left { OnErr result (Lays statements.now levels.now sleeping.new (queue.old ++ mover.now ∷ map (named mover.now.space) woken.now)) }
{
    if queue.len() == 0 && woken.is_empty() {
        return join_or_sleep(alloc, statements, levels, mover, queue, answered, sleeping);
    }
    ask_told(alloc, statements, levels, mover, woken, queue, sleeping)
}

/// All threads that can step make the queue, and the others of the space of the thread that stepped fall asleep, where that is of use.
#[tactic(auto, using(crate::proofs::AskingLaws::requeued_exact, crate::proofs::AskingLaws::unknown_lays))]
fn requeue_all(
    alloc: Global,
    statements: &[Statement],
    levels: &Levels,
    mover: Option<&Ident>,
    queue: &mut Queue,
    sleeping: &mut Sleeping,
) -> Result<(), AllocError>
    ensures ok { OnOk result (queue.new ≡ queue_after (runnable statements.now levels.now) (option_copied mover.entry) queue.old) }
    ensures asleep { OnOk result (Lays statements.now levels.now sleeping.new queue.new) }
    ensures err { OnErr result (queue.new ≡ queue.old) }
{
    requeue(alloc, statements, levels, mover, queue)?;
    match mover {
        None => sleeping.forget(alloc),
        Some(mover) => sleeping.learn(alloc, statements, levels, &mover.space),
    }
    Ok(())
}

/// Those who are due join the queue, as far as they can step, where all that is needed has begun. The answer of the head is left in
/// `answered`, where it was made.
fn ask(
    alloc: Global,
    statements: &[Statement],
    levels: &Levels,
    due: &Due,
    queue: &mut Queue,
    answered: &mut Head,
    sleeping: &mut Sleeping,
) -> Result<(), AllocError>
    requires answered { answered.old ≡ Unknown }
    requires begun { layers_after statements.now levels.now due.now ≡ levels.now }
    requires asleep { sleeping.old.known ≡ true → AreLaidBut statements.now levels.now sleeping.old due.now queue.old }
    ensures ok { OnOk result (queue.new ≡ asked statements.now levels.now due.now queue.old) }
    ensures answer { OnOk result (IsHeadAnswer statements.now levels.now queue.new answered.new) }
    ensures asleep { OnOk result (Lays statements.now levels.now sleeping.new queue.new) }
    ensures err { OnErr result (queue.new ≡ queue.old) }
    ensures left { OnErr result (sleeping.new.known ≡ true → AreLaidBut statements.now levels.now sleeping.new due.now queue.old) }
{
    match due {
        Due::Nobody => Ok(()),
        Due::Mover {
            mover,
            started: None,
        } => {
            sleeping.keep_for(alloc, &mover.space);
            join_or_sleep(alloc, statements, levels, mover, queue, answered, sleeping)
        }
        Due::Mover {
            mover,
            started: Some(started),
        } => {
            sleeping.keep_for(alloc, &mover.space);
            join_both_or_sleep(alloc, statements, levels, mover, started, queue, sleeping)
        }
        Due::Told { mover, woken } => {
            sleeping.keep_for(alloc, &mover.space);
            join_told(
                alloc,
                statements,
                levels,
                mover,
                woken.as_slice(),
                queue,
                answered,
                sleeping,
            )
        }
        Due::Everybody { mover } => {
            requeue_all(alloc, statements, levels, mover.as_ref(), queue, sleeping)
        }
    }
}

/// By-need computations that are needed begin, where everybody is due. What contracts see of the course stays the same, also where it
/// refuses.
fn begin_needed(
    alloc: Global,
    statements: &[Statement],
    course: &mut Course,
) -> Result<(), AllocError>
    ensures same { config_of statements.now course.new ≡ config_of statements.now course.old }
    ensures begun { OnOk result (layers_after statements.now course.new.levels course.new.due ≡ course.new.levels) }
    ensures asleep { (s : Sleeping) → Sleeps statements.now s course.old → Sleeps statements.now s course.new }
{
    match course.due {
        Due::Nobody | Due::Mover { .. } | Due::Told { .. } => Ok(()),
        Due::Everybody { .. } => {
            by_need::fire(alloc, statements, &mut course.levels)?;
            Ok(())
        }
    }
}

/// By-need computations that are needed begin, and those who are due are asked. The answer of the head is left in `answered`, where it was
/// made, and else nothing is. What contracts see of the course stays the same, also where it refuses.
pub fn settle(
    alloc: Global,
    statements: &[Statement],
    course: &mut Course,
    answered: &mut Head,
    sleeping: &mut Sleeping,
) -> Result<(), AllocError>
    requires asleep { Sleeps statements.now sleeping.old course.old }
    ensures same { config_of statements.now course.new ≡ config_of statements.now course.old }
    ensures due { OnOk result (course.new.due ≡ Nobody) }
    ensures asleep { Sleeps statements.now sleeping.new course.new }
    ensures answer { OnOk result (IsHeadAnswer statements.now course.new.levels course.new.queue answered.new) }
{
    *answered = Head::Unknown;
    begin_needed(alloc, statements, course)?;
    ask(
        alloc,
        statements,
        &course.levels,
        &course.due,
        &mut course.queue,
        answered,
        sleeping,
    )?;
    course.due = Due::Nobody;
    Ok(())
}

/// The same, where the answer is of no use.
pub fn settle_only(
    alloc: Global,
    statements: &[Statement],
    course: &mut Course,
    sleeping: &mut Sleeping,
) -> Result<(), AllocError>
    requires asleep { Sleeps statements.now sleeping.old course.old }
    ensures same { config_of statements.now course.new ≡ config_of statements.now course.old }
    ensures due { OnOk result (course.new.due ≡ Nobody) }
    ensures asleep { Sleeps statements.now sleeping.new course.new }
{
    let mut answered = Head::Unknown;
    settle(alloc, statements, course, &mut answered, sleeping)
}
