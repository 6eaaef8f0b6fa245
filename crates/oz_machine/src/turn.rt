//! One turn of the machine: the least propagator that is due runs, or else the head of the queue makes one step.
ghost use Rattle.std.specs.Prelude.{◌≡◌, ◌≤◌, ◌<◌, ◌+◌, true, false, None, is_some, length, position, List, IfOk, IfSome, OnErr, Some, MatchOption, option_copied};
ghost use Rattle.oz_base.specs.Lists.{first};
ghost use Rattle.oz_language.specs.declared.kernel.Statement.{Statement};
ghost use Rattle.oz_semantics.specs.Configurations.{is_of, layer_at, stack_of};
ghost use Rattle.oz_semantics.specs.Answers as answers;
ghost use Rattle.oz_semantics.specs.Steps.{without_top, after_answer, told, shown_by, stepped};
ghost use Rattle.oz_semantics.specs.Schedule.{least_due, turn};
ghost use Rattle.stability.specs.Due.{IsLeastDue};
ghost use Rattle.oz_semantics.specs.Settling.{settled};
ghost use Rattle.oz_semantics.specs.Spaces.{sight, states_of, answer_in};
ghost use Rattle.oz_semantics.specs.Statements.{stack_answer};
ghost use Rattle.oz_raise.specs.Nodes.{term_of};
ghost use Rattle.operations.specs.Outcomes.{IsOutcome};
ghost use Rattle.builtins.specs.Answers.{act_of, edit_of, IsAnswer};
ghost use Rattle.builtins.specs.declared.answer.Act;
ghost use Rattle.builtins.specs.declared.answer.Answer;
ghost use Rattle.oz_machine.specs.declared.course.Due.TheVariants.{Nobody};
ghost use Rattle.oz_machine.specs.Courses.{config_of, stepping, Keeps};
ghost use Rattle.oz_acts.specs.Doings.{is_shown};
ghost use Rattle.oz_machine.specs.Quiet.{IsDeclaration, IsHeadAnswer, KeepsHead, Stands, operates, shows};
ghost use Rattle.oz_machine.specs.Turns.{cost_of, CostsWithin, HasNotEnded, IsTurn};
ghost use Rattle.oz_machine.specs.Asleep.{Pends, Sleeps};

use crate::course::Course;
use crate::declarations::{declaration, declaration_at};
use crate::editing::edit;
use crate::following::{follow, go_on};
use crate::foreseeing::{foreseen, gives_out, is_known_lowest, is_known_quiet, is_known_still};
use crate::head::Head;
use crate::propagating::propagate;
use crate::quiet::go_on_quietly;
use crate::raising::{clash, raise, raise_kind};
use crate::settling::{settle_only, top_answer};
use crate::told::go_on_told;
use builtins::{Act, Answer, Edit};
use operations::Outcome;
use oz_acts::{act, give_term, started, take_off};
use oz_base::{Copies, Ident};
use oz_language::{Identifier, Kernel, Statement};
use oz_raise::Node;
use oz_semantics::{Stepped, Tell};
use oz_sleep::Sleeping;
use space_core::Levels;
use stability::{DuePropagator, answer_in, least_due, states_of};
use std::alloc::{AllocError, Global};
use term_text::{Text, term_text};

/// The thread does what an act says that shows nothing. The act is of no use afterwards.
fn make_act(
    alloc: Global,
    kernel: &Kernel,
    id: &Ident,
    what: &mut Act,
    kept: bool,
    sleeping: &mut Sleeping,
    course: &mut Course,
) -> Result<Stepped, AllocError>
    requires head { first course.old.queue ≡ Some id.now }
    requires there { is_some (layer_at course.old.levels id.now.space) ≡ true }
    requires kept { KeepsHead kernel.now.statements id.now kept course.old }
    requires shown { is_shown (act_of what.old) ≡ false }
    requires asleep { Pends kernel.now.statements sleeping.old course.old }
    ensures turn { IfOk result (λ stepped. after_answer kernel.now id.now (without_top id.now course.old.levels) (stepping course.old) (answers.Acts (act_of what.old)) ≡ (stepped, config_of kernel.now.statements course.new)) }
    ensures cost { IfOk result (λ stepped. cost_of stepped ≡ 1) }
    ensures err { OnErr result (course.new ≡ course.old) }
    ensures asleep { Sleeps kernel.now.statements sleeping.new course.new }
{
    let quiet = is_known_quiet(what, kept);
    let lowest = is_known_lowest(&course.levels, id, kept, quiet);
    let still = is_known_still(what, quiet);
    let gives = gives_out(what);
    let started = started(alloc, &course.levels, id, what)?;
    let woken = foreseen(alloc, &course.levels, id, what, lowest, sleeping)?;
    if !act(alloc, &mut course.levels, id, what)? {
        return clash(alloc, id, course);
    }
    if lowest {
        let stepped = go_on_told(alloc, kernel, id, woken, 1, course);
        sleeping.resume();
        return Ok(stepped);
    }
    if still {
        let stepped = go_on_quietly(alloc, kernel, id, started, gives, 1, course);
        sleeping.resume();
        return Ok(stepped);
    }
    course.levels.consistent();
    Ok(go_on(id, 1, course))
}

/// The thread changes the tree of spaces.
fn make_edit(
    alloc: Global,
    kernel: &Kernel,
    id: &Ident,
    what: &Edit,
    course: &mut Course,
) -> Result<Stepped, AllocError>
    requires head { first course.old.queue ≡ Some id.now }
    requires there { is_some (layer_at course.old.levels id.now.space) ≡ true }
    ensures turn { IfOk result (λ stepped. after_answer kernel.now id.now (without_top id.now course.old.levels) (stepping course.old) (answers.Edits (edit_of what.now)) ≡ (stepped, config_of kernel.now.statements course.new)) }
    ensures cost { IfOk result (λ stepped. cost_of stepped ≡ 1) }
    ensures err { OnErr result (course.new ≡ course.old) }
{
    let statements = kernel.statements.as_slice();
    if !edit(alloc, statements, &mut course.levels, id, what)? {
        return clash(alloc, id, course);
    }
    Ok(go_on(id, 1, course))
}

/// The thread's variable is the term of these nodes.
fn make_term(
    alloc: Global,
    kernel: &Kernel,
    id: &Ident,
    variable: &Ident,
    nodes: &[Node],
    course: &mut Course,
) -> Result<Stepped, AllocError>
    requires head { first course.old.queue ≡ Some id.now }
    requires there { is_some (layer_at course.old.levels id.now.space) ≡ true }
    ensures turn { IfOk result (λ stepped. after_answer kernel.now id.now (without_top id.now course.old.levels) (stepping course.old) (answers.Acts (answers.GivesTerm variable.now (term_of nodes.now))) ≡ (stepped, config_of kernel.now.statements course.new)) }
    ensures cost { IfOk result (λ stepped. cost_of stepped ≡ 1) }
    ensures err { OnErr result (course.new ≡ course.old) }
{
    if !give_term(alloc, &mut course.levels, id, variable, nodes)? {
        return clash(alloc, id, course);
    }
    course.levels.consistent();
    Ok(go_on(id, 1, course))
}

/// The thread's space is told these domains, and the statement stays.
fn widen(
    alloc: Global,
    id: &Ident,
    tells: &[Tell],
    course: &mut Course,
) -> Result<Stepped, AllocError>
    requires head { first course.old.queue ≡ Some id.now }
    requires there { is_some (layer_at course.old.levels id.now.space) ≡ true }
    ensures turn { (statements : List Statement) → IfOk result (λ stepped. told statements id.now tells.now (λ layers. layers) course.old.levels (stepping course.old) ≡ (stepped, config_of statements course.new)) }
    ensures cost { IfOk result (λ stepped. cost_of stepped ≡ 1) }
    ensures err { OnErr result (course.new ≡ course.old) }
{
    // The variables have neither a value nor a domain, so that no domain clashes with what is known of them.
    if !course.levels.tell(alloc, &id.space, tells)? {
        return Err(AllocError);
    }
    Ok(go_on(id, 1, course))
}

/// The thread at the head of the queue can't step yet.
fn rest(course: &mut Course) -> Stepped
    ensures turn { (statements : List Statement) (mover : Ident) → first course.old.queue ≡ Some mover
        → settled statements (Some mover) 1 (stepping course.old) ≡ (result, config_of statements course.new) }
    ensures cost { cost_of result ≡ 1 }
{
    course.levels.consistent();
    follow(1, course)
}

/// The thread steps as its statement answered, which shows nothing. The answer is of no use afterwards.
fn make_step(
    alloc: Global,
    kernel: &Kernel,
    id: &Ident,
    answer: &mut Answer,
    kept: bool,
    sleeping: &mut Sleeping,
    course: &mut Course,
) -> Result<Stepped, AllocError>
    requires head { first course.old.queue ≡ Some id.now }
    requires there { is_some (layer_at course.old.levels id.now.space) ≡ true }
    requires kept { KeepsHead kernel.now.statements id.now kept course.old }
    requires shown { shows answer.old ≡ false }
    requires asleep { Pends kernel.now.statements sleeping.old course.old }
    ensures turn { (a : answers.Answer) → IsAnswer a answer.old → IfOk result (λ stepped. after_answer kernel.now id.now (without_top id.now course.old.levels) (stepping course.old) a ≡ (stepped, config_of kernel.now.statements course.new)) }
    ensures cost { IfOk result (λ stepped. cost_of stepped ≡ 1) }
    ensures err { OnErr result (course.new ≡ course.old) }
    ensures asleep { Sleeps kernel.now.statements sleeping.new course.new }
{
    match answer {
        Answer::Rests => Ok(rest(course)),
        Answer::Operates { .. } => Ok(rest(course)),
        Answer::Edits(edit) => make_edit(alloc, kernel, id, edit, course),
        Answer::Acts(what) => make_act(alloc, kernel, id, what, kept, sleeping, course),
        Answer::Widens(tells) => widen(alloc, id, tells.as_slice(), course),
        Answer::RaisesKind(kind) => raise_kind(alloc, id, *kind, course),
        Answer::RaisesTerm(exception) => raise(
            alloc,
            kernel,
            id,
            exception.copied(alloc)?,
            kept,
            course,
        ),
    }
}

/// What a step costs that shows so many nodes.
fn text_cost(nodes: u64) -> Result<u64, AllocError>
    ensures { IfOk result (λ cost. cost ≡ 1 + nodes) }
{
    match nodes.checked_add(1) {
        None => Err(AllocError),
        Some(cost) => Ok(cost),
    }
}

/// The thread shows a text, which is made already.
fn show_text(
    alloc: Global,
    kernel: &Kernel,
    id: &Ident,
    text: Text,
    kept: bool,
    course: &mut Course,
) -> Result<Stepped, AllocError>
    requires head { first course.old.queue ≡ Some id.now }
    requires kept { KeepsHead kernel.now.statements id.now kept course.old }
    ensures turn { IfOk result (λ stepped.
        shown_by kernel.now.statements id.now (record { bytes = text.bytes; nodes = text.nodes }) (without_top id.now course.old.levels) (stepping course.old) ≡ (stepped, config_of kernel.now.statements course.new)) }
    ensures cost { IfOk result (λ stepped. cost_of stepped ≡ 1 + text.nodes) }
    ensures err { OnErr result (course.new ≡ course.old) }
{
    let Text { bytes, nodes } = text;
    let cost = text_cost(nodes)?;
    course.shown.push(alloc, bytes)?;
    take_off(&mut course.levels, id);
    if kept {
        return Ok(go_on_quietly(alloc, kernel, id, None, false, cost, course));
    }
    course.levels.consistent();
    Ok(go_on(id, cost, course))
}

/// The thread shows a term, unless that costs more than the fuel: then nothing changes.
fn show(
    alloc: Global,
    kernel: &Kernel,
    place: usize,
    id: &Ident,
    variable: &Ident,
    kept: bool,
    course: &mut Course,
    fuel: u64,
) -> Result<Option<Stepped>, AllocError>
    requires within { place < length course.old.levels }
    requires place { Some place ≡ position (is_of id.now.space) course.old.levels }
    requires head { first course.old.queue ≡ Some id.now }
    requires kept { KeepsHead kernel.now.statements id.now kept course.old }
    requires fuel { 1 ≤ fuel }
    ensures turn { IfOk result (IsTurn (after_answer kernel.now id.now (without_top id.now course.old.levels) (stepping course.old) (answers.Acts (answers.Shows variable.now))) fuel (config_of kernel.now.statements course.old) (config_of kernel.now.statements course.new)) }
    ensures cost { IfOk result (λ turned. IfSome turned (CostsWithin fuel)) }
    ensures err { OnErr result (course.new ≡ course.old) }
{
    let store = course.levels.store_at(place);
    match term_text(alloc, &kernel.words, store, variable, fuel - 1)? {
        None => Ok(None),
        Some(text) => Ok(Some(show_text(alloc, kernel, id, text, kept, course)?)),
    }
}

/// The variable that an act shows, if it shows one.
fn shown_by(what: &Act) -> Option<&Ident>
    ensures { MatchOption (option_copied result) (is_shown (act_of what.now) ≡ false) (λ x. what.now ≡ Act.Shows x) }
{
    match what {
        Act::Shows(variable) => Some(variable),
        _ => None,
    }
}

/// The variable that a thread shows by an answer, if it shows one.
fn shown(answer: &Answer) -> Option<&Ident>
    ensures { MatchOption (option_copied result) (shows answer.now ≡ false) (λ x. answer.now ≡ Answer.Acts (Act.Shows x)) }
{
    match answer {
        Answer::Acts(what) => shown_by(what),
        Answer::Edits(_)
        | Answer::RaisesKind(_)
        | Answer::RaisesTerm(_)
        | Answer::Operates { .. }
        | Answer::Widens(_)
        | Answer::Rests => None,
    }
}

/// The thread steps as its statement answered, unless that costs more than the fuel: then nothing changes. The answer is of no use
/// afterwards.
fn step_as(
    alloc: Global,
    kernel: &Kernel,
    place: usize,
    id: &Ident,
    answer: &mut Answer,
    kept: bool,
    sleeping: &mut Sleeping,
    course: &mut Course,
    fuel: u64,
) -> Result<Option<Stepped>, AllocError>
    requires within { place < length course.old.levels }
    requires place { Some place ≡ position (is_of id.now.space) course.old.levels }
    requires head { first course.old.queue ≡ Some id.now }
    requires kept { KeepsHead kernel.now.statements id.now kept course.old }
    requires fuel { 1 ≤ fuel }
    requires asleep { Pends kernel.now.statements sleeping.old course.old }
    ensures turn { (a : answers.Answer) → IsAnswer a answer.old → IfOk result (IsTurn (after_answer kernel.now id.now (without_top id.now course.old.levels) (stepping course.old) a) fuel (config_of kernel.now.statements course.old) (config_of kernel.now.statements course.new)) }
    ensures cost { IfOk result (λ turned. IfSome turned (CostsWithin fuel)) }
    ensures err { OnErr result (course.new ≡ course.old) }
    ensures asleep { Sleeps kernel.now.statements sleeping.new course.new }
{
    if let Some(variable) = shown(answer) {
        return show(alloc, kernel, place, id, variable, kept, course, fuel);
    }
    Ok(Some(make_step(alloc, kernel, id, answer, kept, sleeping, course)?))
}

/// The thread makes the declaration on top of its stack.
fn declare(
    alloc: Global,
    kernel: &Kernel,
    id: &Ident,
    names: &[Identifier],
    body: &[u32],
    kept: bool,
    sleeping: &mut Sleeping,
    course: &mut Course,
) -> Result<Stepped, AllocError>
    requires head { first course.old.queue ≡ Some id.now }
    requires there { is_some (layer_at course.old.levels id.now.space) ≡ true }
    requires kept { KeepsHead kernel.now.statements id.now kept course.old }
    requires declared { IsDeclaration kernel.now.statements (stack_of course.old.levels id.now) names.now body.now }
    requires asleep { Pends kernel.now.statements sleeping.old course.old }
    ensures turn { IfOk result (λ made. stepped kernel.now id.now (stepping course.old) ≡ (made, config_of kernel.now.statements course.new)) }
    ensures cost { IfOk result (λ made. cost_of made ≡ 1) }
    ensures err { OnErr result (course.new ≡ course.old) }
    ensures asleep { Sleeps kernel.now.statements sleeping.new course.new }
{
    course.levels.declare_in(alloc, id, names, body)?;
    if kept {
        let stepped = go_on_quietly(alloc, kernel, id, None, true, 1, course);
        sleeping.resume();
        return Ok(stepped);
    }
    course.levels.consistent();
    Ok(go_on(id, 1, course))
}

/// Whether an answer goes by the state of a space.
fn operates(answer: &Answer) -> bool
    ensures { result ≡ operates answer.now }
{
    match answer {
        Answer::Operates { .. } => true,
        Answer::Acts(_)
        | Answer::Edits(_)
        | Answer::RaisesKind(_)
        | Answer::RaisesTerm(_)
        | Answer::Widens(_)
        | Answer::Rests => false,
    }
}

/// The thread steps as its statement answered by the states of the spaces in its own.
fn step_outcome(
    alloc: Global,
    kernel: &Kernel,
    place: usize,
    id: &Ident,
    outcome: Outcome,
    kept: bool,
    course: &mut Course,
    fuel: u64,
) -> Result<Option<Stepped>, AllocError>
    requires within { place < length course.old.levels }
    requires place { Some place ≡ position (is_of id.now.space) course.old.levels }
    requires head { first course.old.queue ≡ Some id.now }
    requires kept { KeepsHead kernel.now.statements id.now kept course.old }
    requires fuel { 1 ≤ fuel }
    ensures turn { (a : answers.Answer) → IsOutcome a outcome → IfOk result (IsTurn (after_answer kernel.now id.now (without_top id.now course.old.levels) (stepping course.old) a) fuel (config_of kernel.now.statements course.old) (config_of kernel.now.statements course.new)) }
    ensures cost { IfOk result (λ turned. IfSome turned (CostsWithin fuel)) }
    ensures err { OnErr result (course.new ≡ course.old) }
{
    match outcome {
        Outcome::Answers(answer) => {
            let mut answer = answer;
            let mut nobody = Sleeping::unknown(alloc);
            step_as(
                alloc,
                kernel,
                place,
                id,
                &mut answer,
                kept,
                &mut nobody,
                course,
                fuel,
            )
        }
        Outcome::GivesTerm { variable, nodes } => Ok(Some(make_term(
            alloc,
            kernel,
            id,
            &variable,
            nodes.as_slice(),
            course,
        )?)),
    }
}

/// What the statement on top of a thread's stack answers, by the states of the spaces in its own.
fn outcome(
    alloc: Global,
    statements: &[Statement],
    levels: &Levels,
    place: usize,
    id: &Ident,
) -> Result<Outcome, AllocError>
    requires within { place < length levels.now }
    requires place { Some place ≡ position (is_of id.now.space) levels.now }
    ensures { IfOk result (IsOutcome (answer_in statements.now levels.now (states_of statements.now levels.now) id.now.space (stack_of levels.now id.now))) }
{
    let states = states_of(alloc, statements, levels)?;
    answer_in(
        alloc,
        statements,
        levels,
        &states,
        place,
        levels.top_frame(id),
    )
}

/// A step of the thread at the head of the queue, whose statement goes by the states of the spaces in its own.
fn step_operating(
    alloc: Global,
    kernel: &Kernel,
    place: usize,
    id: &Ident,
    kept: bool,
    course: &mut Course,
    fuel: u64,
) -> Result<Option<Stepped>, AllocError>
    requires within { place < length course.old.levels }
    requires place { Some place ≡ position (is_of id.now.space) course.old.levels }
    requires head { first course.old.queue ≡ Some id.now }
    requires kept { KeepsHead kernel.now.statements id.now kept course.old }
    requires fuel { 1 ≤ fuel }
    ensures turn { IfOk result (IsTurn (stepped kernel.now id.now (stepping course.old)) fuel (config_of kernel.now.statements course.old) (config_of kernel.now.statements course.new)) }
    ensures cost { IfOk result (λ turned. IfSome turned (CostsWithin fuel)) }
    ensures err { OnErr result (course.new ≡ course.old) }
{
    let statements = kernel.statements.as_slice();
    let outcome = outcome(alloc, statements, &course.levels, place, id)?;
    step_outcome(alloc, kernel, place, id, outcome, kept, course, fuel)
}

/// A step of the thread at the head of the queue, whose answer is made now.
fn step_answering(
    alloc: Global,
    kernel: &Kernel,
    place: usize,
    id: &Ident,
    kept: bool,
    sleeping: &mut Sleeping,
    course: &mut Course,
    fuel: u64,
) -> Result<Option<Stepped>, AllocError>
    requires within { place < length course.old.levels }
    requires place { Some place ≡ position (is_of id.now.space) course.old.levels }
    requires head { first course.old.queue ≡ Some id.now }
    requires kept { KeepsHead kernel.now.statements id.now kept course.old }
    requires fuel { 1 ≤ fuel }
    requires asleep { Pends kernel.now.statements sleeping.old course.old }
    ensures turn { IfOk result (IsTurn (stepped kernel.now id.now (stepping course.old)) fuel (config_of kernel.now.statements course.old) (config_of kernel.now.statements course.new)) }
    ensures cost { IfOk result (λ turned. IfSome turned (CostsWithin fuel)) }
    ensures err { OnErr result (course.new ≡ course.old) }
    ensures asleep { Sleeps kernel.now.statements sleeping.new course.new }
{
    let statements = kernel.statements.as_slice();
    let mut answer = top_answer(alloc, statements, &course.levels, place, id)?;
    step_answered(
        alloc,
        kernel,
        place,
        id,
        &mut answer,
        kept,
        sleeping,
        course,
        fuel,
    )
}

/// A step of the thread at the head of the queue, whose answer was not made. A declaration needs none.
fn step_anew(
    alloc: Global,
    kernel: &Kernel,
    place: usize,
    id: &Ident,
    kept: bool,
    sleeping: &mut Sleeping,
    course: &mut Course,
    fuel: u64,
) -> Result<Option<Stepped>, AllocError>
    requires within { place < length course.old.levels }
    requires place { Some place ≡ position (is_of id.now.space) course.old.levels }
    requires head { first course.old.queue ≡ Some id.now }
    requires kept { KeepsHead kernel.now.statements id.now kept course.old }
    requires fuel { 1 ≤ fuel }
    requires asleep { Pends kernel.now.statements sleeping.old course.old }
    ensures turn { IfOk result (IsTurn (stepped kernel.now id.now (stepping course.old)) fuel (config_of kernel.now.statements course.old) (config_of kernel.now.statements course.new)) }
    ensures cost { IfOk result (λ turned. IfSome turned (CostsWithin fuel)) }
    ensures err { OnErr result (course.new ≡ course.old) }
    ensures asleep { Sleeps kernel.now.statements sleeping.new course.new }
{
    match declaration(kernel.statements.as_slice(), &course.levels, id) {
        None => step_answering(alloc, kernel, place, id, kept, sleeping, course, fuel),
        Some((names, body)) => Ok(Some(declare(
            alloc, kernel, id, names, body, kept, sleeping, course,
        )?)),
    }
}

/// A step of the thread at the head of the queue, whose answer was made already.
fn step_answered(
    alloc: Global,
    kernel: &Kernel,
    place: usize,
    id: &Ident,
    answer: &mut Answer,
    kept: bool,
    sleeping: &mut Sleeping,
    course: &mut Course,
    fuel: u64,
) -> Result<Option<Stepped>, AllocError>
    requires within { place < length course.old.levels }
    requires place { Some place ≡ position (is_of id.now.space) course.old.levels }
    requires head { first course.old.queue ≡ Some id.now }
    requires answered { IsAnswer (stack_answer (sight kernel.now.statements course.old.levels id.now.space) (stack_of course.old.levels id.now)) answer.old }
    requires kept { KeepsHead kernel.now.statements id.now kept course.old }
    requires fuel { 1 ≤ fuel }
    requires asleep { Pends kernel.now.statements sleeping.old course.old }
    ensures turn { IfOk result (IsTurn (stepped kernel.now id.now (stepping course.old)) fuel (config_of kernel.now.statements course.old) (config_of kernel.now.statements course.new)) }
    ensures cost { IfOk result (λ turned. IfSome turned (CostsWithin fuel)) }
    ensures err { OnErr result (course.new ≡ course.old) }
    ensures asleep { Sleeps kernel.now.statements sleeping.new course.new }
{
    if operates(answer) {
        return step_operating(alloc, kernel, place, id, kept, course, fuel);
    }
    step_as(
        alloc, kernel, place, id, answer, kept, sleeping, course, fuel,
    )
}

/// A step of the thread at the head of the queue, of which nothing is known. It can't step where its space is not there.
fn step_unknown(
    alloc: Global,
    kernel: &Kernel,
    id: &Ident,
    kept: bool,
    sleeping: &mut Sleeping,
    course: &mut Course,
    fuel: u64,
) -> Result<Option<Stepped>, AllocError>
    requires head { first course.old.queue ≡ Some id.now }
    requires kept { KeepsHead kernel.now.statements id.now kept course.old }
    requires fuel { 1 ≤ fuel }
    requires asleep { Pends kernel.now.statements sleeping.old course.old }
    ensures turn { IfOk result (IsTurn (stepped kernel.now id.now (stepping course.old)) fuel (config_of kernel.now.statements course.old) (config_of kernel.now.statements course.new)) }
    ensures cost { IfOk result (λ turned. IfSome turned (CostsWithin fuel)) }
    ensures err { OnErr result (course.new ≡ course.old) }
    ensures asleep { Sleeps kernel.now.statements sleeping.new course.new }
{
    let Some(place) = course.levels.place(&id.space) else {
        course.levels.consistent();
        return Ok(Some(follow(1, course)));
    };
    step_anew(alloc, kernel, place, id, kept, sleeping, course, fuel)
}

/// A step of the thread at the head of the queue, on top of whose stack stands the declaration with a number.
fn step_declaring(
    alloc: Global,
    kernel: &Kernel,
    number: u32,
    id: &Ident,
    kept: bool,
    sleeping: &mut Sleeping,
    course: &mut Course,
    fuel: u64,
) -> Result<Option<Stepped>, AllocError>
    requires head { first course.old.queue ≡ Some id.now }
    requires there { is_some (layer_at course.old.levels id.now.space) ≡ true }
    requires stands { Stands (stack_of course.old.levels id.now) number }
    requires kept { KeepsHead kernel.now.statements id.now kept course.old }
    requires fuel { 1 ≤ fuel }
    requires asleep { Pends kernel.now.statements sleeping.old course.old }
    ensures turn { IfOk result (IsTurn (stepped kernel.now id.now (stepping course.old)) fuel (config_of kernel.now.statements course.old) (config_of kernel.now.statements course.new)) }
    ensures cost { IfOk result (λ turned. IfSome turned (CostsWithin fuel)) }
    ensures err { OnErr result (course.new ≡ course.old) }
    ensures asleep { Sleeps kernel.now.statements sleeping.new course.new }
{
    match declaration_at(kernel.statements.as_slice(), number) {
        None => step_unknown(alloc, kernel, id, kept, sleeping, course, fuel),
        Some((names, body)) => Ok(Some(declare(
            alloc, kernel, id, names, body, kept, sleeping, course,
        )?)),
    }
}

/// A step of the thread at the head of the queue. What its statement does was found already, or it is found now. None exactly where the
/// step costs more than the fuel: it is not made, and nothing changes.
fn step_of(
    alloc: Global,
    kernel: &Kernel,
    id: &Ident,
    answered: &mut Head,
    kept: bool,
    sleeping: &mut Sleeping,
    course: &mut Course,
    fuel: u64,
) -> Result<Option<Stepped>, AllocError>
    requires head { first course.old.queue ≡ Some id.now }
    requires answered { IsHeadAnswer kernel.now.statements course.old.levels course.old.queue answered.old }
    requires kept { KeepsHead kernel.now.statements id.now kept course.old }
    requires fuel { 1 ≤ fuel }
    requires asleep { Pends kernel.now.statements sleeping.old course.old }
    ensures turn { IfOk result (IsTurn (stepped kernel.now id.now (stepping course.old)) fuel (config_of kernel.now.statements course.old) (config_of kernel.now.statements course.new)) }
    ensures cost { IfOk result (λ turned. IfSome turned (CostsWithin fuel)) }
    ensures err { OnErr result (course.new ≡ course.old) }
    ensures asleep { Sleeps kernel.now.statements sleeping.new course.new }
{
    match answered {
        Head::Unknown => step_unknown(alloc, kernel, id, kept, sleeping, course, fuel),
        Head::Declares { number } => {
            step_declaring(alloc, kernel, *number, id, kept, sleeping, course, fuel)
        }
        Head::Answers { place, answer } => step_answered(
            alloc, kernel, *place, id, answer, kept, sleeping, course, fuel,
        ),
    }
}

/// The head of the queue makes a step, where nobody and no propagator is due.
fn take_step(
    alloc: Global,
    kernel: &Kernel,
    answered: &mut Head,
    kept: bool,
    sleeping: &mut Sleeping,
    course: &mut Course,
    fuel: u64,
) -> Result<Option<Stepped>, AllocError>
    requires due { course.old.due ≡ Nobody }
    requires least { least_due course.old.levels ≡ None }
    requires answered { IsHeadAnswer kernel.now.statements course.old.levels course.old.queue answered.old }
    requires kept { Keeps kernel.now.statements kept course.old }
    requires asleep { Pends kernel.now.statements sleeping.old course.old }
    ensures turn { IfOk result (IsTurn (turn kernel.now (config_of kernel.now.statements course.old)) fuel (config_of kernel.now.statements course.old) (config_of kernel.now.statements course.new)) }
    ensures cost { IfOk result (λ turned. IfSome turned (CostsWithin fuel)) }
    ensures err { OnErr result (course.new ≡ course.old) }
    ensures asleep { Sleeps kernel.now.statements sleeping.new course.new }
{
    let Some(id) = course.queue.first() else {
        return Ok(Some(Stepped::Quiescent));
    };
    if fuel == 0 {
        return Ok(None);
    }
    let id = id.copied(alloc)?;
    step_of(alloc, kernel, &id, answered, kept, sleeping, course, fuel)
}

/// The least propagator that is due runs, unless there is no fuel.
fn take_run(
    alloc: Global,
    kernel: &Kernel,
    due: DuePropagator,
    course: &mut Course,
    fuel: u64,
) -> Result<Option<Stepped>, AllocError>
    requires due { course.old.due ≡ Nobody }
    requires least { IsLeastDue course.old.levels due }
    ensures turn { IfOk result (IsTurn (turn kernel.now (config_of kernel.now.statements course.old)) fuel (config_of kernel.now.statements course.old) (config_of kernel.now.statements course.new)) }
    ensures cost { IfOk result (λ turned. IfSome turned (CostsWithin fuel)) }
    ensures err { OnErr result (course.new ≡ course.old) }
{
    if fuel == 0 {
        return Ok(None);
    }
    Ok(Some(propagate(alloc, kernel, due, course)?))
}

/// The least propagator that is due runs, or else the head of the queue makes a step, where nobody is due.
fn take_turn(
    alloc: Global,
    kernel: &Kernel,
    answered: &mut Head,
    kept: bool,
    sleeping: &mut Sleeping,
    course: &mut Course,
    fuel: u64,
) -> Result<Option<Stepped>, AllocError>
    requires due { course.old.due ≡ Nobody }
    requires answered { IsHeadAnswer kernel.now.statements course.old.levels course.old.queue answered.old }
    requires kept { Keeps kernel.now.statements kept course.old }
    requires asleep { Pends kernel.now.statements sleeping.old course.old }
    ensures turn { IfOk result (IsTurn (turn kernel.now (config_of kernel.now.statements course.old)) fuel (config_of kernel.now.statements course.old) (config_of kernel.now.statements course.new)) }
    ensures cost { IfOk result (λ turned. IfSome turned (CostsWithin fuel)) }
    ensures err { OnErr result (course.new ≡ course.old) }
    ensures asleep { Sleeps kernel.now.statements sleeping.new course.new }
{
    if let Some(due) = least_due(&course.levels) {
        return take_run(alloc, kernel, due, course, fuel);
    }
    take_step(alloc, kernel, answered, kept, sleeping, course, fuel)
}

/// Whether all that was known to hold before a turn is known after it: the top has not ended.
fn is_still_kept(was: bool, turned: &Option<Stepped>) -> bool
    ensures was { result ≡ true → was ≡ true }
    ensures turned { result ≡ true → IfSome turned.now HasNotEnded }
{
    match turned {
        Some(Stepped::TopEnded { .. }) => false,
        Some(Stepped::Moved { .. }) | Some(Stepped::Quiescent) | None => was,
    }
}

/// A turn, where nobody is due. None exactly where it costs more than the fuel: it is not made, and nothing changes. What was known to
/// hold from turn to turn is known after it too, unless the top has ended. The answer that the head made already, if it did, is of no use
/// afterwards.
pub fn turn(
    alloc: Global,
    kernel: &Kernel,
    answered: &mut Head,
    course: &mut Course,
    kept: &mut bool,
    sleeping: &mut Sleeping,
    fuel: u64,
) -> Result<Option<Stepped>, AllocError>
    requires due { course.old.due ≡ Nobody }
    requires answered { IsHeadAnswer kernel.now.statements course.old.levels course.old.queue answered.old }
    requires kept { Keeps kernel.now.statements kept.old course.old }
    requires asleep { Sleeps kernel.now.statements sleeping.old course.old }
    ensures turn { IfOk result (IsTurn (turn kernel.now (config_of kernel.now.statements course.old)) fuel (config_of kernel.now.statements course.old) (config_of kernel.now.statements course.new)) }
    ensures cost { IfOk result (λ turned. IfSome turned (CostsWithin fuel)) }
    ensures kept { Keeps kernel.now.statements kept.new course.new }
    ensures err { OnErr result (course.new ≡ course.old) }
    ensures asleep { Sleeps kernel.now.statements sleeping.new course.new }
{
    sleeping.begin_turn();
    let turned = take_turn(alloc, kernel, answered, *kept, sleeping, course, fuel)?;
    sleeping.end_turn();
    *kept = is_still_kept(*kept, &turned);
    Ok(turned)
}

/// A turn, where nobody is due and no answer was made already.
fn turn_anew(
    alloc: Global,
    kernel: &Kernel,
    course: &mut Course,
    kept: &mut bool,
    sleeping: &mut Sleeping,
    fuel: u64,
) -> Result<Option<Stepped>, AllocError>
    requires due { course.old.due ≡ Nobody }
    requires kept { Keeps kernel.now.statements kept.old course.old }
    requires asleep { Sleeps kernel.now.statements sleeping.old course.old }
    ensures turn { IfOk result (IsTurn (turn kernel.now (config_of kernel.now.statements course.old)) fuel (config_of kernel.now.statements course.old) (config_of kernel.now.statements course.new)) }
    ensures cost { IfOk result (λ turned. IfSome turned (CostsWithin fuel)) }
    ensures kept { Keeps kernel.now.statements kept.new course.new }
    ensures err { OnErr result (course.new ≡ course.old) }
    ensures asleep { Sleeps kernel.now.statements sleeping.new course.new }
{
    let mut answered = Head::Unknown;
    turn(alloc, kernel, &mut answered, course, kept, sleeping, fuel)
}

/// A turn, after those who are due were asked.
pub fn step(
    alloc: Global,
    kernel: &Kernel,
    course: &mut Course,
    kept: &mut bool,
    sleeping: &mut Sleeping,
    fuel: u64,
) -> Result<Option<Stepped>, AllocError>
    requires kept { Keeps kernel.now.statements kept.old course.old }
    requires asleep { Sleeps kernel.now.statements sleeping.old course.old }
    ensures turn { IfOk result (IsTurn (turn kernel.now (config_of kernel.now.statements course.old)) fuel (config_of kernel.now.statements course.old) (config_of kernel.now.statements course.new)) }
    ensures cost { IfOk result (λ turned. IfSome turned (CostsWithin fuel)) }
    ensures kept { Keeps kernel.now.statements kept.new course.new }
    ensures err { OnErr result (config_of kernel.now.statements course.new ≡ config_of kernel.now.statements course.old) }
    ensures asleep { Sleeps kernel.now.statements sleeping.new course.new }
{
    settle_only(alloc, kernel.statements.as_slice(), course, sleeping)?;
    turn_anew(alloc, kernel, course, kept, sleeping, fuel)
}
