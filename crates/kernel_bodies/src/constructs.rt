//! Constructs with bodies.
ghost use Rattle.std.specs.Prelude.{◌≡◌, ℕ, List, ◌∷◌, Some, None, OnOk, IfOk};
ghost use Rattle.oz_language.specs.Grammar.{nothing, more, arm, of_list};
ghost use Rattle.oz_language.specs.Translation.{made, statement, attempted, caught_in, handled, translated, translated_each, valued_last, arms_made, clauses_made, alternatives};
ghost use Rattle.oz_language.specs.Kernels.{none, just};
ghost use Rattle.oz_language.specs.Kernels as k;
ghost use Rattle.oz_syntax.specs.View.{view, views};
ghost use Rattle.kernel_bodies.specs.Bodies.{local_made, thread_made, choice_made, choose_made, case_made, case_else_made, arm_first, clause_first, handled_first, then_valued, try_made, body_made, last_statements, construct_made};
ghost use Rattle.kernel_writer.specs.declared.tasks.Task.TheVariants as task;
ghost use Rattle.kernel_writer.specs.declared.tasks.Closing.TheVariants as closing;
ghost use Rattle.kernel_writer.specs.Goals.{goal_of};
ghost use Rattle.kernel_writer.specs.Tasks.{last_made, state_of, begun, chosen, no_alternatives, done, all_done, declarations_begun, declarations_ending, standing, outcome, outcome_with};

use kernel_output::{declared, split, variable_of};
use kernel_patterns::pieces;
use kernel_writer::{Closing, Goal, Last, Task, Writer};
use oz_base::{Sequence, Words};
use oz_language::{Identifier, Piece, Statement};
use oz_syntax::Phrase;
use std::alloc::AllocError;

/// The variable in which a clause catches all.
fn caught_by(clause: &Phrase) -> Option<Identifier>
    ensures { result ≡ caught_in (more (view clause.now) nothing) }
{
    match clause {
        Phrase::Clause { pattern, .. } => variable_of(pattern),
        _ => None,
    }
}

/// The variable in which the one clause of a `try` catches all.
#[tactic(auto, using(crate::proofs::Cases::many_not_caught))]
fn caught_in(clauses: &[Phrase]) -> Option<Identifier>
    ensures { result ≡ caught_in (of_list (views clauses.now)) }
{
    match clauses {
        [clause] => caught_by(clause),
        _ => None,
    }
}

/// Statements, or `skip` where there are none.
#[tactic(auto, using(crate::proofs::Cases::standing_some))]
fn statements_or_skip(phrases: &[Phrase]) -> Task<'_>
    ensures { result ≡ standing (of_list (views phrases.now)) phrases.entry }
{
    match phrases {
        [] => Task::Statement {
            statement: Statement::Skip,
        },
        [_, ..] => Task::Each { phrases },
    }
}

/// A construct with bodies.
pub fn construct<'a>(
    writer: &mut Writer<'a>,
    words: &Words,
    goal: Goal,
    phrase: &'a Phrase,
) -> Result<(), AllocError>
    ensures { OnOk result (outcome words.now writer.new ≡ outcome_with words.now writer.old (construct_made words.now (goal_of goal) writer.old.numbers.next (view phrase.now))) }
{
    match phrase {
        Phrase::Local {
            declarations,
            body,
            ..
        } => local(writer, goal, declarations, body),
        Phrase::Thread { body, .. } => thread(writer, goal, body),
        Phrase::Choice { alternatives, .. } => choice(writer, goal, alternatives),
        Phrase::If { arms, .. } => writer.later(Task::Arms {
            goal,
            arms,
            last: Last::Skip,
        }),
        Phrase::IfElse {
            arms,
            otherwise,
            ..
        } => choose(writer, goal, arms, otherwise),
        Phrase::Case {
            subject,
            clauses,
            ..
        } => cases(writer, goal, subject, clauses, Last::NoMatch),
        Phrase::CaseElse {
            subject,
            clauses,
            otherwise,
            ..
        } => cases_or(writer, goal, subject, clauses, otherwise),
        Phrase::Try { body, clauses } => attempt(writer, body, clauses),
        _ => writer.nothing(),
    }
}

/// `if A elseif .. else B end`
fn choose<'a>(
    writer: &mut Writer<'a>,
    goal: Goal,
    arms: &'a [Phrase],
    otherwise: &'a Phrase,
) -> Result<(), AllocError>
    ensures { OnOk result ((words : List (List ℕ)) → outcome words writer.new ≡ outcome_with words writer.old (choose_made words (goal_of goal) writer.old.numbers.next (of_list (views arms.now)) (view otherwise.now))) }
{
    writer.later(Task::Arms {
        goal,
        arms,
        last: Last::Phrase(otherwise),
    })
}

/// `case e of C [] .. else B end`
fn cases_or<'a>(
    writer: &mut Writer<'a>,
    goal: Goal,
    subject: &'a Phrase,
    clauses: &'a [Phrase],
    otherwise: &'a Phrase,
) -> Result<(), AllocError>
    ensures { OnOk result ((words : List (List ℕ)) → outcome words writer.new ≡ outcome_with words writer.old (case_else_made words (goal_of goal) writer.old.numbers.next (view subject.now) (of_list (views clauses.now)) (view otherwise.now))) }
{
    cases(writer, goal, subject, clauses, Last::Phrase(otherwise))
}

/// Begins the scope of what is declared, if there are declarations.
#[tactic(auto, using(crate::proofs::Cases::declarations_begin, crate::proofs::Cases::declarations_end))]
fn begin_declarations<'a>(
    writer: &mut Writer<'a>,
    declarations: &[Phrase],
) -> Result<(), AllocError>
    ensures state { OnOk result (state_of writer.new ≡ declarations_begun (of_list (views declarations.now)) (state_of writer.old)) }
    ensures tasks { OnOk result (writer.new.tasks ≡ declarations_ending (of_list (views declarations.now)) writer.old.tasks) }
{
    match declarations {
        [] => Ok(()),
        [_, ..] => {
            let names = declared(writer.alloc, &mut writer.declared, declarations)?;
            writer.begin()?;
            writer.put(Task::Close {
                closing: Closing::Local { names },
            })?;
            Ok(())
        }
    }
}

/// `local D .. in B end`
fn local<'a>(
    writer: &mut Writer<'a>,
    goal: Goal,
    declarations: &'a [Phrase],
    body: &'a Phrase,
) -> Result<(), AllocError>
    ensures { OnOk result ((words : List (List ℕ)) → outcome words writer.new ≡ outcome_with words writer.old (local_made words (goal_of goal) writer.old.numbers.next (of_list (views declarations.now)) (view body.now))) }
{
    begin_declarations(writer, declarations)?;
    writer.put(Task::Phrase { goal, phrase: body })?;
    writer.put(Task::Each {
        phrases: declarations,
    })?;
    Ok(())
}

/// `D .. in S ..` as statements
pub fn body<'a>(
    writer: &mut Writer<'a>,
    declarations: &'a [Phrase],
    phrases: &'a [Phrase],
) -> Result<(), AllocError>
    ensures { OnOk result ((words : List (List ℕ)) → outcome words writer.new ≡ outcome_with words writer.old (body_made words writer.old.numbers.next (of_list (views declarations.now)) (λ i. last_statements words i (of_list (views phrases.now))))) }
{
    begin_declarations(writer, declarations)?;
    writer.put(statements_or_skip(phrases))?;
    writer.put(Task::Each {
        phrases: declarations,
    })?;
    Ok(())
}

/// `D .. in S .. e`, for the value of a name
pub fn valued_body<'a>(
    writer: &mut Writer<'a>,
    name: Identifier,
    declarations: &'a [Phrase],
    phrases: &'a [Phrase],
) -> Result<(), AllocError>
    ensures { OnOk result ((words : List (List ℕ)) → outcome words writer.new ≡ outcome_with words writer.old (body_made words writer.old.numbers.next (of_list (views declarations.now)) (λ i. valued_last words name (of_list (views phrases.now)) i))) }
{
    begin_declarations(writer, declarations)?;
    writer.put(Task::ValuedLast { name, phrases })?;
    writer.put(Task::Each {
        phrases: declarations,
    })?;
    Ok(())
}

/// The first of statements, and then the others.
pub fn each<'a>(writer: &mut Writer<'a>, phrases: &'a [Phrase]) -> Result<(), AllocError>
    ensures { OnOk result ((words : List (List ℕ)) → outcome words writer.new ≡ outcome_with words writer.old (translated_each words writer.old.numbers.next (of_list (views phrases.now)))) }
{
    match split(phrases) {
        None => writer.nothing(),
        Some((phrase, others)) => first_of_each(writer, phrase, others),
    }
}

/// A statement, and then the others.
fn first_of_each<'a>(
    writer: &mut Writer<'a>,
    phrase: &'a Phrase,
    phrases: &'a [Phrase],
) -> Result<(), AllocError>
    ensures { OnOk result ((words : List (List ℕ)) → outcome words writer.new ≡ outcome_with words writer.old (translated_each words writer.old.numbers.next (more (view phrase.now) (of_list (views phrases.now))))) }
{
    writer.put(Task::Each { phrases })?;
    writer.put(Task::Phrase {
        goal: Goal::Statement,
        phrase,
    })?;
    Ok(())
}

/// The first of statements, and then the others, of which the last has a value.
pub fn valued_last<'a>(
    writer: &mut Writer<'a>,
    name: Identifier,
    phrases: &'a [Phrase],
) -> Result<(), AllocError>
    ensures { OnOk result ((words : List (List ℕ)) → outcome words writer.new ≡ outcome_with words writer.old (valued_last words name (of_list (views phrases.now)) writer.old.numbers.next)) }
{
    match split(phrases) {
        None => writer.nothing(),
        Some((phrase, others)) => first_of_valued(writer, name, phrase, others),
    }
}

/// A statement, and then the others, or the last phrase, which has the value.
fn first_of_valued<'a>(
    writer: &mut Writer<'a>,
    name: Identifier,
    phrase: &'a Phrase,
    phrases: &'a [Phrase],
) -> Result<(), AllocError>
    ensures { OnOk result ((words : List (List ℕ)) → outcome words writer.new ≡ outcome_with words writer.old (valued_last words name (more (view phrase.now) (of_list (views phrases.now))) writer.old.numbers.next)) }
{
    let Some(_) = split(phrases) else {
        writer.value_of(name, phrase)?;
        return Ok(());
    };
    then_valued(writer, name, phrase, phrases)?;
    Ok(())
}

/// A statement, and then the others.
fn then_valued<'a>(
    writer: &mut Writer<'a>,
    name: Identifier,
    phrase: &'a Phrase,
    phrases: &'a [Phrase],
) -> Result<(), AllocError>
    ensures { OnOk result ((words : List (List ℕ)) → outcome words writer.new ≡ outcome_with words writer.old (then_valued words name writer.old.numbers.next (view phrase.now) (of_list (views phrases.now)))) }
{
    writer.put(Task::ValuedLast { name, phrases })?;
    writer.put(Task::Phrase {
        goal: Goal::Statement,
        phrase,
    })?;
    Ok(())
}

/// `thread B end`
fn thread<'a>(writer: &mut Writer<'a>, goal: Goal, body: &'a Phrase) -> Result<(), AllocError>
    ensures { OnOk result ((words : List (List ℕ)) → outcome words writer.new ≡ outcome_with words writer.old (thread_made words (goal_of goal) writer.old.numbers.next (view body.now))) }
{
    writer.begin()?;
    writer.put(Task::Close {
        closing: Closing::Thread,
    })?;
    writer.put(Task::Phrase { goal, phrase: body })?;
    Ok(())
}

/// `choice B [] .. end`
fn choice<'a>(writer: &mut Writer<'a>, goal: Goal, phrases: &'a [Phrase]) -> Result<(), AllocError>
    ensures { OnOk result ((words : List (List ℕ)) → outcome words writer.new ≡ outcome_with words writer.old (choice_made words (goal_of goal) writer.old.numbers.next (of_list (views phrases.now)))) }
{
    let bodies = Sequence::new(writer.alloc);
    writer.put(Task::Alternatives {
        goal,
        bodies,
        phrases,
    })?;
    Ok(())
}

/// The first of the alternatives of a choice that are left, or the choice itwriter.
pub fn alternatives<'a>(
    writer: &mut Writer<'a>,
    goal: Goal,
    bodies: Sequence<Sequence<u32>>,
    phrases: &'a [Phrase],
) -> Result<(), AllocError>
    ensures { OnOk result ((words : List (List ℕ)) → outcome words writer.new ≡ all_done words writer.old.tasks (chosen (state_of writer.old) bodies (alternatives words (goal_of goal) writer.old.numbers.next (of_list (views phrases.now))))) }
{
    match split(phrases) {
        None => chosen(writer, bodies),
        Some((phrase, others)) => alternative(writer, goal, bodies, phrase, others),
    }
}

/// A choice whose bodies are all written.
fn chosen<'a>(writer: &mut Writer<'a>, bodies: Sequence<Sequence<u32>>) -> Result<(), AllocError>
    ensures { OnOk result ((words : List (List ℕ)) → outcome words writer.new ≡ all_done words writer.old.tasks (chosen (state_of writer.old) bodies (no_alternatives writer.old.numbers.next))) }
{
    writer.output.choice(bodies)?;
    Ok(())
}

/// An alternative of a choice, and then the others.
fn alternative<'a>(
    writer: &mut Writer<'a>,
    goal: Goal,
    bodies: Sequence<Sequence<u32>>,
    phrase: &'a Phrase,
    phrases: &'a [Phrase],
) -> Result<(), AllocError>
    ensures { OnOk result ((words : List (List ℕ)) → outcome words writer.new ≡ all_done words writer.old.tasks (chosen (state_of writer.old) bodies (alternatives words (goal_of goal) writer.old.numbers.next (more (view phrase.now) (of_list (views phrases.now)))))) }
{
    writer.begin()?;
    writer.put(Task::Gather {
        goal,
        bodies,
        phrases,
    })?;
    writer.put(Task::Phrase { goal, phrase })?;
    Ok(())
}

/// One more body of a choice, which ends.
pub fn gather<'a>(
    writer: &mut Writer<'a>,
    goal: Goal,
    mut bodies: Sequence<Sequence<u32>>,
    phrases: &'a [Phrase],
) -> Result<(), AllocError>
    ensures { OnOk result ((words : List (List ℕ)) → outcome words writer.new ≡ all_done words writer.old.tasks (done words (task.Gather goal bodies phrases.entry) (state_of writer.old))) }
{
    let body = writer.end()?;
    bodies.push(body)?;
    writer.put(Task::Alternatives {
        goal,
        bodies,
        phrases,
    })?;
    Ok(())
}

/// The arms of an `if` that are left.
pub fn remaining_arms<'a>(
    writer: &mut Writer<'a>,
    goal: Goal,
    arms: &'a [Phrase],
    last: Last<'a>,
) -> Result<(), AllocError>
    ensures { OnOk result ((words : List (List ℕ)) → outcome words writer.new ≡ outcome_with words writer.old (arms_made words (goal_of goal) (of_list (views arms.now)) (last_made words (goal_of goal) last.entry) writer.old.numbers.next)) }
{
    let Some((arm, others)) = split(arms) else {
        return go_on(writer, goal, last);
    };
    first_arm(writer, goal, arm, others, last)?;
    Ok(())
}

/// The first arm, and then the others. What is no arm is passed over.
fn first_arm<'a>(
    writer: &mut Writer<'a>,
    goal: Goal,
    arm: &'a Phrase,
    arms: &'a [Phrase],
    last: Last<'a>,
) -> Result<(), AllocError>
    ensures { OnOk result ((words : List (List ℕ)) → outcome words writer.new ≡ outcome_with words writer.old (arm_first words (goal_of goal) (view arm.now) (of_list (views arms.now)) (last_made words (goal_of goal) last.entry) writer.old.numbers.next)) }
{
    match arm {
        Phrase::Arm { condition, body } => put_arm(writer, goal, condition, body, arms, last),
        _ => writer.later(Task::Arms { goal, arms, last }),
    }
}

/// An arm: where its condition does not hold, the others follow.
fn put_arm<'a>(
    writer: &mut Writer<'a>,
    goal: Goal,
    condition: &'a Phrase,
    body: &'a Phrase,
    arms: &'a [Phrase],
    last: Last<'a>,
) -> Result<(), AllocError>
    ensures { OnOk result ((words : List (List ℕ)) → outcome words writer.new ≡ outcome_with words writer.old (arms_made words (goal_of goal) (more (arm (view condition.now) (view body.now)) (of_list (views arms.now))) (last_made words (goal_of goal) last.entry) writer.old.numbers.next)) }
{
    let name = writer.begin_part(condition)?;
    writer.put(Task::Close {
        closing: Closing::If { condition: name },
    })?;
    writer.put(Task::Arms { goal, arms, last })?;
    writer.put(Task::Begin)?;
    writer.put(Task::Phrase { goal, phrase: body })?;
    writer.put(Task::Begin)?;
    writer.fill(name, condition)?;
    Ok(())
}

/// `case e of C [] .. else .. end`
fn cases<'a>(
    writer: &mut Writer<'a>,
    goal: Goal,
    subject: &'a Phrase,
    clauses: &'a [Phrase],
    last: Last<'a>,
) -> Result<(), AllocError>
    ensures { OnOk result ((words : List (List ℕ)) → outcome words writer.new ≡ outcome_with words writer.old (case_made words (goal_of goal) writer.old.numbers.next (view subject.now) (of_list (views clauses.now)) (last_made words (goal_of goal) last.entry))) }
{
    let name = writer.begin_part(subject)?;
    writer.put(Task::Clauses {
        goal,
        subject: name,
        clauses,
        last,
    })?;
    writer.fill(name, subject)?;
    Ok(())
}

/// The clauses on a subject that are left.
pub fn remaining_clauses<'a>(
    writer: &mut Writer<'a>,
    words: &Words,
    goal: Goal,
    subject: Identifier,
    clauses: &'a [Phrase],
    last: Last<'a>,
) -> Result<(), AllocError>
    ensures { OnOk result (outcome words.now writer.new ≡ outcome_with words.now writer.old (clauses_made words.now (goal_of goal) subject (of_list (views clauses.now)) (last_made words.now (goal_of goal) last.entry) writer.old.numbers.next)) }
{
    let Some((clause, others)) = split(clauses) else {
        return go_on(writer, goal, last);
    };
    first_clause(writer, words, goal, subject, clause, others, last)?;
    Ok(())
}

/// The first clause, and then the others. What is no clause is passed over.
fn first_clause<'a>(
    writer: &mut Writer<'a>,
    words: &Words,
    goal: Goal,
    subject: Identifier,
    clause: &'a Phrase,
    clauses: &'a [Phrase],
    last: Last<'a>,
) -> Result<(), AllocError>
    ensures { OnOk result (outcome words.now writer.new ≡ outcome_with words.now writer.old (clause_first words.now (goal_of goal) subject (view clause.now) (of_list (views clauses.now)) (last_made words.now (goal_of goal) last.entry) writer.old.numbers.next)) }
{
    let rest = Task::Clauses {
        goal,
        subject,
        clauses,
        last,
    };
    match clause {
        Phrase::Clause { pattern, body } => {
            let nodes = pieces(writer.alloc, words, pattern)?;
            put_clause(writer, goal, subject, nodes, body, rest)?;
            Ok(())
        }
        _ => writer.later(rest),
    }
}

/// A clause, by the nodes of its pattern: where that does not match, the rest follows.
fn put_clause<'a>(
    writer: &mut Writer<'a>,
    goal: Goal,
    subject: Identifier,
    pattern: Sequence<Piece>,
    body: &'a Phrase,
    rest: Task<'a>,
) -> Result<(), AllocError>
    ensures tasks { OnOk result (writer.new.tasks ≡ task.Phrase goal body.entry ∷ task.Begin ∷ rest.entry ∷ task.Close (closing.Case subject pattern) ∷ writer.old.tasks) }
    ensures state { OnOk result (state_of writer.new ≡ begun (state_of writer.old)) }
{
    writer.begin()?;
    writer.put(Task::Close {
        closing: Closing::Case { subject, pattern },
    })?;
    writer.put(rest)?;
    writer.put(Task::Begin)?;
    writer.put(Task::Phrase { goal, phrase: body })?;
    Ok(())
}

/// What a chain of tests goes on with.
fn go_on<'a>(writer: &mut Writer<'a>, goal: Goal, last: Last<'a>) -> Result<(), AllocError>
    ensures { OnOk result ((words : List (List ℕ)) → outcome words writer.new ≡ outcome_with words writer.old (last_made words (goal_of goal) last.entry writer.old.numbers.next)) }
{
    match last {
        Last::Skip => writer.skip(),
        Last::NoMatch => writer.no_match(),
        Last::Raise(name) => writer.raise_name(name),
        Last::Phrase(phrase) => writer.later(Task::Phrase { goal, phrase }),
    }
}

/// `try B catch C [] .. end`. One clause that catches all in a variable needs no `case`.
fn attempt<'a>(
    writer: &mut Writer<'a>,
    body: &'a Phrase,
    clauses: &'a [Phrase],
) -> Result<(), AllocError>
    ensures { OnOk result ((words : List (List ℕ)) → outcome words writer.new ≡ outcome_with words writer.old (try_made words writer.old.numbers.next (view body.now) (of_list (views clauses.now)))) }
{
    match caught_in(clauses) {
        Some(exception) => attempt_one(writer, body, exception, clauses),
        None => attempt_clauses(writer, body, clauses),
    }
}

/// The body of the first clause.
pub fn handled<'a>(writer: &mut Writer<'a>, clauses: &'a [Phrase]) -> Result<(), AllocError>
    ensures { OnOk result ((words : List (List ℕ)) → outcome words writer.new ≡ outcome_with words writer.old (handled words (of_list (views clauses.now)) writer.old.numbers.next)) }
{
    let Some((clause, _)) = split(clauses) else {
        return writer.nothing();
    };
    handled_by(writer, clause)?;
    Ok(())
}

/// The body of a clause.
fn handled_by<'a>(writer: &mut Writer<'a>, clause: &'a Phrase) -> Result<(), AllocError>
    ensures { OnOk result ((words : List (List ℕ)) → outcome words writer.new ≡ outcome_with words writer.old (handled_first words (view clause.now) writer.old.numbers.next)) }
{
    match clause {
        Phrase::Clause { body, .. } => writer.later(Task::Phrase {
            goal: Goal::Statement,
            phrase: body,
        }),
        _ => writer.nothing(),
    }
}

/// A `try` whose handler is the body of one clause.
fn attempt_one<'a>(
    writer: &mut Writer<'a>,
    body: &'a Phrase,
    exception: Identifier,
    clauses: &'a [Phrase],
) -> Result<(), AllocError>
    ensures { OnOk result ((words : List (List ℕ)) → outcome words writer.new ≡ outcome_with words writer.old (attempted writer.old.numbers.next (Some exception) (λ i. translated words statement i (view body.now)) (λ i. handled words (of_list (views clauses.now)) i) (λ y i. made none i))) }
{
    writer.begin()?;
    writer.put(Task::Close {
        closing: Closing::Try { exception },
    })?;
    writer.put(Task::Handled { clauses })?;
    writer.put(Task::Begin)?;
    writer.put(Task::Phrase {
        goal: Goal::Statement,
        phrase: body,
    })?;
    Ok(())
}

/// A `try` whose clauses test what is raised, and raise it again where none matches.
fn attempt_clauses<'a>(
    writer: &mut Writer<'a>,
    body: &'a Phrase,
    clauses: &'a [Phrase],
) -> Result<(), AllocError>
    ensures { OnOk result ((words : List (List ℕ)) → outcome words writer.new ≡ outcome_with words writer.old (attempted writer.old.numbers.next None (λ i. translated words statement i (view body.now)) (λ i. made none i) (λ y i. clauses_made words statement y (of_list (views clauses.now)) (λ j. made (just (k.raise y)) j) i))) }
{
    let exception = writer.numbers.fresh()?;
    writer.begin()?;
    writer.put(Task::Close {
        closing: Closing::Try { exception },
    })?;
    writer.put(Task::Clauses {
        goal: Goal::Statement,
        subject: exception,
        clauses,
        last: Last::Raise(exception),
    })?;
    writer.put(Task::Begin)?;
    writer.put(Task::Phrase {
        goal: Goal::Statement,
        phrase: body,
    })?;
    Ok(())
}
