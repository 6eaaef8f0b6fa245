//! Statements, and constructs that may have a value.
ghost use Rattle.std.specs.Prelude.{◌≡◌, ℕ, List, [], ◌∷◌, Some, None, OnOk};
ghost use Rattle.oz_language.specs.Grammar.{of_list};
ghost use Rattle.oz_language.specs.Kernels as k;
ghost use Rattle.oz_language.specs.Translation.{variable_of, and_then, statement, references, parameters_of, procedure_name};
ghost use Rattle.oz_language.specs.Wording.{assign_word};
ghost use Rattle.oz_language.specs.declared.kernel.Identifier.TheVariants.{Word};
ghost use Rattle.oz_syntax.specs.View.{view, views};
ghost use Rattle.kernel_writer.specs.Parts.{with_two};
ghost use Rattle.kernel_trans.specs.Statements.{connected_made, raised, equation_made, relation_made, call_made, procedure_made, value_procedure_made, lazy_made, statement_made};
ghost use Rattle.kernel_writer.specs.Goals.{goal_of};
ghost use Rattle.kernel_writer.specs.Tasks.{state_of, calling, outcome, outcome_with};

use kernel_output::{Numbers, assign, by_need, name_in, one_name, two_names, variable_of};
use kernel_relations::{behind_factor, behind_side, between};
use kernel_values::{apply, select, with_result};
use kernel_writer::{Closing, Goal, Task, Writer};
use oz_base::{Sequence, Words};
use oz_language::{Comparison, Connective, Identifier, Operation, Operator, Statement};
use oz_syntax::Phrase;
use std::alloc::AllocError;

/// The parameters of a procedure: what stands behind its name.
fn parameters_of(head: &Phrase) -> &[Phrase]
    ensures { of_list (views result.now) ≡ parameters_of (view head.now) }
{
    match head {
        Phrase::Head { names, .. } => match names.split_first() {
            Some((_, parameters)) => parameters,
            None => &[],
        },
        _ => &[],
    }
}

/// The identifier of a procedure: what gets its value, or its name.
fn procedure_name(goal: Goal, head: &Phrase) -> Identifier
    ensures { result ≡ procedure_name (goal_of goal) (view head.now) }
{
    match goal {
        Goal::Value(name) => name,
        Goal::Statement => match name_in(head) {
            Some(name) => Identifier::Word(name),
            // What is read has a name there.
            None => Identifier::Fresh(0),
        },
    }
}

/// What has no bodies but those of procedures.
pub fn simple<'a>(
    writer: &mut Writer<'a>,
    words: &Words,
    goal: Goal,
    phrase: &'a Phrase,
) -> Result<(), AllocError>
    ensures { OnOk result (outcome words.now writer.new ≡ outcome_with words.now writer.old (statement_made words.now (goal_of goal) writer.old.numbers.next (view phrase.now))) }
{
    match phrase {
        Phrase::Skip => writer.skip(),
        Phrase::Fail { .. } => writer.fail(),
        Phrase::Raise { value, .. } => raise(writer, value),
        Phrase::Connected {
            connective,
            left,
            right,
        } => connect(writer, *connective, left, right),
        Phrase::Relate {
            comparison,
            left,
            right,
        } => relate(writer, *comparison, left, right),
        Phrase::Call { parts, .. } => call(writer, goal, parts),
        Phrase::Proc { head, body, .. } => {
            procedure(
                writer,
                procedure_name(goal, head),
                parameters_of(head),
                body,
            )
        }
        Phrase::Fun {
            lazy,
            head,
            body,
            ..
        } => {
            let name = procedure_name(goal, head);
            match lazy {
                None => function(writer, name, parameters_of(head), body),
                Some(_) => lazy_function(writer, name, parameters_of(head), body),
            }
        }
        _ => writer.nothing(),
    }
}

/// `raise e end`
fn raise<'a>(writer: &mut Writer<'a>, value: &'a Phrase) -> Result<(), AllocError>
    ensures { OnOk result ((words : List (List ℕ)) → outcome words writer.new ≡ outcome_with words writer.old (raised words writer.old.numbers.next (view value.now))) }
{
    let name = writer.begin_part(value)?;
    writer.put(Task::Statement {
        statement: Statement::Raise { name },
    })?;
    writer.fill(name, value)?;
    Ok(())
}

/// What connects two expressions.
fn connect<'a>(
    writer: &mut Writer<'a>,
    connective: Connective,
    left: &'a Phrase,
    right: &'a Phrase,
) -> Result<(), AllocError>
    ensures { OnOk result ((words : List (List ℕ)) → outcome words writer.new ≡ outcome_with words writer.old (connected_made words writer.old.numbers.next connective (view left.now) (view right.now))) }
{
    match connective {
        Connective::Equates => equate_sides(writer, left, right),
        Connective::Assigns => assign_cell(writer, left, right),
        Connective::Bounds => apply(writer, Operation::Bound, None, left, right),
        Connective::BoundsEach => apply(writer, Operation::BoundEach, None, left, right),
    }
}

/// `e = e`: a side that is a variable gets the value of the other one.
fn equate_sides<'a>(
    writer: &mut Writer<'a>,
    left: &'a Phrase,
    right: &'a Phrase,
) -> Result<(), AllocError>
    ensures { OnOk result ((words : List (List ℕ)) → outcome words writer.new ≡ outcome_with words writer.old (equation_made words writer.old.numbers.next (variable_of (view left.now)) (variable_of (view right.now)) (view left.now) (view right.now))) }
{
    match variable_of(left) {
        Some(name) => writer.value_of(name, right),
        None => equate_right(writer, left, right),
    }
}

/// Where the left side is no variable.
fn equate_right<'a>(
    writer: &mut Writer<'a>,
    left: &'a Phrase,
    right: &'a Phrase,
) -> Result<(), AllocError>
    ensures { OnOk result ((words : List (List ℕ)) → outcome words writer.new ≡ outcome_with words writer.old (equation_made words writer.old.numbers.next None (variable_of (view right.now)) (view left.now) (view right.now))) }
{
    match variable_of(right) {
        Some(name) => writer.value_of(name, left),
        None => equate_values(writer, left, right),
    }
}

/// Where no side is a variable: both are the value of an identifier of its own.
fn equate_values<'a>(
    writer: &mut Writer<'a>,
    left: &'a Phrase,
    right: &'a Phrase,
) -> Result<(), AllocError>
    ensures { OnOk result ((words : List (List ℕ)) → outcome words writer.new ≡ outcome_with words writer.old (equation_made words writer.old.numbers.next None None (view left.now) (view right.now))) }
{
    let name = writer.numbers.fresh()?;
    let names = one_name(writer.alloc, name)?;
    writer.begin_scope(names)?;
    writer.put_value(name, right)?;
    writer.put_value(name, left)?;
    Ok(())
}

/// `e := e`
fn assign_cell<'a>(
    writer: &mut Writer<'a>,
    left: &'a Phrase,
    right: &'a Phrase,
) -> Result<(), AllocError>
    ensures { OnOk result ((words : List (List ℕ)) → outcome words writer.new ≡ outcome_with words writer.old (with_two words writer.old.numbers.next (view left.now) (view right.now) (λ y z. k.call (Word assign_word) (y ∷ z ∷ [])))) }
{
    let (cell, value) = writer.begin_parts(left, right)?;
    writer.put(Task::Statement {
        statement: Statement::Call {
            procedure: assign(),
            arguments: two_names(writer.alloc, cell, value)?,
        },
    })?;
    writer.fill(value, right)?;
    writer.fill(cell, left)?;
    Ok(())
}

/// A relation of finite domains: the references of its sides, and then its products and itwriter.
fn relate<'a>(
    writer: &mut Writer<'a>,
    comparison: Comparison,
    left: &'a Phrase,
    right: &'a Phrase,
) -> Result<(), AllocError>
    ensures { OnOk result ((words : List (List ℕ)) → outcome words writer.new ≡ outcome_with words writer.old (relation_made words writer.old.numbers.next comparison (view left.now) (view right.now))) }
{
    let names = writer.numbers;
    let behind = behind_side(names, left)?;
    let last = behind_side(behind, right)?;
    writer.numbers = last;
    let fresh = between(writer.alloc, names, last)?;
    writer.begin_scope(fresh)?;
    writer.put(Task::Relation {
        comparison,
        names,
        left,
        right,
    })?;
    writer.put(Task::References {
        names: behind,
        side: right,
    })?;
    writer.put(Task::References { names, side: left })?;
    Ok(())
}

/// The references of a side that are no variables.
pub fn references<'a>(
    writer: &mut Writer<'a>,
    names: Numbers,
    side: &'a Phrase,
) -> Result<(), AllocError>
    ensures { OnOk result ((words : List (List ℕ)) → outcome words writer.new ≡ outcome_with words writer.old (references words names.next (view side.now) writer.old.numbers.next)) }
{
    match side {
        Phrase::Binary {
            operator: Operator::Plus | Operator::Minus,
            left,
            right,
        } => {
            let behind = behind_side(names, left)?;
            both_references(writer, names, behind, left, right)
        }
        Phrase::Binary {
            operator: Operator::Times,
            left,
            right,
        } => {
            let behind = behind_factor(names, left)?;
            both_references(writer, names, behind, left, right)
        }
        Phrase::Select { record, feature } => {
            select(writer, Identifier::Fresh(names.next), record, feature)
        }
        _ => writer.nothing(),
    }
}

/// Those of two sides, each by the numbers of its identifiers.
fn both_references<'a>(
    writer: &mut Writer<'a>,
    first: Numbers,
    second: Numbers,
    left: &'a Phrase,
    right: &'a Phrase,
) -> Result<(), AllocError>
    ensures { OnOk result ((words : List (List ℕ)) → outcome words writer.new ≡ outcome_with words writer.old (and_then (references words first.next (view left.now) writer.old.numbers.next) (λ i. references words second.next (view right.now) i))) }
{
    writer.put(Task::References {
        names: second,
        side: right,
    })?;
    writer.put(Task::References {
        names: first,
        side: left,
    })?;
    Ok(())
}

/// Has a call written of the first name with the others.
fn put_call<'a>(writer: &mut Writer<'a>, mut names: Sequence<Identifier>) -> Result<(), AllocError>
    ensures tasks { OnOk result (writer.new.tasks ≡ calling names writer.old.tasks) }
    ensures state { OnOk result (state_of writer.new ≡ state_of writer.old) }
{
    let Some(procedure) = names.take_front() else {
        return Ok(());
    };
    writer.put(Task::Statement {
        statement: Statement::Call {
            procedure,
            arguments: names,
        },
    })?;
    Ok(())
}

/// A call: its parts, and then itwriter.
fn call<'a>(writer: &mut Writer<'a>, goal: Goal, parts: &'a [Phrase]) -> Result<(), AllocError>
    ensures { OnOk result ((words : List (List ℕ)) → outcome words writer.new ≡ outcome_with words writer.old (call_made words (goal_of goal) writer.old.numbers.next (of_list (views parts.now)))) }
{
    let first = writer.numbers;
    let names = writer.numbers.parts(writer.alloc, parts)?;
    writer.begin_names(names.as_slice())?;
    put_call(writer, with_result(names, goal.name())?)?;
    writer.put(Task::Filled {
        names: first,
        parts,
    })?;
    Ok(())
}

/// `proc H B end`, by its name.
fn procedure<'a>(
    writer: &mut Writer<'a>,
    name: Identifier,
    parameters: &[Phrase],
    body: &'a Phrase,
) -> Result<(), AllocError>
    ensures { OnOk result ((words : List (List ℕ)) → outcome words writer.new ≡ outcome_with words writer.old (procedure_made words name writer.old.numbers.next (of_list (views parameters.now)) (view body.now))) }
{
    let parameters = writer.numbers.parameters(writer.alloc, parameters)?;
    writer.begin()?;
    writer.put(Task::Close {
        closing: Closing::Procedure { name, parameters },
    })?;
    writer.put(Task::Phrase {
        goal: Goal::Statement,
        phrase: body,
    })?;
    Ok(())
}

/// `fun H B end`, by its name: a procedure with one more parameter, which gets the value.
fn function<'a>(
    writer: &mut Writer<'a>,
    name: Identifier,
    parameters: &[Phrase],
    body: &'a Phrase,
) -> Result<(), AllocError>
    ensures { OnOk result ((words : List (List ℕ)) → outcome words writer.new ≡ outcome_with words writer.old (value_procedure_made words name writer.old.numbers.next None (of_list (views parameters.now)) (view body.now))) }
{
    let mut parameters = writer.numbers.parameters(writer.alloc, parameters)?;
    let value = writer.numbers.fresh()?;
    parameters.push(value)?;
    writer.begin()?;
    writer.put(Task::Close {
        closing: Closing::Procedure { name, parameters },
    })?;
    writer.put_value(value, body)?;
    Ok(())
}

/// `fun lazy H B end`: the value is made by another procedure, once it is needed.
fn lazy_function<'a>(
    writer: &mut Writer<'a>,
    name: Identifier,
    parameters: &[Phrase],
    body: &'a Phrase,
) -> Result<(), AllocError>
    ensures { OnOk result ((words : List (List ℕ)) → outcome words writer.new ≡ outcome_with words writer.old (value_procedure_made words name writer.old.numbers.next (Some 0) (of_list (views parameters.now)) (view body.now))) }
{
    let mut parameters = writer.numbers.parameters(writer.alloc, parameters)?;
    let value = writer.numbers.fresh()?;
    parameters.push(value)?;
    writer.begin()?;
    writer.put(Task::Close {
        closing: Closing::Procedure { name, parameters },
    })?;
    lazily(writer, value, body)?;
    Ok(())
}

/// The body of a lazy function, by the name of its value.
fn lazily<'a>(
    writer: &mut Writer<'a>,
    value: Identifier,
    body: &'a Phrase,
) -> Result<(), AllocError>
    ensures { OnOk result ((words : List (List ℕ)) → outcome words writer.new ≡ outcome_with words writer.old (lazy_made words value writer.old.numbers.next (view body.now))) }
{
    let procedure = writer.numbers.fresh()?;
    let inner = writer.numbers.fresh()?;
    writer.begin()?;
    writer.put(Task::Close {
        closing: Closing::Local {
            names: one_name(writer.alloc, procedure)?,
        },
    })?;
    writer.put(Task::Statement {
        statement: Statement::Call {
            procedure: by_need(),
            arguments: two_names(writer.alloc, procedure, value)?,
        },
    })?;
    writer.begin()?;
    writer.put(Task::Close {
        closing: Closing::Procedure {
            name: procedure,
            parameters: one_name(writer.alloc, inner)?,
        },
    })?;
    writer.put_value(inner, body)?;
    Ok(())
}
