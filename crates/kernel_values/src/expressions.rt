//! Expressions that become the value of a name.
ghost use Rattle.std.specs.Prelude.{◌≡◌, ℕ, List, [], ◌∷◌, ◌++◌, OnOk, IfOk};
ghost use Rattle.oz_language.specs.Grammar.{more, of_list, any};
ghost use Rattle.oz_language.specs.Grammar as g;
ghost use Rattle.oz_language.specs.Kernels.{just, word_text};
ghost use Rattle.oz_language.specs.Kernels as k;
ghost use Rattle.oz_language.specs.Translation.{made, value, translated, fresh_among, filled, list_made, chain_made, cell_bound, codes_made, and_made, or_made};
ghost use Rattle.oz_language.specs.declared.kernel.Constant.TheVariants as constant;
ghost use Rattle.oz_language.specs.declared.kernel.Statement.TheVariants as numbered;
ghost use Rattle.oz_syntax.specs.View.{view, views};
ghost use Rattle.kernel_writer.specs.Parts.{with_one, with_two, result_names};
ghost use Rattle.kernel_values.specs.Values.{record_made, accessed, selection_made, operation_made, inner_made, links_made};
ghost use Rattle.kernel_writer.specs.Tasks.{state_of, written, scope_begun, ending, chain_tail, outcome, outcome_with};
ghost use Rattle.kernel_writer.specs.declared.tasks.Task.TheVariants as task;

use kernel_output::{
    Numbers, access, bind_cell, codes, hash, last_variable, nil, one_name, split, two_names,
};
use kernel_patterns::record_bound;
use kernel_writer::{Closing, Task, Writer};
use oz_base::{Sequence, Words};
use oz_language::{Constant, Identifier, Literal, Operation, Operator, Statement};
use oz_syntax::Phrase;
use std::alloc::AllocError;

/// Names, and behind them that of a result where there is one.
pub fn with_result(
    mut names: Sequence<Identifier>,
    result_name: Option<Identifier>,
) -> Result<Sequence<Identifier>, AllocError>
    ensures { IfOk result (λ all. all ≡ names ++ result_names result_name) }
{
    if let Some(name) = result_name {
        names.push(name)?;
        return Ok(names);
    }
    Ok(names)
}

/// `_`, which is a variable of its own.
pub fn anything<'a>(writer: &mut Writer<'a>, name: Identifier) -> Result<(), AllocError>
    ensures { OnOk result ((words : List (List ℕ)) → outcome words writer.new ≡ outcome_with words writer.old (translated words (value name) writer.old.numbers.next (any 0))) }
{
    let other = writer.numbers.fresh()?;
    let names = one_name(writer.alloc, other)?;
    writer.begin()?;
    writer.output.equate(name, other)?;
    writer.close(Closing::Local { names })?;
    Ok(())
}

/// A string: the list of its codes.
pub fn string<'a>(
    writer: &mut Writer<'a>,
    words: &Words,
    name: Identifier,
    text: u32,
) -> Result<(), AllocError>
    ensures { OnOk result (outcome words.now writer.new ≡ outcome_with words.now writer.old (codes_made name (word_text words.now text) writer.old.numbers.next)) }
{
    codes(
        writer.alloc,
        &mut writer.output,
        &mut writer.numbers,
        name,
        words,
        text,
    )
}

/// `(e)`
pub fn inner_value<'a>(
    writer: &mut Writer<'a>,
    name: Identifier,
    inner: &'a [Phrase],
) -> Result<(), AllocError>
    ensures { OnOk result ((words : List (List ℕ)) → outcome words writer.new ≡ outcome_with words writer.old (inner_made words name writer.old.numbers.next (of_list (views inner.now)))) }
{
    match split(inner) {
        None => writer.nothing(),
        Some((phrase, others)) => only_value(writer, name, phrase, others),
    }
}

/// A phrase in parentheses, if there are no others.
fn only_value<'a>(
    writer: &mut Writer<'a>,
    name: Identifier,
    phrase: &'a Phrase,
    others: &'a [Phrase],
) -> Result<(), AllocError>
    ensures { OnOk result ((words : List (List ℕ)) → outcome words writer.new ≡ outcome_with words writer.old (inner_made words name writer.old.numbers.next (more (view phrase.now) (of_list (views others.now))))) }
{
    match split(others) {
        None => writer.value_of(name, phrase),
        Some(_) => writer.nothing(),
    }
}

/// A record: itself first, and then its fields in the order of the text.
pub fn record<'a>(
    writer: &mut Writer<'a>,
    words: &Words,
    name: Identifier,
    label: Literal,
    fields: &'a [Phrase],
) -> Result<(), AllocError>
    ensures { OnOk result (outcome words.now writer.new ≡ outcome_with words.now writer.old (record_made words.now name writer.old.numbers.next label (of_list (views fields.now)))) }
{
    let first = writer.numbers;
    let names = writer.numbers.parts(writer.alloc, fields)?;
    writer.begin_names(names.as_slice())?;
    let statement = record_bound(writer.alloc, words, name, label, fields, names)?;
    writer.output.push(statement)?;
    writer.put(Task::Filled {
        names: first,
        parts: fields,
    })?;
    Ok(())
}

/// Parts, whose identifiers are numbered by `names`.
pub fn filled<'a>(
    writer: &mut Writer<'a>,
    names: Numbers,
    parts: &'a [Phrase],
) -> Result<(), AllocError>
    ensures { OnOk result ((words : List (List ℕ)) → outcome words writer.new ≡ outcome_with words writer.old (filled words names.next (of_list (views parts.now)) writer.old.numbers.next)) }
{
    match split(parts) {
        None => writer.nothing(),
        Some((part, others)) => first_filled(writer, names, part, others),
    }
}

/// The first part, and then the others.
fn first_filled<'a>(
    writer: &mut Writer<'a>,
    names: Numbers,
    part: &'a Phrase,
    parts: &'a [Phrase],
) -> Result<(), AllocError>
    ensures { OnOk result ((words : List (List ℕ)) → outcome words writer.new ≡ outcome_with words writer.old (filled words names.next (more (view part.now) (of_list (views parts.now))) writer.old.numbers.next)) }
{
    let mut behind = names;
    let name = behind.part(part)?;
    writer.put(Task::Filled {
        names: behind,
        parts,
    })?;
    writer.fill(name, part)?;
    Ok(())
}

/// A list, or the end of one.
pub fn list<'a>(
    writer: &mut Writer<'a>,
    name: Identifier,
    elements: &'a [Phrase],
) -> Result<(), AllocError>
    ensures { OnOk result ((words : List (List ℕ)) → outcome words writer.new ≡ outcome_with words writer.old (list_made words name (of_list (views elements.now)) writer.old.numbers.next)) }
{
    match split(elements) {
        None => writer.bind(name, nil()),
        Some((element, others)) => first_cell(writer, name, element, others),
    }
}

/// A list: its first cell, and then the list of the others.
fn first_cell<'a>(
    writer: &mut Writer<'a>,
    name: Identifier,
    element: &'a Phrase,
    elements: &'a [Phrase],
) -> Result<(), AllocError>
    ensures { OnOk result ((words : List (List ℕ)) → outcome words writer.new ≡ outcome_with words writer.old (list_made words name (more (view element.now) (of_list (views elements.now))) writer.old.numbers.next)) }
{
    let head = writer.numbers.part(element)?;
    let tail = writer.numbers.fresh()?;
    begin_cell(writer, name, head, tail)?;
    writer.put(Task::List {
        name: tail,
        elements,
    })?;
    writer.fill(head, element)?;
    Ok(())
}

/// A chain that ends in its last element.
pub fn chain<'a>(
    writer: &mut Writer<'a>,
    name: Identifier,
    elements: &'a [Phrase],
) -> Result<(), AllocError>
    ensures { OnOk result ((words : List (List ℕ)) → outcome words writer.new ≡ outcome_with words writer.old (chain_made words name (of_list (views elements.now)) writer.old.numbers.next)) }
{
    match split(elements) {
        None => writer.nothing(),
        Some((element, others)) => first_link(writer, name, element, others),
    }
}

/// A chain: its first cell, and then the chain of the others, or the one element that is left.
fn first_link<'a>(
    writer: &mut Writer<'a>,
    name: Identifier,
    element: &'a Phrase,
    elements: &'a [Phrase],
) -> Result<(), AllocError>
    ensures { OnOk result ((words : List (List ℕ)) → outcome words writer.new ≡ outcome_with words writer.old (chain_made words name (more (view element.now) (of_list (views elements.now))) writer.old.numbers.next)) }
{
    let Some(_) = split(elements) else {
        writer.value_of(name, element)?;
        return Ok(());
    };
    links(writer, name, element, elements)?;
    Ok(())
}

/// The first cell of a chain, and then the chain of the others.
fn links<'a>(
    writer: &mut Writer<'a>,
    name: Identifier,
    element: &'a Phrase,
    elements: &'a [Phrase],
) -> Result<(), AllocError>
    ensures { OnOk result ((words : List (List ℕ)) → outcome words writer.new ≡ outcome_with words writer.old (links_made words name writer.old.numbers.next (view element.now) (of_list (views elements.now)))) }
{
    let head = writer.numbers.part(element)?;
    let last = last_variable(elements);
    let tail = writer.numbers.name_or(last)?;
    begin_cell(writer, name, head, tail)?;
    put_tail(writer, last, tail, elements)?;
    writer.fill(head, element)?;
    Ok(())
}

/// Has the tail of a chain written, unless it is a variable.
fn put_tail<'a>(
    writer: &mut Writer<'a>,
    last: Option<Identifier>,
    tail: Identifier,
    elements: &'a [Phrase],
) -> Result<(), AllocError>
    ensures tasks { OnOk result (writer.new.tasks ≡ chain_tail tail last elements.entry writer.old.tasks) }
    ensures state { OnOk result (state_of writer.new ≡ state_of writer.old) }
{
    match last {
        Some(_) => Ok(()),
        None => {
            writer.put(Task::Chain {
                name: tail,
                elements,
            })?;
            Ok(())
        }
    }
}

/// A cell of a list, in the scope of its parts.
fn begin_cell<'a>(
    writer: &mut Writer<'a>,
    name: Identifier,
    head: Identifier,
    tail: Identifier,
) -> Result<(), AllocError>
    ensures tasks { OnOk result (writer.new.tasks ≡ ending (fresh_among (head ∷ tail ∷ [])) writer.old.tasks) }
    ensures state { OnOk result (state_of writer.new ≡ written (scope_begun (fresh_among (head ∷ tail ∷ [])) (state_of writer.old)) (made (just (cell_bound name head tail)) writer.old.numbers.next)) }
{
    let names = two_names(writer.alloc, head, tail)?;
    writer.begin_names(names.as_slice())?;
    bind_cell(writer.alloc, &mut writer.output, name, head, tail)?;
    Ok(())
}

/// An operator or a chain.
pub fn operation<'a>(
    writer: &mut Writer<'a>,
    words: &Words,
    name: Identifier,
    phrase: &'a Phrase,
) -> Result<(), AllocError>
    ensures { OnOk result (outcome words.now writer.new ≡ outcome_with words.now writer.old (operation_made words.now name writer.old.numbers.next (view phrase.now))) }
{
    match phrase {
        Phrase::Binary {
            operator,
            left,
            right,
        } => binary(writer, name, *operator, left, right),
        Phrase::Bars { elements } => writer.later(Task::Chain { name, elements }),
        Phrase::Hashes { elements } => record(writer, words, name, hash(), elements),
        Phrase::Select { record, feature } => select(writer, name, record, feature),
        Phrase::Access { cell, .. } => read_cell(writer, name, cell),
        _ => writer.nothing(),
    }
}

/// `e op e`
fn binary<'a>(
    writer: &mut Writer<'a>,
    name: Identifier,
    operator: Operator,
    left: &'a Phrase,
    right: &'a Phrase,
) -> Result<(), AllocError>
    ensures { OnOk result ((words : List (List ℕ)) → outcome words writer.new ≡ outcome_with words writer.old (translated words (value name) writer.old.numbers.next (g.binary operator (view left.now) (view right.now)))) }
{
    let result = Some(name);
    match operator {
        Operator::AndThen => and_then(writer, name, left, right),
        Operator::OrElse => or_else(writer, name, left, right),
        Operator::Same => apply(writer, Operation::Same, result, left, right),
        Operator::Differs => apply(writer, Operation::Differs, result, left, right),
        Operator::Less => apply(writer, Operation::Less, result, left, right),
        Operator::AtMost => apply(writer, Operation::AtMost, result, left, right),
        Operator::Greater => apply(writer, Operation::Greater, result, left, right),
        Operator::AtLeast => apply(writer, Operation::AtLeast, result, left, right),
        Operator::Plus => apply(writer, Operation::Plus, result, left, right),
        Operator::Minus => apply(writer, Operation::Minus, result, left, right),
        Operator::Times => apply(writer, Operation::Times, result, left, right),
        Operator::Div => apply(writer, Operation::Div, result, left, right),
        Operator::Mod => apply(writer, Operation::Mod, result, left, right),
    }
}

/// `e andthen e`: where the first is true, the value is that of the second.
fn and_then<'a>(
    writer: &mut Writer<'a>,
    name: Identifier,
    left: &'a Phrase,
    right: &'a Phrase,
) -> Result<(), AllocError>
    ensures { OnOk result ((words : List (List ℕ)) → outcome words writer.new ≡ outcome_with words writer.old (with_one words writer.old.numbers.next (view left.now) (λ y i. and_made name y (translated words (value name) i (view right.now))))) }
{
    let condition = writer.begin_part(left)?;
    writer.put(Task::Close {
        closing: Closing::If { condition },
    })?;
    put_truth(writer, name, Literal::False)?;
    writer.put(Task::Begin)?;
    writer.put_value(name, right)?;
    writer.put(Task::Begin)?;
    writer.fill(condition, left)?;
    Ok(())
}

/// `e orelse e`: where the first is not true, the value is that of the second.
fn or_else<'a>(
    writer: &mut Writer<'a>,
    name: Identifier,
    left: &'a Phrase,
    right: &'a Phrase,
) -> Result<(), AllocError>
    ensures { OnOk result ((words : List (List ℕ)) → outcome words writer.new ≡ outcome_with words writer.old (with_one words writer.old.numbers.next (view left.now) (λ y i. or_made name y (translated words (value name) i (view right.now))))) }
{
    let condition = writer.begin_part(left)?;
    writer.put(Task::Close {
        closing: Closing::If { condition },
    })?;
    writer.put_value(name, right)?;
    writer.put(Task::Begin)?;
    put_truth(writer, name, Literal::True)?;
    writer.put(Task::Begin)?;
    writer.fill(condition, left)?;
    Ok(())
}

/// Has a name bound to a truth value.
fn put_truth<'a>(
    writer: &mut Writer<'a>,
    name: Identifier,
    literal: Literal,
) -> Result<(), AllocError>
    ensures tasks { OnOk result (writer.new.tasks ≡ task.Statement (numbered.Bind name (constant.Literal literal)) ∷ writer.old.tasks) }
    ensures state { state_of writer.new ≡ state_of writer.old }
{
    writer.put(Task::Statement {
        statement: Statement::Bind {
            name,
            value: Constant::Literal(literal),
        },
    })
}

/// `e.f`
pub fn select<'a>(
    writer: &mut Writer<'a>,
    name: Identifier,
    whole: &'a Phrase,
    feature: &'a Phrase,
) -> Result<(), AllocError>
    ensures { OnOk result ((words : List (List ℕ)) → outcome words writer.new ≡ outcome_with words writer.old (selection_made words name writer.old.numbers.next (view whole.now) (view feature.now))) }
{
    apply(writer, Operation::Select, Some(name), whole, feature)
}

/// An operation on two parts, and on the name of its result where it has one.
pub fn apply<'a>(
    writer: &mut Writer<'a>,
    operation: Operation,
    given: Option<Identifier>,
    first: &'a Phrase,
    second: &'a Phrase,
) -> Result<(), AllocError>
    ensures { OnOk result ((words : List (List ℕ)) → outcome words writer.new ≡ outcome_with words writer.old (with_two words writer.old.numbers.next (view first.now) (view second.now) (λ y z. k.operate operation (y ∷ z ∷ result_names given)))) }
{
    let (one, other) = writer.begin_parts(first, second)?;
    let arguments = with_result(two_names(writer.alloc, one, other)?, given)?;
    writer.put(Task::Statement {
        statement: Statement::Operate {
            operation,
            arguments,
        },
    })?;
    writer.fill(other, second)?;
    writer.fill(one, first)?;
    Ok(())
}

/// `@e`
fn read_cell<'a>(
    writer: &mut Writer<'a>,
    name: Identifier,
    cell: &'a Phrase,
) -> Result<(), AllocError>
    ensures { OnOk result ((words : List (List ℕ)) → outcome words writer.new ≡ outcome_with words writer.old (accessed words name writer.old.numbers.next (view cell.now))) }
{
    let part = writer.begin_part(cell)?;
    writer.put(Task::Statement {
        statement: Statement::Call {
            procedure: access(),
            arguments: two_names(writer.alloc, part, name)?,
        },
    })?;
    writer.fill(part, cell)?;
    Ok(())
}
