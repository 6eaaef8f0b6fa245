//! What the statements of a script state.
ghost use Rattle.std.specs.Prelude.{◌≡◌, ◌-ℤ◌, [], ◌∷◌, IfOk};
ghost use Rattle.std.specs.List.{list_all, range_with_len};
ghost use Rattle.oz_language.specs.Grammar.{of_list};
ghost use Rattle.oz_language.specs.Refusals.{contains};
ghost use Rattle.oz_language.specs.declared.kernel.Sign.TheVariants.{NotPositive};
ghost use Rattle.oz_syntax.specs.View.{view, views};
ghost use Rattle.fd_form.specs.FdScripts.{all_within, distribution_of, items_of, order_of, rule_named, stated};
ghost use Rattle.fd_problems.specs.declared.problem.Item.TheVariants.{Compares};
ghost use Rattle.fd_form.specs.Parts.{both};
ghost use Rattle.fd_form.specs.Steps.{all_bounded, all_items, bounded, distinct_by, distribution_by, rule_of, two_of};

use crate::bounds::bounds_of;
use crate::lists::two_of;
use crate::names::{DISTINCT, DISTRIBUTE, FF, NAIVE, SPLIT, atom_of, is_named, is_of_fd};
use crate::sums::relation_of;
use crate::vectors::{place_of, places, vector_of};
use fd_problems::{Distribution, Item};
use kernel_output::split;
use oz_base::{Rule, Sequence};
use oz_language::{Connective, Sign};
use oz_syntax::Phrase;
use std::alloc::{AllocError, Global};

/// A list of one item.
fn one_item(alloc: Global, item: Item) -> Result<Sequence<Item>, AllocError>
    ensures { IfOk result (λ items. items ≡ item ∷ []) }
{
    let mut items = Sequence::new(alloc);
    items.push(item)?;
    Ok(items)
}

/// `X::D`
fn bounded(
    alloc: Global,
    variables: &[u32],
    variable: &Phrase,
    description: &Phrase,
) -> Result<Option<Sequence<Item>>, AllocError>
    ensures { IfOk result (λ found. found ≡ bounded variables.now (view variable.now) (view description.now)) }
{
    let Some(place) = place_of(variables, variable) else {
        return Ok(None);
    };
    let Some((low, high)) = bounds_of(description) else {
        return Ok(None);
    };
    let items = one_item(alloc, Item::Within(place, low, high))?;
    Ok(Some(items))
}

/// The first of two bounds is not above the second.
fn ordered(alloc: Global, low: i64, high: i64) -> Result<Item, AllocError>
    ensures { IfOk result (λ item. item ≡ Compares NotPositive (low -ℤ high) []) }
{
    match low.checked_sub(high) {
        Some(difference) => Ok(Item::Compares(Sign::NotPositive, difference, Sequence::new(alloc))),
        None => Err(AllocError),
    }
}

/// All of these variables lie between the bounds, of which the first is not above the second even where there is no variable.
fn all_within(
    alloc: Global,
    places: &[usize],
    low: i64,
    high: i64,
) -> Result<Sequence<Item>, AllocError>
    ensures { IfOk result (λ items. items ≡ all_within places.now (low, high)) }
{
    let mut items = one_item(alloc, ordered(alloc, low, high)?)?;
    'places: for place in places {
        items.push(Item::Within(*place, low, high))?;
    }
    Ok(items)
}

/// `R:::D`
fn all_bounded(
    alloc: Global,
    root: u32,
    variables: &[u32],
    answer: &Phrase,
    description: &Phrase,
) -> Result<Option<Sequence<Item>>, AllocError>
    ensures { IfOk result (λ found. found ≡ all_bounded root variables.now (view answer.now) (view description.now)) }
{
    if !is_named(root, answer) {
        return Ok(None);
    }
    let Some((low, high)) = bounds_of(description) else {
        return Ok(None);
    };
    let places = places(alloc, variables)?;
    let items = all_within(alloc, places.as_slice(), low, high)?;
    Ok(Some(items))
}

/// `{FD.distinct W}`, by what is called and its arguments.
fn distinct(
    alloc: Global,
    root: u32,
    variables: &[u32],
    parts: &[Phrase],
) -> Result<Option<Sequence<Item>>, AllocError>
    ensures { IfOk result (λ found. found ≡ distinct_by root variables.now (two_of (of_list (views parts.now)))) }
{
    let Some((procedure, vector)) = two_of(parts) else {
        return Ok(None);
    };
    if !is_of_fd(DISTINCT, procedure) {
        return Ok(None);
    }
    let Some(places) = vector_of(alloc, root, variables, vector)? else {
        return Ok(None);
    };
    let items = one_item(alloc, Item::Different(places))?;
    Ok(Some(items))
}

/// What a statement states that is not the last, if it states anything.
#[tactic(auto, using(crate::proofs::PartLaws::items_two))]
fn items_of(
    alloc: Global,
    root: u32,
    variables: &[u32],
    statement: &Phrase,
) -> Result<Option<Sequence<Item>>, AllocError>
    ensures { IfOk result (λ found. found ≡ items_of root variables.now (view statement.now)) }
{
    match statement {
        Phrase::Connected {
            connective: Connective::Bounds,
            left,
            right,
        } => bounded(alloc, variables, left, right),
        Phrase::Connected {
            connective: Connective::BoundsEach,
            left,
            right,
        } => all_bounded(alloc, root, variables, left, right),
        Phrase::Relate {
            comparison,
            left,
            right,
        } => relation_of(alloc, variables, *comparison, left, right),
        Phrase::Call { parts, .. } => distinct(alloc, root, variables, parts),
        _ => Ok(None),
    }
}

/// What all of some statements state, if each states something.
fn all_items(
    alloc: Global,
    root: u32,
    variables: &[u32],
    statements: &[Phrase],
) -> Result<Option<Sequence<Item>>, AllocError>
    ensures { IfOk result (λ found. found ≡ all_items root variables.now (of_list (views statements.now))) }
{
    let mut items = Sequence::new(alloc);
    'statements: for statement in statements {
        let Some(more) = items_of(alloc, root, variables, statement)? else {
            return Ok(None);
        };
        items.append(more.into_vec())?;
    }
    Ok(Some(items))
}

/// The rule of this name.
fn rule_named(word: u32) -> Option<Rule>
    ensures { result ≡ rule_named word }
{
    match word {
        NAIVE => Some(Rule::Naive),
        FF => Some(Rule::FirstFail),
        SPLIT => Some(Rule::Split),
        _ => None,
    }
}

/// Whether a place is one of these.
#[tactic(auto, using(crate::proofs::PlaceLaws::turned))]
fn has(places: &[usize], place: usize) -> bool
    ensures { result ≡ contains places.now place }
{
    places.contains(&place)
}

/// Whether each place below the count is one of these.
#[tactic(auto, using(crate::proofs::PlaceLaws::all_more))]
fn has_all(places: &[usize], count: usize) -> bool
    ensures { result ≡ list_all (contains places.now) (range_with_len 0 count) }
{
    'places: for place in 0..count {
        if !has(places, place) {
            return false;
        }
    }
    true
}

/// The variables of a vector that has each once.
fn order_of(
    alloc: Global,
    root: u32,
    variables: &[u32],
    vector: &Phrase,
) -> Result<Option<Sequence<usize>>, AllocError>
    ensures { IfOk result (λ found. found ≡ order_of root variables.now (view vector.now)) }
{
    let Some(places) = vector_of(alloc, root, variables, vector)? else {
        return Ok(None);
    };
    if places.len() == variables.len() && has_all(places.as_slice(), variables.len()) {
        Ok(Some(places))
    } else {
        Ok(None)
    }
}

/// The rule that a phrase names.
fn rule_of(phrase: &Phrase) -> Option<Rule>
    ensures { result ≡ rule_of (view phrase.now) }
{
    rule_named(atom_of(phrase)?)
}

/// `{FD.distribute Rule U}`, by what is called and its arguments.
fn distribution(
    alloc: Global,
    root: u32,
    variables: &[u32],
    procedure: &Phrase,
    arguments: &[Phrase],
) -> Result<Option<Distribution>, AllocError>
    ensures { IfOk result (λ found. found ≡ distribution_by root variables.now (view procedure.now) (two_of (of_list (views arguments.now)))) }
{
    let Some((rule, vector)) = two_of(arguments) else {
        return Ok(None);
    };
    if !is_of_fd(DISTRIBUTE, procedure) {
        return Ok(None);
    }
    let Some(rule) = rule_of(rule) else {
        return Ok(None);
    };
    let Some(over) = order_of(alloc, root, variables, vector)? else {
        return Ok(None);
    };
    Ok(Some(Distribution { rule, over }))
}

/// How a statement distributes the variables, if it does.
#[tactic(auto, using(crate::proofs::PartLaws::distribution_two))]
fn distribution_of(
    alloc: Global,
    root: u32,
    variables: &[u32],
    statement: &Phrase,
) -> Result<Option<Distribution>, AllocError>
    ensures { IfOk result (λ found. found ≡ distribution_of root variables.now (view statement.now)) }
{
    match statement {
        Phrase::Call { parts, .. } => match split(parts) {
            Some((procedure, arguments)) => {
                distribution(alloc, root, variables, procedure, arguments)
            }
            None => Ok(None),
        },
        _ => Ok(None),
    }
}

/// What statements state, and how the one behind them distributes the variables.
fn distributed(
    alloc: Global,
    root: u32,
    variables: &[u32],
    statements: &[Phrase],
    last: &Phrase,
) -> Result<Option<(Sequence<Item>, Distribution)>, AllocError>
    ensures { IfOk result (λ found. found ≡ both (all_items root variables.now (of_list (views statements.now))) (distribution_of root variables.now (view last.now))) }
{
    let Some(items) = all_items(alloc, root, variables, statements)? else {
        return Ok(None);
    };
    let Some(distribution) = distribution_of(alloc, root, variables, last)? else {
        return Ok(None);
    };
    Ok(Some((items, distribution)))
}

/// What statements state, of which the last distributes the variables.
pub fn stated(
    alloc: Global,
    root: u32,
    variables: &[u32],
    statements: &[Phrase],
) -> Result<Option<(Sequence<Item>, Distribution)>, AllocError>
    ensures { IfOk result (λ found. found ≡ stated root variables.now (of_list (views statements.now))) }
{
    match statements.split_last() {
        Some((last, others)) => distributed(alloc, root, variables, others, last),
        None => Ok(None),
    }
}
