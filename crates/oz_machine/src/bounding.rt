//! Bounds of a best search: a space that is committed to an alternative is told besides that its cost is below a bound (branch and
//! bound: Schulte, LNCS 2302, on search; CTM 12.4).
ghost use Rattle.std.specs.Prelude.{◌≡◌, [], true, false, is_some, IfOk, IfSome, OnOk, OnErr, option_copied};
ghost use Rattle.std.specs.Option.{option_and_then};
ghost use Rattle.oz_semantics.specs.Names.{is_top};
ghost use Rattle.oz_semantics.specs.Values.{integer_in};
ghost use Rattle.oz_semantics.specs.Store.{value_of};
ghost use Rattle.oz_semantics.specs.Configurations.{in_layer, layer_at, layer_of, telling, view};
ghost use Rattle.oz_semantics.specs.Edits.{committed};
ghost use Rattle.oz_semantics.specs.Settling.{without_inconsistent};
ghost use Rattle.oz_semantics.specs.BestSearch.{bound_tells, chosen_below, field_in, root_field, told_below, values_below};
ghost use Rattle.oz_semantics.specs.declared.configuration.Status.TheVariants.{Open};
ghost use Rattle.settle_laws.specs.Settles.{Settles};
ghost use Rattle.oz_machine.specs.Bounding.{allows_none, IsOpenAt};
ghost use Rattle.oz_machine.specs.Courses.{config_of};
ghost use Rattle.oz_machine.specs.Asleep.{Sleeps};

use crate::course::Course;
use crate::searching::{commit_in, follow_edit};
use crate::settling::settle_only;
use builtins::field_of;
use fd_inputs::{integer_in, interval_news};
use oz_base::{Copies, GREATEST_VALUE, Ident, Interval, LEAST_VALUE, SpaceName};
use oz_language::{Constant, Statement};
use oz_search::Bounded;
use oz_semantics::{Status, Tell};
use oz_sleep::Sleeping;
use space_core::Levels;
use std::alloc::{AllocError, Global};
use std::slice::from_ref;
use term_store::Store;

/// The variable at a feature of the space's root variable, if there is one.
fn root_field<'a>(
    alloc: Global,
    store: &'a Store,
    space: &SpaceName,
    feature: Constant,
) -> Result<Option<&'a Ident>, AllocError>
    ensures { IfOk result (λ field. option_copied field ≡ root_field store.now space.now feature) }
{
    let root = Ident {
        space: space.copied(alloc)?,
        number: 0,
    };
    match store.value(&root) {
        None => Ok(None),
        Some(value) => Ok(field_of(value, feature)),
    }
}

/// The integer that a variable is, if it is one.
fn integer_at(store: &Store, variable: Option<&Ident>) -> Option<i128>
    ensures { result ≡ option_and_then (λ x. option_and_then integer_in (value_of store.now x)) (option_copied variable.entry) }
{
    let value = store.value(variable?)?;
    integer_in(value)
}

/// The integer at a feature of the space's root variable, if there is one. It refuses for want of memory, and a space that is not there.
pub fn field_in(
    alloc: Global,
    levels: &Levels,
    space: &SpaceName,
    feature: Constant,
) -> Result<Option<i128>, AllocError>
    ensures { IfOk result (λ integer. integer ≡ field_in (view levels.now space.now) space.now feature) }
{
    let Some(place) = levels.place(space) else {
        return Err(AllocError);
    };
    let store = levels.store_at(place);
    let field = root_field(alloc, store, space, feature)?;
    Ok(integer_at(store, field))
}

/// The domain values below a bound. There are none where the end is before the beginning.
fn values_below(bound: i128) -> Interval
    ensures { result ≡ values_below bound }
{
    let least = LEAST_VALUE as i128;
    let greatest = GREATEST_VALUE as i128;
    let high = (bound.max(least) - 1).min(greatest);
    Interval {
        low: LEAST_VALUE,
        high: high as i64,
    }
}

/// Whether no domain value is below the bound, where there is one.
fn allows_none(bound: Option<i128>) -> bool
    ensures { result ≡ allows_none bound }
{
    match bound {
        None => false,
        Some(bound) => bound <= LEAST_VALUE as i128,
    }
}

/// What a space is told of its cost: that it is below the bound, if there is one, as far as that is news to what it sees.
fn bound_tells(
    alloc: Global,
    store: &Store,
    space: &SpaceName,
    feature: Constant,
    bound: Option<i128>,
) -> Result<Vec<Tell>, AllocError>
    ensures { IfOk result (λ tells. tells.items ≡ bound_tells store.now space.now feature bound) }
{
    let Some(bound) = bound else {
        return Ok(Vec::new(alloc));
    };
    let Some(cost) = root_field(alloc, store, space, feature)? else {
        return Ok(Vec::new(alloc));
    };
    interval_news(alloc, store, from_ref(cost), values_below(bound))
}

/// The place of a space that has not ended.
fn open_place(levels: &Levels, space: &SpaceName) -> Option<usize>
    ensures { IfSome result (IsOpenAt levels.now space.now) }
{
    let place = levels.place(space)?;
    match levels.status_at(place) {
        Status::Open => Some(place),
        Status::Failed | Status::Raised(_) | Status::Merged => None,
    }
}

/// A space that has not ended is told this, and fails where it clashes with what the space sees.
fn tell_or_fail(
    alloc: Global,
    space: &SpaceName,
    tells: &[Tell],
    levels: &mut Levels,
) -> Result<(), AllocError>
    requires there { is_some (layer_at levels.old space.now) ≡ true }
    requires opened { (layer_of levels.old space.now).status ≡ Open }
    ensures ok { OnOk result (levels.new ≡ without_inconsistent (in_layer space.now (telling tells.now) levels.old)) }
    ensures err { OnErr result (levels.new ≡ levels.old) }
{
    levels.consistent();
    if levels.tell(alloc, space, tells)? {
        return Ok(());
    }
    levels.fail(space);
    Ok(())
}

/// A space is told that its cost is below the bound, if there is one. It fails where no value is left. It refuses for want of memory,
/// and a space that has ended.
fn tell_below(
    alloc: Global,
    space: &SpaceName,
    feature: Constant,
    bound: Option<i128>,
    levels: &mut Levels,
) -> Result<(), AllocError>
    ensures ok { OnOk result (levels.new ≡ without_inconsistent (told_below space.now feature bound levels.old)) }
    ensures err { OnErr result (levels.new ≡ levels.old) }
{
    let Some(place) = open_place(levels, space) else {
        return Err(AllocError);
    };
    let tells = bound_tells(alloc, levels.store_at(place), space, feature, bound)?;
    levels.consistent();
    if tells.is_empty() {
        return Ok(());
    }
    if allows_none(bound) {
        levels.fail(space);
        return Ok(());
    }
    tell_or_fail(alloc, space, &tells, levels)
}

/// The layers, where a space is committed to the alternative of a branch and told its bound. It refuses for want of memory, and a space
/// that is the top or has ended.
fn committed_below(
    alloc: Global,
    statements: &[Statement],
    space: &SpaceName,
    feature: Constant,
    branch: Bounded,
    levels: Levels,
) -> Result<Levels, AllocError>
    ensures settles { IfOk result (λ left. Settles [] (told_below space.now feature branch.bound (committed statements.now space.now branch.alternative levels)) left) }
    ensures lower { OnOk result (is_top space.now ≡ false) }
{
    if space.is_top() {
        return Err(AllocError);
    }
    let mut left = levels;
    commit_in(
        alloc,
        statements,
        space,
        u64::from(branch.alternative),
        &mut left,
    )?;
    tell_below(alloc, space, feature, branch.bound, &mut left)?;
    Ok(left)
}

/// The course, where a space that offers alternatives was committed to the one of a branch, and told that its cost is below the bound, if
/// there is one: where no value is left, the space fails. It refuses for want of memory, and a space that is the top or has ended.
pub fn commit_below(
    alloc: Global,
    statements: &[Statement],
    space: &SpaceName,
    feature: Constant,
    branch: Bounded,
    mut course: Course,
    sleeping: &mut Sleeping,
) -> Result<Course, AllocError>
    requires asleep { Sleeps statements.now sleeping.old course }
    ensures commit { IfOk result (λ after. config_of statements.now after ≡ chosen_below statements.now space.now feature branch (config_of statements.now course)) }
    ensures lower { OnOk result (is_top space.now ≡ false) }
    ensures asleep { IfOk result (Sleeps statements.now sleeping.new) }
{
    settle_only(alloc, statements, &mut course, sleeping)?;
    let Course {
        levels,
        queue,
        due,
        shown,
    } = course;
    let levels = committed_below(alloc, statements, space, feature, branch, levels)?;
    let mut after = Course {
        levels,
        queue,
        due,
        shown,
    };
    follow_edit(&mut after);
    Ok(after)
}
