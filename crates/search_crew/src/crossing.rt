//! What may cross threads, from its parts up.
ghost use denote.Builtin.{unit, u8, u32, u64, usize, i128};
ghost use Rattle.std.specs.Thread.{IsSend, IsSync};
ghost use Rattle.std.specs.contracts.option.Option as option;
ghost use Rattle.oz_base.specs.contracts.names.SpaceName as name;
ghost use Rattle.oz_base.specs.contracts.names.Ident as ident;
ghost use Rattle.oz_base.specs.contracts.interval.Interval as interval;
ghost use Rattle.oz_base.specs.contracts.sequence.Sequence as sequence;
ghost use Rattle.oz_base.specs.contracts.shared.Shared as shared;
ghost use Rattle.oz_language.specs.contracts.kernel.Kernel as kernel;
ghost use Rattle.environments.specs.contracts.environment.Environment as environment;
ghost use Rattle.oz_semantics.specs.contracts.value.Procedure as procedure;
ghost use Rattle.oz_semantics.specs.contracts.value.Value as value;
ghost use Rattle.oz_semantics.specs.contracts.value.Tell as told;
ghost use Rattle.oz_semantics.specs.contracts.configuration.Status as status;
ghost use Rattle.oz_semantics.specs.contracts.configuration.Thread as thread;
ghost use Rattle.oz_semantics.specs.contracts.configuration.Trigger as trigger;
ghost use Rattle.oz_semantics.specs.contracts.configuration.Propagator as propagator;
ghost use Rattle.shared_list.specs.contracts.list.SharedList as list;
ghost use Rattle.cells_ports.specs.contracts.objects.Objects as objects;
ghost use Rattle.fd_domain.specs.contracts.domain.Domain as domain;
ghost use Rattle.term_store.specs.contracts.class_domain.ClassDomain as class_domain;
ghost use Rattle.term_store.specs.contracts.cell.Cell as cell;
ghost use Rattle.term_store.specs.contracts.classes.Classes as classes;
ghost use Rattle.term_store.specs.contracts.store.Store as store;
ghost use Rattle.watching.specs.contracts.watch.Watch as watch;
ghost use Rattle.suspension.specs.contracts.sleepers.Sleepers as sleepers;
ghost use Rattle.space_core.specs.contracts.constraints.Constraints as constraints;
ghost use Rattle.space_core.specs.contracts.levels.Levels as levels;
ghost use Rattle.oz_threads.specs.contracts.queue.Queue as queue;
ghost use Rattle.oz_sleep.specs.contracts.sleeping.Sleeping as sleeping;
ghost use Rattle.oz_machine.specs.contracts.machine.Machine as machine;
ghost use Rattle.recompute.specs.contracts.frozen.Frozen as frozen;
ghost use Rattle.recompute.specs.contracts.bounded.FrozenBest as frozen_best;
ghost use Rattle.recompute.specs.contracts.board.Board as board;
ghost use Rattle.oz_search.specs.contracts.leaf.Outcome as outcome;
ghost use Rattle.oz_search.specs.contracts.best.Bounded as bounded;
ghost use Rattle.oz_search.specs.contracts.best.Costed as costed;
ghost use Rattle.pool_state.specs.contracts.plain.Plain as plain;
ghost use Rattle.pool_state.specs.contracts.best.Best as best;

use environments::Environment;
use fd_domain::Domain;
use node_pool::{Best, Plain, SearchKind};
use oz_base::{Ident, Interval, Sequence, Shared, SpaceName};
use oz_language::Kernel;
use oz_search::{Bounded, Costed, Outcome};
use oz_semantics::{Procedure, Propagator, Status, Tell, Thread, Trigger, Value};
use oz_threads::Queue;
use recompute::{Frozen, FrozenBest, Source, Start};
use shared_list::SharedList;

/// Nothing, as all functions here: its clause says that a type may be sent to another thread.
fn sends<T: Send>()
    ensures { IsSend T.row }
{}

/// Other threads may see values of the type.
fn shares<T: Sync>()
    ensures { IsSync T.row }
{}

fn list_crosses<T: Send + Sync>()
    ensures send { IsSend (list.the_row T.row) }
    ensures sync { IsSync (list.the_row T.row) }
{
    sends::<SharedList<T>>();
    shares::<SharedList<T>>();
}

fn ident_crosses()
    ensures send { IsSend ident.the_row }
    ensures sync { IsSync ident.the_row }
{
    sends::<Ident>();
    shares::<Ident>();
}

fn optional_idents_cross()
    ensures send { IsSend (option.the_row ident.the_row) }
    ensures sync { IsSync (option.the_row ident.the_row) }
{
    sends::<Option<Ident>>();
    shares::<Option<Ident>>();
}

fn environments_cross()
    ensures send { IsSend environment.the_row }
    ensures sync { IsSync environment.the_row }
{
    sends::<Environment>();
    shares::<Environment>();
}

fn procedures_cross()
    ensures send { IsSend procedure.the_row }
    ensures sync { IsSync procedure.the_row }
{
    environments_cross();
    sends::<Procedure>();
    shares::<Procedure>();
}

fn values_cross()
    ensures send { IsSend value.the_row }
    ensures sync { IsSync value.the_row }
{
    procedures_cross();
    sends::<Value>();
    shares::<Value>();
}

fn intervals_cross()
    ensures send { IsSend (sequence.the_row interval.the_row) }
    ensures sync { IsSync (sequence.the_row interval.the_row) }
{
    sends::<Sequence<Interval>>();
    shares::<Sequence<Interval>>();
}

fn tells_cross()
    ensures send { IsSend told.the_row }
    ensures sync { IsSync told.the_row }
{
    ident_crosses();
    values_cross();
    intervals_cross();
}

fn optional_values_cross()
    ensures send { IsSend (option.the_row value.the_row) }
    ensures sync { IsSync (option.the_row value.the_row) }
{
    values_cross();
    sends::<Option<Value>>();
    shares::<Option<Value>>();
}

fn domains_cross()
    ensures send { IsSend domain.the_row }
    ensures sync { IsSync domain.the_row }
{
    sends::<Domain>();
    shares::<Domain>();
}

fn class_domains_cross()
    ensures send { IsSend class_domain.the_row }
    ensures sync { IsSync class_domain.the_row }
{
    domains_cross();
    optional_values_cross();
}

fn cells_cross()
    ensures send { IsSend cell.the_row }
    ensures sync { IsSync cell.the_row }
{
    ident_crosses();
    class_domains_cross();
}

fn classes_cross()
    ensures send { IsSend classes.the_row }
    ensures sync { IsSync classes.the_row }
{
    cells_cross();
}

fn names_cross()
    ensures send { IsSend (name.the_row) }
    ensures sync { IsSync (name.the_row) }
{
    sends::<SpaceName>();
    shares::<SpaceName>();
}

fn status_crosses()
    ensures send { IsSend (status.the_row) }
    ensures sync { IsSync (status.the_row) }
{
    sends::<Status>();
    shares::<Status>();
}

fn idents_cross()
    ensures send { IsSend (sequence.the_row ident.the_row) }
    ensures sync { IsSync (sequence.the_row ident.the_row) }
{
    sends::<Sequence<Ident>>();
    shares::<Sequence<Ident>>();
}

fn threads_cross()
    ensures send { IsSend thread.the_row }
    ensures sync { IsSync thread.the_row }
{
    sends::<Thread>();
    shares::<Thread>();
}

fn triggers_cross()
    ensures send { IsSend (sequence.the_row trigger.the_row) }
    ensures sync { IsSync (sequence.the_row trigger.the_row) }
{
    sends::<Sequence<Trigger>>();
    shares::<Sequence<Trigger>>();
}

fn propagators_cross()
    ensures send { IsSend (sequence.the_row propagator.the_row) }
    ensures sync { IsSync (sequence.the_row propagator.the_row) }
{
    sends::<Sequence<Propagator>>();
    shares::<Sequence<Propagator>>();
}

fn ident_lists_cross()
    ensures send { IsSend (list.the_row ident.the_row) }
    ensures sync { IsSync (list.the_row ident.the_row) }
{
    ident_crosses();
    list_crosses::<Ident>();
}

fn objects_cross()
    ensures send { IsSend objects.the_row }
    ensures sync { IsSync objects.the_row }
{
    ident_lists_cross();
}

fn kernel_crosses()
    ensures send { IsSend (shared.the_row kernel.the_row) }
    ensures sync { IsSync (shared.the_row kernel.the_row) }
{
    sends::<Shared<Kernel>>();
    shares::<Shared<Kernel>>();
}

fn queue_crosses()
    ensures send { IsSend (queue.the_row) }
    ensures sync { IsSync (queue.the_row) }
{
    sends::<Queue>();
    shares::<Queue>();
}

fn shown_crosses()
    ensures send { IsSend (list.the_row (sequence.the_row u8)) }
    ensures sync { IsSync (list.the_row (sequence.the_row u8)) }
{
    sends::<SharedList<Sequence<u8>>>();
    shares::<SharedList<Sequence<u8>>>();
}

fn store_crosses()
    ensures send { IsSend store.the_row }
    ensures sync { IsSync store.the_row }
{
    tells_cross();
    classes_cross();
}

fn indices_cross()
    ensures send { IsSend (sequence.the_row usize) }
    ensures sync { IsSync (sequence.the_row usize) }
{
    sends::<Sequence<usize>>();
    shares::<Sequence<usize>>();
}

fn index_lists_cross()
    ensures send { IsSend (list.the_row usize) }
    ensures sync { IsSync (list.the_row usize) }
{
    list_crosses::<usize>();
}

fn watch_crosses()
    ensures send { IsSend watch.the_row }
    ensures sync { IsSync watch.the_row }
{
    ident_lists_cross();
    index_lists_cross();
    indices_cross();
}

fn thread_numbers_cross()
    ensures send { IsSend (sequence.the_row u64) }
    ensures sync { IsSync (sequence.the_row u64) }
{
    sends::<Sequence<u64>>();
    shares::<Sequence<u64>>();
}

fn number_lists_cross()
    ensures send { IsSend (list.the_row u64) }
    ensures sync { IsSync (list.the_row u64) }
{
    list_crosses::<u64>();
}

fn sleepers_cross()
    ensures send { IsSend sleepers.the_row }
    ensures sync { IsSync sleepers.the_row }
{
    ident_lists_cross();
    number_lists_cross();
}

fn sleeping_crosses()
    ensures send { IsSend sleeping.the_row }
    ensures sync { IsSync sleeping.the_row }
{
    names_cross();
    sleepers_cross();
}

fn constraints_cross()
    ensures send { IsSend constraints.the_row }
    ensures sync { IsSync constraints.the_row }
{
    ident_crosses();
    store_crosses();
    propagators_cross();
    watch_crosses();
}

fn levels_cross()
    ensures send { IsSend levels.the_row }
    ensures sync { IsSync levels.the_row }
{
    names_cross();
    status_crosses();
    constraints_cross();
    idents_cross();
    threads_cross();
    triggers_cross();
    objects_cross();
}

fn machine_crosses()
    ensures send { IsSend machine.the_row }
    ensures sync { IsSync machine.the_row }
{
    levels_cross();
    kernel_crosses();
    queue_crosses();
    ident_crosses();
    optional_idents_cross();
    thread_numbers_cross();
    shown_crosses();
    sleeping_crosses();
}

/// Where a search starts. The same of its parts stands above.
fn frozen_crosses()
    ensures send { IsSend frozen.the_row }
    ensures sync { IsSync frozen.the_row }
{
    machine_crosses();
    sends::<Frozen>();
    shares::<Frozen>();
}

/// Where a best search starts.
fn frozen_best_crosses()
    ensures send { IsSend frozen_best.the_row }
    ensures sync { IsSync frozen_best.the_row }
{
    frozen_crosses();
    sends::<FrozenBest>();
    shares::<FrozenBest>();
}

/// What is known of a leaf.
fn outcomes_cross()
    ensures send { IsSend outcome.the_row }
    ensures sync { IsSync outcome.the_row }
{
    sends::<Outcome>();
    shares::<Outcome>();
}

fn numbers_cross()
    ensures send { IsSend u32 }
    ensures sync { IsSync u32 }
{
    sends::<u32>();
    shares::<u32>();
}

fn units_cross()
    ensures send { IsSend unit }
    ensures sync { IsSync unit }
{
    sends::<()>();
    shares::<()>();
}

/// A branch of best search.
fn bounded_crosses()
    ensures send { IsSend bounded.the_row }
    ensures sync { IsSync bounded.the_row }
{
    sends::<Bounded>();
    shares::<Bounded>();
}

/// What is known of a leaf of best search.
fn costed_crosses()
    ensures send { IsSend costed.the_row }
    ensures sync { IsSync costed.the_row }
{
    sends::<Costed>();
    shares::<Costed>();
}

/// The least cost so far.
fn costs_cross()
    ensures send { IsSend (option.the_row i128) }
    ensures sync { IsSync (option.the_row i128) }
{
    sends::<Option<i128>>();
    shares::<Option<i128>>();
}

fn plain_kind_crosses()
    ensures send { IsSend plain.the_row }
    ensures sync { IsSync plain.the_row }
{
    sends::<Plain>();
    shares::<Plain>();
}

fn best_kind_crosses()
    ensures send { IsSend best.the_row }
    ensures sync { IsSync best.the_row }
{
    sends::<Best>();
    shares::<Best>();
}

/// Nothing: its clauses say that what workers of a plain search share may cross threads.
pub fn plain_crosses()
    ensures tag { IsSend frozen.the_row × IsSync frozen.the_row }
    ensures kind { IsSend plain.the_row × IsSync plain.the_row }
    ensures branch { IsSend u32 × IsSync u32 }
    ensures leaf { IsSend outcome.the_row × IsSync outcome.the_row }
    ensures so_far { IsSend unit × IsSync unit }
{
    frozen_crosses();
    plain_kind_crosses();
    numbers_cross();
    outcomes_cross();
    units_cross();
}

/// Nothing: its clauses say that what workers of a best search share may cross threads.
pub fn best_crosses()
    ensures tag { IsSend frozen_best.the_row × IsSync frozen_best.the_row }
    ensures kind { IsSend best.the_row × IsSync best.the_row }
    ensures branch { IsSend bounded.the_row × IsSync bounded.the_row }
    ensures leaf { IsSend costed.the_row × IsSync costed.the_row }
    ensures so_far { IsSend (option.the_row i128) × IsSync (option.the_row i128) }
{
    frozen_best_crosses();
    best_kind_crosses();
    bounded_crosses();
    costed_crosses();
    costs_cross();
}

/// Nothing: its clause says that threads may share the board of a search, where its branches and leaves may cross.
pub fn board_crosses<T: Source, S: Start<T>>()
where
    <T::Kind as SearchKind>::Branch: Send + Sync,
    <T::Kind as SearchKind>::Leaf: Send + Sync,
    ensures { IsSend (board.the_row T.row S.row T.Kind.row T.Kind.Branch.row T.Kind.Leaf.row T.Kind.SoFar.row (record { origin = T.origin; maker = T.maker }) (record { within = T.within }) T.Kind.SearchKind S.Start) }
{
    machine_crosses();
}
