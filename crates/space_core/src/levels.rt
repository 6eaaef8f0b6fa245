//! The layers.
ghost use Rattle.std.specs.Prelude.{◌≡◌, ◌<◌, ◌∷◌, [], Some, true, false, length, drop, slice_get, position, is_some, IfOk, OnOk, OnErr, option_copied};
ghost use Rattle.oz_base.specs.Lists.{first};
ghost use Rattle.oz_semantics.specs.Names.{parent_of};
ghost use Rattle.oz_semantics.specs.Configurations.{is_of, layer_at, layer_of, view, ancestor_variables, stack_of, new_layer, next_child, in_layer, with_frames, without_terminated, giving_out, spawning, failed, raised_by, ending};
ghost use Rattle.oz_semantics.specs.Propagation.{is_due, noting};
ghost use Rattle.oz_semantics.specs.Spaces.{alike_on, is_held};
ghost use Rattle.oz_semantics.specs.Store.{View};
ghost use Rattle.oz_semantics.specs.Edits.{created};
ghost use Rattle.oz_semantics.specs.Settling.{inconsistent_spaces};
ghost use Rattle.oz_semantics.specs.Changes.{Pushes, Spawns, GivesOut, Holds, AddsTrigger, changed_all};
ghost use Rattle.oz_semantics.specs.Effects.{declared_changes};
ghost use Rattle.oz_semantics.specs.Steps.{without_top};
ghost use Rattle.oz_semantics.specs.declared.configuration.Frame.{Frame};
ghost use Rattle.space_core.specs.Levels.{OfLayer, IsToldTo, replacing};
ghost use Rattle.space_core.specs.Telling.{has_below};
ghost use Rattle.oz_semantics.specs.Answers.{Copies, TakesIn};
ghost use Rattle.edit_laws.specs.Edits.{HasChild};
ghost use Rattle.space_core.specs.SpaceEdits.{IsEdited};
ghost use Rattle.need_laws.specs.Needs.{has_triggers};
ghost use Rattle.view_laws.specs.Spaceless.{has_spaces};
ghost use Rattle.view_laws.specs.Trees.{IsTree};
ghost use Rattle.space_core.specs.Advances.{given_out, IsAdvanced, IsCaught, IsRaised};
ghost use Rattle.space_core.specs.Firing.{firing, at_place};
ghost use Rattle.space_core.specs.Propagators.{has_propagators, noting_at};

use crate::advances::{tell_at, tell_under};
use crate::copying::{count_told, next_name};
use crate::firing::{fire, has_triggers};
use crate::given::Given;
use crate::homes::{all_home, has_next_below};
use crate::level::{Level, top_level};
use crate::looking::{changed_place, level_place, level_position};
use crate::merging::{join_told, merge_away, merge_tells, merging};
use crate::plain::{are_plain, has_spaces};
use crate::posting::{has_propagators, note_run};
use crate::remaking::{remake, tell_through};
use crate::renaming::add_all_renamed;
use crate::sights::{first_due_of, store_of};
use crate::spaces::space_tell;
use crate::stacks::Landing;
use crate::tree::{self, add_level, child_count, child_of, drop_below, is_child};
use crate::{edits, silence};
use oz_base::{Copies, Ident, Interval, Sequence, Shared, SpaceName, copies_of};
use oz_language::Identifier;
use oz_semantics::{Frame, Next, Propagator, Status, Tell, Thread, Trigger};
use renamings::Renaming;
use std::alloc::{AllocError, Global};
use std::marker::Model;
use term_store::Store;

/// The layers of all spaces, in the order of their names, with what each space sees. Contracts see the list of layers.
#[derive(Drop)]
pub struct Levels {
    levels: Vec<Level>,
}

impl Model for Levels {
    ghost use Rattle.std.specs.Prelude.{List};
    ghost use Rattle.std.specs.Coded.{codes};
    ghost use Rattle.environments.specs.contracts.environment.Environment as environment;
    ghost use Rattle.oz_semantics.specs.declared.configuration.Layer.{Layer};

    ghost Value = { List Layer };

    ghost coded = { Prim.hlevel (codes, environment.the_row.coded) };

    ghost use Rattle.space_core.specs.Shown.{shown_all, IsSound};

    ghost view = { λ l. shown_all l.levels.items };

    ghost invariant = { λ l. IsSound l.levels.items };
}

impl Levels {
    /// The top alone, which was told nothing and has no thread.
    pub fn new(alloc: Global) -> Result<Levels, AllocError>
        ensures { IfOk result (λ levels. levels ≡ new_layer [] ∷ []) }
    {
        let mut levels = Vec::new(alloc);
        levels.push(top_level(alloc))?;
        Ok(Levels { levels })
    }

    /// How many spaces there are.
    pub fn len(&self) -> usize
        ensures { result ≡ length self.now }
    {
        self.levels.len()
    }

    /// The place of a space.
    pub fn place(&self, space: &SpaceName) -> Option<usize>
        ensures { result ≡ position (is_of space.now) self.now }
    {
        level_position(self.levels.as_slice(), space)
    }

    /// The name of the space at a place.
    pub fn space_at(&self, place: usize) -> &SpaceName
        requires { place < length self.now }
        ensures { OfLayer self.now place (λ l. result.now ≡ l.space) }
    {
        &self.levels[place].space
    }

    pub fn status_at(&self, place: usize) -> &Status
        requires { place < length self.now }
        ensures { OfLayer self.now place (λ l. result.now ≡ l.status) }
    {
        &self.levels[place].status
    }

    pub fn threads_at(&self, place: usize) -> &[Thread]
        requires { place < length self.now }
        ensures { OfLayer self.now place (λ l. result.now ≡ l.threads) }
    {
        self.levels[place].threads.as_slice()
    }

    /// The numbers that the space gives out next.
    pub fn next_at(&self, place: usize) -> Next
        requires { place < length self.now }
        ensures { OfLayer self.now place (λ l. result ≡ l.next) }
    {
        self.levels[place].next()
    }

    /// How many cells the space at a place has: the number that its next cell gets.
    pub fn cell_count_at(&self, place: usize) -> u64
        requires { place < length self.now }
        ensures { OfLayer self.now place (λ l. result ≡ length l.cells) }
    {
        self.levels[place].objects.cell_count()
    }

    /// How many ports the space at a place has: the number that its next port gets.
    pub fn port_count_at(&self, place: usize) -> u64
        requires { place < length self.now }
        ensures { OfLayer self.now place (λ l. result ≡ length l.ports) }
    {
        self.levels[place].objects.port_count()
    }

    /// What the cell of this number of the space at a place contains.
    pub fn content_at(&self, place: usize, cell: u64) -> Option<&Ident>
        requires { place < length self.now }
        ensures { OfLayer self.now place (λ l. option_copied result ≡ slice_get l.cells cell) }
    {
        self.levels[place].objects.content(cell)
    }

    /// Where the stream of the port of this number of the space at a place ends.
    pub fn end_at(&self, place: usize, port: u64) -> Option<&Ident>
        requires { place < length self.now }
        ensures { OfLayer self.now place (λ l. option_copied result ≡ slice_get l.ports port) }
    {
        self.levels[place].objects.end(port)
    }

    /// What the space sees. It takes a time that grows with the number of spaces above it where the space has failed or was merged.
    pub fn store_at(&self, place: usize) -> &Store
        requires { place < length self.now }
        ensures { OfLayer self.now place (λ l. result.now ≡ view self.now l.space) }
    {
        store_of(self.levels.as_slice(), &self.levels[place])
    }

    /// What is on top of a thread's stack.
    pub fn top_frame(&self, id: &Ident) -> Option<&Frame>
        ensures { option_copied result ≡ first (stack_of self.now id.now) }
    {
        let place = level_place(self.levels.as_slice(), &id.space)?;
        self.levels[place].threads.top_frame(id.number)
    }

    /// Whether the space at a place tells its ancestors nothing: it sees the same values, domains and equalities of their variables as
    /// its parent does.
    pub fn is_silent(&self, place: usize) -> bool
        requires { place < length self.now }
        ensures { OfLayer self.now place (λ l. result ≡ alike_on (ancestor_variables self.now l.space) (view self.now l.space) (view self.now (parent_of l.space))) }
    {
        silence::is_silent(self.levels.as_slice(), &self.levels[place])
    }

    /// Whether a variable, as the space at the place `seen_at` sees it, has no value and is equal to a variable of a proper ancestor
    /// of another space.
    pub fn is_held(&self, seen_at: usize, space: &SpaceName, variable: &Ident) -> bool
        requires { seen_at < length self.now }
        ensures { OfLayer self.now seen_at (λ l. result ≡ is_held (view self.now l.space) (ancestor_variables self.now space.now) variable.now) }
    {
        silence::is_held(
            self.levels.as_slice(),
            &self.levels[seen_at],
            space,
            variable,
        )
    }

    /// Whether there are spaces below this one.
    pub fn has_below(&self, space: &SpaceName) -> bool
        ensures { result ≡ has_below self.now space.now }
    {
        has_next_below(self.levels.as_slice(), space)
    }

    /// Whether a space is there, and a child of it.
    pub fn has_child(&self, parent: &SpaceName, child: &SpaceName) -> bool
        ensures child { result ≡ true → HasChild self.now parent.now child.now }
        ensures all { HasChild self.now parent.now child.now → result ≡ true }
    {
        if !is_child(parent, child) {
            return false;
        }
        match self.place(parent) {
            None => false,
            Some(_) => self.place(child).is_some(),
        }
    }

    /// Takes the statement off the top of a thread's stack.
    pub fn pop(&mut self, id: &Ident) -> Option<Frame>
        ensures frame { result ≡ first (stack_of self.old id.now) }
        ensures popped { self.new ≡ in_layer id.now.space (with_frames id.now.number (λ stack. drop 1 stack)) self.old }
    {
        let place = level_place(self.levels.as_slice(), &id.space)?;
        edits::pop(&mut self.levels[place], id.number)
    }

    /// Puts statements in the place of the one on top of a thread's stack.
    pub fn replace_top(&mut self, id: &Ident, frames: Vec<Frame>) -> Result<(), AllocError>
        ensures ok { OnOk result (self.new ≡ in_layer id.now.space (with_frames id.now.number (replacing frames.items)) self.old) }
        ensures err { OnErr result (self.new ≡ self.old) }
    {
        let Some(place) = level_place(self.levels.as_slice(), &id.space) else {
            return Ok(());
        };
        edits::replace_top(&mut self.levels[place], id.number, frames)
    }

    /// Takes all statements off a thread's stack.
    pub fn clear(&mut self, id: &Ident)
        ensures { self.new ≡ in_layer id.now.space (with_frames id.now.number (λ stack. [])) self.old }
    {
        if let Some(place) = level_place(self.levels.as_slice(), &id.space) {
            edits::clear(&mut self.levels[place], id.number);
        }
    }

    /// Threads of the space without statements are terminated.
    pub fn drop_terminated(&mut self, space: &SpaceName)
        ensures { self.new ≡ in_layer space.now without_terminated self.old }
    {
        let alloc = *self.levels.allocator();
        if let Some(place) = level_place(self.levels.as_slice(), space) {
            edits::drop_terminated(alloc, &mut self.levels[place]);
        }
    }

    /// A new thread of the space with these statements, the first of them uppermost. It refuses for want of memory, or where the
    /// space gave out 2^64 - 1 threads.
    pub fn spawn(&mut self, space: &SpaceName, frames: Vec<Frame>) -> Result<(), AllocError>
        ensures ok { OnOk result (self.new ≡ in_layer space.now (spawning frames.items) self.old) }
        ensures err { OnErr result (self.new ≡ self.old) }
    {
        let alloc = *self.levels.allocator();
        let Some(place) = level_place(self.levels.as_slice(), space) else {
            return Ok(());
        };
        edits::spawn(alloc, &mut self.levels[place], frames)
    }

    /// The space gives out so many variables. It refuses where these would be more than 2^64 - 1.
    pub fn give_out(&mut self, space: &SpaceName, count: u64) -> Result<(), AllocError>
        ensures ok { OnOk result (self.new ≡ in_layer space.now (giving_out count) self.old) }
        ensures err { OnErr result (self.new ≡ self.old) }
    {
        let Some(place) = level_place(self.levels.as_slice(), space) else {
            return Ok(());
        };
        edits::give_out(&mut self.levels[place], count)
    }

    /// Tells a space that is there, and fails each space below it that then sees what is inconsistent. False exactly where it is
    /// inconsistent with what the space sees: then nothing changes. It refuses for want of memory, and where the space has failed or was
    /// merged: then nothing changes either.
    pub fn tell(
        &mut self,
        alloc: Global,
        space: &SpaceName,
        tells: &[Tell],
    ) -> Result<bool, AllocError>
        requires { is_some (layer_at self.old space.now) ≡ true }
        ensures told { IfOk result (IsToldTo space.now tells.now self.old self.new) }
        ensures err { OnErr result (self.new ≡ self.old) }
    {
        let Some(place) = level_place(self.levels.as_slice(), space) else {
            return Err(AllocError);
        };
        let home = all_home(self.levels.as_slice(), space, tells);
        tell_through(alloc, &mut self.levels, place, home, tells)
    }

    /// A space is ended by the exception that is the variable's term, and all below it is gone.
    pub fn end(&mut self, space: &SpaceName, exception: Ident)
        ensures { self.new ≡ ending space.now (raised_by exception) self.old }
    {
        let alloc = *self.levels.allocator();
        drop_below(&mut self.levels, space);
        let Some(place) = changed_place(self.levels.as_slice(), space) else {
            return;
        };
        tree::raise(alloc, &mut self.levels[place], exception);
    }

    /// A new child of a space that is there, in which a thread applies the procedure to the root variable. The child's name. It refuses
    /// for want of memory, where the space gave out 2^64 - 1 children, and where it has failed or was merged.
    pub fn create(
        &mut self,
        alloc: Global,
        parent: &SpaceName,
        procedure: Ident,
    ) -> Result<SpaceName, AllocError>
        requires { is_some (layer_at self.old parent.now) ≡ true }
        ensures name { IfOk result (λ child. child ≡ next_child (layer_of self.old parent.now)) }
        ensures ok { OnOk result (self.new ≡ created parent.now procedure self.old) }
        ensures err { OnErr result (self.new ≡ self.old) }
    {
        let Some(place) = level_place(self.levels.as_slice(), parent) else {
            return Err(AllocError);
        };
        let above = &self.levels[place];
        if above.bare {
            return Err(AllocError);
        }
        let count = child_count(above)?;
        let level = child_of(alloc, above, procedure)?;
        let child = level.space.copied(alloc)?;
        add_level(&mut self.levels, level)?;
        let Some(place) = changed_place(self.levels.as_slice(), parent) else {
            return Ok(child);
        };
        self.levels[place].numbers.child = count;
        Ok(child)
    }

    /// The statement on top of a thread's stack is taken off, and these go on in its place, the first of them uppermost.
    pub fn go_on(&mut self, id: &Ident, frames: Vec<Frame>) -> Result<(), AllocError>
        ensures ok { OnOk result (self.new ≡ changed_all id.now (Pushes frames.items ∷ []) (without_top id.now self.old)) }
        ensures err { OnErr result (self.new ≡ self.old) }
    {
        let Some(place) = level_place(self.levels.as_slice(), &id.space) else {
            return Ok(());
        };
        edits::replace_top(&mut self.levels[place], id.number, frames)
    }

    /// The statement on top of a thread's stack is taken off, these go on in its place, and the thread's space gives out so many
    /// variables. It refuses for want of memory, or where the space gave out 2^64 - 1.
    pub fn declare(&mut self, id: &Ident, frames: Vec<Frame>, count: u64) -> Result<(), AllocError>
        ensures ok { OnOk result (self.new ≡ changed_all id.now (Pushes frames.items ∷ GivesOut count ∷ []) (without_top id.now self.old)) }
        ensures err { OnErr result (self.new ≡ self.old) }
    {
        let Some(place) = level_place(self.levels.as_slice(), &id.space) else {
            return Ok(());
        };
        edits::declare(&mut self.levels[place], id.number, frames, count)
    }

    /// The statement on top of a thread's stack is taken off, and a body goes on in its place, in which the identifiers stand for new
    /// variables of the thread's space. It refuses for want of memory, or where the space gave out 2^64 - 1.
    pub fn declare_in(
        &mut self,
        alloc: Global,
        id: &Ident,
        names: &[Identifier],
        body: &[u32],
    ) -> Result<(), AllocError>
        ensures ok { (frame : Frame) → Some frame ≡ first (stack_of self.old id.now)
            → OnOk result (self.new ≡ changed_all id.now (declared_changes (layer_of self.old id.now.space) frame.environment names.now body.now) (without_top id.now self.old)) }
        ensures err { OnErr result (self.new ≡ self.old) }
    {
        let Some(place) = level_place(self.levels.as_slice(), &id.space) else {
            return Ok(());
        };
        edits::declare_in(alloc, &mut self.levels[place], id.number, names, body)
    }

    /// The statement on top of a thread's stack is taken off, and a new thread of its space begins with these. It refuses for want of
    /// memory, or where the space gave out 2^64 - 1 threads.
    pub fn start(&mut self, id: &Ident, frames: Vec<Frame>) -> Result<(), AllocError>
        ensures ok { OnOk result (self.new ≡ changed_all id.now (Spawns frames.items ∷ []) (without_top id.now self.old)) }
        ensures err { OnErr result (self.new ≡ self.old) }
    {
        let alloc = *self.levels.allocator();
        let Some(place) = level_place(self.levels.as_slice(), &id.space) else {
            return Ok(());
        };
        edits::start(alloc, &mut self.levels[place], id.number, frames)
    }

    /// The statement on top of a thread's stack is taken off, and a cell of its space contains this from now on. It refuses for want of
    /// memory: then nothing changes.
    pub fn assign(
        &mut self,
        alloc: Global,
        id: &Ident,
        cell: u64,
        content: Ident,
    ) -> Result<(), AllocError>
        ensures ok { OnOk result (self.new ≡ changed_all id.now (Holds cell content ∷ []) (without_top id.now self.old)) }
        ensures err { OnErr result (self.new ≡ self.old) }
    {
        let Some(place) = level_place(self.levels.as_slice(), &id.space) else {
            return Ok(());
        };
        edits::assign(alloc, &mut self.levels[place], id.number, cell, content)
    }

    /// Whether a space has by-need computations that have not begun.
    pub fn has_triggers(&self) -> bool
        ensures { result ≡ has_triggers self.now }
    {
        has_triggers(self.levels.as_slice())
    }

    /// Whether it is noted of a space that it was told of a space as a value. Where it is not, no space is a value.
    pub fn has_spaces(&self) -> bool
        ensures { result ≡ false → has_spaces self.now ≡ false }
    {
        has_spaces(self.levels.as_slice())
    }

    /// Whether no space has by-need computations that have not begun, and it is noted of none that it was told of a space as a value.
    pub fn is_plain(&self) -> bool
        ensures triggers { result ≡ true → has_triggers self.now ≡ false }
        ensures spaces { result ≡ true → has_spaces self.now ≡ false }
    {
        are_plain(self.levels.as_slice())
    }

    /// The by-need computations of the space at a place that have not begun, in the order in which they came.
    pub fn triggers_at(&self, place: usize) -> &[Trigger]
        requires { place < length self.now }
        ensures { OfLayer self.now place (λ l. result.now ≡ l.triggers) }
    {
        self.levels[place].triggers.as_slice()
    }

    /// The statement on top of a thread's stack is taken off, and the procedure is applied to the variable once that is needed. It refuses
    /// for want of memory: then nothing changes.
    pub fn delay(&mut self, id: &Ident, procedure: Ident, variable: Ident) -> Result<(), AllocError>
        ensures ok { OnOk result (self.new ≡ changed_all id.now (AddsTrigger procedure variable ∷ []) (without_top id.now self.old)) }
        ensures err { OnErr result (self.new ≡ self.old) }
    {
        let Some(place) = level_place(self.levels.as_slice(), &id.space) else {
            return Ok(());
        };
        edits::delay(&mut self.levels[place], id.number, procedure, variable)
    }

    /// The marked by-need computations of the space at a place begin, each with a new thread of its own. It refuses for want of memory, or
    /// where the space gave out 2^64 - 1 threads: some of them may have begun then.
    pub fn fire_at(&mut self, alloc: Global, place: usize, marks: &[bool]) -> Result<(), AllocError>
        requires { place < length self.old }
        ensures ok { OnOk result (self.new ≡ at_place place (firing marks.now) self.old) }
    {
        fire(alloc, &mut self.levels[place], marks)
    }

    /// Whether a space has propagators.
    pub fn has_propagators(&self) -> bool
        ensures { result ≡ has_propagators self.now }
    {
        has_propagators(self.levels.as_slice())
    }

    /// The propagators of the space at a place, in the order in which they came.
    pub fn propagators_at(&self, place: usize) -> &[Propagator]
        requires { place < length self.now }
        ensures { OfLayer self.now place (λ l. result.now ≡ l.propagators) }
    {
        self.levels[place].constraints.propagators().as_slice()
    }

    /// The place of the first propagator of the space at a place that is due. It looks at those that may be due, up to that; where the
    /// space has failed or was merged, at all.
    pub fn first_due_at(&self, place: usize) -> Option<usize>
        requires { place < length self.now }
        ensures { OfLayer self.now place (λ l. result ≡ position (is_due (view self.now l.space)) l.propagators) }
    {
        first_due_of(self.levels.as_slice(), &self.levels[place])
    }

    /// The last run of the propagator at an index of the space at a place saw these domains. It takes no memory.
    pub fn note_run(
        &mut self,
        place: usize,
        index: usize,
        seen: Shared<Sequence<Sequence<Interval>>>,
    )
        requires { place < length self.old }
        ensures noted { self.new ≡ at_place place (noting_at index seen) self.old }
        ensures first { (view : View) → OfLayer self.old place (λ l. position (is_due view) l.propagators ≡ Some index → self.new ≡ in_layer l.space (noting view seen) self.old) }
    {
        note_run(&mut self.levels[place], index, seen);
    }

    /// The statement on top of a thread's stack is taken off, its space is told this and gives out what comes with it, its cells, ports
    /// and propagators change by that, and each space below fails that then sees what is inconsistent. False exactly where it is inconsistent with
    /// what the space sees: then nothing changes. It refuses for want of memory, where the space gave out 2^64 - 1 of a kind, and as `tell`
    /// does a space that has ended.
    pub fn tell_by(
        &mut self,
        alloc: Global,
        id: &Ident,
        tells: &[Tell],
        given: Given,
    ) -> Result<bool, AllocError>
        requires { is_some (layer_at self.old id.now.space) ≡ true }
        ensures told { IfOk result (IsAdvanced id.now tells.now (given_out given) self.old self.new) }
        ensures err { OnErr result (self.new ≡ self.old) }
    {
        let Some(place) = level_place(self.levels.as_slice(), &id.space) else {
            return Err(AllocError);
        };
        if !tell_at(alloc, &mut self.levels, place, tells, &given)? {
            return Ok(false);
        }
        edits::drop_top(&mut self.levels[place], id.number);
        Ok(true)
    }

    /// The statement on top of a thread's stack is taken off, and an exception goes to the nearest mark of what is left of it. False
    /// exactly where there is none: then nothing changes.
    pub fn unwind_from(
        &mut self,
        alloc: Global,
        id: &Ident,
        exception: &Ident,
    ) -> Result<bool, AllocError>
        ensures caught { IfOk result (IsCaught exception.now id.now self.old self.new) }
        ensures err { OnErr result (self.new ≡ self.old) }
    {
        let Some(place) = level_place(self.levels.as_slice(), &id.space) else {
            return Ok(false);
        };
        edits::unwind_from(alloc, &mut self.levels[place], id.number, exception)
    }

    /// The same, where the thread's space is told the exception's term besides, by so many variables that it gives out. What is told
    /// of new variables never clashes. It refuses as `tell_by` does.
    pub fn raise(
        &mut self,
        alloc: Global,
        id: &Ident,
        tells: &[Tell],
        count: u64,
        exception: &Ident,
    ) -> Result<bool, AllocError>
        requires { is_some (layer_at self.old id.now.space) ≡ true }
        ensures raised { IfOk result (IsRaised exception.now id.now tells.now count self.old self.new) }
        ensures err { OnErr result (self.new ≡ self.old) }
    {
        let Some(place) = level_place(self.levels.as_slice(), &id.space) else {
            return Err(AllocError);
        };
        let threads = &self.levels[place].threads;
        let Some(landing) = threads.landing_of(alloc, id.number, exception)? else {
            return Ok(false);
        };
        let given = Given::Variables(count);
        let Landing { count, frames } = landing;
        let handler = frames.len();
        tell_under(
            alloc,
            &mut self.levels,
            place,
            id.number,
            frames,
            tells,
            &given,
        )?;
        edits::cut(&mut self.levels[place], id.number, handler, count);
        Ok(true)
    }

    /// The statement on top of a thread's stack is taken off, its space is told that the variable is a new child of it, which is a copy of
    /// another child, and each space below fails that then sees what is inconsistent. False exactly where that is inconsistent with what
    /// the space sees: then nothing changes. Where it is refused, nothing changes either.
    ///
    /// It takes the time and memory of the threads of all spaces, and of what the spaces below the thread's were told themselves.
    pub fn copy_told(
        &mut self,
        alloc: Global,
        id: &Ident,
        child: &SpaceName,
        variable: Ident,
    ) -> Result<bool, AllocError>
        requires { HasChild self.old id.now.space child.now }
        ensures told { IfOk result (IsEdited id.now (Copies child.now variable) self.old self.new) }
        ensures err { OnErr result (self.new ≡ self.old) }
    {
        let Some(place) = level_place(self.levels.as_slice(), &id.space) else {
            return Err(AllocError);
        };
        let mut levels = copies_of(alloc, self.levels.as_slice())?;
        let copy = next_name(alloc, &self.levels[place])?;
        let tells = space_tell(alloc, variable, copy.copied(alloc)?)?;
        if !count_told(alloc, &mut levels, place, id.number, tells.as_slice())? {
            return Ok(false);
        }
        let by = Renaming::Move {
            from: child.copied(alloc)?,
            to: copy,
        };
        add_all_renamed(alloc, &by, &mut levels, self.levels.as_slice())?;
        remake(alloc, &mut levels, place, &id.space)?;
        self.levels = levels;
        Ok(true)
    }

    /// The statement on top of a thread's stack is taken off, a child of its space becomes a part of the space, which is told what the
    /// child was told and that the variable is the former root variable of the child, and each space below fails that then sees what
    /// is inconsistent. False exactly where what is told is inconsistent with what the space sees: then nothing changes. Where it is
    /// refused, nothing changes either.
    pub fn take_in(
        &mut self,
        alloc: Global,
        id: &Ident,
        child: &SpaceName,
        variable: Ident,
    ) -> Result<bool, AllocError>
        requires { HasChild self.old id.now.space child.now }
        ensures told { IfOk result (IsEdited id.now (TakesIn child.now variable) self.old self.new) }
        ensures err { OnErr result (self.new ≡ self.old) }
    {
        let Some(place) = level_place(self.levels.as_slice(), &id.space) else {
            return Err(AllocError);
        };
        let Some(inner) = level_place(self.levels.as_slice(), child) else {
            return Err(AllocError);
        };
        let level = &self.levels[inner];
        let by = merging(alloc, level, &self.levels[place])?;
        let tells = merge_tells(alloc, &by, level, variable)?;
        let mut levels = copies_of(alloc, self.levels.as_slice())?;
        if !join_told(
            alloc,
            &by,
            &mut levels,
            place,
            id.number,
            level,
            tells.as_slice(),
        )? {
            return Ok(false);
        }
        drop_below(&mut levels, child);
        let Some(left) = changed_place(levels.as_slice(), child) else {
            return Err(AllocError);
        };
        merge_away(alloc, &mut levels[left]);
        add_all_renamed(alloc, &by, &mut levels, self.levels.as_slice())?;
        remake(alloc, &mut levels, place, &id.space)?;
        self.levels = levels;
        Ok(true)
    }

    /// A space fails, and all below it is gone. It takes no memory.
    pub fn fail(&mut self, space: &SpaceName)
        ensures { self.new ≡ ending space.now failed self.old }
    {
        let alloc = *self.levels.allocator();
        drop_below(&mut self.levels, space);
        let Some(place) = changed_place(self.levels.as_slice(), space) else {
            return;
        };
        tree::fail(alloc, &mut self.levels[place]);
    }

    /// The layers are those of a tree of spaces. Nothing: it holds a law.
    pub fn is_tree(&self)
        ensures { IsTree self.now }
    {
        let _ = &self.levels;
    }

    /// What each space that may fail sees is consistent. Nothing: it holds a law.
    pub fn consistent(&self)
        ensures { inconsistent_spaces self.now ≡ [] }
    {
        let _ = &self.levels;
    }
}

impl Copies for Levels {
    /// It shares what the spaces were told. It takes the time and memory of the spaces' threads and their stacks.
    fn copied(&self, alloc: Global) -> Result<Self, AllocError> {
        Ok(Levels {
            levels: copies_of(alloc, self.levels.as_slice())?,
        })
    }
}
