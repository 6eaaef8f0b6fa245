//! The machine: a loaded program, shared by all copies, and what it is in the course of its run.
ghost use Rattle.std.specs.Prelude.{◌≡◌, [], IfOk, IfSome, OnOk, OnErr};
ghost use Rattle.oz_semantics.specs.Configurations.{view};
ghost use Rattle.oz_semantics.specs.Texts.{term_text};
ghost use Rattle.oz_semantics.specs.Schedule.{turn};
ghost use Rattle.oz_semantics.specs.Runs.{opening, run};
ghost use Rattle.oz_semantics.specs.BestSearch.{chosen_below, field_in};
ghost use Rattle.oz_semantics.specs.Search.{with_root, search_space, chosen_in, state_text};
ghost use Rattle.oz_machine.specs.Turns.{CostsWithin, IsTurn};
ghost use Rattle.oz_machine.specs.Answers.{IsLeftOff, IsRun, IsScript, PrintsWithin};

use crate::course::Course;
use crate::opening::opening;
use crate::runs::{Ran, run};
use crate::scripts::{has_script, script_variable};
use crate::texts::{Text, state_text, variable_text};
use crate::turn::step;
use crate::{bounding, searching};
use oz_base::{Copies, Ident, Sequence, Shared, SpaceName};
use oz_language::{Constant, Kernel};
use oz_search::Bounded;
use oz_semantics::{State, Stepped};
use oz_sleep::Sleeping;
use shared_list::SharedList;
use std::alloc::{AllocError, Global};
use std::marker::Model;

/// A loaded program and what it is in the course of its run. Contracts see the kernel and the configuration.
#[derive(Drop)]
pub struct Machine {
    kernel: Shared<Kernel>,
    course: Course,
    /// Whether all is known to hold that holds from turn to turn. It is not once the top has ended.
    kept: bool,
    /// Who is known to sleep.
    sleeping: Sleeping,
}

impl Model for Machine {
    ghost use Rattle.oz_machine.specs.Courses.{Loaded, config_of, Keeps};
    ghost use Rattle.std.specs.Coded.{codes};
    ghost use Rattle.environments.specs.contracts.environment.Environment as environment;

    ghost Value = { Loaded };

    ghost coded = { Prim.hlevel (codes, environment.the_row.coded) };

    ghost view = { λ m. record { kernel = m.kernel; config = config_of m.kernel.statements m.course } };

    ghost use Rattle.oz_machine.specs.Asleep.{Sleeps};

    ghost invariant = { λ m. Keeps m.kernel.statements m.kept m.course × Sleeps m.kernel.statements m.sleeping m.course };
}

impl Machine {
    /// The machine in its opening configuration.
    pub fn load(alloc: Global, kernel: Kernel) -> Result<Machine, AllocError>
        ensures kernel { IfOk result (λ machine. machine.kernel ≡ kernel) }
        ensures opening { IfOk result (λ machine. machine.config ≡ opening kernel) }
    {
        let course = opening(alloc, &kernel)?;
        Ok(Machine {
            kernel: Shared::new(alloc, kernel)?,
            course,
            kept: true,
            sleeping: Sleeping::unknown(alloc),
        })
    }

    /// An equal machine. The program is shared, and so is what the spaces were told.
    pub fn copy(&self, alloc: Global) -> Result<Machine, AllocError>
        ensures { IfOk result (λ machine. machine ≡ self.now) }
    {
        Ok(Machine {
            kernel: self.kernel.copied(alloc)?,
            course: self.course.copied(alloc)?,
            kept: self.kept,
            sleeping: self.sleeping.copied(alloc)?,
        })
    }

    /// One turn. None exactly where it costs more than the fuel: it is not made, and nothing changes. Nor does anything change where it
    /// is refused.
    pub fn step(&mut self, alloc: Global, fuel: u64) -> Result<Option<Stepped>, AllocError>
        ensures turn { IfOk result (IsTurn (turn self.old.kernel self.old.config) fuel self.old.config self.new.config) }
        ensures cost { IfOk result (λ turned. IfSome turned (CostsWithin fuel)) }
        ensures kernel { OnOk result (self.new.kernel ≡ self.old.kernel) }
        ensures err { OnErr result (self.new ≡ self.old) }
    {
        let Machine {
            kernel,
            course,
            kept,
            sleeping,
        } = self;
        step(alloc, kernel.get(), course, kept, sleeping, fuel)
    }

    /// Turns while something of the space or below it can step, for no more than the fuel. A text that is shown costs a step for
    /// each of its nodes besides. Where it is refused, the machine stands after the last turn that was made, and goes on from there as
    /// it would have.
    pub fn run(&mut self, alloc: Global, space: &SpaceName, fuel: u64) -> Result<Ran, AllocError>
        ensures run { IfOk result (IsRun self.new space.now fuel (run self.old.kernel space.now self.old.config fuel)) }
        ensures kernel { OnOk result (self.new.kernel ≡ self.old.kernel) }
        ensures err { OnErr result ((self.new.kernel ≡ self.old.kernel) × IsLeftOff self.old.kernel space.now fuel self.old.config self.new.config) }
    {
        let Machine {
            kernel,
            course,
            kept,
            sleeping,
        } = self;
        run(alloc, kernel.get(), course, kept, sleeping, space, fuel)
    }

    /// The texts that were shown, in their order.
    pub fn shown(&self) -> &SharedList<Sequence<u8>>
        ensures { result.now ≡ self.now.config.shown }
    {
        &self.course.shown
    }

    /// The variable of `Script`. None exactly where that is no procedure of one parameter.
    pub fn script(&self) -> Option<Ident>
        ensures { IsScript self.now result }
    {
        if has_script(&self.course.levels) {
            Some(script_variable())
        } else {
            None
        }
    }

    /// The term of a variable, in what the top sees. None exactly where it has more nodes than the fuel.
    pub fn top_text(
        &self,
        alloc: Global,
        variable: &Ident,
        fuel: u64,
    ) -> Result<Option<Text>, AllocError>
        ensures { IfOk result (PrintsWithin (term_text self.now.kernel.words (view self.now.config.layers []) variable.now) fuel) }
    {
        let levels = &self.course.levels;
        let Some(place) = levels.place(&SpaceName::top()) else {
            return Err(AllocError);
        };
        let words = &self.kernel.get().words;
        variable_text(alloc, words, levels.store_at(place), variable, fuel)
    }

    /// Makes the search root, a child of the top that applies the procedure to its root variable, and gives its name. Where it is refused
    /// nothing changes.
    pub fn root(&mut self, alloc: Global, procedure: Ident) -> Result<SpaceName, AllocError>
        ensures root { OnOk result (self.new.config ≡ with_root self.old.kernel.statements procedure self.old.config) }
        ensures name { IfOk result (λ space. space ≡ search_space self.old.config) }
        ensures kernel { OnOk result (self.new.kernel ≡ self.old.kernel) }
        ensures err { OnErr result (self.new ≡ self.old) }
    {
        let Machine {
            kernel,
            course,
            sleeping,
            ..
        } = self;
        let statements = kernel.get().statements.as_slice();
        searching::root(alloc, statements, procedure, course, sleeping)
    }

    /// Commits a space that offers alternatives to one of them, from 1. Where it is refused nothing changes.
    pub fn commit(&mut self, alloc: Global, space: &SpaceName, index: u64) -> Result<(), AllocError>
        ensures commit { OnOk result (self.new.config ≡ chosen_in self.old.kernel.statements space.now index self.old.config) }
        ensures kernel { OnOk result (self.new.kernel ≡ self.old.kernel) }
        ensures err { OnErr result (self.new ≡ self.old) }
    {
        let Machine {
            kernel,
            course,
            sleeping,
            ..
        } = self;
        let statements = kernel.get().statements.as_slice();
        searching::commit(alloc, statements, space, index, course, sleeping)
    }

    /// The machine, where a space that offers alternatives was committed to the one of a branch, and told that its cost, the field of its
    /// root variable at the feature, is below the bound, if there is one: where no value is left, the space fails. It refuses for want of
    /// memory, and a space that is the top, has ended or is not there: then the machine is gone, so that nothing has to be copied to go
    /// back to.
    pub fn commit_below(
        self,
        alloc: Global,
        space: &SpaceName,
        feature: Constant,
        branch: Bounded,
    ) -> Result<Machine, AllocError>
        ensures commit { IfOk result (λ after. after.config ≡ chosen_below self.kernel.statements space.now feature branch self.config) }
        ensures kernel { IfOk result (λ after. after.kernel ≡ self.kernel) }
    {
        let Machine {
            kernel,
            course,
            kept,
            mut sleeping,
        } = self;
        let statements = kernel.get().statements.as_slice();
        let course = bounding::commit_below(
            alloc,
            statements,
            space,
            feature,
            branch,
            course,
            &mut sleeping,
        )?;
        Ok(Machine {
            kernel,
            course,
            kept,
            sleeping,
        })
    }

    /// The integer at a feature of the space's root variable, as the space sees it, if there is one. It refuses for want of memory, and
    /// a space that is not there.
    pub fn field(
        &self,
        alloc: Global,
        space: &SpaceName,
        feature: Constant,
    ) -> Result<Option<i128>, AllocError>
        ensures { IfOk result (λ integer. integer ≡ field_in (view self.now.config.layers space.now) space.now feature) }
    {
        bounding::field_in(alloc, &self.course.levels, space, feature)
    }

    /// What is shown of a space in this state. None exactly where that costs more than the fuel.
    pub fn leaf_text(
        &self,
        alloc: Global,
        space: &SpaceName,
        state: &State,
        fuel: u64,
    ) -> Result<Option<Text>, AllocError>
        ensures { IfOk result (PrintsWithin (state_text self.now.kernel.words self.now.config space.now state.now) fuel) }
    {
        let words = &self.kernel.get().words;
        state_text(alloc, words, &self.course.levels, space, state, fuel)
    }
}
