//! The statements that are written, and what is left to be done.
ghost use Rattle.std.specs.Prelude.{◌≡◌, ℕ, List, [], ◌∷◌, OnOk, IfOk};
ghost use Rattle.oz_language.specs.Translation.{made, variable_of, name_or, next_after, fresh_among};
ghost use Rattle.oz_language.specs.Kernels.{none, just};
ghost use Rattle.oz_language.specs.Translation as translation;
ghost use Rattle.oz_language.specs.Kernels as k;
ghost use Rattle.oz_syntax.specs.View.{view};
ghost use Rattle.kernel_writer.specs.Tasks.{state_of, begun, closed, ending, scope_begun, filling, numbered_behind, done, all_done, outcome, outcome_with};
ghost use Rattle.kernel_writer.specs.declared.goals.Goal.TheVariants as goal;
ghost use Rattle.kernel_writer.specs.declared.tasks.Task.TheVariants as task;

use crate::goals::Goal;
use crate::tasks::{Closing, Task};
use kernel_output::{Numbers, Output, fresh_among, one_name, two_names, variable_of};
use oz_base::{Sequence, Stack, Tally};
use oz_language::{Constant, Identifier, Statement};
use oz_syntax::Phrase;
use std::alloc::{AllocError, Global};

/// Writes the statements of phrases. Nothing recurses: what is inside a phrase is put in front of what is left to be done.
#[derive(Drop)]
pub struct Writer<'a> {
    pub alloc: Global,
    pub output: Output,
    /// The bodies that go on when the one that is being written ends, the innermost on top.
    pub outer: Stack<Sequence<u32>>,
    pub numbers: Numbers,
    /// The names that the declarations looked at last have.
    pub declared: Tally,
    /// What is left to be done, the next on top.
    pub tasks: Stack<Task<'a>>,
}

impl<'a> Writer<'a> {
    /// Nothing is written, and nothing is left to be done.
    pub fn new(alloc: Global) -> Writer<'a>
        ensures state { state_of result ≡ record { output = record { statements = []; body = [] }; outer = []; next = 1 } }
        ensures tasks { result.tasks ≡ [] }
    {
        Writer {
            alloc,
            output: Output::new(alloc),
            outer: Stack::new(alloc),
            numbers: Numbers { next: 1 },
            declared: Tally::new(alloc),
            tasks: Stack::new(alloc),
        }
    }

    /// Begins a body of its own.
    pub fn begin(&mut self) -> Result<(), AllocError>
        ensures state { OnOk result (state_of self.new ≡ begun (state_of self.old)) }
        ensures tasks { OnOk result (self.new.tasks ≡ self.old.tasks) }
    {
        let outer = self.output.open(self.alloc);
        self.outer.push(outer)?;
        Ok(())
    }

    /// Ends the body that is being written, and hands it out.
    pub fn end(&mut self) -> Result<Sequence<u32>, AllocError>
        ensures body { IfOk result (λ body. body ≡ self.old.output.body) }
        ensures outer { OnOk result (self.old.outer ≡ self.new.output.body ∷ self.new.outer) }
        ensures statements { self.new.output.statements ≡ self.old.output.statements }
        ensures next { self.new.numbers ≡ self.old.numbers }
        ensures tasks { self.new.tasks ≡ self.old.tasks }
    {
        match self.outer.pop() {
            Some(outer) => Ok(self.output.close(outer)),
            None => Err(AllocError),
        }
    }

    /// Ends two bodies, and hands them out, the outer one first.
    fn end_two(&mut self) -> Result<(Sequence<u32>, Sequence<u32>), AllocError>
        ensures second { IfOk result (λ bodies. bodies.1 ≡ self.old.output.body) }
        ensures outer { IfOk result (λ bodies. self.old.outer ≡ bodies.0 ∷ self.new.output.body ∷ self.new.outer) }
        ensures statements { self.new.output.statements ≡ self.old.output.statements }
        ensures next { self.new.numbers ≡ self.old.numbers }
        ensures tasks { self.new.tasks ≡ self.old.tasks }
    {
        let second = self.end()?;
        let first = self.end()?;
        Ok((first, second))
    }

    /// Ends a body, or two, and writes the statement that has them behind the body around them.
    pub fn close(&mut self, closing: Closing) -> Result<(), AllocError>
        ensures state { OnOk result (state_of self.new ≡ closed closing (state_of self.old)) }
        ensures tasks { OnOk result (self.new.tasks ≡ self.old.tasks) }
    {
        match closing {
            Closing::Local { names } => {
                let body = self.end()?;
                self.output.push(Statement::Local { names, body })?;
            }
            Closing::Procedure { name, parameters } => {
                let body = self.end()?;
                self.output.procedure(name, parameters, body)?;
            }
            Closing::Thread => {
                let body = self.end()?;
                self.output.push(Statement::Thread { body })?;
            }
            Closing::If { condition } => {
                let (accepted, otherwise) = self.end_two()?;
                self.output.test(condition, accepted, otherwise)?;
            }
            Closing::Case { subject, pattern } => {
                let (accepted, otherwise) = self.end_two()?;
                self.output.case(subject, pattern, accepted, otherwise)?;
            }
            Closing::Try { exception } => {
                let (body, handler) = self.end_two()?;
                self.output.attempt(body, exception, handler)?;
            }
        }
        Ok(())
    }

    /// Writes nothing.
    #[tactic(auto, using(crate::proofs::Laws::nothing_written))]
    pub fn nothing(&mut self) -> Result<(), AllocError>
        ensures { OnOk result ((words : List (List ℕ)) → outcome words self.new ≡ outcome_with words self.old (made none self.old.numbers.next)) }
    {
        Ok(())
    }

    /// `skip`
    pub fn skip(&mut self) -> Result<(), AllocError>
        ensures { OnOk result ((words : List (List ℕ)) → outcome words self.new ≡ outcome_with words self.old (made (just k.skip) self.old.numbers.next)) }
    {
        self.output.skip()?;
        Ok(())
    }

    /// `fail`
    pub fn fail(&mut self) -> Result<(), AllocError>
        ensures { OnOk result ((words : List (List ℕ)) → outcome words self.new ≡ outcome_with words self.old (made (just k.fail) self.old.numbers.next)) }
    {
        self.output.fail()?;
        Ok(())
    }

    /// `X=Y`
    pub fn equate(&mut self, left: Identifier, right: Identifier) -> Result<(), AllocError>
        ensures { OnOk result ((words : List (List ℕ)) → outcome words self.new ≡ outcome_with words self.old (made (just (k.equate left right)) self.old.numbers.next)) }
    {
        self.output.equate(left, right)?;
        Ok(())
    }

    /// `X=v`
    pub fn bind(&mut self, name: Identifier, value: Constant) -> Result<(), AllocError>
        ensures { OnOk result ((words : List (List ℕ)) → outcome words self.new ≡ outcome_with words self.old (made (just (k.bind name value)) self.old.numbers.next)) }
    {
        self.output.bind(name, value)?;
        Ok(())
    }

    /// No clause of a `case` matches.
    pub fn no_match(&mut self) -> Result<(), AllocError>
        ensures { OnOk result ((words : List (List ℕ)) → outcome words self.new ≡ outcome_with words self.old (made (just k.no_match) self.old.numbers.next)) }
    {
        self.output.no_match()?;
        Ok(())
    }

    /// `raise X end`
    pub fn raise_name(&mut self, name: Identifier) -> Result<(), AllocError>
        ensures { OnOk result ((words : List (List ℕ)) → outcome words self.new ≡ outcome_with words self.old (made (just (k.raise name)) self.old.numbers.next)) }
    {
        self.output.raise(name)?;
        Ok(())
    }

    /// Puts a task in front of what is left to be done, where nothing else is to be done for it.
    pub fn later(&mut self, next: Task<'a>) -> Result<(), AllocError>
        ensures { OnOk result ((words : List (List ℕ)) → outcome words self.new ≡ all_done words self.old.tasks (done words next.entry (state_of self.old))) }
    {
        self.put(next)?;
        Ok(())
    }

    /// Has a name made the value of a phrase.
    pub fn put_value(&mut self, name: Identifier, phrase: &'a Phrase) -> Result<(), AllocError>
        ensures tasks { OnOk result (self.new.tasks ≡ task.Phrase (goal.Value name) phrase.entry ∷ self.old.tasks) }
        ensures state { OnOk result (state_of self.new ≡ state_of self.old) }
    {
        self.put(Task::Phrase {
            goal: Goal::Value(name),
            phrase,
        })?;
        Ok(())
    }

    /// Makes a name the value of a phrase, where nothing else is to be done for it.
    pub fn value_of(&mut self, name: Identifier, phrase: &'a Phrase) -> Result<(), AllocError>
        ensures { OnOk result ((words : List (List ℕ)) → outcome words self.new ≡ outcome_with words self.old (translation.translated words (translation.value name) self.old.numbers.next (view phrase.now))) }
    {
        self.put_value(name, phrase)?;
        Ok(())
    }

    /// Puts a task in front of what is left to be done.
    pub fn put(&mut self, next: Task<'a>) -> Result<(), AllocError>
        ensures tasks { OnOk result (self.new.tasks ≡ next.entry ∷ self.old.tasks) }
        ensures state { state_of self.new ≡ state_of self.old }
    {
        self.tasks.push(next)?;
        Ok(())
    }

    /// Begins the scope of identifiers that the translation makes, if there are any. It ends when what is put in front from here on
    /// is done.
    pub fn begin_scope(&mut self, names: Sequence<Identifier>) -> Result<(), AllocError>
        ensures state { OnOk result (state_of self.new ≡ scope_begun names (state_of self.old)) }
        ensures tasks { OnOk result (self.new.tasks ≡ ending names self.old.tasks) }
    {
        if names.len() == 0 {
            return Ok(());
        }
        self.begin()?;
        self.put(Task::Close {
            closing: Closing::Local { names },
        })?;
        Ok(())
    }

    /// Begins the scope of those of the identifiers that the translation makes.
    pub fn begin_names(&mut self, names: &[Identifier]) -> Result<(), AllocError>
        ensures state { OnOk result (state_of self.new ≡ scope_begun (fresh_among names.now) (state_of self.old)) }
        ensures tasks { OnOk result (self.new.tasks ≡ ending (fresh_among names.now) self.old.tasks) }
    {
        let fresh = fresh_among(self.alloc, names)?;
        self.begin_scope(fresh)?;
        Ok(())
    }

    /// The identifier of a part, whose scope begins if it is one that the translation makes.
    pub fn begin_part(&mut self, part: &Phrase) -> Result<Identifier, AllocError>
        ensures name { IfOk result (λ name. name ≡ name_or self.old.numbers.next (variable_of (view part.now))) }
        ensures state { IfOk result (λ name. state_of self.new ≡ scope_begun (fresh_among (name ∷ [])) (numbered_behind (state_of self.old) (view part.now))) }
        ensures tasks { IfOk result (λ name. self.new.tasks ≡ ending (fresh_among (name ∷ [])) self.old.tasks) }
    {
        let name = self.numbers.part(part)?;
        let names = one_name(self.alloc, name)?;
        self.begin_names(names.as_slice())?;
        Ok(name)
    }

    /// The identifiers of two parts.
    pub fn begin_parts(
        &mut self,
        first: &Phrase,
        second: &Phrase,
    ) -> Result<(Identifier, Identifier), AllocError>
        ensures first { IfOk result (λ names. names.0 ≡ name_or self.old.numbers.next (variable_of (view first.now))) }
        ensures second { IfOk result (λ names. names.1 ≡ name_or (next_after self.old.numbers.next (variable_of (view first.now))) (variable_of (view second.now))) }
        ensures state { IfOk result (λ names. state_of self.new ≡ scope_begun (fresh_among (names.0 ∷ names.1 ∷ [])) (numbered_behind (numbered_behind (state_of self.old) (view first.now)) (view second.now))) }
        ensures tasks { IfOk result (λ names. self.new.tasks ≡ ending (fresh_among (names.0 ∷ names.1 ∷ [])) self.old.tasks) }
    {
        let one = self.numbers.part(first)?;
        let other = self.numbers.part(second)?;
        let names = two_names(self.alloc, one, other)?;
        self.begin_names(names.as_slice())?;
        Ok((one, other))
    }

    /// Has a part written in front of what is left, unless it is a variable.
    pub fn fill(&mut self, name: Identifier, part: &'a Phrase) -> Result<(), AllocError>
        ensures tasks { OnOk result (self.new.tasks ≡ filling name (variable_of (view part.entry.now)) part.entry self.old.tasks) }
        ensures state { OnOk result (state_of self.new ≡ state_of self.old) }
    {
        if variable_of(part).is_some() {
            return Ok(());
        }
        self.put(Task::Phrase {
            goal: Goal::Value(name),
            phrase: part,
        })?;
        Ok(())
    }
}
