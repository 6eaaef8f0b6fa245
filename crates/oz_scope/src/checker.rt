//! The scope of each name of a phrase.
ghost use Rattle.std.specs.Prelude.{◌≡◌, ◌++◌, [], None, IfOk, OnOk};
ghost use Rattle.oz_language.specs.Grammar.{of_list};
ghost use Rattle.oz_language.specs.Refusals.{use_faults, faults, faults_each, name_faults, feature_faults, variables_in, variables_in_each, parameters_in, with_names, declaring, first_scope, first_of};
ghost use Rattle.oz_syntax.specs.View.{view, views};
ghost use Rattle.oz_scope.specs.Declares.{head_faults, scope_in};
ghost use Rattle.oz_scope.specs.Keeps.{kept};

use crate::features::meet_repeated_features;
use crate::found::Found;
use crate::names::{
    add_parameters, add_variables, add_variables_of_each, declare, enter, meet_repeated_names,
};
use oz_base::Tally;
use oz_language::{Fault, RefusalKind};
use oz_syntax::Phrase;
use std::alloc::{AllocError, Global};

/// So many names are always in scope: those with the least numbers.
const FIRST_NAMES: u32 = 22;

/// The names that every text has.
fn first_names(alloc: Global) -> Result<Tally, AllocError>
    ensures { IfOk result (λ scope. scope ≡ first_scope) }
{
    let mut scope = Tally::new(alloc);
    'names: for count in 0..FIRST_NAMES {
        scope.push(FIRST_NAMES - 1 - count)?;
    }
    Ok(scope)
}

/// Goes through a phrase with the names in scope, and keeps the fault that decides. Once memory is wanting, its scope means
/// nothing.
#[derive(Drop)]
struct Checker {
    alloc: Global,
    scope: Tally,
    /// The names of the head or the pattern that was looked at last.
    seen: Tally,
    found: Found,
}

impl Checker {
    /// With the names that every text has.
    fn new(alloc: Global) -> Result<Checker, AllocError>
        ensures scope { IfOk result (λ c. c.scope ≡ first_scope) }
        ensures found { IfOk result (λ c. c.found ≡ None) }
    {
        Ok(Checker {
            alloc,
            scope: first_names(alloc)?,
            seen: Tally::new(alloc),
            found: Found::new(),
        })
    }

    /// A variable where it is used.
    fn variable(&mut self, name: u32, at: usize)
        ensures found { self.new.found ≡ kept (use_faults self.old.scope name at) self.old.found }
        ensures scope { self.new.scope ≡ self.old.scope }
    {
        if self.scope.has(name) {
            return;
        }
        self.found.meet(Fault {
            kind: RefusalKind::Unbound,
            at,
        });
    }

    /// The features of a record's fields, of which each stands once.
    fn features(&mut self, fields: &[Phrase]) -> Result<(), AllocError>
        ensures found { OnOk result (self.new.found ≡ kept (feature_faults (of_list (views fields.now))) self.old.found) }
        ensures scope { self.new.scope ≡ self.old.scope }
    {
        meet_repeated_features(self.alloc, &mut self.found, fields)
    }

    /// The parameters of a head, of which each stands once.
    fn parameters(&mut self, parameters: &[Phrase]) -> Result<(), AllocError>
        ensures found { OnOk result (self.new.found ≡ kept (name_faults (variables_in_each (of_list (views parameters.now)))) self.old.found) }
        ensures scope { OnOk result (self.new.scope ≡ self.old.scope) }
    {
        let mut variables = Vec::new(self.alloc);
        add_variables_of_each(&mut variables, parameters)?;
        meet_repeated_names(&mut self.found, &mut self.seen, &variables)
    }

    /// The parameters of a head, which are in scope behind it.
    fn enter_parameters(&mut self, head: &Phrase) -> Result<(), AllocError>
        ensures found { OnOk result (self.new.found ≡ self.old.found) }
        ensures scope { OnOk result (self.new.scope ≡ with_names (parameters_in (view head.now)) self.old.scope) }
    {
        let mut parameters = Vec::new(self.alloc);
        add_parameters(&mut parameters, head)?;
        enter(&mut self.scope, &parameters)
    }

    /// The variables of a pattern, of which each stands once, and which are in scope behind it.
    fn pattern(&mut self, pattern: &Phrase) -> Result<(), AllocError>
        ensures found { OnOk result (self.new.found ≡ kept (name_faults (variables_in (view pattern.now))) self.old.found) }
        ensures scope { OnOk result (self.new.scope ≡ with_names (variables_in (view pattern.now)) self.old.scope) }
    {
        let mut variables = Vec::new(self.alloc);
        add_variables(&mut variables, pattern)?;
        meet_repeated_names(&mut self.found, &mut self.seen, &variables)?;
        enter(&mut self.scope, &variables)
    }

    /// A phrase, behind which the scope is as before.
    #[cycle(phrases)]
    #[tactic(auto, using(crate::proofs::Naming::scope_left))]
    fn phrase(&mut self, phrase: &Phrase) -> Result<(), AllocError>
        ensures found { OnOk result (self.new.found ≡ kept (faults self.old.scope (view phrase.now)) self.old.found) }
        ensures scope { OnOk result (self.new.scope ≡ self.old.scope) }
    {
        let depth = self.scope.depth();
        self.parts(phrase)?;
        self.scope.leave(depth);
        Ok(())
    }

    /// The parts of a phrase; what it declares stays in scope.
    #[cycle(phrases)]
    #[tactic(auto, using(crate::proofs::Keeping::kept_append))]
    fn parts(&mut self, phrase: &Phrase) -> Result<(), AllocError>
        ensures found { OnOk result (self.new.found ≡ kept (faults self.old.scope (view phrase.now)) self.old.found) }
        ensures scope { OnOk result (self.new.scope ≡ scope_in (view phrase.now) self.old.scope) }
    {
        match phrase {
            Phrase::Var { name, at } => {
                self.variable(*name, *at);
                Ok(())
            }
            Phrase::Record { fields, .. } => {
                self.features(fields)?;
                self.each(fields)
            }
            Phrase::Keyed { value, .. } => self.phrase(value),
            Phrase::List { elements, .. } => self.each(elements),
            Phrase::Paren { inner, .. } => self.each(inner),
            Phrase::Binary { left, right, .. } => {
                self.phrase(left)?;
                self.phrase(right)
            }
            Phrase::Bars { elements } => self.each(elements),
            Phrase::Hashes { elements } => self.each(elements),
            Phrase::Select { record, feature } => {
                self.phrase(record)?;
                self.phrase(feature)
            }
            Phrase::Access { cell, .. } => self.phrase(cell),
            Phrase::Raise { value, .. } => self.phrase(value),
            Phrase::Connected { left, right, .. } => {
                self.phrase(left)?;
                self.phrase(right)
            }
            Phrase::Relate { left, right, .. } => {
                self.phrase(left)?;
                self.phrase(right)
            }
            Phrase::Call { parts, .. } => self.each(parts),
            Phrase::Head { names, .. } => self.head(names),
            Phrase::Proc { head, body, .. } => {
                self.phrase(head)?;
                self.enter_parameters(head)?;
                self.phrase(body)
            }
            Phrase::Fun { head, body, .. } => {
                self.phrase(head)?;
                self.enter_parameters(head)?;
                self.phrase(body)
            }
            Phrase::Local {
                declarations,
                body,
                ..
            } => {
                self.declarations(declarations)?;
                self.phrase(body)
            }
            Phrase::Thread { body, .. } => self.phrase(body),
            Phrase::Choice { alternatives, .. } => self.each(alternatives),
            Phrase::If { arms, .. } => self.each(arms),
            Phrase::IfElse {
                arms,
                otherwise,
                ..
            } => {
                self.each(arms)?;
                self.phrase(otherwise)
            }
            Phrase::Arm { condition, body } => {
                self.phrase(condition)?;
                self.phrase(body)
            }
            Phrase::Case {
                subject,
                clauses,
                ..
            } => {
                self.phrase(subject)?;
                self.each(clauses)
            }
            Phrase::CaseElse {
                subject,
                clauses,
                otherwise,
                ..
            } => {
                self.phrase(subject)?;
                self.each(clauses)?;
                self.phrase(otherwise)
            }
            Phrase::Clause { pattern, body } => {
                self.pattern(pattern)?;
                self.phrase(pattern)?;
                self.phrase(body)
            }
            Phrase::Try { body, clauses } => {
                self.phrase(body)?;
                self.each(clauses)
            }
            Phrase::Body {
                declarations,
                phrases,
            } => {
                self.declarations(declarations)?;
                self.each(phrases)
            }
            Phrase::Any { .. }
            | Phrase::Int { .. }
            | Phrase::String { .. }
            | Phrase::Literal { .. }
            | Phrase::Skip
            | Phrase::Fail { .. }
            | Phrase::Dollar => Ok(()),
        }
    }

    /// Phrases one behind the other, in the same scope.
    #[cycle(phrases)]
    #[tactic(auto, using(crate::proofs::Keeping::kept_append))]
    fn each(&mut self, phrases: &[Phrase]) -> Result<(), AllocError>
        ensures found { OnOk result (self.new.found ≡ kept (faults_each self.old.scope (of_list (views phrases.now))) self.old.found) }
        ensures scope { OnOk result (self.new.scope ≡ self.old.scope) }
    {
        'phrases: for phrase in phrases {
            self.phrase(phrase)?;
        }
        Ok(())
    }

    /// The head of a procedure: its name, which is used, and its parameters.
    #[cycle(phrases)]
    #[tactic(auto, using(crate::proofs::Keeping::kept_append))]
    fn head(&mut self, names: &[Phrase]) -> Result<(), AllocError>
        ensures found { OnOk result (self.new.found ≡ kept (head_faults self.old.scope (of_list (views names.now))) self.old.found) }
        ensures scope { OnOk result (self.new.scope ≡ self.old.scope) }
    {
        match names.split_first() {
            None => Ok(()),
            Some((name, parameters)) => {
                self.phrase(name)?;
                self.parameters(parameters)
            }
        }
    }

    /// Declarations, which are in scope behind it.
    #[cycle(phrases)]
    fn declarations(&mut self, declarations: &[Phrase]) -> Result<(), AllocError>
        ensures found { OnOk result (self.new.found ≡ kept (faults_each (declaring (of_list (views declarations.now)) self.old.scope) (of_list (views declarations.now))) self.old.found) }
        ensures scope { OnOk result (self.new.scope ≡ declaring (of_list (views declarations.now)) self.old.scope) }
    {
        declare(&mut self.scope, declarations)?;
        self.each(declarations)
    }
}

/// The fault of a program that decides: a variable that no binding in scope has, a parameter that stands twice in one head, a
/// variable that stands twice in one pattern, or a feature that stands twice in one record. It is the one at the first place, and
/// at one place a variable without a binding. None where there is none. An error is want of memory.
#[tactic(auto, using(crate::proofs::Keeping::kept_first))]
pub fn first_fault(alloc: Global, phrase: &Phrase) -> Result<Option<Fault>, AllocError>
    ensures { IfOk result (λ fault. fault ≡ first_of (faults first_scope (view phrase.now))) }
{
    let mut checker = Checker::new(alloc)?;
    checker.phrase(phrase)?;
    Ok(checker.found.fault())
}
