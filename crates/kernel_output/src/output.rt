//! The statements written so far.
ghost use Rattle.std.specs.Prelude.{◌≡◌, [], ◌∷◌, length, OnOk, IfOk};
ghost use Rattle.oz_language.specs.Kernels.{just};
ghost use Rattle.oz_language.specs.Kernels as k;
ghost use Rattle.oz_language.specs.declared.kernel.Statement.TheVariants as numbered;
ghost use Rattle.kernel_output.specs.Outputs.{with_statement, with_all, opened};

use oz_base::Sequence;
use oz_language::{Constant, Identifier, LinearTerm, Piece, Sign, Statement};
use std::alloc::{AllocError, Global};
use std::mem;

/// The statements of a kernel, and the numbers of those of the body that is being written.
#[derive(Drop)]
pub struct Output {
    pub statements: Sequence<Statement>,
    pub body: Sequence<u32>,
}

/// The number of the statement at a place. It refuses a place that no number has.
fn number_at(place: usize) -> Result<u32, AllocError>
    ensures { IfOk result (λ number. number ≡ place) }
{
    match u32::try_from(place) {
        Ok(number) => Ok(number),
        Err(_) => Err(AllocError),
    }
}

impl Output {
    /// Nothing is written.
    pub fn new(alloc: Global) -> Output
        ensures statements { result.statements ≡ [] }
        ensures body { result.body ≡ [] }
    {
        Output {
            statements: Sequence::new(alloc),
            body: Sequence::new(alloc),
        }
    }

    /// Adds a statement to the body.
    pub fn push(&mut self, statement: Statement) -> Result<(), AllocError>
        ensures { OnOk result (self.new ≡ with_statement self.old statement) }
    {
        let number = number_at(self.statements.len())?;
        self.statements.push(statement)?;
        self.body.push(number)?;
        Ok(())
    }

    /// `skip`
    #[tactic(auto, using(crate::proofs::Writing::skip_written))]
    pub fn skip(&mut self) -> Result<(), AllocError>
        ensures { OnOk result (self.new ≡ with_all self.old (just k.skip)) }
    {
        self.push(Statement::Skip)?;
        Ok(())
    }

    /// `fail`
    #[tactic(auto, using(crate::proofs::Writing::fail_written))]
    pub fn fail(&mut self) -> Result<(), AllocError>
        ensures { OnOk result (self.new ≡ with_all self.old (just k.fail)) }
    {
        self.push(Statement::Fail)?;
        Ok(())
    }

    /// No clause of a `case` matches.
    #[tactic(auto, using(crate::proofs::Writing::no_match_written))]
    pub fn no_match(&mut self) -> Result<(), AllocError>
        ensures { OnOk result (self.new ≡ with_all self.old (just k.no_match)) }
    {
        self.push(Statement::NoMatch)?;
        Ok(())
    }

    /// `raise X end`
    #[tactic(auto, using(crate::proofs::Writing::raise_written))]
    pub fn raise(&mut self, name: Identifier) -> Result<(), AllocError>
        ensures { OnOk result (self.new ≡ with_all self.old (just (k.raise name))) }
    {
        self.push(Statement::Raise { name })?;
        Ok(())
    }

    /// `X=Y`
    #[tactic(auto, using(crate::proofs::Writing::equate_written))]
    pub fn equate(&mut self, left: Identifier, right: Identifier) -> Result<(), AllocError>
        ensures { OnOk result (self.new ≡ with_all self.old (just (k.equate left right))) }
    {
        self.push(Statement::Equate { left, right })?;
        Ok(())
    }

    /// `X=v`
    #[tactic(auto, using(crate::proofs::Writing::bind_written))]
    pub fn bind(&mut self, name: Identifier, value: Constant) -> Result<(), AllocError>
        ensures { OnOk result (self.new ≡ with_all self.old (just (k.bind name value))) }
    {
        self.push(Statement::Bind { name, value })?;
        Ok(())
    }

    /// `post(S C A*X ..)`: what the sum of a constant and terms is.
    #[tactic(auto, using(crate::proofs::Writing::post_written))]
    pub fn post(
        &mut self,
        sign: Sign,
        constant: i64,
        terms: Sequence<LinearTerm>,
    ) -> Result<(), AllocError>
        ensures { OnOk result (self.new ≡ with_all self.old (just (k.post sign constant terms))) }
    {
        self.push(Statement::Post {
            sign,
            constant,
            terms,
        })?;
        Ok(())
    }

    /// `post(times X Y Z)`: the last is the product of the others.
    #[tactic(auto, using(crate::proofs::Writing::post_times_written))]
    pub fn post_times(
        &mut self,
        left: Identifier,
        right: Identifier,
        product: Identifier,
    ) -> Result<(), AllocError>
        ensures { OnOk result (self.new ≡ with_all self.old (just (k.post_times left right product))) }
    {
        self.push(Statement::PostTimes {
            left,
            right,
            product,
        })?;
        Ok(())
    }

    /// `X=proc {$ Y ..} S .. end`, by the numbers of its body.
    pub fn procedure(
        &mut self,
        name: Identifier,
        parameters: Sequence<Identifier>,
        body: Sequence<u32>,
    ) -> Result<(), AllocError>
        ensures { OnOk result (self.new ≡ with_statement self.old (numbered.BindProcedure name parameters body)) }
    {
        self.push(Statement::BindProcedure {
            name,
            parameters,
            body,
        })
    }

    /// `choice S .. [] .. end`, by the numbers of its bodies.
    pub fn choice(&mut self, alternatives: Sequence<Sequence<u32>>) -> Result<(), AllocError>
        ensures { OnOk result (self.new ≡ with_statement self.old (numbered.Choice alternatives)) }
    {
        self.push(Statement::Choice { alternatives })
    }

    /// `case X of P then S .. else S .. end`, by the numbers of its bodies.
    pub fn case(
        &mut self,
        subject: Identifier,
        pattern: Sequence<Piece>,
        accepted: Sequence<u32>,
        otherwise: Sequence<u32>,
    ) -> Result<(), AllocError>
        ensures { OnOk result (self.new ≡ with_statement self.old (numbered.Case subject pattern accepted otherwise)) }
    {
        self.push(Statement::Case {
            subject,
            pattern,
            accepted,
            otherwise,
        })
    }

    /// `try S .. catch X then S .. end`, by the numbers of its bodies.
    pub fn attempt(
        &mut self,
        body: Sequence<u32>,
        exception: Identifier,
        handler: Sequence<u32>,
    ) -> Result<(), AllocError>
        ensures { OnOk result (self.new ≡ with_statement self.old (numbered.Try body exception handler)) }
    {
        self.push(Statement::Try {
            body,
            exception,
            handler,
        })
    }

    /// `if X then S .. else S .. end`, by the numbers of its bodies.
    pub fn test(
        &mut self,
        condition: Identifier,
        accepted: Sequence<u32>,
        otherwise: Sequence<u32>,
    ) -> Result<(), AllocError>
        ensures { OnOk result (self.new ≡ with_statement self.old (numbered.If condition accepted otherwise)) }
    {
        self.push(Statement::If {
            condition,
            accepted,
            otherwise,
        })
    }

    /// Begins a body of its own, and hands out the outer one.
    pub fn open(&mut self, alloc: Global) -> Sequence<u32>
        ensures outer { result ≡ self.old.body }
        ensures output { self.new ≡ opened self.old }
    {
        mem::replace(&mut self.body, Sequence::new(alloc))
    }

    /// Goes on with the outer body, and hands out the inner one.
    pub fn close(&mut self, outer: Sequence<u32>) -> Sequence<u32>
        ensures inner { result ≡ self.old.body }
        ensures output { self.new ≡ record { statements = self.old.statements; body = outer } }
    {
        mem::replace(&mut self.body, outer)
    }
}
