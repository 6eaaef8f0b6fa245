//! Declarations on top of a thread's stack, which step with no answer.
ghost use Rattle.std.specs.Prelude.{◌≡◌, true, IfSome};
ghost use Rattle.oz_semantics.specs.Configurations.{stack_of};
ghost use Rattle.oz_semantics.specs.declared.configuration.Frame.{Frame};
ghost use Rattle.oz_machine.specs.Quiet.{top_steps, AnswersDeclaration, IsDeclaration, IsDeclaring, IsNumbered};

use oz_base::Ident;
use oz_language::{Identifier, Statement};
use oz_semantics::{Code, Frame};
use space_core::Levels;

/// The number of the statement that stands on a stack, if it is one.
fn number_of(frame: &Frame) -> Option<u32>
    ensures { IfSome result (IsNumbered frame.now) }
{
    match &frame.code {
        Code::Statement(number) => Some(*number),
        Code::Call { .. } | Code::Bind { .. } | Code::Mark { .. } => None,
    }
}

/// The identifiers and the body of the statement with a number, if that is a declaration.
pub fn declaration_at(statements: &[Statement], number: u32) -> Option<(&[Identifier], &[u32])>
    ensures { (frame : Frame) → IsNumbered frame number → IfSome result (λ d. AnswersDeclaration statements.now frame d.0.now d.1.now) }
{
    match statements.get(number as usize)? {
        Statement::Local { names, body } => Some((names.as_slice(), body.as_slice())),
        _ => None,
    }
}

/// The identifiers and the body of a declaration that stands on a stack, if it is one.
fn declared<'a>(statements: &'a [Statement], frame: &Frame) -> Option<(&'a [Identifier], &'a [u32])>
    ensures { IfSome result (λ d. AnswersDeclaration statements.now frame.now d.0.now d.1.now) }
{
    declaration_at(statements, number_of(frame)?)
}

/// The number of a declaration that stands on a stack, if it is one.
pub fn declaring(statements: &[Statement], frame: &Frame) -> Option<u32>
    ensures { IfSome result (IsDeclaring statements.now frame.now) }
{
    let number = number_of(frame)?;
    let (_names, _body) = declaration_at(statements, number)?;
    Some(number)
}

/// The identifiers and the body of the declaration on top of a thread's stack, if there is one.
pub fn declaration<'a>(
    statements: &'a [Statement],
    levels: &Levels,
    id: &Ident,
) -> Option<(&'a [Identifier], &'a [u32])>
    ensures { IfSome result (λ d. IsDeclaration statements.now (stack_of levels.now id.now) d.0.now d.1.now) }
{
    declared(statements, levels.top_frame(id)?)
}

/// Whether the statement on top of a thread's stack is a declaration: then the thread can step.
pub fn declares(statements: &[Statement], levels: &Levels, id: &Ident) -> bool
    ensures { result ≡ true → top_steps statements.now levels.now id.now ≡ true }
{
    declaration(statements, levels, id).is_some()
}
