//! What a declaration makes of a stack: its body goes on, in which identifiers stand for new variables.
ghost use Rattle.std.specs.Prelude.{◌≡◌, ◌+◌, ◌∷◌, ◌++◌, length, map, IfOk, OnOk, OnErr};
ghost use Rattle.std.specs.List.{range_with_len};
ghost use Rattle.environments.specs.Environments.{binding_all};
ghost use Rattle.oz_semantics.specs.Names.{named};
ghost use Rattle.oz_semantics.specs.Configurations.{frames_of};
ghost use Rattle.oz_semantics.specs.declared.configuration.Code.TheVariants as code;
ghost use Rattle.space_core.specs.Stacks.{declared_on};

use environments::Environment;
use oz_base::{Copies, Ident, SpaceName, Stack};
use oz_language::Identifier;
use oz_semantics::{Code, Frame};
use std::alloc::{AllocError, Global};

/// The number that comes so many after this one. It refuses where that is more than 2^64 - 1.
pub fn number_after(from: u64, count: usize) -> Result<u64, AllocError>
    ensures { IfOk result (λ number. number ≡ from + count) }
{
    match from.checked_add(count as u64) {
        Some(number) => Ok(number),
        None => Err(AllocError),
    }
}

/// The identifiers stand for as many variables of the space, from this number on.
pub fn bind_from(
    alloc: Global,
    environment: &mut Environment,
    names: &[Identifier],
    space: &SpaceName,
    from: u64,
) -> Result<(), AllocError>
    ensures { OnOk result (environment.new ≡ binding_all names.now (map (named space.now) (range_with_len from (length names.now))) environment.old) }
{
    let mut left = names.len();
    'names: while left > 0 {
        left -= 1;
        let number = number_after(from, left)?;
        let space = space.copied(alloc)?;
        environment.bind(alloc, names[left], Ident { space, number })?;
    }
    Ok(())
}

/// Puts a statement on top of a stack.
fn push_statement(
    alloc: Global,
    stack: &mut Stack<Frame>,
    environment: &Environment,
    number: u32,
) -> Result<(), AllocError>
    ensures ok { OnOk result (stack.new ≡ record { code = code.Statement number; environment = environment.now } ∷ stack.old) }
    ensures err { OnErr result (stack.new ≡ stack.old) }
{
    let environment = environment.copied(alloc)?;
    stack.push(Frame {
        code: Code::Statement(number),
        environment,
    })
}

/// Puts the statements of a body on top of a stack, the first of them uppermost.
fn push_body(
    alloc: Global,
    stack: &mut Stack<Frame>,
    environment: &Environment,
    body: &[u32],
) -> Result<(), AllocError>
    ensures ok { OnOk result (stack.new ≡ frames_of environment.now body.now ++ stack.old) }
    ensures err { OnErr result (stack.new ≡ stack.old) }
{
    let mut left = body.len();
    'statements: while left > 0 {
        if push_statement(alloc, stack, environment, body[left - 1]).is_err() {
            stack.cut(0, body.len() - left);
            return Err(AllocError);
        }
        left -= 1;
    }
    Ok(())
}

/// The statement on top of a stack, if there is one, gives way to a body, in which the identifiers stand for as many variables of the
/// space, from this number on.
pub fn declare(
    alloc: Global,
    stack: &mut Stack<Frame>,
    names: &[Identifier],
    space: &SpaceName,
    from: u64,
    body: &[u32],
) -> Result<(), AllocError>
    ensures ok { OnOk result (stack.new ≡ declared_on names.now (map (named space.now) (range_with_len from (length names.now))) body.now stack.old) }
    ensures err { OnErr result (stack.new ≡ stack.old) }
{
    let Some(frame) = stack.top() else {
        return Ok(());
    };
    let mut environment = frame.environment.copied(alloc)?;
    bind_from(alloc, &mut environment, names, space, from)?;
    push_body(alloc, stack, &environment, body)?;
    stack.cut(body.len(), 1);
    Ok(())
}
