//! Stacks of statements, where a refusal leaves the stack.
ghost use Rattle.std.specs.Prelude.{◌≡◌, ◌++◌, List, None, Some, drop, IfOk, OnOk, OnErr};
ghost use Rattle.oz_semantics.specs.Configurations.{frames_of};
ghost use Rattle.oz_semantics.specs.Exceptions.{unwound};
ghost use Rattle.oz_semantics.specs.declared.configuration.Frame.{Frame};
ghost use Rattle.space_core.specs.Stacks.{HandlerOf, IsLanding};

use environments::Environment;
use oz_base::{Copies, Ident, Sequence, Stack};
use oz_semantics::{Code, Frame};
use std::alloc::{AllocError, Global};

/// The statements of a body, each with the environment.
fn frames_of(
    alloc: Global,
    environment: &Environment,
    body: &[u32],
) -> Result<Vec<Frame>, AllocError>
    ensures { IfOk result (λ frames. frames.items ≡ frames_of environment.now body.now) }
{
    let mut frames = Vec::new(alloc);
    for number in body {
        frames.push(Frame {
            code: Code::Statement(*number),
            environment: environment.copied(alloc)?,
        })?;
    }
    Ok(frames)
}

/// The statements of the handler at a mark, with the exception. None if it is no mark.
fn handler_of(
    alloc: Global,
    frame: &Frame,
    exception: &Ident,
) -> Result<Option<Sequence<Frame>>, AllocError>
    ensures { IfOk result (HandlerOf exception.now frame.now) }
{
    match &frame.code {
        Code::Mark {
            exception: name,
            handler,
        } => {
            let mut environment = frame.environment.copied(alloc)?;
            environment.bind(alloc, *name, exception.copied(alloc)?)?;
            let frames = frames_of(alloc, &environment, handler.get().as_slice())?;
            Ok(Some(Sequence::from_vec(frames)))
        }
        Code::Statement(_) | Code::Call { .. } | Code::Bind { .. } => Ok(None),
    }
}

/// Where an exception goes in a stack: so many of the uppermost statements are taken off, the mark with them, and the handler's go on.
#[derive(Drop)]
pub struct Landing {
    pub count: usize,
    pub frames: Sequence<Frame>,
}

/// Where an exception of the statement on top of a stack goes, if there is a mark below it.
pub fn nearest_mark(
    alloc: Global,
    stack: &Stack<Frame>,
    exception: &Ident,
) -> Result<Option<Landing>, AllocError>
    ensures { IfOk result (IsLanding exception.now stack.now) }
{
    let frames = stack.from_bottom();
    let mut place = frames.len().saturating_sub(1);
    'marks: while place > 0 {
        place -= 1;
        if let Some(handler) = handler_of(alloc, &frames[place], exception)? {
            return Ok(Some(Landing {
                count: frames.len() - place,
                frames: handler,
            }));
        }
    }
    Ok(None)
}
