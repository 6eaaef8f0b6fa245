//! Bodies that go on.
ghost use Rattle.std.specs.Prelude.{◌≡◌, ◌++◌, ◌∷◌, [], IfOk};
ghost use Rattle.oz_semantics.specs.Configurations.{frames_of};
ghost use Rattle.oz_semantics.specs.Statements.{goes_on_with, mark};
ghost use Rattle.builtins.specs.Exact.{answer_of};

use builtins::{Act, Answer};
use environments::Environment;
use oz_base::{Copies, Sequence, Shared};
use oz_language::Identifier;
use oz_semantics::{Code, Frame};
use std::alloc::{AllocError, Global};

/// The statements of a body, each with the environment. It refuses where there is no memory.
pub fn frames_of(
    alloc: Global,
    environment: &Environment,
    body: &[u32],
) -> Result<Vec<Frame>, AllocError>
    ensures { IfOk result (λ frames. frames.items ≡ frames_of environment.now body.now) }
{
    let mut frames = Vec::with_capacity(alloc, body.len())?;
    for number in body {
        frames.push(Frame {
            code: Code::Statement(*number),
            environment: environment.copied(alloc)?,
        })?;
    }
    Ok(frames)
}

/// Goes on with a body.
pub fn go_on(
    alloc: Global,
    environment: &Environment,
    body: &Sequence<u32>,
) -> Result<Answer, AllocError>
    ensures { IfOk result (λ a. answer_of a ≡ goes_on_with (frames_of environment.now body.now)) }
{
    let frames = frames_of(alloc, environment, body.as_slice())?;
    Ok(Answer::Acts(Act::GoesOn(Sequence::from_vec(frames))))
}

/// The mark below the body of a `try`.
fn mark(
    alloc: Global,
    environment: &Environment,
    exception: Identifier,
    handler: &Sequence<u32>,
) -> Result<Frame, AllocError>
    ensures { IfOk result (λ frame. frame ≡ mark environment.now exception handler.now) }
{
    Ok(Frame {
        code: Code::Mark {
            exception,
            handler: Shared::new(alloc, handler.copied(alloc)?)?,
        },
        environment: environment.copied(alloc)?,
    })
}

/// Goes on with the body of a `try`, above its mark.
pub fn guard(
    alloc: Global,
    environment: &Environment,
    body: &Sequence<u32>,
    exception: Identifier,
    handler: &Sequence<u32>,
) -> Result<Answer, AllocError>
    ensures { IfOk result (λ a. answer_of a ≡ goes_on_with (frames_of environment.now body.now ++ mark environment.now exception handler.now ∷ [])) }
{
    let mut frames = frames_of(alloc, environment, body.as_slice())?;
    frames.push(mark(alloc, environment, exception, handler)?)?;
    Ok(Answer::Acts(Act::GoesOn(Sequence::from_vec(frames))))
}
