//! Answers in the making.
ghost use Rattle.std.specs.Prelude.{◌≡◌, ◌++◌, [], IfOk, OnOk, codes};
ghost use Rattle.std.specs.Fmt.{decimal};
ghost use Rattle.oz_semantics.specs.Runs.{run, opening};
ghost use Rattle.oz_replies.specs.Replies.{line};
ghost use Rattle.oz_machine.specs.Answers.{IsRun};

use oz_base::SpaceName;
use oz_language::Kernel;
use oz_machine::{Machine, Ran};
use oz_replies::Cause;
use reply_text::add_decimal;
use std::alloc::{AllocError, Global};

/// A cause, and what is to be written for it.
#[derive(Drop)]
pub struct Plan {
    pub cause: Cause,
    pub reply: Vec<u8>,
}

/// Runs the top of a kernel for no more than so many steps. It refuses where there is no memory.
pub fn run_top(alloc: Global, kernel: Kernel, budget: u64) -> Result<(Machine, Ran), AllocError>
    ensures kernel { IfOk result (λ ended. ended.0.kernel ≡ kernel) }
    ensures run { IfOk result (λ ended. IsRun ended.0 [] budget (run kernel [] (opening kernel) budget) ended.1) }
{
    let mut machine = Machine::load(alloc, kernel)?;
    let ran = machine.run(alloc, &SpaceName::top(), budget)?;
    Ok((machine, ran))
}

/// Adds the line that says that this budget of steps is exceeded. It refuses where there is no memory.
pub fn add_spent(alloc: Global, budget: u64, out: &mut Vec<u8>) -> Result<(), AllocError>
    ensures { OnOk result (out.new.items ≡ out.old.items ++ line (codes "spent " ++ decimal budget)) }
{
    out.extend_from_slice(b"spent ")?;
    add_decimal(alloc, budget, out)?;
    out.extend_from_slice(b"\n")
}
