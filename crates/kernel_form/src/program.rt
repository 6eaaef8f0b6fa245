//! The text of a whole program.
ghost use Rattle.std.specs.Prelude.{◌≡◌, IfOk};
ghost use Rattle.oz_language.specs.Kernels.{Stmts, numbered};
ghost use Rattle.oz_language.specs.KernelTexts.{kernel_text};
ghost use Rattle.oz_language.specs.Refusals.{Program};
ghost use Rattle.oz_language.specs.Translation.{statements_of, kernel_of};
ghost use Rattle.kernel_form.specs.Whole.{AreWhole};

use crate::entries::{Entry, next_statement, push_bodies};
use crate::heads::add_head;
use oz_base::{Sequence, Stack};
use oz_language::Kernel;
use std::alloc::{AllocError, Global};

/// The text of a kernel program: a line for each statement of the program itself. It refuses where there is no memory. Of
/// statements that are no numbered program nothing is said; it may refuse them too.
///
/// The time goes with the length of the text. The depth of statements and of patterns takes memory, but no stack.
pub fn kernel_text(alloc: Global, kernel: &Kernel) -> Result<Sequence<u8>, AllocError>
    ensures numbered { (ss : Stmts) → AreWhole ss → kernel.now ≡ numbered kernel.now.words ss → IfOk result (λ text. text ≡ kernel_text kernel.now.words ss) }
    ensures translated { (p : Program) → kernel.now ≡ kernel_of p → IfOk result (λ text. text ≡ kernel_text p.words (statements_of p)) }
{
    let words = &kernel.words;
    let statements = kernel.statements.as_slice();
    let mut out = Vec::new(alloc);
    let mut pending = Stack::new(alloc);
    pending.push(Entry::Lines(kernel.body.as_slice()))?;
    'statements: for _ in 0..=statements.len() {
        let Some(number) = next_statement(alloc, words, &mut pending, &mut out)? else {
            return Ok(Sequence::from_vec(out));
        };
        let Some(statement) = statements.get(number as usize) else {
            return Err(AllocError);
        };
        add_head(alloc, words, statement, &mut out)?;
        push_bodies(statement, &mut pending)?;
    }
    Err(AllocError)
}
