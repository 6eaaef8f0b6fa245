//! What is written of a best solution.
ghost use Rattle.std.specs.Prelude.{◌≡◌, ◌++◌, OnOk, codes};
ghost use Rattle.oz_language.specs.SimpleTexts.{integer_text};
ghost use Rattle.oz_replies.specs.Replies.{line};
ghost use Rattle.oz_replies.specs.BestReplies.{best_lines};

use simple_text::add_integer;
use std::alloc::{AllocError, Global};

/// Adds the line of a solution's text.
fn add_solution(text: &[u8], out: &mut Vec<u8>) -> Result<(), AllocError>
    ensures { OnOk result (out.new.items ≡ out.old.items ++ line (codes "best " ++ text.now)) }
{
    out.extend_from_slice(b"best ")?;
    out.extend_from_slice(text)?;
    out.extend_from_slice(b"\n")
}

/// Adds the line of a cost.
fn add_cost(alloc: Global, cost: i128, out: &mut Vec<u8>) -> Result<(), AllocError>
    ensures { OnOk result (out.new.items ≡ out.old.items ++ line (codes "cost " ++ integer_text cost)) }
{
    out.extend_from_slice(b"cost ")?;
    add_integer(alloc, cost, out)?;
    out.extend_from_slice(b"\n")
}

/// Adds what the search for a best solution writes where it has found one: the line of its text, and the line of its cost. It refuses
/// where there is no memory.
pub fn add_best(alloc: Global, text: &[u8], cost: i128, out: &mut Vec<u8>) -> Result<(), AllocError>
    ensures { OnOk result (out.new.items ≡ out.old.items ++ best_lines text.now cost) }
{
    add_solution(text, out)?;
    add_cost(alloc, cost, out)
}
