//! The text of a term within a number of nodes.
ghost use Rattle.std.specs.Prelude.{◌≡◌, IfOk};
ghost use Rattle.oz_semantics.specs.Texts.{term_text};
ghost use Rattle.term_text.specs.TextWithin.{IsTextWithin};

use crate::printer::{Printer, Term};
use oz_base::{Ident, Sequence, Words};
use std::alloc::{AllocError, Global};
use term_store::Store;

/// The text of a term, and how many nodes it has.
#[derive(Drop)]
pub struct Text {
    pub bytes: Sequence<u8>,
    pub nodes: u64,
}

/// The text of a variable's term, as far as a store tells it. `None` where the term has more nodes than the fuel. It refuses where there is no
/// memory.
///
/// A list is written as `A|B` and a row as `A#B#..`, with an operand in parentheses where it needs them. Before a field of any
/// other record stands its feature, as in `f(a:X)`, but the features 1, 2, .. are left out as far as they go without a gap. `^K`
/// stands for the K-th of the enclosing records, the innermost being 1. The time goes with the nodes that are printed, at most as
/// many as the fuel, and with the features of records that are written with `|` or `#`; the depth of a term takes memory, but no
/// stack.
pub fn term_text<'a>(
    alloc: Global,
    words: &Words,
    store: &'a Store,
    variable: &'a Ident,
    fuel: u64,
) -> Result<Option<Text>, AllocError>
    ensures { IfOk result (IsTextWithin (term_text words.now store.now variable.now) fuel) }
{
    let bound = store.len().checked_add(1).ok_or(AllocError)?;
    let mut printer = Printer::new(alloc);
    let mut term = Term {
        variable,
        bound,
        owed: false,
    };
    for nodes in 0..fuel {
        match printer.step(alloc, words, store, &term)? {
            Some(next) => term = next,
            None => {
                return Ok(Some(Text {
                    bytes: Sequence::from_vec(printer.bytes),
                    nodes: nodes + 1,
                }));
            }
        }
    }
    Ok(None)
}
