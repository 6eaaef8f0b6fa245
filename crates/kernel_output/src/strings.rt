//! Strings, as the lists of their codes.
ghost use Rattle.std.specs.Prelude.{◌≡◌, pos, suc, OnOk, IfOk};
ghost use Rattle.oz_language.specs.Kernels.{just, word_text};
ghost use Rattle.oz_language.specs.Kernels as k;
ghost use Rattle.oz_language.specs.Translation.{codes_made};
ghost use Rattle.oz_language.specs.declared.kernel.Constant.TheVariants.{Int};
ghost use Rattle.oz_language.specs.declared.kernel.Identifier.TheVariants.{Fresh};
ghost use Rattle.kernel_output.specs.Cells.{code_cells, code_begun, all_closed};
ghost use Rattle.kernel_output.specs.Outputs.{with_all};

use crate::cells::Cells;
use crate::names::Numbers;
use crate::output::Output;
use crate::words::{nil, text_of};
use oz_base::Words;
use oz_language::{Constant, Identifier};
use std::alloc::{AllocError, Global};

/// Begins the cell of one code, the value of a name, and hands out the identifier of its tail.
fn begin_code(
    alloc: Global,
    cells: &mut Cells,
    output: &mut Output,
    numbers: &mut Numbers,
    name: Identifier,
    code: u8,
) -> Result<Identifier, AllocError>
    ensures cells { OnOk result (cells.new.open ≡ code_cells numbers.old.next output.old cells.old.open) }
    ensures output { OnOk result (output.new ≡ code_begun name code numbers.old.next output.old) }
    ensures next { OnOk result (numbers.new.next ≡ suc (suc numbers.old.next)) }
    ensures tail { IfOk result (λ tail. tail ≡ Fresh (suc numbers.old.next)) }
{
    let head = numbers.fresh()?;
    let tail = numbers.fresh()?;
    cells.begin(alloc, output, name, head, tail)?;
    output.bind(head, Constant::Int(i128::from(code)))?;
    Ok(tail)
}

/// Makes a name the list of these codes. The cells stand one inside the other, as many as there are codes.
#[tactic(auto, using(crate::proofs::CellLaws::codes_end, crate::proofs::CellLaws::codes_over))]
fn codes_of(
    alloc: Global,
    output: &mut Output,
    numbers: &mut Numbers,
    name: Identifier,
    bytes: &[u8],
) -> Result<(), AllocError>
    ensures output { OnOk result (output.new ≡ with_all output.old (codes_made name bytes.now numbers.old.next).code) }
    ensures next { OnOk result (numbers.new.next ≡ (codes_made name bytes.now numbers.old.next).next) }
{
    let mut cells = Cells::new(alloc);
    let mut tail = name;
    'bytes: for byte in bytes {
        tail = begin_code(alloc, &mut cells, output, numbers, tail, *byte)?;
    }
    output.bind(tail, nil())?;
    cells.close_all(output)?;
    Ok(())
}

/// Makes a name the list of the codes of a string, by the number of its text.
pub fn codes(
    alloc: Global,
    output: &mut Output,
    numbers: &mut Numbers,
    name: Identifier,
    words: &Words,
    text: u32,
) -> Result<(), AllocError>
    ensures output { OnOk result (output.new ≡ with_all output.old (codes_made name (word_text words.now text) numbers.old.next).code) }
    ensures next { OnOk result (numbers.new.next ≡ (codes_made name (word_text words.now text) numbers.old.next).next) }
{
    codes_of(alloc, output, numbers, name, text_of(words, text))
}
