//! The cells of a list, which stand one inside the other: the tail of each is made in the scope of its identifiers. They are begun
//! front to back, and end back to front.
ghost use Rattle.std.specs.Prelude.{◌≡◌, pos, [], ◌∷◌, OnOk, IfOk};
ghost use Rattle.oz_language.specs.Kernels.{just};
ghost use Rattle.oz_language.specs.Translation.{cell_bound, fresh_among};
ghost use Rattle.oz_language.specs.declared.kernel.Constant.TheVariants.{Int};
ghost use Rattle.kernel_output.specs.Cells.{with_cell, in_cell, cell_begun, all_closed};
ghost use Rattle.kernel_output.specs.Outputs.{with_all};

use crate::names::{fresh_among, two_names};
use crate::output::Output;
use crate::words::bar;
use oz_base::{Sequence, Stack};
use oz_language::{Constant, Identifier, Statement};
use std::alloc::{AllocError, Global};

/// A cell that is open: the identifiers that have it as their scope, and the body around it, which goes on when it ends.
#[derive(Drop)]
pub struct Cell {
    pub names: Sequence<Identifier>,
    pub outer: Sequence<u32>,
}

/// The cells that are open, the innermost on top.
#[derive(Drop)]
pub struct Cells {
    pub open: Stack<Cell>,
}

/// The features of a cell.
fn features(alloc: Global) -> Result<Sequence<Constant>, AllocError>
    ensures { IfOk result (λ features. features ≡ Int (pos 1) ∷ Int (pos 2) ∷ []) }
{
    let mut features = Sequence::new(alloc);
    features.push(Constant::Int(1))?;
    features.push(Constant::Int(2))?;
    Ok(features)
}

/// Writes the statement that makes a name a cell of a head and a tail.
#[tactic(auto, using(crate::proofs::CellLaws::cell_written))]
pub fn bind_cell(
    alloc: Global,
    output: &mut Output,
    name: Identifier,
    head: Identifier,
    tail: Identifier,
) -> Result<(), AllocError>
    ensures { OnOk result (output.new ≡ with_all output.old (just (cell_bound name head tail))) }
{
    let features = features(alloc)?;
    let fields = two_names(alloc, head, tail)?;
    output.push(Statement::BindRecord {
        name,
        label: bar(),
        features,
        fields,
    })?;
    Ok(())
}

impl Cells {
    /// None is open.
    pub fn new(alloc: Global) -> Cells
        ensures { result.open ≡ [] }
    {
        Cells {
            open: Stack::new(alloc),
        }
    }

    /// Begins the scope of identifiers, if there are any.
    fn enter(
        &mut self,
        alloc: Global,
        output: &mut Output,
        names: Sequence<Identifier>,
    ) -> Result<(), AllocError>
        ensures cells { OnOk result (self.new.open ≡ with_cell names output.old self.old.open) }
        ensures output { OnOk result (output.new ≡ in_cell names output.old) }
    {
        if names.len() == 0 {
            return Ok(());
        }
        let outer = output.open(alloc);
        self.open.push(Cell { names, outer })?;
        Ok(())
    }

    /// Begins a cell, the value of a name, by the identifiers of its head and its tail, and writes its statement. What makes its
    /// head is to be written next, and then what makes its tail. Both are in the scope of those of the two that the translation
    /// made, which lasts until all cells end.
    pub fn begin(
        &mut self,
        alloc: Global,
        output: &mut Output,
        name: Identifier,
        head: Identifier,
        tail: Identifier,
    ) -> Result<(), AllocError>
        ensures cells { OnOk result (self.new.open ≡ with_cell (fresh_among (head ∷ tail ∷ [])) output.old self.old.open) }
        ensures output { OnOk result (output.new ≡ cell_begun name head tail output.old) }
    {
        let both = two_names(alloc, head, tail)?;
        let names = fresh_among(alloc, both.as_slice())?;
        self.enter(alloc, output, names)?;
        bind_cell(alloc, output, name, head, tail)
    }

    /// Ends all cells, from the inside out.
    pub fn close_all(self, output: &mut Output) -> Result<(), AllocError>
        ensures { OnOk result (output.new ≡ all_closed self.open output.old) }
    {
        let mut open = self.open;
        'cells: while let Some(Cell { names, outer }) = open.pop() {
            let body = output.close(outer);
            output.push(Statement::Local { names, body })?;
        }
        Ok(())
    }
}
