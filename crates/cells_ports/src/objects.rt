//! The cells and the ports, each in a list.
ghost use Rattle.std.specs.Prelude.{◌≡◌, ◌++◌, ◌∷◌, [], length, slice_get, slice_set, OnOk, OnErr, option_copied};

use oz_base::{Copies, Ident};
use shared_list::SharedList;
use std::alloc::{AllocError, Global};
use std::marker::Model;

/// What the cells of a space contain, and where the streams of its ports end. The number of a cell or port is its place, from 0. A copy
/// takes constant time.
#[derive(Drop)]
pub struct Objects {
    cells: SharedList<Ident>,
    ports: SharedList<Ident>,
}

impl Model for Objects {
    ghost use Rattle.cells_ports.specs.Objects.{Contents};

    ghost Value = { Contents };

    ghost view = { λ o. record { cells = o.cells; ports = o.ports } };
}

impl Objects {
    /// No cell and no port. It takes no memory.
    pub fn new() -> Objects
        ensures cells { result.cells ≡ [] }
        ensures ports { result.ports ≡ [] }
    {
        Objects {
            cells: SharedList::new(),
            ports: SharedList::new(),
        }
    }

    /// How many cells there are, which is the number of the next one.
    pub fn cell_count(&self) -> u64
        ensures { result ≡ length self.now.cells }
    {
        self.cells.len()
    }

    /// How many ports there are, which is the number of the next one.
    pub fn port_count(&self) -> u64
        ensures { result ≡ length self.now.ports }
    {
        self.ports.len()
    }

    /// What a cell contains. None exactly where there is no such cell.
    pub fn content(&self, cell: u64) -> Option<&Ident>
        ensures { option_copied result ≡ slice_get self.now.cells cell }
    {
        self.cells.get(cell)
    }

    /// Where the stream of a port ends. None exactly where there is no such port.
    pub fn end(&self, port: u64) -> Option<&Ident>
        ensures { option_copied result ≡ slice_get self.now.ports port }
    {
        self.ports.get(port)
    }

    /// One more cell, behind all others. An error is for lack of memory, and changes nothing.
    pub fn add_cell(&mut self, alloc: Global, content: Ident) -> Result<(), AllocError>
        ensures ok { OnOk result (self.new ≡ record self.old { cells = self.old.cells ++ content ∷ [] }) }
        ensures err { OnErr result (self.new ≡ self.old) }
    {
        self.cells.push(alloc, content)?;
        Ok(())
    }

    /// One more port, behind all others. An error is for lack of memory, and changes nothing.
    pub fn add_port(&mut self, alloc: Global, end: Ident) -> Result<(), AllocError>
        ensures ok { OnOk result (self.new ≡ record self.old { ports = self.old.ports ++ end ∷ [] }) }
        ensures err { OnErr result (self.new ≡ self.old) }
    {
        self.ports.push(alloc, end)?;
        Ok(())
    }

    /// A cell contains this from now on. Nothing is done where there is no such cell. An error is for lack of memory, and changes
    /// nothing.
    pub fn assign(&mut self, alloc: Global, cell: u64, content: Ident) -> Result<(), AllocError>
        ensures ok { OnOk result (self.new ≡ record self.old { cells = slice_set self.old.cells cell content }) }
        ensures err { OnErr result (self.new ≡ self.old) }
    {
        self.cells.set(alloc, cell, content)?;
        Ok(())
    }

    /// The stream of a port ends here from now on. Nothing is done where there is no such port. An error is for lack of memory, and
    /// changes nothing.
    pub fn end_at(&mut self, alloc: Global, port: u64, end: Ident) -> Result<(), AllocError>
        ensures ok { OnOk result (self.new ≡ record self.old { ports = slice_set self.old.ports port end }) }
        ensures err { OnErr result (self.new ≡ self.old) }
    {
        self.ports.set(alloc, port, end)?;
        Ok(())
    }
}

impl Copies for Objects {
    /// In constant time.
    fn copied(&self, alloc: Global) -> Result<Self, AllocError> {
        Ok(Objects {
            cells: self.cells.copied(alloc)?,
            ports: self.ports.copied(alloc)?,
        })
    }
}
