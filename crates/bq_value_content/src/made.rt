//! The cells that a running module has made.

ghost use Rattle.std.specs.Prelude.{◌≡◌, [], ◌∷◌, ◌++◌, ◌<◌, ◌≢◌, Some, None, MatchOption, IfOk, OnOk, OnErr, length, slice_get, IsOkAnd, IsErrOf};
ghost use Rattle.std.specs.Borrow.{sem};
ghost use Rattle.bq_value_content.specs.Lending.{LendsCell, LendsCellIfOk};
ghost use Rattle.bq_value_content.specs.Made.{with_made};

use crate::content::Content;
use bq_base::EvalFault;
use bq_value_datum::Cell;
use std::alloc::{AllocError, Global};
use std::marker::Model;

/// The number of a module, and the cells that it has made. Contracts see its `MadeView`.
#[derive(Drop)]
pub struct Made {
    own: u32,
    cells: Vec<Content>,
}

impl Model for Made {
    ghost use Rattle.bq_value_content.specs.Made.{MadeView, coded_made};

    ghost Value = { MadeView };

    ghost coded = { coded_made };

    ghost use Rattle.bq_value_content.specs.MadeOf.{made_of};

    ghost view = { made_of };
}

impl Made {
    /// Makes no cells, for a module of this number.
    pub fn new(alloc: Global, own: u32) -> Made
        ensures { result ≡ record { own = own; cells = [] } }
    {
        Made {
            own,
            cells: Vec::new(alloc),
        }
    }

    /// Returns the module's number.
    pub fn module(&self) -> u32
        ensures { result ≡ self.now.own }
    {
        self.own
    }

    /// Makes a cell, which gets the next number.
    pub fn make(&mut self, content: Content) -> Result<Cell, AllocError>
        ensures cell { IfOk result (λ c. c ≡ record { «module» = self.old.own; number = length self.old.cells }) }
        ensures ok { OnOk result (self.new ≡ with_made (self.old.cells ++ content ∷ []) self.old) }
        ensures err { OnErr result (self.new ≡ self.old) }
    {
        let number = self.cells.len();
        self.cells.push(content)?;
        Ok(Cell {
            module: self.own,
            number,
        })
    }

    /// Returns what the cell of this number holds.
    pub fn get(&self, number: usize) -> Option<&Content>
        ensures { MatchOption result (slice_get self.now.cells number ≡ None) (λ c. slice_get self.now.cells number ≡ Some c.now) }
    {
        self.cells.get(number)
    }

    /// Makes what the cell of this number holds one that walks share, if it has more than a few elements.
    pub fn share(&mut self, alloc: Global, number: usize) -> Result<(), AllocError>
        ensures { self.new ≡ self.old }
    {
        if number >= self.cells.len() {
            return Ok(());
        }
        self.cells[number].share(alloc)
    }

    /// Returns what a cell holds, to be changed.
    fn lend(&mut self, number: usize) -> &mut Content
        requires { number < length self.old.cells }
        ensures* lends { sem 𝓛 (LendsCell self.entry number result) }
        ensures now { slice_get self.old.cells number ≡ Some result.now }
    {
        &mut self.cells[number]
    }

    /// Returns what `cell` holds, to be changed. Cells of other modules can't be changed (F47).
    pub fn change(&mut self, cell: Cell) -> Result<&mut Content, EvalFault>
        requires { cell.module ≡ self.old.own → cell.number < length self.old.cells }
        ensures* lends { sem 𝓛 (LendsCellIfOk self.entry cell.number result) }
        ensures own { cell.module ≡ self.old.own → IsOkAnd result (λ c. slice_get self.old.cells cell.number ≡ Some c.now) }
        ensures frozen { cell.module ≢ self.old.own → IsErrOf result EvalFault.Frozen }
    {
        if cell.module != self.own {
            return Err(EvalFault::Frozen);
        }
        Ok(self.lend(cell.number))
    }

    /// Returns what the cells hold, by number.
    pub fn into_contents(self) -> Vec<Content>
        ensures { result.items ≡ self.cells }
    {
        self.cells
    }
}
