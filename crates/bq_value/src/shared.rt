//! The cells of a frozen module, shared.

ghost use Rattle.std.specs.Prelude.{◌≡◌, IfOk, option_copied};
ghost use Rattle.bq_value_content.specs.Kinds.{kind_at};

use bq_base::Bytes;
use bq_value_content::{Content, Kinds};
use bq_value_datum::Value;
use std::alloc::AllocError;
use std::marker::Model;
use std::sync::Arc;

/// The cells of one module by their numbers, the values of its globals, and the kinds of its rules.
#[derive(Drop)]
pub struct Cells {
    pub(crate) contents: Vec<Content>,
    pub(crate) globals: Vec<Value>,
    pub(crate) kinds: Kinds,
}

/// The cells of a frozen module, which nothing changes.
#[derive(Drop)]
pub(crate) struct Shared {
    pub(crate) cells: Arc<Cells>,
}

impl Model for Shared {
    ghost use Rattle.bq_value.specs.Cells.{FrozenCells, coded_cells};

    ghost Value = { FrozenCells };

    ghost coded = { coded_cells };

    ghost use Rattle.bq_value.specs.CellsOf.{cells_of};

    ghost view = { λ s. cells_of s.cells.value };
}

impl Shared {
    pub(crate) fn share(&self) -> Result<Shared, AllocError>
        ensures { IfOk result (λ s. s ≡ self.now) }
    {
        Ok(Shared {
            cells: self.cells.clone()?,
        })
    }

    /// Returns the kind of the rule in a cell.
    pub(crate) fn kind(&self, number: usize) -> Option<&Bytes>
        ensures { option_copied result ≡ kind_at number self.now.kinds }
    {
        self.cells.kinds.get(number)
    }
}
