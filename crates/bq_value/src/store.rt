//! The store of a running module.

ghost use Rattle.std.specs.Prelude.{◌≡◌, [], ◌∷◌, ◌++◌, None, Some, MatchOption, IfOk, OnOk, OnErr, length, ◌<◌, ◌≢◌, slice_get, option_copied, IsOkAnd, IsErrOf};
ghost use Rattle.std.specs.Borrow.{sem};
ghost use Rattle.bq_value.specs.Lending.{LendsCellIfOk};
ghost use Rattle.bq_value.specs.Cells.{content_at, kind_of, with_cells, loading};

use crate::error::EvalErr;
use crate::frozen::Frozen;
use crate::modules::Modules;
use bq_base::{Bytes, EvalFault};
use bq_value_content::{Content, Made};
use bq_value_datum::{Cell, Seed};
use std::alloc::{AllocError, Global};
use std::marker::Model;

/// The cells of the running module, and the frozen modules that it reaches. Contracts see its `StoreView`.
#[derive(Drop)]
pub struct Store {
    pub(crate) made: Made,
    pub(crate) loaded: Modules,
    /// What the keys of its dicts are hashed by.
    seed: Seed,
}

impl Model for Store {
    ghost use Rattle.bq_value.specs.Cells.{StoreView, coded_store};

    ghost Value = { StoreView };

    ghost coded = { coded_store };

    ghost use Rattle.bq_value.specs.StoreOf.{store_of};

    ghost view = { store_of };
}

impl Store {
    /// Makes the store of a module that has made no cell and loaded nothing. Its dicts hash their keys by `seed`.
    pub fn new(alloc: Global, own: u32, seed: Seed) -> Store
        ensures { result ≡ record { own = own; cells = []; loaded = [] } }
    {
        Store {
            made: Made::new(alloc, own),
            loaded: Modules::new(alloc),
            seed,
        }
    }

    /// Returns what the keys of new dicts are hashed by.
    pub fn seed(&self) -> Seed {
        self.seed
    }

    /// Returns the running module's number.
    pub fn module(&self) -> u32
        ensures { result ≡ self.now.own }
    {
        self.made.module()
    }

    /// Makes the cells of a frozen module, and of those that it reaches, readable here: shares each that isn't there
    /// yet.
    pub fn load(&mut self, frozen: &Frozen) -> Result<(), AllocError>
        ensures { OnOk result (self.new ≡ loading self.old frozen.now) }
    {
        self.loaded.add(frozen.own, &frozen.cells)?;
        self.loaded.add_all(&frozen.reached)
    }

    /// Makes a cell, which gets the next number.
    pub fn make(&mut self, content: Content) -> Result<Cell, AllocError>
        ensures cell { IfOk result (λ c. c ≡ record { «module» = self.old.own; number = length self.old.cells }) }
        ensures ok { OnOk result (self.new ≡ with_cells (self.old.cells ++ content ∷ []) self.old) }
        ensures err { OnErr result (self.new ≡ self.old) }
    {
        self.made.make(content)
    }

    /// Returns what `cell` holds.
    #[tactic(auto, unfolding(crate::specs::Cells::content_at))]
    pub fn content(&self, cell: Cell) -> Option<&Content>
        ensures { MatchOption result (content_at self.now cell.module cell.number ≡ None) (λ c. content_at self.now cell.module cell.number ≡ Some c.now) }
    {
        if cell.module == self.module() {
            return self.made.get(cell.number);
        }
        let module = self.loaded.get(cell.module)?;
        module.cells.contents.get(cell.number)
    }

    /// Makes what `cell` holds one that walks share, if it has more than a few elements and is a cell of the running
    /// module.
    pub fn share(&mut self, alloc: Global, cell: Cell) -> Result<(), AllocError>
        ensures { self.new ≡ self.old }
    {
        if cell.module != self.module() {
            return Ok(());
        }
        self.made.share(alloc, cell.number)
    }

    /// Returns the kind of the rule in a cell of a frozen module. A rule of the running module has none yet.
    #[tactic(auto, unfolding(crate::specs::Cells::kind_of))]
    pub fn kind(&self, cell: Cell) -> Option<&Bytes>
        ensures { option_copied result ≡ kind_of self.now cell.module cell.number }
    {
        if self.module() == cell.module {
            return None;
        }
        self.loaded.get(cell.module)?.kind(cell.number)
    }

    /// Returns what `cell` holds, to be changed. Cells of other modules can't be changed (F47).
    pub fn change(&mut self, cell: Cell) -> Result<&mut Content, EvalErr>
        requires { cell.module ≡ self.old.own → cell.number < length self.old.cells }
        ensures* lends { sem 𝓛 (LendsCellIfOk self.entry cell.number result) }
        ensures own { cell.module ≡ self.old.own → IsOkAnd result (λ c. slice_get self.old.cells cell.number ≡ Some c.now) }
        ensures frozen { cell.module ≢ self.old.own → IsErrOf result (EvalErr.Bad EvalFault.Frozen) }
    {
        let content = self.made.change(cell)?;
        Ok(content)
    }
}
