//! Modules whose evaluation has ended (Starlark, "Freezing a value").

ghost use Rattle.std.specs.Prelude.{◌≡◌, None, Some, MatchOption, IfOk, OnOk};
ghost use Rattle.bq_value.specs.Cells.{frozen_at, globals_at, frozen};

use crate::modules::Modules;
use crate::shared::{Cells, Shared};
use crate::store::Store;
use bq_base::Bytes;
use bq_value_content::{Content, kinds_of};
use bq_value_datum::{Cell, Value};
use std::alloc::{AllocError, Global};
use std::marker::Model;
use std::sync::Arc;

/// A module whose evaluation has ended, with those that it reaches. Nothing changes it. Contracts see its `FrozenView`.
pub struct Frozen {
    pub(crate) own: u32,
    pub(crate) cells: Shared,
    pub(crate) reached: Modules,
}

impl Drop for Frozen {
    // PROOF: a drop that is written out is proved here alone, and a derived one in each crate that drops a frozen module
    fn drop(self) {
        let Frozen {
            own: _,
            cells: _,
            reached: _,
        } = self;
    }
}

impl Model for Frozen {
    ghost use Rattle.bq_value.specs.Cells.{FrozenView, coded_frozen};

    ghost Value = { FrozenView };

    ghost coded = { coded_frozen };

    ghost use Rattle.bq_value.specs.StoreOf.{frozen_of};

    ghost view = { frozen_of };
}

impl Frozen {
    /// Returns the module's number.
    pub fn module(&self) -> u32
        ensures { result ≡ self.now.own }
    {
        self.own
    }

    /// Returns the values of the module's globals.
    pub fn globals(&self) -> &[Value]
        ensures { result.now ≡ self.now.cells.globals }
    {
        &self.cells.cells.globals
    }

    /// Returns the values of the globals of module `home`, if it is this one or one that it reaches.
    #[tactic(auto, unfolding(crate::specs::Cells::globals_at))]
    pub fn globals_of(&self, home: u32) -> Option<&[Value]>
        ensures { MatchOption result (globals_at self.now home ≡ None) (λ g. globals_at self.now home ≡ Some g.now) }
    {
        if home == self.own {
            return Some(self.globals());
        }
        Some(&self.reached.get(home)?.cells.globals)
    }

    /// Returns what `cell` holds.
    #[tactic(auto, unfolding(crate::specs::Cells::frozen_at))]
    pub fn content(&self, cell: Cell) -> Option<&Content>
        ensures { MatchOption result (frozen_at self.now cell.module cell.number ≡ None) (λ c. frozen_at self.now cell.module cell.number ≡ Some c.now) }
    {
        if cell.module == self.own {
            return self.cells.cells.contents.get(cell.number);
        }
        let module = self.reached.get(cell.module)?;
        module.cells.contents.get(cell.number)
    }
}

/// Has walks in other modules share what these cells hold.
fn share_all(alloc: Global, contents: &mut [Content]) -> Result<(), AllocError>
    ensures { OnOk result (contents.new ≡ contents.old) }
{
    for content in contents.iter_mut() {
        content.share(alloc)?;
    }
    Ok(())
}

/// Ends the evaluation of a module whose globals have these names and values: each cell stays as it is, and none is
/// copied. `globals` has the values of the globals first, and then those that the module loads.
pub fn freeze(
    alloc: Global,
    store: Store,
    names: &[Bytes],
    globals: Vec<Value>,
) -> Result<Frozen, AllocError>
    ensures { IfOk result (λ f. f ≡ frozen store names.now globals.items) }
{
    let Store { made, loaded, .. } = store;
    let own = made.module();
    let mut contents = made.into_contents();
    share_all(alloc, &mut contents)?;
    let kinds = kinds_of(alloc, own, &contents, names, &globals)?;
    let cells = Cells {
        contents,
        globals,
        kinds,
    };
    Ok(Frozen {
        own,
        cells: Shared {
            cells: Arc::new(alloc, cells)?,
        },
        reached: loaded,
    })
}
