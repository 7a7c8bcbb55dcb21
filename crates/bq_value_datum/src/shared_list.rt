//! Lists that attributes have as values.

ghost use Rattle.std.specs.Prelude.{◌≡◌, IfOk};

use sqlite_items::Items;
use std::alloc::{AllocError, Global};
use std::marker::Model;
use std::sync::Arc;

/// A list with many owners, so that a default stands once however many targets have it. Contracts see the list of its elements.
#[derive(Drop)]
pub struct SharedList<T> {
    items: Arc<Items<T>>,
}

impl<T> Model for SharedList<T> {
    ghost use Rattle.std.specs.Prelude.{List};
    ghost use Rattle.std.specs.Coded.{coded_list};

    ghost Value = { List T };

    ghost coded = { coded_list T.code };

    ghost view = { λ s. s.items.value };
}

impl<T> SharedList<T> {
    /// Returns the elements.
    pub fn as_slice(&self) -> &[T]
        ensures { result.now ≡ self.now }
    {
        self.items.as_slice()
    }
}

impl<T: Drop> SharedList<T> {
    /// Makes the list of these elements.
    pub fn of(alloc: Global, items: Items<T>) -> Result<SharedList<T>, AllocError>
        ensures { IfOk result (λ s. s ≡ items) }
    {
        Ok(SharedList {
            items: Arc::new(alloc, items)?,
        })
    }

    /// Returns another owner of the list. Nothing is copied.
    pub fn share(&self) -> Result<SharedList<T>, AllocError>
        ensures { IfOk result (λ s. s ≡ self.now) }
    {
        Ok(SharedList {
            items: self.items.clone()?,
        })
    }
}
