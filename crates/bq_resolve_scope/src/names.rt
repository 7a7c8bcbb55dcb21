//! Sets of names.

ghost use Rattle.std.specs.Prelude.{◌≡◌, [], length, IfOk, OnOk, IfSome, ◌<◌};
ghost use Rattle.bq_resolve_scope.specs.Names.{has, place_among, with_name};

use bq_base::Bytes;
use bq_base_texts::NameSet;
use sqlite_items::Items;
use std::alloc::{AllocError, Global};
use std::marker::Model;

/// Names in order of first binding. Contracts see the list of them.
pub struct Names {
    names: NameSet,
}

impl Drop for Names {
    // PROOF: a drop that is written out is proved here alone, and a derived one in each crate that drops names
    fn drop(self) {
        let Names { names: _ } = self;
    }
}

impl Model for Names {
    ghost use Rattle.std.specs.Prelude.{List, ℕ};
    ghost use Rattle.std.specs.Coded.{coded_ℕ, coded_list};

    ghost Value = { List (List ℕ) };

    ghost coded = { coded_list (coded_list coded_ℕ) };

    ghost view = { λ n. n.names };
}

impl Names {
    pub fn new(alloc: Global) -> Names
        ensures { result ≡ [] }
    {
        Names {
            names: NameSet::new(alloc),
        }
    }

    /// Returns how many names there are.
    pub fn len(&self) -> usize
        ensures { result ≡ length self.now }
    {
        self.names.len()
    }

    /// Adds a name that isn't there, as the last.
    #[tactic(auto, unfolding(crate::specs::Names::with_name))]
    pub fn add(&mut self, name: &Bytes) -> Result<(), AllocError>
        ensures { OnOk result (self.new ≡ with_name self.old name.now) }
    {
        self.names.add(name)?;
        Ok(())
    }

    /// Returns whether the name is one of them.
    #[tactic(auto, using(crate::proofs::Places::has_place))]
    pub fn has(&self, name: &Bytes) -> bool
        ensures { result ≡ has self.now name.now }
    {
        self.place(name).is_some()
    }

    /// Returns the place of a name.
    #[tactic(auto, using(crate::proofs::Places::place_position, crate::proofs::Places::within))]
    pub fn place(&self, name: &Bytes) -> Option<usize>
        ensures place { result ≡ place_among name.now self.now }
        ensures within { IfSome result (λ i. i < length self.now) }
    {
        self.names.place(name.as_slice())
    }

    /// Returns the names as the set that they are.
    pub(crate) fn into_set(self) -> NameSet
        ensures { result ≡ self }
    {
        let Names { names } = self;
        names
    }

    /// Returns the names, in this order.
    pub fn list(&self, alloc: Global) -> Result<Items<Bytes>, AllocError>
        ensures { IfOk result (λ names. names ≡ self.now) }
    {
        let mut names = Items::new(alloc);
        for name in self.names.as_slice() {
            names.push(name.share()?)?;
        }
        Ok(names)
    }
}
