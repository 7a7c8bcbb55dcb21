//! The names that are taken in a package.

ghost use Rattle.std.specs.Prelude.{◌≡◌, [], not, length, take, position, bytes_eq, IfOk, OnOk};
ghost use Rattle.bq_package_target.specs.Names.{with_name};
ghost use Rattle.bq_base_texts.specs.NameSet.{has};

use bq_base::Bytes;
use bq_base_texts::NameSet;
use std::alloc::{AllocError, Global};
use std::marker::Model;

/// Names, none of them twice, in the order in which they were added. Contracts see the list of them.
pub struct TargetNames {
    names: NameSet,
}

impl Drop for TargetNames {
    // PROOF: a drop that is written out is proved here alone, and a derived one in each crate that drops names
    fn drop(self) {
        let TargetNames { names: _ } = self;
    }
}

impl Model for TargetNames {
    ghost use Rattle.std.specs.Prelude.{List, ℕ};
    ghost use Rattle.std.specs.Coded.{coded_ℕ, coded_list};

    ghost Value = { List (List ℕ) };

    ghost coded = { coded_list (coded_list coded_ℕ) };

    ghost view = { λ n. n.names };
}

impl TargetNames {
    pub fn new(alloc: Global) -> TargetNames
        ensures { result ≡ [] }
    {
        TargetNames {
            names: NameSet::new(alloc),
        }
    }

    pub fn len(&self) -> usize
        ensures { result ≡ length self.now }
    {
        self.names.len()
    }

    /// Appends a name; true if it is new.
    #[tactic(auto, unfolding(crate::specs::Names::with_name))]
    pub fn add(&mut self, name: &Bytes) -> Result<bool, AllocError>
        ensures added { IfOk result (λ added. added ≡ not (has self.old name.now)) }
        ensures after { OnOk result (self.new ≡ with_name self.old name.now) }
    {
        self.names.add(name)
    }

    /// Returns the place of a name.
    pub fn place(&self, name: &Bytes) -> Result<Option<usize>, AllocError>
        ensures { IfOk result (λ place. place ≡ position (bytes_eq name.now) self.now) }
    {
        Ok(self.names.place(name.as_slice()))
    }

    /// Keeps the first `len` names.
    pub fn truncate(&mut self, len: usize)
        ensures { self.new ≡ take len self.old }
    {
        self.names.truncate(len);
    }
}
