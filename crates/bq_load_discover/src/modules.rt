//! A module with the front of its file.

ghost use Rattle.std.specs.Prelude.{◌≡◌, [], IfOk};
ghost use Rattle.bq_label_set.specs.Labels.{with_labels};
ghost use Rattle.bq_load_front.specs.Front.{loads_by};
ghost use Rattle.bq_load_discover.specs.Module.{module_of};

use bq_base::{Fault, FaultKind, SourceErr};
use bq_label::Label;
use bq_load_front::{Front, Inputs, front_of};
use std::alloc::{AllocError, Global};

/// A module of a workspace.
#[derive(Drop)]
pub struct Module {
    pub label: Label,
    /// What its file is on its own, or the fault that the file has on its own.
    pub front: Result<Front, Fault<FaultKind>>,
}

impl Module {
    /// Reads the module of this label.
    pub fn of(alloc: Global, inputs: &Inputs<'_>, label: &Label) -> Result<Module, AllocError>
        ensures { IfOk result (λ m. m ≡ module_of inputs.now label.now) }
    {
        let shared = label.share()?;
        match front_of(alloc, inputs, label) {
            Ok(front) => Ok(Module {
                label: shared,
                front: Ok(front),
            }),
            Err(SourceErr::Bad(fault)) => Ok(Module {
                label: shared,
                front: Err(fault),
            }),
            Err(SourceErr::Memory) => Err(AllocError),
        }
    }

    /// Drops what its file is. What is left is a module whose file is missing.
    pub(crate) fn forget(&mut self) {
        self.front = Err(Fault::at(FaultKind::NoSuchFile, 0));
    }

    /// Returns the labels of the files that it loads, each once, in the order in which it first loads them; none if its
    /// file has a fault.
    #[tactic(auto, unfolding(bq_label_set::specs::Labels::with_labels))]
    pub fn loads(&self) -> &[Label]
        ensures { result.now ≡ with_labels [] (loads_by self.now.front) }
    {
        match &self.front {
            Ok(front) => front.loads.files(),
            Err(_) => &[],
        }
    }
}
