//! A module that was evaluated, and one that failed.

use bq_base::{Bytes, Fault, FaultKind};
use bq_package_target::Package;
use bq_value::Frozen;
use std::alloc::Global;
use std::sync::Arc;

/// A module that was evaluated.
pub struct LoadedModule {
    /// Its globals, and what they hold, for the modules that load it. Nobody loads a BUILD file: for one it is empty.
    pub frozen: Arc<Frozen>,
    /// What it printed, in order.
    pub prints: Vec<Bytes>,
    /// For a BUILD file, the package with its targets.
    pub package: Option<Package>,
}

impl Drop for LoadedModule {
    // PROOF: a drop that is written out is proved here alone, and a derived one in each crate that drops a module
    fn drop(self) {
        let LoadedModule {
            frozen: _,
            prints: _,
            package: _,
        } = self;
    }
}

/// A module that failed.
#[derive(Drop)]
pub struct FailedModule {
    pub fault: Fault<FaultKind>,
    /// What it had printed by then.
    pub prints: Vec<Bytes>,
}

impl FailedModule {
    ghost use Rattle.std.specs.Prelude.{◌≡◌};
    ghost use Rattle.bq_load_module.specs.Views.{failed_view, not_evaluated};

    /// Makes one that failed before it was evaluated.
    pub fn not_evaluated(alloc: Global, fault: Fault<FaultKind>) -> FailedModule
        ensures { failed_view result ≡ not_evaluated fault }
    {
        FailedModule {
            fault,
            prints: Vec::new(alloc),
        }
    }
}
