//! The evaluation of each module, as the outcomes along loads ask for it.

ghost use Rattle.std.specs.Prelude.{◌≡◌, map, IfOk};
ghost use Rattle.bq_base.specs.Fault.{fault_as, kind_of_load};
ghost use Rattle.bq_load_order.specs.SharedOutcomes.{told};
ghost use Rattle.bq_load.specs.Views.{ModuleView, FailedView, module_view, failed_view, module_views, not_evaluated};
ghost use Rattle.bq_load.specs.Loading.{loading_of};
ghost use Rattle.bq_load.specs.Evaluation.{file_means, by_front, means};

use crate::evaluation::FileModule;
use crate::loading::Loading;
use crate::results::share_fault;
use bq_base::{Fault, FaultKind, LoadFault, SourceErr};
use bq_load_module::{FailedModule, LoadedModule};
use bq_load_order::{Evaluate, Watch};
use std::alloc::{AllocError, Global};
use std::sync::Arc;

impl<'a> Evaluate for Loading<'a> {
    type Value = LoadedModule;

    type Fault = FailedModule;

    ghost Meaning = { ModuleView };

    ghost Reason = { FailedView };

    ghost see = { module_view };

    ghost see_fault = { failed_view };

    ghost means = { λ e m modules. means (loading_of e) m modules };

    /// Evaluates a module, with the modules of the files that its loads name. The watch is notified only if its
    /// statements are to run.
    fn evaluate<W: Watch>(
        &self,
        alloc: Global,
        m: u32,
        imports: &[Arc<LoadedModule, Global>],
        watch: &W,
    ) -> Result<Result<LoadedModule, FailedModule>, AllocError> {
        let Some(module) = self.modules.get(m as usize) else {
            return Ok(not_evaluated(alloc, Fault::at(FaultKind::NoSuchFile, 0)));
        };
        let front = match &module.front {
            Ok(front) => front,
            Err(fault) => return Ok(not_evaluated(alloc, share_fault(fault)?)),
        };
        let file = FileModule {
            number: m,
            label: &module.label,
            front,
        };
        match self.imports(alloc, &file, imports) {
            Ok(values) => {
                watch.begins(m);
                // PROOF: these are the values
                Ok(self.evaluated(alloc, &file, imports, &values)?)
            }
            Err(SourceErr::Bad(fault)) => Ok(not_imported(alloc, fault)),
            Err(SourceErr::Memory) => Err(AllocError),
        }
    }
}

/// Returns a module that failed before it was evaluated.
fn not_evaluated(alloc: Global, fault: Fault<FaultKind>) -> Result<LoadedModule, FailedModule>
    ensures { told module_view failed_view result ≡ Err (not_evaluated fault) }
{
    Err(FailedModule::not_evaluated(alloc, fault))
}

/// Returns a module that lacks what its loads ask for.
fn not_imported(alloc: Global, fault: Fault<LoadFault>) -> Result<LoadedModule, FailedModule>
    ensures { told module_view failed_view result ≡ Err (not_evaluated (fault_as kind_of_load fault)) }
{
    let kind = fault.kind.kind();
    not_evaluated(alloc, fault.with_kind(kind))
}
