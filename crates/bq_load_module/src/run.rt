//! The run of a file to its module.

ghost use Rattle.std.specs.Prelude.{◌≡◌, Some, option_map, IfOk};
ghost use Rattle.bq_base.specs.Fault.{fault_as, kind_of_eval};
ghost use Rattle.bq_eval.specs.Outcomes.{ended_of, run_of};
ghost use Rattle.bq_package.specs.Calls.{held_by, meaning, package_in};
ghost use Rattle.bq_package_target.specs.Package.{finished};
ghost use Rattle.bq_load_order.specs.SharedOutcomes.{told};
ghost use Rattle.bq_load_module.specs.Views.{module_view, failed_view};
ghost use Rattle.bq_load_module.specs.Run.{without_cells, module_with, module_by, module_after};

use crate::outcome::{FailedModule, LoadedModule};
use bq_base::{Bytes, EvalFault, Fault};
use bq_eval::{EvaluatedFile, FileOutcome, ResolvedModule, eval_module};
use bq_package::BuildHost;
use bq_package_target::PackageState;
use bq_package_values::BuiltIns;
use bq_value::{Frozen, Store, freeze};
use bq_value_datum::Seed;
use std::alloc::{AllocError, Global};
use std::sync::Arc;

/// Returns a frozen module of this number with no cell and no global.
fn without_cells(alloc: Global, number: u32) -> Result<Arc<Frozen>, AllocError>
    ensures { IfOk result (λ f. f.value ≡ without_cells number) }
{
    let store = Store::new(alloc, number, Seed::fixed());
    let frozen = freeze(alloc, store, &[], Vec::new(alloc))?;
    Ok(Arc::new(alloc, frozen)?)
}

/// Returns the module of a BUILD file, with its package. Nobody loads it, so it keeps no cell.
fn build_module(
    alloc: Global,
    number: u32,
    prints: Vec<Bytes>,
    kept: PackageState,
) -> Result<LoadedModule, AllocError>
    ensures { IfOk result (λ m. module_view m ≡ record { frozen = without_cells number; prints = prints.items; «package» = Some (finished kept) }) }
{
    let package = kept.finish(alloc)?;
    let frozen = without_cells(alloc, number)?;
    Ok(LoadedModule {
        frozen,
        prints,
        package: Some(package),
    })
}

/// Returns a module that ran to its end, with the package that its host keeps.
fn loaded_module(
    alloc: Global,
    frozen: Frozen,
    prints: Vec<Bytes>,
    kept: Option<PackageState>,
) -> Result<LoadedModule, AllocError>
    ensures { IfOk result (λ m. module_view m ≡ module_with frozen prints.items (option_map finished kept)) }
{
    let Some(kept) = kept else {
        return Ok(LoadedModule {
            frozen: Arc::new(alloc, frozen)?,
            prints,
            package: None,
        });
    };
    let number = frozen.module();
    drop(frozen);
    build_module(alloc, number, prints, kept)
}

/// Returns a module whose evaluation failed.
fn failed_module(fault: Fault<EvalFault>, prints: Vec<Bytes>) -> FailedModule
    ensures { failed_view result ≡ record { fault = fault_as kind_of_eval fault; prints = prints.items } }
{
    let kind = fault.kind.kind();
    FailedModule {
        fault: fault.with_kind(kind),
        prints,
    }
}

/// Returns the module of an ended evaluation.
fn module_by(
    alloc: Global,
    evaluated: EvaluatedFile<BuildHost<'_>>,
) -> Result<Result<LoadedModule, FailedModule>, AllocError>
    ensures { IfOk result (λ r. told module_view failed_view r ≡ module_by (ended_of evaluated.entry.outcome) (package_in (held_by evaluated.entry.host))) }
{
    let EvaluatedFile { outcome, host } = evaluated;
    let kept = host.into_package();
    match outcome {
        FileOutcome::Module(frozen, prints) => Ok(Ok(loaded_module(alloc, frozen, prints, kept)?)),
        FileOutcome::Failed(fault, prints) => Ok(Err(failed_module(fault, prints))),
    }
}

/// Runs the statements of a file, with `limit` steps, and returns its module, with the package that its calls of the
/// host declared. Its dicts hash their keys by `seed`, which no answer depends on.
pub fn load_module(
    alloc: Global,
    built_ins: &BuiltIns,
    module: &ResolvedModule<'_>,
    host: BuildHost<'_>,
    limit: u64,
    seed: Seed,
) -> Result<Result<LoadedModule, FailedModule>, AllocError>
    ensures { IfOk result (λ r. told module_view failed_view r ≡ module_after «module».now.file.now «module».now.imports.now (run_of built_ins.now meaning «module».now limit (held_by host.entry))) }
{
    let evaluated = eval_module(alloc, built_ins, module, host, limit, seed)?;
    module_by(alloc, evaluated)
}
