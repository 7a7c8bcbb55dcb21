//! The outcomes of modules, with the faults of those that load a failed one.

ghost use Rattle.std.specs.Prelude.{◌≡◌, ◌<◌, length, map, IfOk};
ghost use Rattle.bq_label.specs.Label.{full_form};
ghost use Rattle.bq_load_order.specs.Outcome.{outcome};
ghost use Rattle.bq_load_order.specs.SharedOutcomes.{shown as shown_outcome};
ghost use Rattle.bq_load_order.specs.Slots.{Tabulates};
ghost use Rattle.bq_load.specs.Views.{module_view, failed_view, result_view, outcome_view, not_evaluated};
ghost use Rattle.bq_load.specs.Loading.{loading_of};
ghost use Rattle.bq_load.specs.Evaluation.{means};
ghost use Rattle.bq_load.specs.Results.{line_of_load, line_by, load_fault, result_of, outcome_by, outcome_of, outcomes};

use crate::loading::Loading;
use crate::outcome::ModuleOutcome;
use bq_base::{Bytes, Fault, FaultKind, LoadFault};
use bq_board::Graph;
use bq_label::{Label, print_label};
use bq_load_discover::Module;
use bq_load_front::{Front, NamedFiles};
use bq_load_module::{FailedModule, LoadedModule};
use bq_load_order::{Outcome, SharedOutcome};
use bq_resolve_scope::LoadStmt;
use std::alloc::{AllocError, Global};
use std::sync::Arc;

/// Returns the line of the first of these loads, which name these files, that names this one.
#[tactic(auto, using(crate::proofs::Lined::is_named, crate::proofs::Lined::is_other, crate::proofs::Lined::no_file, crate::proofs::Lined::no_load))]
fn line_of_load(label: &Label, loads: &[LoadStmt], files: &NamedFiles) -> u32
    ensures { result ≡ line_of_load label.now loads.now files.now }
{
    for (number, load) in loads.iter().enumerate() {
        let Some(file) = files.label(number) else {
            return 0;
        };
        if label == file {
            return load.line;
        }
    }
    0
}

/// Returns the line of the first load of this label in a file; 0 if the file has a fault of its own.
fn line_by(label: &Label, front: &Result<Front, Fault<FaultKind>>) -> u32
    ensures { result ≡ line_by label.now front.now }
{
    match front {
        Ok(front) => {
            let file = &front.file;
            line_of_load(label, file.loads.as_slice(), &front.loads)
        }
        Err(_) => 0,
    }
}

/// Returns the full form of a label.
pub(crate) fn shown(alloc: Global, label: &Label) -> Result<Bytes, AllocError>
    ensures { IfOk result (λ text. text ≡ full_form label.now) }
{
    Bytes::from_vec(alloc, print_label(alloc, label)?)
}

/// Shares a fault.
pub(crate) fn share_fault(fault: &Fault<FaultKind>) -> Result<Fault<FaultKind>, AllocError>
    ensures { IfOk result (λ f. f ≡ fault.now) }
{
    Ok(Fault {
        kind: fault.kind,
        line: fault.line,
        detail: fault.detail.share()?,
    })
}

/// Shares prints.
fn share_prints(alloc: Global, prints: &[Bytes]) -> Result<Vec<Bytes>, AllocError>
    ensures { IfOk result (λ ps. ps.items ≡ prints.now) }
{
    let mut shared = Vec::with_capacity(alloc, prints.len())?;
    for text in prints {
        shared.push(text.share()?)?;
    }
    Ok(shared)
}

fn share_failed(alloc: Global, failed: &FailedModule) -> Result<FailedModule, AllocError>
    ensures { IfOk result (λ f. failed_view f ≡ failed_view failed.now) }
{
    Ok(FailedModule {
        fault: share_fault(&failed.fault)?,
        prints: share_prints(alloc, failed.prints.as_slice())?,
    })
}

impl<'a> Loading<'a> {
    /// Returns the fault of a module for its load of module `k`.
    #[tactic(auto, unfolding(crate::specs::Results::load_fault))]
    fn load_fault(
        &self,
        alloc: Global,
        front: &Result<Front, Fault<FaultKind>>,
        kind: LoadFault,
        k: u32,
    ) -> Result<Fault<FaultKind>, AllocError>
        ensures { IfOk result (λ f. f ≡ load_fault (loading_of self.now) front.now kind k) }
    {
        let Some(loaded) = self.modules.get(k as usize) else {
            return Ok(Fault::at(kind.kind(), 0));
        };
        Ok(Fault {
            kind: kind.kind(),
            line: line_by(&loaded.label, front),
            detail: shown(alloc, &loaded.label)?,
        })
    }

    /// Returns a module that failed for its load of module `k`.
    fn not_loaded(
        &self,
        alloc: Global,
        front: &Result<Front, Fault<FaultKind>>,
        kind: LoadFault,
        k: u32,
    ) -> Result<FailedModule, AllocError>
        ensures { IfOk result (λ f. failed_view f ≡ not_evaluated (load_fault (loading_of self.now) front.now kind k)) }
    {
        let fault = self.load_fault(alloc, front, kind, k)?;
        Ok(FailedModule::not_evaluated(alloc, fault))
    }

    /// Returns what a module comes to, by its outcome along loads.
    fn result_at(
        &self,
        alloc: Global,
        front: &Result<Front, Fault<FaultKind>>,
        outcome: &SharedOutcome<LoadedModule, FailedModule>,
    ) -> Result<Result<Arc<LoadedModule, Global>, FailedModule>, AllocError>
        ensures { IfOk result (λ r. result_view r ≡ result_of (loading_of self.now) front.now (shown_outcome module_view failed_view outcome.now)) }
    {
        match outcome {
            Outcome::Loaded(module) => Ok(Ok(Arc::try_clone(module)?)),
            Outcome::Faulty(failed) => Ok(Err(share_failed(alloc, failed)?)),
            Outcome::Cyclic(k) => {
                Ok(Err(self.not_loaded(alloc, front, LoadFault::CycleReached, *k)?))
            }
            Outcome::TooDeep(k) => {
                Ok(Err(self.not_loaded(alloc, front, LoadFault::LoadDepth, *k)?))
            }
            Outcome::LoadFailed(k) => {
                Ok(Err(self.not_loaded(alloc, front, LoadFault::LoadFailed, *k)?))
            }
        }
    }

    /// Returns a module with its outcome, by its outcome along loads.
    pub(crate) fn outcome_at(
        &self,
        alloc: Global,
        module: &Module,
        outcome: &SharedOutcome<LoadedModule, FailedModule>,
    ) -> Result<ModuleOutcome, AllocError>
        ensures { IfOk result (λ o. outcome_view o ≡ outcome_by (loading_of self.now) «module».now (shown_outcome module_view failed_view outcome.now)) }
    {
        let label = module.label.share()?;
        let result = self.result_at(alloc, &module.front, outcome)?;
        Ok(ModuleOutcome { label, result })
    }

    /// Returns a module with its outcome.
    #[tactic(auto, using(crate::proofs::Listed::outcome_found, crate::proofs::Listed::found_at))]
    fn outcome(
        &self,
        alloc: Global,
        edges: &Graph,
        m: usize,
        module: &Module,
        found: &[SharedOutcome<LoadedModule, FailedModule>],
    ) -> Result<ModuleOutcome, AllocError>
        requires known { m < length edges.now }
        requires found { Tabulates (length edges.now) (outcome (means (loading_of self.now)) edges.now) (map (shown_outcome module_view failed_view) found.now) }
        ensures { IfOk result (λ o. outcome_view o ≡ outcome_of (loading_of self.now) edges.now m «module».now) }
    {
        let _ = edges; // contracts alone speak of them
        // PROOF: the outcome is by what was found
        Ok(self.outcome_at(alloc, module, &found[m])?)
    }

    /// Returns the modules with their outcomes.
    #[tactic(auto, using(crate::proofs::Listed::next), unfolding(crate::specs::Results::outcomes))]
    pub fn outcomes(
        &self,
        alloc: Global,
        edges: &Graph,
        found: &[SharedOutcome<LoadedModule, FailedModule>],
    ) -> Result<Vec<ModuleOutcome>, AllocError>
        requires wide { length edges.now ≡ length self.now.modules.now }
        requires found { Tabulates (length edges.now) (outcome (means (loading_of self.now)) edges.now) (map (shown_outcome module_view failed_view) found.now) }
        ensures { IfOk result (λ os. map outcome_view os.items ≡ outcomes (loading_of self.now) edges.now) }
    {
        let modules = self.modules;
        let mut all = Vec::with_capacity(alloc, modules.len())?;
        for (m, module) in modules.iter().enumerate() {
            all.push(self.outcome(alloc, edges, m, module, found)?)?;
        }
        Ok(all)
    }
}
