//! The evaluation of a file.

ghost use Rattle.std.specs.Prelude.{◌≡◌, IfOk, OnOk, IfSome};
ghost use Rattle.bq_builtin_machine.specs.State.{State};
ghost use Rattle.bq_builtin_machine.specs.Action.{Run, HostDoes};
ghost use Rattle.bq_eval_spec.specs.Frame as frames;
ghost use Rattle.bq_eval_frame.specs.Slots.{slots_of};
ghost use Rattle.bq_eval.specs.Module.{ended, kept_after, module_run};
ghost use Rattle.bq_eval.specs.Outcomes.{ended_of, run_of};

use crate::ending::{failed, module_of};
use crate::evaluation::{Evaluation, RuleNames};
use crate::loads::first_store;
use crate::module::ResolvedModule;
use crate::outcome::{EvaluatedFile, FileOutcome};
use crate::run::run_module;
use bq_builtin_machine::Machine;
use bq_eval_frame::Frame;
use bq_package_values::{BuiltIns, Host};
use bq_value::EvalErr;
use bq_value_datum::Seed;
use std::alloc::{AllocError, Global};
use std::marker::Brand;

/// Returns the outcome of a file from how its run ended.
fn outcome_of<H: Host>(
    alloc: Global,
    module: &ResolvedModule<'_>,
    ran: Result<Frame<'static>, EvalErr>,
    machine: Machine,
    host: &H,
) -> Result<FileOutcome, AllocError>
    ensures outcome { (run : Run (State × H.Kept) frames.Frame) → HostDoes slots_of ran.entry machine (H.seen host.now) run → IfOk result (λ o. ended_of o ≡ ended «module».now.file.now «module».now.imports.now run) }
    ensures host { (run : Run (State × H.Kept) frames.Frame) → HostDoes slots_of ran.entry machine (H.seen host.now) run → OnOk result (IfSome (kept_after run) (λ kept. H.seen host.now ≡ kept)) }
{
    let _ = host;
    match ran {
        Ok(globals) => module_of(alloc, module, &globals, machine),
        Err(EvalErr::Bad(kind)) => failed(alloc, kind, machine),
        Err(EvalErr::Memory) => Err(AllocError),
    }
}

/// Evaluates a file, where the rules have the names of `K`.
#[tactic(auto, using(crate::specs::Runtime::machine_of, crate::proofs::Ends::host_does), unfolding(crate::specs::Module::module_run))]
fn evaluate<H: Host + Drop, K: RuleNames>(
    alloc: Global,
    built_ins: &BuiltIns,
    module: &ResolvedModule<'_>,
    host: H,
    limit: u64,
    seed: Seed,
) -> Result<EvaluatedFile<H>, AllocError>
    requires { built_ins.now ≡ K.rules }
    ensures outcome { IfOk result (λ e. ended_of e.outcome ≡ ended «module».now.file.now «module».now.imports.now (run_of K.rules H.means «module».now limit (H.seen host))) }
    ensures host { IfOk result (λ e. IfSome (kept_after (run_of K.rules H.means «module».now limit (H.seen host))) (λ kept. H.seen e.host ≡ kept)) }
{
    let store = first_store(alloc, module.number, module.loaded, seed)?;
    let machine = Machine::new(alloc, store, limit);
    let mut evaluation = Evaluation::<H, K>::new(alloc, built_ins, machine, host);
    let ran = run_module(alloc, module, &mut evaluation);
    let (machine, host) = evaluation.into_parts();
    let outcome = outcome_of(alloc, module, ran, machine, &host)?;
    Ok(EvaluatedFile { outcome, host })
}

/// Evaluates a file: its statements run in order on a fresh machine, with `limit` steps. Its dicts hash their keys by
/// `seed`, which no answer depends on.
pub fn eval_module<H: Host + Drop>(
    alloc: Global,
    built_ins: &BuiltIns,
    module: &ResolvedModule<'_>,
    host: H,
    limit: u64,
    seed: Seed,
) -> Result<EvaluatedFile<H>, AllocError>
    ensures outcome { IfOk result (λ e. ended_of e.outcome ≡ ended «module».now.file.now «module».now.imports.now (run_of built_ins.now H.means «module».now limit (H.seen host))) }
    ensures host { IfOk result (λ e. IfSome (kept_after (run_of built_ins.now H.means «module».now limit (H.seen host))) (λ kept. H.seen e.host ≡ kept)) }
{
    evaluate::<H, Brand>(alloc, built_ins, module, host, limit, seed)
}
