//! The outcomes of all modules.

ghost use Rattle.std.specs.Prelude.{◌≡◌, ◌<◌, ◌≤◌, Ok, [], length, map, All, IfOk};
ghost use Rattle.bq_board.specs.Seats.{IsSeatOf};
ghost use Rattle.bq_load_discover.specs.LoadGraph.{IsReadGraph, inputs_of};
ghost use Rattle.bq_load_discover.specs.Schema.{schema_in};
ghost use Rattle.bq_load_order.specs.Outcome.{outcome};
ghost use Rattle.bq_load_order.specs.SharedOutcomes.{shown, slot};
ghost use Rattle.bq_load_order.specs.Slots.{Filling, Tabulates};
ghost use Rattle.bq_load.specs.Views.{module_view, failed_view};
ghost use Rattle.bq_load.specs.Loading.{loading_in, loading_of};
ghost use Rattle.bq_load.specs.Evaluation.{means};
ghost use Rattle.bq_load_order.specs.Again.{had, AreUnchanged};
ghost use Rattle.bq_load_changes.specs.Same.{HasSameFrame};
ghost use Rattle.bq_load_reload.specs.Kept.{AreOutcomes, WereLoaded};

use crate::kept::{KeptOutcome, Past};
use bq_base::Limits;
use bq_board::Graph;
use bq_load::{Gate, GateWatch, Loading, Sources, Workers};
use bq_load_changes::Change;
use bq_load_discover::LoadGraph;
use bq_load_order::kept_outcomes;
use bq_load_workers::{
    GraphEvaluation, MAX_WORKERS, WorkerPool, WorkerSeat, completed, outcomes_by_workers,
};
use std::alloc::{AllocError, Global};
use std::marker::Sync;
use std::sync::Wait;
use std::thread::Threads;

/// Returns the outcomes of the modules of a pool, by its seats.
fn pooled_outcomes<'a, R: Threads + Wait + Sync, G: Gate>(
    rt: &R,
    alloc: Global,
    pool: &WorkerPool<Loading<'a>>,
    seats: Vec<WorkerSeat<Loading<'a>>>,
    gate: &G,
) -> Result<Vec<KeptOutcome>, AllocError>
    requires { All (λ s. IsSeatOf pool.now.board s.place) seats.items }
    ensures { IfOk result (λ v. AreOutcomes (loading_of pool.now.evaluator) pool.now.graph v.items) }
{
    let loading = pool.evaluator();
    let watch = GateWatch { gate, loading };
    outcomes_by_workers(rt, alloc, pool, seats, &watch)
}

/// Returns the outcomes of all modules, each evaluated by one of several workers.
#[tactic(auto, using(crate::proofs::Along::outcomes_so))]
pub(crate) fn all_outcomes<R: Threads + Wait + Sync, G: Gate>(
    rt: &R,
    alloc: Global,
    sources: &Sources<'_>,
    limits: Limits,
    graph: &LoadGraph,
    workers: &Workers<'_, G>,
) -> Result<Vec<KeptOutcome>, AllocError>
    requires graph { IsReadGraph (inputs_of sources.now.workspace.now sources.now.schema.now) graph.now }
    requires workers { (0 < workers.now.count) × (workers.now.count ≤ MAX_WORKERS) }
    ensures { IfOk result (λ v. AreOutcomes (loading_in sources.now.workspace.now sources.now.schema.now limits.steps graph.now) graph.now.edges v.items) }
{
    let loading = Loading::of(
        alloc,
        sources.workspace,
        sources.schema,
        limits.steps,
        sources.seed,
        graph,
    )?;
    let edges = graph.edges().copy(alloc)?;
    let (pool, seats) = WorkerPool::open(alloc, loading, edges, workers.count)?;
    // PROOF: the pool is of this load graph
    Ok(pooled_outcomes(rt, alloc, &pool, seats, workers.gate)?)
}

/// Returns how many modules have no outcome yet.
fn unknown(found: &[Option<KeptOutcome>]) -> usize {
    let mut count: usize = 0;
    for outcome in found {
        if outcome.is_none() {
            count = count.saturating_add(1);
        }
    }
    count
}

/// Returns whether one worker evaluates so many modules in no more time than all workers take for all modules.
fn are_few(changed: usize, modules: usize, workers: usize) -> bool {
    match changed.checked_mul(workers) {
        Some(turns) => turns <= modules,
        None => false,
    }
}

/// Returns whether one worker evaluates the modules without an outcome in no more time than all workers take for all modules.
pub(crate) fn are_few_unknown(found: &[Option<KeptOutcome>], workers: usize) -> bool {
    are_few(unknown(found), found.len(), workers)
}

/// Returns for each module of a load graph its outcome, if it keeps the one that it had.
#[tactic(auto, using(crate::proofs::Along::as_many))]
pub(crate) fn kept_after(
    alloc: Global,
    past: &Past<'_>,
    sources: &Sources<'_>,
    limits: Limits,
    graph: &LoadGraph,
    was: &[Option<u32>],
) -> Result<Vec<Option<KeptOutcome>>, AllocError>
    requires past { WereLoaded past.now.workspace.now limits.steps past.now.labels.now past.now.edges.now past.now.outcomes.now }
    requires graph { IsReadGraph (inputs_of sources.now.workspace.now sources.now.schema.now) graph.now }
    requires unchanged { AreUnchanged (had (map (shown module_view failed_view) past.now.outcomes.now)) past.now.edges.now (means (loading_in sources.now.workspace.now sources.now.schema.now limits.steps graph.now)) was.now }
    ensures { IfOk result (λ v. Filling (outcome (means (loading_in sources.now.workspace.now sources.now.schema.now limits.steps graph.now)) graph.now.edges) (length graph.now.edges) (map (slot module_view failed_view) v.items) []) }
{
    let loading = Loading::of(
        alloc,
        sources.workspace,
        sources.schema,
        limits.steps,
        sources.seed,
        graph,
    )?;
    let old = bq_load_order::PreviousOutcomes {
        graph: past.edges,
        outcomes: past.outcomes,
    };
    let found = kept_outcomes(alloc, &old, &loading, graph.edges(), was)?;
    Ok(found) // PROOF: what is loaded is of this load graph
}

/// Returns the outcomes of all modules after a change, of which some are found: the others alone are evaluated.
fn changed_outcomes<R: Threads + Wait + Sync, G: Gate>(
    rt: &R,
    alloc: Global,
    loading: &Loading<'_>,
    edges: &Graph,
    found: Vec<Option<KeptOutcome>>,
    gate: &G,
) -> Result<Vec<KeptOutcome>, AllocError>
    requires found { Filling (outcome (means (loading_of loading.now)) edges.now) (length edges.now) (map (slot module_view failed_view) found.items) [] }
    ensures { IfOk result (λ v. AreOutcomes (loading_of loading.now) edges.now v.items) }
{
    let order = edges.topological_order(alloc)?;
    let by = GraphEvaluation {
        evaluator: loading,
        graph: edges,
        order: &order,
    };
    let watch = GateWatch { gate, loading };
    completed(rt, alloc, &by, found, &watch)
}

/// Returns the outcomes of a load graph's modules, of which some are found: the others alone are evaluated.
#[tactic(auto, using(crate::proofs::Along::outcomes_so))]
pub(crate) fn outcomes_from<R: Threads + Wait + Sync, G: Gate>(
    rt: &R,
    alloc: Global,
    sources: &Sources<'_>,
    limits: Limits,
    graph: &LoadGraph,
    found: Vec<Option<KeptOutcome>>,
    gate: &G,
) -> Result<Vec<KeptOutcome>, AllocError>
    requires graph { IsReadGraph (inputs_of sources.now.workspace.now sources.now.schema.now) graph.now }
    requires found { Filling (outcome (means (loading_in sources.now.workspace.now sources.now.schema.now limits.steps graph.now)) graph.now.edges) (length graph.now.edges) (map (slot module_view failed_view) found.items) [] }
    ensures { IfOk result (λ v. AreOutcomes (loading_in sources.now.workspace.now sources.now.schema.now limits.steps graph.now) graph.now.edges v.items) }
{
    let loading = Loading::of(
        alloc,
        sources.workspace,
        sources.schema,
        limits.steps,
        sources.seed,
        graph,
    )?;
    let edges = graph.edges();
    // PROOF: what is loaded is of this load graph
    Ok(changed_outcomes(rt, alloc, &loading, edges, found, gate)?)
}

/// Returns for each module of a load graph the number that it had, if it is unchanged.
#[tactic(auto, using(crate::proofs::Unchanged::are_unchanged))]
fn unchanged(
    alloc: Global,
    past: &Past<'_>,
    sources: &Sources<'_>,
    limits: Limits,
    graph: &LoadGraph,
) -> Result<Vec<Option<u32>>, AllocError>
    requires past { WereLoaded past.now.workspace.now limits.steps past.now.labels.now past.now.edges.now past.now.outcomes.now }
    requires schema { schema_in sources.now.workspace.now ≡ Ok sources.now.schema.now }
    requires frame { HasSameFrame past.now.workspace.now sources.now.workspace.now past.now.touched.now }
    requires graph { IsReadGraph (inputs_of sources.now.workspace.now sources.now.schema.now) graph.now }
    ensures { IfOk result (λ was. AreUnchanged (had (map (shown module_view failed_view) past.now.outcomes.now)) past.now.edges.now (means (loading_in sources.now.workspace.now sources.now.schema.now limits.steps graph.now)) was.items) }
{
    let _ = limits; // contracts alone speak of them
    let change = Change {
        before: past.workspace,
        after: sources.workspace,
    };
    change.numbers_before(alloc, past.touched, past.labels, graph.labels())
}

/// Returns the outcomes of all modules after a change. Those of unchanged modules are kept; the others are evaluated,
/// or if these are many, all modules.
pub(crate) fn outcomes_after<R: Threads + Wait + Sync, G: Gate>(
    rt: &R,
    alloc: Global,
    past: &Past<'_>,
    sources: &Sources<'_>,
    limits: Limits,
    graph: &LoadGraph,
    workers: &Workers<'_, G>,
) -> Result<Vec<KeptOutcome>, AllocError>
    requires past { WereLoaded past.now.workspace.now limits.steps past.now.labels.now past.now.edges.now past.now.outcomes.now }
    requires schema { schema_in sources.now.workspace.now ≡ Ok sources.now.schema.now }
    requires frame { HasSameFrame past.now.workspace.now sources.now.workspace.now past.now.touched.now }
    requires graph { IsReadGraph (inputs_of sources.now.workspace.now sources.now.schema.now) graph.now }
    requires workers { (0 < workers.now.count) × (workers.now.count ≤ MAX_WORKERS) }
    ensures { IfOk result (λ v. AreOutcomes (loading_in sources.now.workspace.now sources.now.schema.now limits.steps graph.now) graph.now.edges v.items) }
{
    let numbers = unchanged(alloc, past, sources, limits, graph)?;
    let found = kept_after(alloc, past, sources, limits, graph, &numbers)?;
    if are_few_unknown(&found, workers.count) {
        return outcomes_from(rt, alloc, sources, limits, graph, found, workers.gate);
    }
    all_outcomes(rt, alloc, sources, limits, graph, workers)
}
