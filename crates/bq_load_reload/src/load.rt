//! The loading of a workspace, and what is kept of it.

ghost use Rattle.std.specs.Prelude.{◌≡◌, ◌<◌, ◌≤◌, Ok, [], true, length, map, IfOk, IfSome};
ghost use Rattle.bq_base.specs.Limits.{AreBounded};
ghost use Rattle.bq_board.specs.Graph.{Fits};
ghost use Rattle.bq_load_discover.specs.LoadGraph.{IsReadGraph, inputs_of};
ghost use Rattle.bq_load_discover.specs.Schema.{schema_in};
ghost use Rattle.bq_load_order.specs.Outcome.{outcome};
ghost use Rattle.bq_load_order.specs.SharedOutcomes.{slot};
ghost use Rattle.bq_load_order.specs.Slots.{Filling};
ghost use Rattle.bq_load.specs.Evaluation.{means};
ghost use Rattle.bq_load.specs.Views.{failed_view, module_view, outcome_view};
ghost use Rattle.bq_load.specs.Loading.{loading_in};
ghost use Rattle.bq_load.specs.Results.{outcomes};
ghost use Rattle.bq_load.specs.Loaded.{IsLoaded, LoadsWithin};
ghost use Rattle.bq_load_changes.specs.Graph.{IsGraphOf};
ghost use Rattle.bq_load_reload.specs.Kept.{AreOutcomes, IsKept, WereLoaded, loaded_by};
ghost use Rattle.bq_load_changes.specs.Same.{HasSameFrame, HaveStayed};

use crate::kept::{Kept, KeptOutcome, Past, PreviousLoad, Reloaded};
use crate::outcomes::{all_outcomes, are_few_unknown, kept_after, outcomes_after, outcomes_from};
use crate::renewal::{Renewal, renewed, with_statements};
use bq_base::Limits;
use bq_base_takeable::Takeable;
use bq_label::{BuildFile, Workspace};
use bq_load::{Gate, Loaded, Loading, ModuleOutcome, Sources, Workers};
use bq_load_changes::Change;
use bq_load_discover::{LoadErr, LoadGraph, discover_by_workers};
use bq_load_workers::MAX_WORKERS;
use std::alloc::{AllocError, Global};
use std::marker::Sync;
use std::sync::Wait;
use std::thread::Threads;

/// Returns the modules of a load graph with what they come to, by their outcomes along loads.
#[tactic(auto, using(bq_load::proofs::Joined::outcomes_of_same, crate::proofs::Along::outcomes_back))]
fn modules_of(
    alloc: Global,
    sources: &Sources<'_>,
    limits: Limits,
    graph: &LoadGraph,
    found: &[KeptOutcome],
) -> Result<Vec<ModuleOutcome>, AllocError>
    requires graph { IsReadGraph (inputs_of sources.now.workspace.now sources.now.schema.now) graph.now }
    requires outcomes { AreOutcomes (loading_in sources.now.workspace.now sources.now.schema.now limits.steps graph.now) graph.now.edges found.now }
    ensures { IfOk result (λ os. map outcome_view os.items ≡ outcomes (loading_in sources.now.workspace.now sources.now.schema.now limits.steps graph.now) graph.now.edges) }
{
    let loading = Loading::of(
        alloc,
        sources.workspace,
        sources.schema,
        limits.steps,
        sources.seed,
        graph,
    )?;
    // PROOF: what is loaded is of this load graph
    Ok(loading.outcomes(alloc, graph.edges(), found)?)
}

/// Gathers the outcomes of a load graph's modules, and keeps them with the load graph.
#[tactic(auto, using(bq_load::proofs::Named::labelled, bq_load::proofs::Joined::gathered_is, crate::proofs::Along::is_kept))]
fn gathered(
    alloc: Global,
    sources: &Sources<'_>,
    limits: Limits,
    graph: LoadGraph,
    outcomes: Vec<KeptOutcome>,
) -> Result<Reloaded, AllocError>
    requires schema { schema_in sources.now.workspace.now ≡ Ok sources.now.schema.now }
    requires graph { IsReadGraph (inputs_of sources.now.workspace.now sources.now.schema.now) graph }
    requires fits { Fits limits graph.edges }
    requires outcomes { AreOutcomes (loading_in sources.now.workspace.now sources.now.schema.now limits.steps graph) graph.edges outcomes.items }
    ensures loaded { IfOk result (λ r. IsLoaded (loading_in sources.now.workspace.now sources.now.schema.now limits.steps graph) graph.edges r.loaded) }
    ensures kept { IfOk result (λ r. IsKept sources.now.workspace.now limits.steps r.kept) }
{
    let modules = modules_of(alloc, sources, limits, &graph, outcomes.as_slice())?;
    let _edges = graph.edges(); // PROOF: the load graph is numbered
    let loaded = Loaded::gathered(alloc, graph.packages(), graph.label_set(), modules)?;
    let kept = Kept {
        graph: Takeable::of(graph),
        limits,
        outcomes,
    };
    Ok(Reloaded { loaded, kept })
}

/// Loads a workspace by several workers, as `bq_load::load_within` does, and keeps what it loads.
#[tactic(auto, using(bq_load::proofs::Joined::loaded_is))]
fn load_anew<R: Threads + Wait + Sync, G: Gate>(
    rt: &R,
    alloc: Global,
    past: Option<Past<'_>>,
    sources: &Sources<'_>,
    limits: Limits,
    workers: &Workers<'_, G>,
) -> Result<Reloaded, LoadErr>
    requires bounded { AreBounded limits }
    requires workers { (0 < workers.now.count) × (workers.now.count ≤ MAX_WORKERS) }
    requires schema { schema_in sources.now.workspace.now ≡ Ok sources.now.schema.now }
    requires past { IfSome past (λ p. WereLoaded p.workspace.now limits.steps p.labels.now p.edges.now p.outcomes.now) }
    requires frame { IfSome past (λ p. HasSameFrame p.workspace.now sources.now.workspace.now p.touched.now) }
    ensures loads { LoadsWithin sources.now.workspace.now sources.now.schema.now limits (loaded_by result) }
    ensures keeps { IfOk result (λ r. IsKept sources.now.workspace.now limits.steps r.kept) }
{
    // PROOF: the error is the same
    let graph = match discover_by_workers(
        rt,
        alloc,
        sources.workspace,
        sources.schema,
        limits,
        workers.count,
    ) {
        Ok(graph) => graph,
        Err(why) => return Err(why),
    };
    let outcomes = outcomes_of(rt, alloc, past, sources, limits, &graph, workers)?;
    Ok(gathered(alloc, sources, limits, graph, outcomes)?)
}

/// Returns the outcomes of a load graph's modules, by those that they had before, if they had any.
fn outcomes_of<R: Threads + Wait + Sync, G: Gate>(
    rt: &R,
    alloc: Global,
    past: Option<Past<'_>>,
    sources: &Sources<'_>,
    limits: Limits,
    graph: &LoadGraph,
    workers: &Workers<'_, G>,
) -> Result<Vec<KeptOutcome>, AllocError>
    requires past { IfSome past (λ p. WereLoaded p.workspace.now limits.steps p.labels.now p.edges.now p.outcomes.now) }
    requires frame { IfSome past (λ p. HasSameFrame p.workspace.now sources.now.workspace.now p.touched.now) }
    requires schema { schema_in sources.now.workspace.now ≡ Ok sources.now.schema.now }
    requires graph { IsReadGraph (inputs_of sources.now.workspace.now sources.now.schema.now) graph.now }
    requires workers { (0 < workers.now.count) × (workers.now.count ≤ MAX_WORKERS) }
    ensures { IfOk result (λ v. AreOutcomes (loading_in sources.now.workspace.now sources.now.schema.now limits.steps graph.now) graph.now.edges v.items) }
{
    match past {
        None => all_outcomes(rt, alloc, sources, limits, graph, workers),
        Some(past) => outcomes_after(rt, alloc, &past, sources, limits, graph, workers),
    }
}

/// Returns whether what keeps the one limits keeps the others.
fn are_within(limits: Limits, others: Limits) -> bool
    ensures { result ≡ true → (limits.modules ≤ others.modules) × (limits.edges ≤ others.edges) }
{
    limits.modules <= others.modules && limits.edges <= others.edges
}

/// Evaluates the modules of a load graph that have no outcome yet, and gathers all.
fn evaluated<R: Threads + Wait + Sync, G: Gate>(
    rt: &R,
    alloc: Global,
    sources: &Sources<'_>,
    limits: Limits,
    graph: LoadGraph,
    found: Vec<Option<KeptOutcome>>,
    gate: &G,
) -> Result<Reloaded, AllocError>
    requires schema { schema_in sources.now.workspace.now ≡ Ok sources.now.schema.now }
    requires graph { IsReadGraph (inputs_of sources.now.workspace.now sources.now.schema.now) graph }
    requires fits { Fits limits graph.edges }
    requires found { Filling (outcome (means (loading_in sources.now.workspace.now sources.now.schema.now limits.steps graph)) graph.edges) (length graph.edges) (map (slot module_view failed_view) found.items) [] }
    ensures loaded { IfOk result (λ r. IsLoaded (loading_in sources.now.workspace.now sources.now.schema.now limits.steps graph) graph.edges r.loaded) }
    ensures kept { IfOk result (λ r. IsKept sources.now.workspace.now limits.steps r.kept) }
{
    let whole = with_statements(alloc, sources, &found, graph)?;
    let outcomes = outcomes_from(rt, alloc, sources, limits, &whole, found, gate)?;
    let reloaded = gathered(alloc, sources, limits, whole, outcomes)?;
    Ok(reloaded) // PROOF: it is the same load graph
}

/// Loads a workspace with this load graph, if few modules are to be evaluated. Of its files texts have changed, and files of these packages
/// came or went that are no modules.
fn load_renewed<R: Threads + Wait + Sync, G: Gate>(
    rt: &R,
    alloc: Global,
    before: &Workspace,
    touched: &[BuildFile],
    outcomes: &[KeptOutcome],
    renewal: Renewal,
    sources: &Sources<'_>,
    limits: Limits,
    workers: &Workers<'_, G>,
) -> Result<Option<Reloaded>, AllocError>
    requires schema { schema_in sources.now.workspace.now ≡ Ok sources.now.schema.now }
    requires past { WereLoaded before.now limits.steps renewal.graph.labels renewal.graph.edges outcomes.now }
    requires frame { HasSameFrame before.now sources.now.workspace.now touched.now }
    requires stayed { HaveStayed before.now sources.now.workspace.now touched.now renewal.graph.labels renewal.graph.labels renewal.numbers.items }
    requires graph { IsReadGraph (inputs_of sources.now.workspace.now sources.now.schema.now) renewal.graph }
    requires fits { Fits limits renewal.graph.edges }
    ensures loaded { IfOk result (λ o. IfSome o (λ r. IsLoaded (loading_in sources.now.workspace.now sources.now.schema.now limits.steps renewal.graph) renewal.graph.edges r.loaded)) }
    ensures kept { IfOk result (λ o. IfSome o (λ r. IsKept sources.now.workspace.now limits.steps r.kept)) }
{
    let Renewal {
        graph,
        numbers,
        same: _,
    } = renewal;
    let past = Past {
        workspace: before,
        touched,
        labels: graph.labels(),
        edges: graph.edges(),
        outcomes,
    };
    let found = kept_after(alloc, &past, sources, limits, &graph, &numbers)?;
    if !are_few_unknown(&found, workers.count) {
        return Ok(None);
    }
    Ok(Some(evaluated(rt, alloc, sources, limits, graph, found, workers.gate)?))
}

/// Loads a workspace that had this load graph, and whose modules had these outcomes. Of its files texts have changed, and files of these
/// packages came or went that are no modules.
#[tactic(auto, using(bq_load::proofs::Joined::loaded_is, crate::proofs::Along::fits_so))]
fn load_changed<R: Threads + Wait + Sync, G: Gate>(
    rt: &R,
    alloc: Global,
    before: &Workspace,
    touched: &[BuildFile],
    outcomes: &[KeptOutcome],
    graph: LoadGraph,
    sources: &Sources<'_>,
    limits: Limits,
    workers: &Workers<'_, G>,
) -> Result<Reloaded, LoadErr>
    requires bounded { AreBounded limits }
    requires workers { (0 < workers.now.count) × (workers.now.count ≤ MAX_WORKERS) }
    requires schema { schema_in sources.now.workspace.now ≡ Ok sources.now.schema.now }
    requires frame { HasSameFrame before.now sources.now.workspace.now touched.now }
    requires graph { IsGraphOf before.now graph }
    requires past { WereLoaded before.now limits.steps graph.labels graph.edges outcomes.now }
    requires fits { Fits limits graph.edges }
    ensures loads { LoadsWithin sources.now.workspace.now sources.now.schema.now limits (loaded_by result) }
    ensures keeps { IfOk result (λ r. IsKept sources.now.workspace.now limits.steps r.kept) }
{
    let renewal = renewed(alloc, before, touched, sources, graph)?;
    if !renewal.same {
        let past = Past {
            workspace: before,
            touched,
            labels: renewal.graph.labels(),
            edges: renewal.graph.edges(),
            outcomes,
        };
        return load_anew(rt, alloc, Some(past), sources, limits, workers);
    }
    match load_renewed(
        rt, alloc, before, touched, outcomes, renewal, sources, limits, workers,
    )? {
        Some(reloaded) => Ok(reloaded),
        None => load_anew(rt, alloc, None, sources, limits, workers),
    }
}

/// Loads a workspace that was loaded before.
#[tactic(auto, using(crate::proofs::Along::graph_taken, crate::proofs::Along::outcomes_taken, crate::proofs::Along::fits_taken))]
fn load_after<R: Threads + Wait + Sync, G: Gate>(
    rt: &R,
    alloc: Global,
    before: &PreviousLoad<'_>,
    sources: &Sources<'_>,
    limits: Limits,
    workers: &Workers<'_, G>,
) -> Result<Reloaded, LoadErr>
    requires bounded { AreBounded limits }
    requires workers { (0 < workers.now.count) × (workers.now.count ≤ MAX_WORKERS) }
    requires schema { schema_in sources.now.workspace.now ≡ Ok sources.now.schema.now }
    requires before { IsKept before.now.workspace.now limits.steps before.now.kept.now }
    ensures loads { LoadsWithin sources.now.workspace.now sources.now.schema.now limits (loaded_by result) }
    ensures keeps { IfOk result (λ r. IsKept sources.now.workspace.now limits.steps r.kept) }
{
    let kept = before.kept;
    if !are_within(kept.limits, limits) {
        return load_anew(rt, alloc, None, sources, limits, workers);
    }
    let Some(graph) = kept.graph.take() else {
        return load_anew(rt, alloc, None, sources, limits, workers);
    };
    let change = Change {
        before: before.workspace,
        after: sources.workspace,
    };
    let Some(touched) = change.touched(alloc, &graph)? else {
        return load_anew(rt, alloc, None, sources, limits, workers);
    };
    let outcomes = kept.outcomes.as_slice();
    load_changed(
        rt,
        alloc,
        before.workspace,
        &touched,
        outcomes,
        graph,
        sources,
        limits,
        workers,
    )
}

/// Loads a workspace by several workers, as `bq_load::load_within` does, and keeps what it loads. If it was loaded before, and the schema and
/// the paths of BUILD files and .bzl files are what they were, a module isn't evaluated if its file and those of all that it loads, directly
/// or not, are, and no file of its package came or went, if it is a BUILD file; but if many are to be evaluated, all are. Nor is a file read
/// then, if no file that changed loads other files.
pub fn load_again<R: Threads + Wait + Sync, G: Gate>(
    rt: &R,
    alloc: Global,
    before: Option<PreviousLoad<'_>>,
    sources: &Sources<'_>,
    limits: Limits,
    workers: &Workers<'_, G>,
) -> Result<Reloaded, LoadErr>
    requires bounded { AreBounded limits }
    requires workers { (0 < workers.now.count) × (workers.now.count ≤ MAX_WORKERS) }
    requires schema { schema_in sources.now.workspace.now ≡ Ok sources.now.schema.now }
    requires before { IfSome before (λ b. IsKept b.workspace.now limits.steps b.kept.now) }
    ensures loads { LoadsWithin sources.now.workspace.now sources.now.schema.now limits (loaded_by result) }
    ensures keeps { IfOk result (λ r. IsKept sources.now.workspace.now limits.steps r.kept) }
{
    match before {
        None => load_anew(rt, alloc, None, sources, limits, workers),
        Some(before) => load_after(rt, alloc, &before, sources, limits, workers),
    }
}
