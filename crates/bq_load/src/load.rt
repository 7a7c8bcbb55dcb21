//! The loading of a workspace.

ghost use Rattle.std.specs.Prelude.{◌≡◌, ◌<◌, ◌≤◌, map, All, IfOk};
ghost use Rattle.bq_base.specs.Limits.{AreBounded};
ghost use Rattle.bq_board.specs.Seats.{IsSeatOf};
ghost use Rattle.bq_load_discover.specs.LoadGraph.{IsReadGraph, inputs_of};
ghost use Rattle.bq_load.specs.Views.{outcome_view};
ghost use Rattle.bq_load.specs.Loading.{loading_in};
ghost use Rattle.bq_load.specs.Results.{outcomes};
ghost use Rattle.bq_load.specs.Loaded.{IsLoaded, LoadsWithin, LoadsWorkspace};
ghost use Rattle.bq_load.specs.Pool.{parts_of, loads_of};

use crate::gate::{Gate, Workers};
use crate::loaded::Loaded;
use crate::loading::Loading;
use crate::outcome::ModuleOutcome;
use crate::pool::Pool;
use crate::sources::Sources;
use bq_base::Limits;
use bq_label::Workspace;
use bq_load_discover::{LoadErr, LoadGraph, discover_by_workers, discover_within};
use bq_load_order::{Unwatched, outcomes_one_thread};
use bq_load_workers::MAX_WORKERS;
use bq_package_schema::Schema;
use bq_value_datum::Seed;
use std::alloc::{AllocError, Global};
use std::marker::Sync;
use std::sync::Wait;
use std::thread::Threads;

/// Returns the modules of a load graph with their outcomes, by one thread.
#[tactic(auto, using(crate::proofs::Joined::outcomes_of_same))]
fn modules_one_thread(
    alloc: Global,
    workspace: &Workspace,
    schema: &Schema,
    limit: u64,
    seed: Seed,
    graph: &LoadGraph,
) -> Result<Vec<ModuleOutcome>, AllocError>
    requires { IsReadGraph (inputs_of workspace.now schema.now) graph.now }
    ensures { IfOk result (λ os. map outcome_view os.items ≡ outcomes (loading_in workspace.now schema.now limit graph.now) graph.now.edges) }
{
    let loading = Loading::of(alloc, workspace, schema, limit, seed, graph)?;
    let found = outcomes_one_thread(alloc, &loading, graph.edges(), &Unwatched)?;
    loading.outcomes(alloc, graph.edges(), found.as_slice())
}

/// Loads a workspace on one thread, as [`load_one_thread`] does, by these limits.
#[tactic(auto, using(crate::proofs::Named::labelled, crate::proofs::Joined::gathered_is, crate::proofs::Joined::loaded_is))]
fn one_thread_within(
    alloc: Global,
    workspace: &Workspace,
    schema: &Schema,
    limits: Limits,
    seed: Seed,
) -> Result<Loaded, LoadErr>
    requires { AreBounded limits }
    ensures { LoadsWithin workspace.now schema.now limits result }
{
    // PROOF: the error is the same
    let graph = match discover_within(alloc, workspace, schema, limits) {
        Ok(graph) => graph,
        Err(why) => return Err(why),
    };
    let modules = modules_one_thread(alloc, workspace, schema, limits.steps, seed, &graph)?;
    let (labels, packages) = graph.into_parts();
    Ok(Loaded::gathered(alloc, &packages, &labels, modules)?)
}

/// Loads a workspace on one thread: each module is evaluated after all that it loads, with `limit` steps of its own. It
/// is refused if there are more modules or edges than the standard limits (L2), and if memory is refused (L1). It
/// evaluates on the stack of its caller, which no call overflows if that is as large as
/// `bq_load_workers::EVALUATION_STACK`.
pub fn load_one_thread(
    alloc: Global,
    workspace: &Workspace,
    schema: &Schema,
    limit: u64,
    seed: Seed,
) -> Result<Loaded, LoadErr>
    ensures { LoadsWorkspace workspace.now schema.now limit result }
{
    one_thread_within(alloc, workspace, schema, Limits::standard_with(limit), seed)
}

/// Returns the modules of a load graph with their outcomes, by several workers.
#[tactic(auto, using(crate::proofs::Joined::outcomes_of_same))]
fn modules_with<R: Threads + Wait + Sync, G: Gate>(
    rt: &R,
    alloc: Global,
    sources: &Sources<'_>,
    limit: u64,
    graph: &LoadGraph,
    workers: &Workers<'_, G>,
) -> Result<Vec<ModuleOutcome>, AllocError>
    requires graph { IsReadGraph (inputs_of sources.now.workspace.now sources.now.schema.now) graph.now }
    requires workers { (0 < workers.now.count) × (workers.now.count ≤ MAX_WORKERS) }
    ensures { IfOk result (λ os. map outcome_view os.items ≡ outcomes (loading_in sources.now.workspace.now sources.now.schema.now limit graph.now) graph.now.edges) }
{
    let (pool, seats) = Pool::open(
        alloc,
        sources.workspace,
        sources.schema,
        limit,
        sources.seed,
        graph,
        workers.count,
    )?;
    // PROOF: the pool is of this load graph
    Ok(pool.outcomes(rt, alloc, seats, workers.gate)?)
}

/// Loads the modules of a workspace's load graph by several workers, each in a thread of its own with the stack that
/// evaluation may take, and notifies a gate of each evaluation. It returns the same whatever the order of the workers'
/// steps. Drops the modules' files before the rest is made, by as many threads, to lower the peak of memory.
#[tactic(auto, using(crate::proofs::Named::labelled, crate::proofs::Joined::gathered_is))]
pub fn load_graph_with<R: Threads + Wait + Sync, G: Gate>(
    rt: &R,
    alloc: Global,
    sources: &Sources<'_>,
    limit: u64,
    graph: LoadGraph,
    workers: &Workers<'_, G>,
) -> Result<Loaded, AllocError>
    requires graph { IsReadGraph (inputs_of sources.now.workspace.now sources.now.schema.now) graph }
    requires workers { (0 < workers.now.count) × (workers.now.count ≤ MAX_WORKERS) }
    ensures { IfOk result (λ l. IsLoaded (loading_in sources.now.workspace.now sources.now.schema.now limit graph) graph.edges l) }
{
    let modules = modules_with(rt, alloc, sources, limit, &graph, workers)?;
    let (labels, packages) = graph.into_parts_by(rt, workers.count);
    // PROOF: they give this
    Ok(Loaded::gathered(alloc, &packages, &labels, modules)?)
}

/// Loads a workspace by several workers, as [`load_graph_with`] does, by the standard limits, and with `limit` steps for
/// each module. It returns what one thread returns.
pub fn load_with<R: Threads + Wait + Sync, G: Gate>(
    rt: &R,
    alloc: Global,
    workspace: &Workspace,
    schema: &Schema,
    limit: u64,
    seed: Seed,
    workers: usize,
    gate: &G,
) -> Result<Loaded, LoadErr>
    requires { (0 < workers) × (workers ≤ MAX_WORKERS) }
    ensures { LoadsWorkspace workspace.now schema.now limit result }
{
    let limits = Limits::standard_with(limit);
    let sources = Sources {
        workspace,
        schema,
        seed,
    };
    load_within(rt, alloc, &sources, limits, workers, gate)
}

/// Loads a workspace by several workers, as [`load_with`] does, by these limits.
#[tactic(auto, using(crate::proofs::Joined::loaded_is))]
pub fn load_within<R: Threads + Wait + Sync, G: Gate>(
    rt: &R,
    alloc: Global,
    sources: &Sources<'_>,
    limits: Limits,
    workers: usize,
    gate: &G,
) -> Result<Loaded, LoadErr>
    requires bounded { AreBounded limits }
    requires workers { (0 < workers) × (workers ≤ MAX_WORKERS) }
    ensures { LoadsWithin sources.now.workspace.now sources.now.schema.now limits result }
{
    // PROOF: the error is the same
    let graph = match discover_by_workers(
        rt,
        alloc,
        sources.workspace,
        sources.schema,
        limits,
        workers,
    ) {
        Ok(graph) => graph,
        Err(why) => return Err(why),
    };
    let workers = Workers {
        count: workers,
        gate,
    };
    Ok(load_graph_with(rt, alloc, sources, limits.steps, graph, &workers)?)
}
