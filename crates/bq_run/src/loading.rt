//! What a workspace loads to, said by names.

ghost use Rattle.std.specs.Prelude.{◌≡◌, IfOk};
ghost use Rattle.bq_load_by_name.specs.LoadGraph.{IsReadGraph, inputs_of};
ghost use Rattle.bq_load_by_name.specs.Reading.{parsed_of};
ghost use Rattle.bq_load_by_name.specs.Results.{LoadsByNames};
ghost use Rattle.bq_run_report.specs.Report.{inside};
ghost use Rattle.bq_run.specs.Run.{IsInRange};
ghost use Rattle.bq_run.specs.WorkspaceRun.{loaded_in};

use crate::options::Options;
use bq_label::Workspace;
use bq_load_by_name::{
    LoadErr, LoadGraph, Loaded, OpenGate, Sources, Workers, load_graph_with, load_within,
};
use bq_package_schema::Schema;
use bq_value_datum::Seed;
use std::alloc::{AllocError, Global};
use std::random::RandomSource;
use std::sync::Wait;
use std::thread::Threads;

/// Loads a workspace by as many workers as there are jobs. It returns what its files evaluate to by names, E7's refusal, or that memory
/// was refused.
pub fn load_workspace<T: Threads + Wait + RandomSource + Sync>(
    rt: &T,
    alloc: Global,
    workspace: &Workspace,
    schema: &Schema,
    options: &Options,
) -> Result<Loaded, LoadErr>
    requires { IsInRange options.now }
    ensures { LoadsByNames workspace.now schema.now options.now.limits result }
{
    let sources = Sources {
        workspace,
        schema,
        seed: Seed::draw(rt),
    };
    load_within(
        rt,
        alloc,
        &sources,
        options.limits,
        options.jobs as usize,
        &OpenGate,
    )
}

/// Loads the modules of a load graph by as many workers as there are jobs. What is inside the workspace then is what the modules of
/// these labels, with these edges, evaluate to by names.
#[tactic(auto, using(crate::proofs::Loads::inside_by_names))]
pub fn load_graph<T: Threads + Wait + RandomSource + Sync>(
    rt: &T,
    alloc: Global,
    workspace: &Workspace,
    schema: &Schema,
    graph: LoadGraph,
    options: &Options,
) -> Result<Loaded, AllocError>
    requires in_range { IsInRange options.now }
    requires graph { IsReadGraph (inputs_of workspace.now schema.now) graph }
    ensures { IfOk result (λ l. inside l ≡ loaded_in workspace.now schema.now (parsed_of (inputs_of workspace.now schema.now)) options.now.limits.steps graph.labels graph.edges) }
{
    let sources = Sources {
        workspace,
        schema,
        seed: Seed::draw(rt),
    };
    let gate = OpenGate;
    let workers = Workers {
        count: options.jobs as usize,
        gate: &gate,
    };
    // PROOF: what it gives is inside the workspace
    Ok(load_graph_with(rt, alloc, &sources, options.limits.steps, graph, &workers)?)
}
