//! The report on a workspace.

ghost use Rattle.std.specs.Prelude.{◌≡◌, ◌++◌, ℕ, length, Ok, IfOk};
ghost use Rattle.std.specs.List.{flat_map};
ghost use Rattle.std.specs.Option.{option_copied};
ghost use Rattle.bq_load_discover.specs.LoadGraph.{IsReadGraph, inputs_of};
ghost use Rattle.bq_load_discover.specs.Schema.{schema_in};
ghost use Rattle.bq_label.specs.Packages.{packages_of};
ghost use Rattle.bq_base_texts.specs.FaultLine.{put_lines};
ghost use Rattle.bq_base_texts.specs.LineText.{line_text};
ghost use Rattle.bq_run_write.specs.Report.{report_view};
ghost use Rattle.bq_run_report.specs.Report.{inside};
ghost use Rattle.bq_run.specs.Run.{IsInRange};
ghost use Rattle.bq_run.specs.WorkspaceRun.{refused};
ghost use Rattle.bq_run_write.specs.declared.ending.NoAnswer.TheVariants.{Schema as BadSchema, TooManyModules};
ghost use Rattle.bq_run_facts.specs.Facts.{IsFactsBy, IsFactsOn, TellsAll, TellsFacts, TellsGraph, before_view, origin_of};
ghost use Rattle.bq_run_facts.specs.Lines.{module_lines};

use crate::lines::{push_faults, push_modules};
use crate::replies::{Further, facts_over};
use bq_base::Bytes;
use bq_base_texts::{FaultLines, Rope};
use bq_facts::{Origin, SharedText};
use bq_label::{Packages, Workspace};
use bq_load_discover::{LoadErr, LoadGraph, Module, discover_by_workers, schema_of};
use bq_package_schema::Schema;
use bq_query_check::{CheckedQuery, parse_query};
use bq_query_target_graph::{TargetGraph, build_graph_by};
use bq_run::{Loaded, Options, WorkspaceRun, load_graph, refused_report};
use bq_run_report::{NoAnswer, Report, drop_aside, refusal_of, status_by};
use std::alloc::{AllocError, Global};
use std::random::RandomSource;
use std::sync::Wait;
use std::thread::Threads;

/// What is read of a load graph before its modules are evaluated.
#[derive(Drop)]
pub(crate) struct LoadSummary {
    origin: Origin,
    packages: Packages,
    /// The lines of its modules.
    modules: SharedText,
    /// How many modules there are.
    count: usize,
}

/// Returns what the first line says of the program.
fn origin_of(alloc: Global, version: &[u8], options: &Options) -> Result<Origin, AllocError>
    ensures { IfOk result (λ o. o ≡ origin_of version.now options.now) }
{
    Ok(Origin {
        version: Bytes::from_slice(alloc, version)?,
        limits: options.limits,
    })
}

fn read_before(
    alloc: Global,
    version: &[u8],
    over: &WorkspaceRun<'_>,
    modules: &[Module],
) -> Result<LoadSummary, AllocError>
    ensures origin { IfOk result (λ b. b.origin ≡ origin_of version.now over.now.options.now) }
    ensures packages { IfOk result (λ b. b.packages ≡ packages_of over.now.workspace.now) }
    ensures modules { IfOk result (λ b. b.modules ≡ module_lines modules.now) }
    ensures count { IfOk result (λ b. b.count ≡ length modules.now) }
{
    let mut lines = SharedText::new(alloc);
    push_modules(alloc, &mut lines, modules)?;
    let packages = Packages::of(alloc, over.workspace)?;
    Ok(LoadSummary {
        origin: origin_of(alloc, version, over.options)?,
        packages,
        modules: lines,
        count: modules.len(),
    })
}

/// What a loaded workspace has to say on standard error.
#[derive(Drop)]
struct Diagnostics {
    prints: Rope,
    /// The faults of its modules.
    faults: FaultLines,
    /// Labels that name no target, F79.
    dangling: FaultLines,
}

/// Makes the report over the graph of the targets.
fn report_over(
    alloc: Global,
    before: LoadSummary,
    told: Diagnostics,
    graph: &TargetGraph,
    asked: Option<&CheckedQuery>,
) -> Result<Report, AllocError>
    ensures faults { IfOk result (λ r. r.faults ≡ told.prints ++ flat_map line_text (put_lines told.faults told.dangling)) }
    ensures reply { IfOk result (λ r. TellsAll (before_view before) graph.now (option_copied asked.entry) (put_lines told.faults told.dangling) (report_view r)) }
{
    let LoadSummary {
        origin,
        packages,
        modules: mut lines,
        count,
    } = before;
    let Diagnostics {
        prints: mut text,
        mut faults,
        dangling,
    } = told;
    faults.add_all(dangling)?;
    let status = status_by(&faults);
    push_faults(alloc, &mut lines, &faults)?;
    let further = Further {
        text: lines.into_rope(alloc)?,
        modules: count,
        faults: faults.lines().len(),
    };
    faults.append_to(alloc, &mut text)?;
    let reply = facts_over(alloc, &origin, &packages, graph, asked, &further, status)?;
    Ok(Report {
        faults: text,
        answer: reply.text,
        end: reply.end,
    })
}

/// Makes the report on a loaded workspace, by at most `threads` threads. A label that names no target is one more fault.
fn report_loaded<R: Threads + Sync>(
    rt: &R,
    alloc: Global,
    before: LoadSummary,
    loaded: Loaded,
    asked: Option<&CheckedQuery>,
    threads: usize,
) -> Result<Report, AllocError>
    ensures { IfOk result (λ r. TellsFacts (before_view before) (inside loaded) (option_copied asked.entry) (report_view r)) }
{
    let Loaded {
        modules,
        packages,
        faults,
        prints,
    } = loaded;
    drop(modules); // so that the graph gets the memory of their values
    let (graph, dangling) = build_graph_by(rt, alloc, packages, threads)?;
    let told = Diagnostics {
        prints,
        faults,
        dangling,
    };
    let report = report_over(alloc, before, told, &graph, asked);
    drop(drop_aside(rt, graph)); // PROOF: one call lets the graph go
    report
}

/// Makes the report on a workspace with this load graph.
fn report_graph<T: Threads + Wait + RandomSource + Sync>(
    rt: &T,
    alloc: Global,
    version: &[u8],
    over: &WorkspaceRun<'_>,
    schema: &Schema,
    graph: LoadGraph,
    asked: Option<&CheckedQuery>,
) -> Result<Report, AllocError>
    requires in_range { IsInRange over.now.options.now }
    requires graph { IsReadGraph (inputs_of over.now.workspace.now schema.now) graph }
    ensures { IfOk result (λ r. TellsGraph (origin_of version.now over.now.options.now) over.now.workspace.now schema.now graph (option_copied asked.entry) (report_view r)) }
{
    let Ok(before) = read_before(alloc, version, over, graph.modules()) else {
        drop(graph); // PROOF: one call lets the graph go
        return Err(AllocError);
    };
    let options = over.options;
    let loaded = load_graph(rt, alloc, over.workspace, schema, graph, options)?;
    report_loaded(rt, alloc, before, loaded, asked, options.jobs as usize)
}

/// Makes the report of a run that finds no load graph.
fn without_graph(alloc: Global, why: LoadErr) -> Result<Report, AllocError>
    ensures why { IfOk result (λ _. why ≡ LoadErr.TooManyModules) }
    ensures report { IfOk result (λ r. report_view r ≡ refused TooManyModules) }
{
    match why {
        LoadErr::TooManyModules => Ok(refused_report(alloc, NoAnswer::TooManyModules)),
        _ => Err(AllocError),
    }
}

/// Makes the report on a workspace whose schema and query are read.
fn report_schema<T: Threads + Wait + RandomSource + Sync>(
    rt: &T,
    alloc: Global,
    version: &[u8],
    over: &WorkspaceRun<'_>,
    schema: &Schema,
    asked: Option<&CheckedQuery>,
) -> Result<Report, AllocError>
    requires in_range { IsInRange over.now.options.now }
    requires schema { schema_in over.now.workspace.now ≡ Ok schema.now }
    ensures { IfOk result (λ r. IsFactsBy (origin_of version.now over.now.options.now) over.now.workspace.now (option_copied asked.entry) (report_view r)) }
{
    match discover_by_workers(
        rt,
        alloc,
        over.workspace,
        schema,
        over.options.limits,
        over.options.jobs as usize,
    ) {
        Ok(graph) => report_graph(rt, alloc, version, over, schema, graph, asked),
        Err(why) => without_graph(alloc, why), // PROOF: nothing is left to let go of
    }
}

/// Makes the report of a run that finds no schema.
fn without_schema(alloc: Global, why: LoadErr) -> Result<Report, AllocError>
    ensures { IfOk result (λ r. (line : ℕ) × (why ≡ LoadErr.Schema line) × (report_view r ≡ refused (BadSchema line))) }
{
    match why {
        LoadErr::Schema(line) => Ok(refused_report(alloc, NoAnswer::Schema(line))),
        _ => Err(AllocError),
    }
}

/// Makes the report on a workspace and a query that is read, if there is one.
fn report_asked<T: Threads + Wait + RandomSource + Sync>(
    rt: &T,
    alloc: Global,
    version: &[u8],
    over: &WorkspaceRun<'_>,
    asked: Option<&CheckedQuery>,
) -> Result<Report, AllocError>
    requires in_range { IsInRange over.now.options.now }
    ensures { IfOk result (λ r. IsFactsBy (origin_of version.now over.now.options.now) over.now.workspace.now (option_copied asked.entry) (report_view r)) }
{
    match schema_of(alloc, over.workspace) {
        Ok(schema) => {
            let report = report_schema(rt, alloc, version, over, &schema, asked);
            drop(schema); // PROOF: one call lets the schema go
            report
        }
        Err(why) => without_schema(alloc, why),
    }
}

/// Returns the texts of a run over this workspace that is asked for facts, and how it ends once they are written. Only out
/// of memory is an error; Q1 to Q8, E6 and E7 are in the ending.
pub fn report_facts<T: Threads + Wait + RandomSource + Sync>(
    rt: &T,
    alloc: Global,
    version: &[u8],
    over: &WorkspaceRun<'_>,
    query: Option<&[u8]>,
) -> Result<Report, AllocError>
    requires in_range { IsInRange over.now.options.now }
    ensures { IfOk result (λ r. IsFactsOn (origin_of version.now over.now.options.now) over.now.workspace.now (option_copied query.entry) (report_view r)) }
{
    let Some(query) = query else {
        return report_asked(rt, alloc, version, over, None);
    };
    match parse_query(alloc, query) {
        Ok(query) => {
            let report = report_asked(rt, alloc, version, over, Some(&query));
            drop(query); // PROOF: one call lets the query go
            report
        }
        Err(why) => Ok(refused_report(alloc, refusal_of(why)?)),
    }
}
