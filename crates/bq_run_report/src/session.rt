//! A workspace that is loaded, ready for queries.

ghost use Rattle.std.specs.Prelude.{◌≡◌, ◌++◌, IfOk};
ghost use Rattle.std.specs.List.{flat_map};
ghost use Rattle.bq_base_texts.specs.FaultLine.{put_lines};
ghost use Rattle.bq_base_texts.specs.LineText.{line_text};
ghost use Rattle.bq_run_write.specs.Ending.{status_by};
ghost use Rattle.bq_run_report.specs.Report.{IsOver, inside};

use bq_base_texts::{FaultLines, Rope};
use bq_load::Loaded;
use bq_query_target_graph::{TargetGraph, build_graph_by};
use bq_run_write::Status;
use std::alloc::{AllocError, Global};
use std::thread::Threads;

/// A workspace that is loaded.
#[derive(Drop)]
pub struct Session {
    /// What its modules printed, and the lines of its faults.
    pub faults: Rope,
    /// How a run ends whose query is answered.
    pub status: Status,
    /// Its targets.
    pub graph: TargetGraph,
}

/// Returns how a run ends that has these fault lines and is not refused.
pub fn status_by(lines: &FaultLines) -> Status
    ensures { result ≡ status_by lines.now }
{
    if lines.is_empty() {
        Status::Answered
    } else {
        Status::WithFaults
    }
}

/// Returns what the modules printed and then the lines of all faults, each of which is dropped once it is appended, and how a run ends
/// whose query is answered.
fn fault_text(
    alloc: Global,
    mut prints: Rope,
    mut faults: FaultLines,
    dangling: FaultLines,
) -> Result<(Rope, Status), AllocError>
    ensures text { IfOk result (λ t. t.0 ≡ prints ++ flat_map line_text (put_lines faults dangling)) }
    ensures status { IfOk result (λ t. t.1 ≡ status_by (put_lines faults dangling)) }
{
    faults.add_all(dangling)?;
    let status = status_by(&faults);
    faults.append_to(alloc, &mut prints)?;
    Ok((prints, status))
}

/// Makes the session over a loaded workspace, by at most `threads` threads. A label that names no target is one more fault, F79.
pub fn session_over<R: Threads + Sync>(
    rt: &R,
    alloc: Global,
    loaded: Loaded,
    threads: usize,
) -> Result<Session, AllocError>
    ensures { IfOk result (IsOver (inside loaded)) }
{
    let Loaded {
        modules,
        packages,
        faults,
        prints,
    } = loaded;
    drop(modules); // so that the graph gets the memory of their values
    let (graph, dangling) = build_graph_by(rt, alloc, packages, threads)?;
    let Ok((text, status)) = fault_text(alloc, prints, faults, dangling) else {
        drop(graph); // PROOF: one call lets the graph go
        return Err(AllocError);
    };
    Ok(Session {
        faults: text,
        status,
        graph,
    })
}
