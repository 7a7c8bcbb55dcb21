//! The facts of a workspace, as a session has them.

ghost use Rattle.std.specs.Prelude.{◌≡◌, IfOk};
ghost use Rattle.std.specs.Option.{option_copied};
ghost use Rattle.bq_run.specs.Run.{IsInRange};
ghost use Rattle.bq_run_write.specs.Deeds.{run_report};
ghost use Rattle.bq_run_write.specs.Report.{report_view};
ghost use Rattle.bq_run_session.specs.Steps.{IsFactsText, is_failed};

use crate::blocks::{BlockText, refusal};
use crate::options::SessionOptions;
use bq_label::{Bytes, Workspace};
use bq_run::{RunErr, Status, WorkspaceRun};
use bq_run_facts::report_facts;
use bq_run_report::Report;
use std::alloc::{AllocError, Global};
use std::random::RandomSource;
use std::sync::Wait;
use std::thread::Threads;

/// Returns what is written of a report, and how the run ends.
fn told_by(alloc: Global, report: Report) -> BlockText
    ensures text { result.text ≡ (run_report (report_view report)).answer }
    ensures end { result.end ≡ (run_report (report_view report)).end }
{
    let Report {
        faults: _,
        answer,
        end,
    } = report;
    match end {
        Ok(status) => BlockText {
            text: answer,
            end: Ok(status),
        },
        Err(why) => refusal(alloc, RunErr::from(why)),
    }
}

/// Returns the bytes of a query, if there is one.
fn query_bytes(query: &Option<Bytes>) -> Option<&[u8]>
    ensures { option_copied result ≡ query.now }
{
    match query {
        Some(query) => Some(query.as_slice()),
        None => None,
    }
}

/// Returns whether a run ended without a report: memory was refused, or a device failed.
pub(crate) fn is_failed(end: &Result<Status, RunErr>) -> bool
    ensures { result ≡ is_failed end.now }
{
    match end {
        Ok(_) => false,
        Err(RunErr::Memory) => true,
        Err(RunErr::Read) => true,
        Err(RunErr::Write) => true,
        Err(RunErr::Bundle) => false,
        Err(RunErr::Query(_)) => false,
        Err(RunErr::Schema(_)) => false,
        Err(RunErr::TooManyModules) => false,
    }
}

/// Returns what a run for facts writes, and how it ends. It loads the workspace again.
pub(crate) fn facts_of<T: Threads + Wait + RandomSource + Sync>(
    rt: &T,
    alloc: Global,
    by: SessionOptions<'_>,
    workspace: &Workspace,
    query: &Option<Bytes>,
) -> Result<BlockText, AllocError>
    requires { IsInRange by.options.now }
    ensures { IfOk result (λ t. IsFactsText by.entry.version.now by.entry.options.now workspace.now query.now t.text t.end) }
{
    let over = WorkspaceRun {
        workspace,
        options: by.options,
    };
    let asked = query_bytes(query);
    let report = report_facts(rt, alloc, by.version, &over, asked)?;
    Ok(told_by(alloc, report))
}
