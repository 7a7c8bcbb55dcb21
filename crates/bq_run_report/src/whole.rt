//! The report on a loaded workspace.

ghost use Rattle.std.specs.Prelude.{IfOk};
ghost use Rattle.bq_query_check.specs.Formula.{formula_of};
ghost use Rattle.bq_run_write.specs.Report.{report_view};
ghost use Rattle.bq_run_report.specs.Report.{Reports, inside};

use crate::aside::drop_aside;
use crate::reply::{Question, reply_to};
use crate::session::{Session, session_over};
use bq_load::Loaded;
use bq_run_write::Report;
use std::alloc::{AllocError, Global};
use std::thread::Threads;

/// Makes the report on a loaded workspace, by at most `threads` threads. Only out of memory is an error; Q5 and Q6 are in the ending.
pub fn report_on<R: Threads + Sync>(
    rt: &R,
    alloc: Global,
    loaded: Loaded,
    question: Question<'_>,
    threads: usize,
) -> Result<Report, AllocError>
    ensures { IfOk result (λ r. Reports (inside loaded) (formula_of question.entry.query.now.set) question.entry.form (report_view r)) }
{
    let Session {
        faults,
        status,
        graph,
    } = session_over(rt, alloc, loaded, threads)?;
    let reply = reply_to(alloc, &graph, question, status);
    drop_aside(rt, graph); // PROOF: one call lets the graph go
    let reply = reply?;
    Ok(Report {
        faults,
        answer: reply.text,
        end: reply.end,
    })
}
