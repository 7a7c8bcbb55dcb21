//! The report on a workspace.

ghost use Rattle.std.specs.Prelude.{◌≡◌, Ok, IfOk};
ghost use Rattle.bq_load_by_name.specs.Schema.{schema_in};
ghost use Rattle.bq_query_check.specs.Checked.{IsChecked};
ghost use Rattle.bq_query_check.specs.Formula.{formula_of};
ghost use Rattle.bq_run_write.specs.Report.{report_view};
ghost use Rattle.bq_run.specs.Run.{IsInRange};
ghost use Rattle.bq_run.specs.WorkspaceRun.{IsReportOn, refused};

use crate::loading::load_workspace;
use crate::options::Options;
use bq_base_texts::Rope;
use bq_label::Workspace;
use bq_load_by_name::{LoadErr, schema_of};
use bq_package_schema::Schema;
use bq_query_check::{CheckedQuery, parse_query};
use bq_run_report::{Question, report_on};
use bq_run_write::{NoAnswer, Report, refusal_of};
use std::alloc::{AllocError, Global};
use std::random::RandomSource;
use std::sync::Wait;
use std::thread::Threads;

/// Makes the report of a run that loads nothing.
pub fn refused_report(alloc: Global, why: NoAnswer) -> Report
    ensures { report_view result ≡ refused why }
{
    Report {
        faults: Rope::new(alloc),
        answer: Rope::new(alloc),
        end: Err(why),
    }
}

/// Makes the report on a workspace whose schema and query are read.
fn report_by<T: Threads + Wait + RandomSource + Sync>(
    rt: &T,
    alloc: Global,
    workspace: &Workspace,
    schema: &Schema,
    question: Question<'_>,
    options: &Options,
) -> Result<Report, AllocError>
    requires in_range { IsInRange options.now }
    requires query { IsChecked options.now.query.items (formula_of question.query.now.set) }
    requires schema { schema_in workspace.now ≡ Ok schema.now }
    requires form { question.form ≡ options.now.output }
    ensures { IfOk result (λ r. IsReportOn options.now workspace.now (report_view r)) }
{
    match load_workspace(rt, alloc, workspace, schema, options) {
        Ok(loaded) => report_on(rt, alloc, loaded, question, options.jobs as usize),
        Err(LoadErr::TooManyModules) => Ok(refused_report(alloc, NoAnswer::TooManyModules)),
        Err(_) => Err(AllocError),
    }
}

/// Makes the report on a workspace and a query that is read.
fn report_query<T: Threads + Wait + RandomSource + Sync>(
    rt: &T,
    alloc: Global,
    workspace: &Workspace,
    query: &CheckedQuery,
    options: &Options,
) -> Result<Report, AllocError>
    requires in_range { IsInRange options.now }
    requires query { IsChecked options.now.query.items (formula_of query.now.set) }
    ensures { IfOk result (λ r. IsReportOn options.now workspace.now (report_view r)) }
{
    match schema_of(alloc, workspace) {
        Ok(schema) => {
            let question = Question {
                query,
                form: options.output,
            };
            let report = report_by(rt, alloc, workspace, &schema, question, options);
            drop(schema); // PROOF: one call lets the schema go
            report
        }
        Err(LoadErr::Schema(line)) => Ok(refused_report(alloc, NoAnswer::Schema(line))),
        Err(_) => Err(AllocError),
    }
}

/// Returns the texts of a run over this workspace, and how it ends once they are written. Only out of memory is an
/// error; Q1 to Q8, E6 and E7 are in the ending.
pub fn report_workspace<T: Threads + Wait + RandomSource + Sync>(
    rt: &T,
    alloc: Global,
    workspace: &Workspace,
    options: &Options,
) -> Result<Report, AllocError>
    requires in_range { IsInRange options.now }
    ensures { IfOk result (λ r. IsReportOn options.now workspace.now (report_view r)) }
{
    match parse_query(alloc, &options.query) {
        Ok(query) => {
            let report = report_query(rt, alloc, workspace, &query, options);
            drop(query); // PROOF: one call lets the query go
            report
        }
        Err(why) => Ok(refused_report(alloc, refusal_of(why)?)),
    }
}
