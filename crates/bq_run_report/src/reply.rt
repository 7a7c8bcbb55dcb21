//! The answer to a query, over the graph of the targets.

ghost use Rattle.std.specs.Prelude.{IfOk};
ghost use Rattle.bq_query_check.specs.Formula.{formula_of};
ghost use Rattle.bq_run_report.specs.Report.{Replies, reply_view};

use bq_base_texts::Rope;
use bq_query::{OutputForm, answer, print_answer};
use bq_query_check::CheckedQuery;
use bq_query_target_graph::TargetGraph;
use bq_run_write::{NoAnswer, Status, refusal_of};
use std::alloc::{AllocError, Global};

/// What is asked of a workspace.
#[derive(Clone, Copy)]
pub struct Question<'a> {
    pub query: &'a CheckedQuery,
    pub form: OutputForm,
}

/// The answer's text, and how the run ends.
#[derive(Drop)]
pub struct Reply {
    pub text: Rope,
    pub end: Result<Status, NoAnswer>,
}

/// Returns the reply to a query; with an answer the run ends with `status`.
pub fn reply_to(
    alloc: Global,
    graph: &TargetGraph,
    question: Question<'_>,
    status: Status,
) -> Result<Reply, AllocError>
    ensures { IfOk result (λ r. Replies graph.now (formula_of question.entry.query.now.set) question.entry.form status (reply_view r)) }
{
    match answer(alloc, graph, question.query) {
        Ok(numbers) => Ok(Reply {
            text: print_answer(alloc, question.form, graph.targets(), &numbers)?,
            end: Ok(status),
        }),
        Err(why) => Ok(Reply {
            text: Rope::new(alloc),
            end: Err(refusal_of(why)?),
        }),
    }
}
