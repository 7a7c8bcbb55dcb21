//! What a session answers.

ghost use Rattle.std.specs.Prelude.{◌≡◌, ◌≤◌, [], Err, IfOk, length};
ghost use Rattle.bq_run_report.specs.Report.{reply_view};
ghost use Rattle.bq_run_commands.specs.Queries.{max_query_bytes};
ghost use Rattle.bq_run_session.specs.Session.{IsAnswerIn};

use bq_base_texts::Rope;
use bq_query::OutputForm;
use bq_query_check::parse_query;
use bq_query_lex::QueryErr;
use bq_run_commands::MAX_QUERY_BYTES;
use bq_run_report::{NoAnswer, Question, Reply, Session, refusal_of, reply_to};
use std::alloc::{AllocError, Global};

/// Returns the reply to a query that is refused.
fn refused(alloc: Global, why: NoAnswer) -> Reply
    ensures { reply_view result ≡ record { text = []; end = Err why } }
{
    Reply {
        text: Rope::new(alloc),
        end: Err(why),
    }
}

/// Returns the reply to a query that isn't too long.
fn reply_to_text(
    alloc: Global,
    session: &Session,
    query: &[u8],
    form: OutputForm,
) -> Result<Reply, AllocError>
    requires { length query.now ≤ max_query_bytes }
    ensures { IfOk result (λ r. IsAnswerIn session.now form query.now (reply_view r)) }
{
    match parse_query(alloc, query) {
        Ok(query) => {
            let question = Question {
                query: &query,
                form,
            };
            let reply = reply_to(alloc, &session.graph, question, session.status);
            drop(query); // PROOF: one call lets the query go
            reply
        }
        Err(why) => Ok(refused(alloc, refusal_of(why)?)),
    }
}

/// Returns what a run with this query, and with this form, answers over the session's workspace. Only out of memory is an
/// error; Q1 to Q8 are in the reply.
pub fn ask(
    alloc: Global,
    session: &Session,
    query: &[u8],
    form: OutputForm,
) -> Result<Reply, AllocError>
    ensures { IfOk result (λ r. IsAnswerIn session.now form query.now (reply_view r)) }
{
    if query.len() > MAX_QUERY_BYTES {
        return Ok(refused(alloc, NoAnswer::Query(QueryErr::Syntax)));
    }
    reply_to_text(alloc, session, query, form)
}
