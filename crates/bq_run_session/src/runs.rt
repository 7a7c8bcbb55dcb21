//! What is asked of a session, one after another: queries over a workspace that is loaded, edits of its files, reloads.

ghost use Rattle.std.specs.Prelude.{◌≡◌, ◌||◌, ◌+◌, ◌-◌, ◌^◌, ◌<◌, IsErrOf};
ghost use Rattle.bq_run_device.specs.Device.{OneFailed};
ghost use Rattle.bq_run.specs.Run.{IsInRange};
ghost use Rattle.bq_run_session.specs.Outcome.{Answers, DoesAnswer};
ghost use Rattle.bq_run_session.specs.Session.{IsAnswerIn};
ghost use Rattle.bq_run_session.specs.State.{State};
ghost use Rattle.bq_run_session.specs.Steps.{Holds, IsBlock, IsStepIn, KeepsIts, ReloadsIn, WritesOne};

use crate::blocks::{BlockText, refusal, run_end, write_block, write_told};
use crate::ending::{SessionStatus, session_status};
use crate::facts::{facts_of, is_failed};
use crate::held::{SessionState, load_edited, take_over};
use crate::opening::open_session;
use crate::options::{SessionOptions, SessionRun};
use crate::session::ask;
use bq_load::{Gate, OpenGate};
use bq_run::{ByteSink, ByteSource, Options, OutputForm, RunErr, Status, write_rope};
use bq_run_commands::{Item, Request, next_item};
use bq_run_report::{Reply, Session, drop_aside};
use std::alloc::Global;
use std::random::RandomSource;
use std::sync::Wait;
use std::thread::Threads;

/// Answers a query. Returns whether it is refused.
fn answer_query<W: ByteSink>(
    alloc: Global,
    session: &Session,
    query: &[u8],
    form: OutputForm,
    writer: &mut W,
) -> Result<bool, RunErr>
    requires { W.failed writer.old < 2 ^ 64 - 1 }
    ensures does { WritesOne (IsBlock (IsAnswerIn session.now form) query.now) result (W.contents writer.old) (W.contents writer.new) }
    ensures device { IsErrOf result RunErr.Write → W.failed writer.new ≡ W.failed writer.old + 1 }
    ensures quiet { (IsErrOf result RunErr.Write → ⊥) → W.failed writer.new ≡ W.failed writer.old }
{
    let Reply { text, end } = ask(alloc, session, query, form)?;
    let end = run_end(end);
    write_told(alloc, writer, query, BlockText { text, end })
}

/// Loads the workspace as it is edited, and writes its faults. Where it is refused, all stays. Returns whether it is.
#[tactic(auto, using(crate::proofs::States::kept_so))]
fn reload<T: Threads + Wait + RandomSource + Sync, W: ByteSink, G: Gate>(
    rt: &T,
    alloc: Global,
    options: &Options,
    held: &mut SessionState,
    line: &[u8],
    writer: &mut W,
    gate: &G,
) -> Result<bool, RunErr>
    requires in_range { IsInRange options.now }
    requires writer { W.failed writer.old < 2 ^ 64 - 1 }
    requires kept { KeepsIts options.now.limits held.old }
    ensures does { WritesOne (ReloadsIn options.now.limits held.old line.now held.new) result (W.contents writer.old) (W.contents writer.new) }
    ensures kept { KeepsIts options.now.limits held.new }
    ensures device { IsErrOf result RunErr.Write → W.failed writer.new ≡ W.failed writer.old + 1 }
    ensures quiet { (IsErrOf result RunErr.Write → ⊥) → W.failed writer.new ≡ W.failed writer.old }
{
    match load_edited(rt, alloc, options, held, gate) {
        Ok(opened) => {
            take_over(rt, held, opened);
            let end: Result<Status, RunErr> = Ok(held.session.status);
            write_block(alloc, writer, line, &held.session.faults, &end)?;
            Ok(false)
        }
        Err(why) => {
            let told = refusal(alloc, why);
            if is_failed(&told.end) {
                return Err(RunErr::Memory);
            }
            write_told(alloc, writer, line, told)
        }
    }
}

/// Does what an item asks. Returns whether it is refused.
fn take_item<T: Threads + Wait + RandomSource + Sync, W: ByteSink, G: Gate>(
    rt: &T,
    alloc: Global,
    by: SessionOptions<'_>,
    held: &mut SessionState,
    item: Item,
    writer: &mut W,
    gate: &G,
) -> Result<bool, RunErr>
    requires in_range { IsInRange by.options.now }
    requires writer { W.failed writer.old < 2 ^ 64 - 1 }
    requires kept { KeepsIts by.options.now.limits held.old }
    ensures does { WritesOne (IsStepIn by.entry.version.now by.entry.options.now held.old item.line.items item.request held.new) result (W.contents writer.old) (W.contents writer.new) }
    ensures kept { KeepsIts by.entry.options.now.limits held.new }
    ensures device { IsErrOf result RunErr.Write → W.failed writer.new ≡ W.failed writer.old + 1 }
    ensures quiet { (IsErrOf result RunErr.Write → ⊥) → W.failed writer.new ≡ W.failed writer.old }
{
    let Item { line, request } = item;
    match request {
        Request::Nothing => Ok(false),
        Request::Answer => answer_query(alloc, &held.session, &line, by.options.output, writer),
        Request::Edit(edit) => {
            held.edits.push(edit)?;
            Ok(false)
        }
        Request::Reload => reload(rt, alloc, by.options, held, &line, writer, gate),
        Request::Facts(query) => {
            let told = facts_of(rt, alloc, by, &held.workspace, &query)?;
            write_told(alloc, writer, &line, told)
        }
        Request::Bad => write_told(alloc, writer, &line, refusal(alloc, RunErr::Bundle)),
        Request::Cut => Ok(true),
    }
}

fn either(first: bool, second: bool) -> bool
    ensures { result ≡ (first || second) }
{
    first || second
}

/// Does what the reader asks, each item before it reads the next.
fn answer_all<T: Threads + Wait + RandomSource + Sync, Q: ByteSource, W: ByteSink, G: Gate>(
    rt: &T,
    alloc: Global,
    by: SessionOptions<'_>,
    held: &mut SessionState,
    queries: &mut Q,
    writer: &mut W,
    gate: &G,
) -> Result<SessionStatus, RunErr>
    requires in_range { IsInRange by.options.now }
    requires kept { KeepsIts by.options.now.limits held.old }
    requires queries { Q.failed queries.old < 2 ^ 64 - 1 }
    requires writer { W.failed writer.old < 2 ^ 64 - 1 }
    ensures does { (s : State) → Holds by.entry.options.now.limits held.old s → Answers by.entry.version.now by.entry.options.now s (Q.remaining queries.old) result (W.contents writer.old) (W.contents writer.new) }
    ensures read { IsErrOf result RunErr.Read → Q.failed queries.new ≡ Q.failed queries.old + 1 }
    ensures quiet_queries { (IsErrOf result RunErr.Read → ⊥) → Q.failed queries.new ≡ Q.failed queries.old }
    ensures write { IsErrOf result RunErr.Write → W.failed writer.new ≡ W.failed writer.old + 1 }
    ensures quiet { (IsErrOf result RunErr.Write → ⊥) → W.failed writer.new ≡ W.failed writer.old }
{
    let limit = by.options.limits.bundle_bytes;
    let mut left = u64::MAX;
    let mut refused = false;
    while let Some(item) = next_item(alloc, queries, &mut left, limit)? {
        let is_refused = take_item(rt, alloc, by, held, item, writer, gate)?;
        refused = either(is_refused, refused);
    }
    Ok(session_status(held.session.status, refused))
}

/// Does what [`run_queries`] does, and notifies a gate of each evaluation.
pub fn run_queries_watched<
    T: Threads + Wait + RandomSource + Sync,
    Q: ByteSource,
    W: ByteSink,
    F: ByteSink,
    G: Gate,
>(
    rt: &T,
    alloc: Global,
    run: SessionRun<'_>,
    queries: &mut Q,
    writer: &mut W,
    faults_writer: &mut F,
    gate: &G,
) -> Result<SessionStatus, RunErr>
    requires in_range { IsInRange run.by.options.now }
    requires queries { Q.failed queries.old < 2 ^ 64 - 1 }
    requires writer { W.failed writer.old < 2 ^ 64 - 1 }
    requires faults_writer { F.failed faults_writer.old < 2 ^ 64 - 1 }

    // What is written, and how the call ends, are the definition's for what the reader had.
    ensures does { DoesAnswer run.entry.by.version.now run.entry.by.options.now run.entry.workspace (Q.remaining queries.old) result (F.contents faults_writer.old) (F.contents faults_writer.new) (W.contents writer.old) (W.contents writer.new) }

    // E2 and E3 are returned exactly after one failed call of a device, which is not tried again.
    ensures read { IsErrOf result RunErr.Read → Q.failed queries.new ≡ Q.failed queries.old + 1 }
    ensures quiet_queries { (IsErrOf result RunErr.Read → ⊥) → Q.failed queries.new ≡ Q.failed queries.old }
    ensures write { IsErrOf result RunErr.Write → OneFailed (F.failed faults_writer.old) (F.failed faults_writer.new) (W.failed writer.old) (W.failed writer.new) }
    ensures quiet { (IsErrOf result RunErr.Write → ⊥) → (F.failed faults_writer.new ≡ F.failed faults_writer.old) × (W.failed writer.new ≡ W.failed writer.old) }
{
    let SessionRun { workspace, by } = run;
    let opening = open_session(rt, alloc, None, &workspace, by.options, gate)?;
    let mut held = SessionState {
        workspace,
        edits: Vec::new(alloc),
        session: opening.session,
        kept: opening.kept,
        dropping: None,
    };
    write_rope(faults_writer, &held.session.faults)?;
    let answered = answer_all(rt, alloc, by, &mut held, queries, writer, gate);
    let session = held.session;
    drop(drop_aside(rt, session.graph));
    answered
}

/// Loads the workspace, by as many workers as there are jobs, and writes its faults to their writer. Then it does what the
/// reader asks, a line after another, each before it reads the next: for a query the writer gets a block: a header line
/// `=== STATUS LINES QUERY`, and the lines of what a run with that query alone answers, or of its error. Files that are put
/// and removed count from the next reload on, which evaluates what changed, and whose block has its faults. The query of
/// the options isn't looked at.
///
/// E6 and E7 take precedence in this order, and nothing is written with them. What is refused afterwards ends nothing, and
/// a workspace that is refused leaves the one before it. With E1, E2 and E3 what was written is a beginning of the text.
pub fn run_queries<
    T: Threads + Wait + RandomSource + Sync,
    Q: ByteSource,
    W: ByteSink,
    F: ByteSink,
>(
    rt: &T,
    alloc: Global,
    run: SessionRun<'_>,
    queries: &mut Q,
    writer: &mut W,
    faults_writer: &mut F,
) -> Result<SessionStatus, RunErr>
    requires in_range { IsInRange run.by.options.now }
    requires queries { Q.failed queries.old < 2 ^ 64 - 1 }
    requires writer { W.failed writer.old < 2 ^ 64 - 1 }
    requires faults_writer { F.failed faults_writer.old < 2 ^ 64 - 1 }

    // What is written, and how the call ends, are the definition's for what the reader had.
    ensures does { DoesAnswer run.entry.by.version.now run.entry.by.options.now run.entry.workspace (Q.remaining queries.old) result (F.contents faults_writer.old) (F.contents faults_writer.new) (W.contents writer.old) (W.contents writer.new) }

    // E2 and E3 are returned exactly after one failed call of a device, which is not tried again.
    ensures read { IsErrOf result RunErr.Read → Q.failed queries.new ≡ Q.failed queries.old + 1 }
    ensures quiet_queries { (IsErrOf result RunErr.Read → ⊥) → Q.failed queries.new ≡ Q.failed queries.old }
    ensures write { IsErrOf result RunErr.Write → OneFailed (F.failed faults_writer.old) (F.failed faults_writer.new) (W.failed writer.old) (W.failed writer.new) }
    ensures quiet { (IsErrOf result RunErr.Write → ⊥) → (F.failed faults_writer.new ≡ F.failed faults_writer.old) × (W.failed writer.new ≡ W.failed writer.old) }
{
    run_queries_watched(rt, alloc, run, queries, writer, faults_writer, &OpenGate)
}
