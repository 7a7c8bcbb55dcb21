//! What a session has: a workspace that is loaded, and what became of its files since.

ghost use Rattle.std.specs.Prelude.{◌≡◌, [], IfOk};
ghost use Rattle.bq_label.specs.Workspace.{workspace_within};
ghost use Rattle.bq_run.specs.Run.{IsInRange};
ghost use Rattle.bq_run_commands.specs.Edits.{edited};
ghost use Rattle.bq_load_reload.specs.Kept.{IsKept};
ghost use Rattle.bq_run_session.specs.Steps.{KeepsIts, LoadsEdited};

use crate::opening::open_session;
use bq_label::Workspace;
use bq_load::Gate;
use bq_load_reload::{Kept, PreviousLoad};
use bq_run::{Options, RunErr};
use bq_run_commands::{Edit, edited_files};
use bq_run_report::{Session, drop_aside};
use std::alloc::Global;
use std::mem;
use std::random::RandomSource;
use std::sync::Wait;
use std::thread::{JoinHandle, Threads};

/// What a session has.
#[derive(Drop)]
pub(crate) struct SessionState {
    /// The files as they were when they were loaded last.
    pub workspace: Workspace,
    /// What became of them since.
    pub edits: Vec<Edit>,
    /// What is loaded.
    pub session: Session,
    /// What is kept of the files since they were loaded last.
    pub kept: Kept,
    /// The thread that drops the graph before this one, if there was one.
    pub dropping: Option<JoinHandle<()>>,
}

/// A workspace that is loaded.
#[derive(Drop)]
pub(crate) struct Opened {
    workspace: Workspace,
    session: Session,
    kept: Kept,
}

/// Loads the workspace as it is edited, and notifies a gate of each evaluation. E4 takes precedence over E6, and E6 over E7.
pub(crate) fn load_edited<T: Threads + Wait + RandomSource + Sync, G: Gate>(
    rt: &T,
    alloc: Global,
    options: &Options,
    held: &SessionState,
    gate: &G,
) -> Result<Opened, RunErr>
    requires in_range { IsInRange options.now }
    requires kept { KeepsIts options.now.limits held.now }
    ensures loads { LoadsEdited options.now.limits held.now result }
    ensures keeps { IfOk result (λ o. IsKept o.workspace options.now.limits.steps o.kept) }
{
    let files = edited_files(alloc, &held.workspace, &held.edits)?;
    let Ok(workspace) = Workspace::within(options.limits, files) else {
        return Err(RunErr::Bundle);
    };
    let before = PreviousLoad {
        workspace: &held.workspace,
        kept: &held.kept,
    };
    let opening = open_session(rt, alloc, Some(before), &workspace, options, gate)?;
    Ok(Opened {
        workspace,
        session: opening.session,
        kept: opening.kept,
    })
}

/// Puts a workspace that is loaded in the place of the one before it. One graph at most is being dropped: where reloads come
/// faster than graphs are dropped, this waits for the last one.
pub(crate) fn take_over<T: Threads>(rt: &T, held: &mut SessionState, opened: Opened)
    ensures workspace { held.new.workspace ≡ opened.workspace }
    ensures session { held.new.session ≡ opened.session }
    ensures edits { held.new.edits.items ≡ [] }
    ensures kept { held.new.kept ≡ opened.kept }
{
    let Opened {
        workspace,
        session,
        kept,
    } = opened;
    held.edits.clear();
    held.workspace = workspace;
    held.kept = kept;
    let before = mem::replace(&mut held.session, session);
    if let Some(thread) = held.dropping.take() {
        thread.join(rt);
    }
    held.dropping = drop_aside(rt, before.graph);
}
