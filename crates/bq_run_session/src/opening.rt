//! How a session is opened over a workspace that may have been loaded before.

ghost use Rattle.std.specs.Prelude.{◌≡◌, Ok, IfOk, IfSome};
ghost use Rattle.bq_load_by_name.specs.Results.{LoadsByNames};
ghost use Rattle.bq_load_discover.specs.Schema.{schema_in};
ghost use Rattle.bq_load_reload.specs.Kept.{IsKept, loaded_by};
ghost use Rattle.bq_run.specs.Run.{IsInRange};
ghost use Rattle.bq_run_session.specs.Session.{Opens};
ghost use Rattle.bq_run_session.specs.Steps.{session_by};

use bq_label::Workspace;
use bq_load::{Gate, Sources, Workers};
use bq_load_discover::{LoadErr, schema_of};
use bq_load_reload::{Kept, PreviousLoad, Reloaded, load_again};
use bq_package_schema::Schema;
use bq_run::{Options, RunErr};
use bq_run_report::{Session, session_over};
use bq_value_datum::Seed;
use std::alloc::Global;
use std::random::RandomSource;
use std::sync::Wait;
use std::thread::Threads;

/// A session, and what is kept of its workspace for the next one.
#[derive(Drop)]
pub(crate) struct Opening {
    pub session: Session,
    pub kept: Kept,
}

/// Loads a workspace by as many workers as there are jobs, and notifies a gate of each evaluation. If it was loaded before,
/// what changed is evaluated.
fn load_anew<T: Threads + Wait + RandomSource + Sync, G: Gate>(
    rt: &T,
    alloc: Global,
    before: Option<PreviousLoad<'_>>,
    workspace: &Workspace,
    schema: &Schema,
    options: &Options,
    gate: &G,
) -> Result<Reloaded, LoadErr>
    requires in_range { IsInRange options.now }
    requires schema { schema_in workspace.now ≡ Ok schema.now }
    requires before { IfSome before (λ b. IsKept b.workspace.now options.now.limits.steps b.kept.now) }
    ensures loads { LoadsByNames workspace.now schema.now options.now.limits (loaded_by result) }
    ensures keeps { IfOk result (λ r. IsKept workspace.now options.now.limits.steps r.kept) }
{
    let sources = Sources {
        workspace,
        schema,
        seed: Seed::draw(rt),
    };
    let workers = Workers {
        count: options.jobs as usize,
        gate,
    };
    load_again(rt, alloc, before, &sources, options.limits, &workers)
}

/// Makes the session over a workspace whose schema is read.
fn open_with<T: Threads + Wait + RandomSource + Sync, G: Gate>(
    rt: &T,
    alloc: Global,
    before: Option<PreviousLoad<'_>>,
    workspace: &Workspace,
    schema: &Schema,
    options: &Options,
    gate: &G,
) -> Result<Opening, RunErr>
    requires in_range { IsInRange options.now }
    requires schema { schema_in workspace.now ≡ Ok schema.now }
    requires before { IfSome before (λ b. IsKept b.workspace.now options.now.limits.steps b.kept.now) }
    ensures opens { Opens workspace.now options.now.limits (session_by result) }
    ensures keeps { IfOk result (λ r. IsKept workspace.now options.now.limits.steps r.kept) }
{
    match load_anew(rt, alloc, before, workspace, schema, options, gate) {
        Ok(Reloaded { loaded, kept }) => {
            let session = session_over(rt, alloc, loaded, options.jobs as usize)?;
            Ok(Opening { session, kept })
        }
        Err(LoadErr::TooManyModules) => Err(RunErr::TooManyModules),
        Err(_) => Err(RunErr::Memory),
    }
}

/// Loads a workspace by as many workers as there are jobs, and keeps what it loads for the next time. If it was loaded before,
/// what changed is evaluated. The query of the options isn't looked at. Of the errors E6 takes precedence over E7.
pub(crate) fn open_session<T: Threads + Wait + RandomSource + Sync, G: Gate>(
    rt: &T,
    alloc: Global,
    before: Option<PreviousLoad<'_>>,
    workspace: &Workspace,
    options: &Options,
    gate: &G,
) -> Result<Opening, RunErr>
    requires in_range { IsInRange options.now }
    requires before { IfSome before (λ b. IsKept b.workspace.now options.now.limits.steps b.kept.now) }
    ensures opens { Opens workspace.now options.now.limits (session_by result) }
    ensures keeps { IfOk result (λ r. IsKept workspace.now options.now.limits.steps r.kept) }
{
    match schema_of(alloc, workspace) {
        Ok(schema) => {
            let opening = open_with(rt, alloc, before, workspace, &schema, options, gate);
            drop(schema); // PROOF: one call lets the schema go
            opening
        }
        Err(LoadErr::Schema(line)) => Err(RunErr::Schema(line)),
        Err(_) => Err(RunErr::Memory),
    }
}
