//! The schema of a workspace.

ghost use Rattle.bq_base.specs.Gives.{Gives};
ghost use Rattle.bq_base.specs.declared.fault.SourceErr.TheVariants.{Bad};
ghost use Rattle.bq_load_front.specs.Resolved.{itself};
ghost use Rattle.bq_load_discover.specs.Schema.{declared_in, schema_in};
ghost use Rattle.bq_load_discover.specs.declared.load_err.LoadErr.TheVariants.{Schema as BadSchema};

use crate::load_err::LoadErr;
use bq_base::{FaultKind, SourceErr};
use bq_label::Workspace;
use bq_package_schema::{Schema, read_schema};
use std::alloc::Global;

/// The file at the root that has the schema.
const SCHEMA_FILE: &[u8] = b"rules.schema";

/// Returns what the file of the schema declares, or its fault; the standard schema if there is no such file.
#[tactic(auto, unfolding(crate::specs::Schema::declared_in))]
fn declared_in(alloc: Global, workspace: &Workspace) -> Result<Schema, SourceErr<FaultKind>>
    ensures { Gives itself Bad result (declared_in workspace.now) }
{
    match workspace.file(SCHEMA_FILE) {
        Some(file) => read_schema(alloc, file.content.as_slice()),
        None => Schema::standard(alloc),
    }
}

/// Returns the schema of the workspace: that of its file `rules.schema`, or the standard one if there is none.
#[tactic(auto, unfolding(crate::specs::Schema::schema_in))]
pub fn schema_of(alloc: Global, workspace: &Workspace) -> Result<Schema, LoadErr>
    ensures { Gives itself BadSchema result (schema_in workspace.now) }
{
    match declared_in(alloc, workspace) {
        Ok(schema) => Ok(schema),
        Err(SourceErr::Bad(fault)) => Err(LoadErr::Schema(fault.line)),
        Err(SourceErr::Memory) => Err(LoadErr::Memory),
    }
}
