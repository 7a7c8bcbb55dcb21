//! What a run is asked to do.

use bq_base::Limits;
use bq_label::Workspace;
use bq_load_workers::MAX_WORKERS;
use bq_query::OutputForm;

/// The most jobs that a run may have.
pub const MAX_JOBS: u32 = MAX_WORKERS as u32;

/// What a run is asked to do. The ranges are a condition of the calls that take it.
#[derive(Drop)]
pub struct Options {
    /// The query's text.
    pub query: Vec<u8>,
    /// How many workers load modules, 1 to `MAX_JOBS`.
    pub jobs: u32,
    /// What is printed of a target.
    pub output: OutputForm,
    /// How large the workspace may be, and how many steps a module may take, 1 to 1,000,000,000.
    pub limits: Limits,
}

/// A workspace, and what a run over it is asked to do.
#[derive(Clone, Copy)]
pub struct WorkspaceRun<'a> {
    pub workspace: &'a Workspace,
    pub options: &'a Options,
}
