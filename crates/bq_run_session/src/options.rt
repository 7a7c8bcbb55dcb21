//! What a session is asked to do.

use bq_label::Workspace;
use bq_run::Options;

/// By what a session answers.
#[derive(Clone, Copy)]
pub struct SessionOptions<'a> {
    /// The version of the program, which facts have in their first line.
    pub version: &'a [u8],
    /// The query of these options isn't looked at.
    pub options: &'a Options,
}

/// A workspace, and what a session over it is asked to do.
#[derive(Drop)]
pub struct SessionRun<'a> {
    pub workspace: Workspace,
    pub by: SessionOptions<'a>,
}
