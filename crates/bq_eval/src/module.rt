//! A file that is evaluated.

use bq_resolve_scope::ResolvedFile;
use bq_value::{Frozen, Value};
use std::sync::Arc;

/// A file that is evaluated as the module of a number, with what it loads.
#[derive(Clone, Copy)]
pub struct ResolvedModule<'a> {
    pub number: u32,
    pub file: &'a ResolvedFile,
    /// The frozen modules that it loads.
    pub loaded: &'a [Arc<Frozen>],
    /// A value for each clause of its loads, in the order in which they are written.
    pub imports: &'a [Value],
    /// The files of the modules that these reach, by number.
    pub files: &'a [Option<&'a ResolvedFile>],
    /// Whether the statements of its file may be dropped once they have run, since nobody runs them again.
    pub once: bool,
}
