//! A module with its outcome.

use bq_label::Label;
use bq_load_module::{FailedModule, LoadedModule};
use std::alloc::Global;
use std::sync::Arc;

/// A module with its outcome.
#[derive(Drop)]
pub struct ModuleOutcome {
    pub label: Label,
    pub result: Result<Arc<LoadedModule, Global>, FailedModule>,
}
