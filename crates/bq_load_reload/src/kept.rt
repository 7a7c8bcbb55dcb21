//! What is kept of a workspace that was loaded.

use bq_base::Limits;
use bq_base_takeable::Takeable;
use bq_board::Graph;
use bq_label::{BuildFile, Label, Workspace};
use bq_load::{FailedModule, Loaded, LoadedModule};
use bq_load_discover::LoadGraph;
use bq_load_order::SharedOutcome;

/// The outcome of a module, which all modules share that load it.
pub type KeptOutcome = SharedOutcome<LoadedModule, FailedModule>;

/// What is kept of a workspace that was loaded: its load graph, which the next reload takes out, the limits by which it was
/// found, and the outcome of each module. Of files whose evaluation has ended the statements are dropped.
#[derive(Drop)]
pub struct Kept {
    pub(crate) graph: Takeable<LoadGraph>,
    pub(crate) limits: Limits,
    pub(crate) outcomes: Vec<KeptOutcome>,
}

/// The files of a workspace as they were when it was loaded, and what was kept of it then.
#[derive(Clone, Copy)]
pub struct PreviousLoad<'a> {
    pub workspace: &'a Workspace,
    pub kept: &'a Kept,
}

/// The outcomes of modules before a change: the files as they were, the packages of which a file came or went, the labels of the modules in
/// order, for each the numbers of those that it loads, and its outcome.
#[derive(Clone, Copy)]
pub(crate) struct Past<'a> {
    pub workspace: &'a Workspace,
    pub touched: &'a [BuildFile],
    pub labels: &'a [Label],
    pub edges: &'a Graph,
    pub outcomes: &'a [KeptOutcome],
}

/// What a workspace loads to, and what is kept of it.
#[derive(Drop)]
pub struct Reloaded {
    pub loaded: Loaded,
    pub kept: Kept,
}
