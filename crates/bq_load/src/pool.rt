//! A pool of the modules of a load graph, for threads of the caller's own.

ghost use Rattle.std.specs.Prelude.{◌≡◌, length};

use crate::loading::Loading;
use crate::outcome::ModuleOutcome;
use bq_package_target::Package;

/// The modules of a load graph, to be evaluated by the threads that work in it, each at a seat of its own. Threads may share it.
#[derive(Drop)]
pub struct Pool<'a> {
    pub(crate) shared: bq_load_workers::WorkerPool<Loading<'a>>,
    ghost wide: { length shared.graph ≡ length shared.evaluator.modules.now },
}

/// The right to work in one pool. It may go to another thread.
pub type PoolSeat<'a> = bq_load_workers::WorkerSeat<Loading<'a>>;

/// A module that a thread finished.
#[derive(Drop)]
pub struct Evaluated {
    /// Its number: its place among the labels of the load graph.
    pub module: u32,
    pub outcome: ModuleOutcome,
    /// For a BUILD file, its package: one without targets if it failed.
    pub package: Option<Package>,
}

/// What a thread finished in one call, and whether it found all modules of the pool finished.
#[derive(Drop)]
pub struct Worked {
    pub all: bool,
    pub modules: Vec<Evaluated>,
}
