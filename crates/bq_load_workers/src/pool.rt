//! The pool: a board of a load graph's modules.
ghost use Rattle.std.specs.Prelude.{◌≡◌};
ghost use Rattle.bq_board.specs.Cut.{IsCut};
ghost use Rattle.bq_board.specs.Depth.{HasDepths};
ghost use Rattle.bq_board.specs.Seats.{base_of};
ghost use Rattle.bq_board.specs.Topological.{MarksCycles};
ghost use Rattle.bq_load_order.specs.Slots.{IsLoadOrder};

use crate::idle::Idle;
use crate::import::Import;
use bq_board::{Board, Graph, Order, Seat};
use bq_load_order::{Evaluate, SharedOutcome};
use crossbeam_deque::{Stealer, Worker};
use std::sync::atomic::AtomicBool;

/// The modules of a load graph, to be evaluated by several workers.
#[derive(Drop)]
pub struct WorkerPool<E: Evaluate> {
    pub(crate) evaluator: E,
    pub(crate) graph: Graph,
    pub(crate) order: Order,
    pub(crate) board: Board<Import<E>>,
    /// A worker ran out of memory, for itself or for a list of candidates: all workers stop.
    pub(crate) stop: AtomicBool,
    /// Where workers sleep that find nothing to try.
    pub(crate) idle: Idle,
    pub(crate) stealers: Vec<Stealer<u32>>,
    ghost by: { (base_of board).evaluator.value ≡ evaluator },
    ghost of: { (base_of board).graph.value ≡ graph },
    ghost plan: { IsCut graph board.plan },
    ghost sorted: { IsLoadOrder graph order.modules.items },
    ghost cyclic: { MarksCycles graph order.pending.items },
    ghost depths: { HasDepths graph order.depths.items },
}

impl<E: Evaluate> WorkerPool<E> {
    /// Returns what evaluates the modules.
    pub fn evaluator(&self) -> &E
        ensures { result.now ≡ self.now.evaluator }
    {
        &self.evaluator
    }

    /// Returns which module loads which.
    pub fn graph(&self) -> &Graph
        ensures { result.now ≡ self.now.graph }
    {
        &self.graph
    }
}

/// The right to work in one pool, and this worker's list of modules to try.
#[derive(Drop)]
pub struct WorkerSeat<E: Evaluate> {
    pub(crate) place: Seat<Import<E>>,
    pub(crate) list: Worker<u32>,
}

/// A module, and its outcome.
#[derive(Drop)]
pub struct FinishedModule<V, F> {
    pub number: u32,
    pub outcome: SharedOutcome<V, F>,
}

/// What a worker brought, and whether it found all modules finished.
#[derive(Drop)]
pub struct WorkDone<V, F> {
    pub all: bool,
    pub modules: Vec<FinishedModule<V, F>>,
}
