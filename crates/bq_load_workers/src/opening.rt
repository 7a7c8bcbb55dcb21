//! How a pool begins, and its seats.
ghost use Rattle.std.specs.Prelude.{◌≡◌, ◌+◌, ◌<◌, ◌≤◌, length, All, IfOk, vec_len};
ghost use Rattle.bq_board.specs.Board.{blank};
ghost use Rattle.bq_board.specs.Cut.{IsCut};
ghost use Rattle.bq_board.specs.Depth.{HasDepths};
ghost use Rattle.bq_board.specs.Seats.{IsSeatOf, base_of, view_of};
ghost use Rattle.bq_board.specs.Topological.{MarksCycles};

use crate::idle::Idle;
use crate::import::{Base, Import};
use crate::pool::{WorkerPool, WorkerSeat};
use bq_board::{Board, Graph, MAX_SEATS, Order, Plan, Seat};
use bq_load_order::Evaluate;
use crossbeam_deque::{Stealer, Worker};
use std::alloc::{AllocError, Global};
use std::sync::atomic::{AtomicBool, Ordering};

/// The most workers that may be started.
pub const MAX_WORKERS: usize = 256;

impl<E: Evaluate + Drop> WorkerPool<E> {
    /// Opens a pool of a graph's modules, none of them begun, and its seats, which have done nothing.
    pub fn open(
        alloc: Global,
        evaluator: E,
        graph: Graph,
        seats: usize,
    ) -> Result<(WorkerPool<E>, Vec<WorkerSeat<E>>), AllocError>
        requires { (0 < seats) × (seats ≤ MAX_SEATS) }
        ensures of { IfOk result (λ r. (r.0.evaluator ≡ evaluator) × (r.0.graph ≡ graph)) }
        ensures count { IfOk result (λ r. vec_len r.1 ≡ seats) }
        ensures fresh { IfOk result (λ r. All (λ s. IsSeatOf r.0.board s.place × (view_of s.place ≡ blank (base_of r.0.board) r.0.board.plan)) r.1.items) }
    {
        let order = graph.topological_order(alloc)?;
        let (board, places) = board_of(alloc, &evaluator, &graph, &order, seats)?;
        let stop = AtomicBool::new(false);
        let (seats, stealers) = seats_and_stealers(alloc, &board, &stop, places)?;
        let pool = WorkerPool {
            evaluator,
            graph,
            order,
            board,
            stop,
            idle: Idle::new(),
            stealers,
        };
        Ok((pool, seats))
    }
}

/// Opens a board of a graph's modules, none of them begun, and its seats, which have done nothing.
fn board_of<E: Evaluate>(
    alloc: Global,
    evaluator: &E,
    graph: &Graph,
    order: &Order,
    seats: usize,
) -> Result<(Board<Import<E>>, Vec<Seat<Import<E>>>), AllocError>
    requires seats { (0 < seats) × (seats ≤ MAX_SEATS) }
    requires cyclic { MarksCycles graph.now order.now.pending.items }
    requires depths { HasDepths graph.now order.now.depths.items }
    ensures of { IfOk result (λ r. ((base_of r.0).evaluator.value ≡ evaluator.now) × ((base_of r.0).graph.value ≡ graph.now)) }
    ensures plan { IfOk result (λ r. IsCut graph.now r.0.plan) }
    ensures count { IfOk result (λ r. vec_len r.1 ≡ seats) }
    ensures fresh { IfOk result (λ r. All (λ s. IsSeatOf r.0 s × (view_of s ≡ blank (base_of r.0) r.0.plan)) r.1.items) }
{
    let plan = Plan::cut(alloc, graph, order)?;
    let base = Base::of(evaluator, graph);
    // PROOF: the board is by this base and plan
    Ok(Board::open(alloc, plan, seats, &base)?)
}

/// Makes the list of seat `i` of `seats`: its share of the modules that load nothing.
fn list_of(
    alloc: Global,
    plan: &Plan,
    stop: &AtomicBool,
    i: usize,
    seats: usize,
) -> Result<Worker<u32>, AllocError>
    requires { 0 < seats }
{
    let mut list = Worker::new_fifo(alloc, 64)?;
    for m in 0..plan.modules() {
        if plan.start(m) != plan.start(m + 1) || m % seats != i {
            continue;
        }
        if list.push(m as u32).is_err() {
            stop.store(true, Ordering::SeqCst);
        }
    }
    Ok(list)
}

/// Returns each place with its list, and what steals from these lists.
fn seats_and_stealers<E: Evaluate>(
    alloc: Global,
    board: &Board<Import<E>>,
    stop: &AtomicBool,
    mut places: Vec<Seat<Import<E>>>,
) -> Result<(Vec<WorkerSeat<E>>, Vec<Stealer<u32>>), AllocError>
    requires { All (λ s. IsSeatOf board.now s × (view_of s ≡ blank (base_of board.now) board.now.plan)) places.items }
    ensures count { IfOk result (λ r. vec_len r.0 ≡ vec_len places) }
    ensures fresh { IfOk result (λ r. All (λ s. IsSeatOf board.now s.place × (view_of s.place ≡ blank (base_of board.now) board.now.plan)) r.0.items) }
{
    let count = places.len();
    let mut seats = Vec::new(alloc);
    let mut stealers = Vec::new(alloc);
    for i in 0..count {
        let place = places.pop().unwrap();
        let list = list_of(alloc, board.plan(), stop, i, count)?;
        let stealer = list.stealer()?;
        seats.push(WorkerSeat { place, list })?;
        stealers.push(stealer)?;
    }
    Ok((seats, stealers))
}
