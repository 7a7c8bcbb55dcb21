//! Workers in threads of their own, each with the stack that evaluation may take.
ghost use Rattle.std.specs.Prelude.{◌≡◌, length, All, IfOk, IfSome};
ghost use Rattle.bq_board.specs.Seats.{IsSeatOf};
ghost use Rattle.bq_load_order.specs.Outcome.{outcome};
ghost use Rattle.bq_load_workers.specs.Brought.{IsAnswer};

use crate::import::Base;
use crate::pool::{WorkDone, WorkerPool, WorkerSeat};
use bq_load_order::{Evaluate, Watch};
use core::thread::Stack;
use std::alloc::{AllocError, Global};
use std::sync::Wait;
use std::thread;
use std::thread::{Promise, PromisedHandle, Scope, Threads};

/// The stack of a thread in which modules are evaluated: twice what the deepest evaluation takes. That is one in which
/// each of 100 active functions calls the next from inside 64 brackets and indents; of such sources (`bench/stack` runs
/// them) those with comprehensions took most, 32.5 MB.
pub const EVALUATION_STACK: usize = 64 << 20;

/// What a worker brought, unless it ran out of memory.
pub type Answer<V, F> = Result<WorkDone<V, F>, AllocError>;

impl<E: Evaluate> Promise<Answer<E::Value, E::Fault>> for Base<E> {
    ghost kept_by = { λ base r. IsAnswer E.see E.see_fault (outcome (E.means base.evaluator.value) base.graph.value) (length base.graph.value) r };
}

/// Returns what the seats bring, each in a thread of its own. A seat for which there is no thread is left out.
pub(crate) fn brought<R: Threads + Wait + Sync, E: Evaluate, W: Watch>(
    rt: &R,
    alloc: Global,
    pool: &WorkerPool<E>,
    seats: Vec<WorkerSeat<E>>,
    watch: &W,
) -> Result<Vec<Answer<E::Value, E::Fault>>, AllocError>
    requires seats { All (λ s. IsSeatOf pool.now.board s.place) seats.items }
    ensures { IfOk result (λ v. All (λ r. IsAnswer E.see E.see_fault (outcome (E.means pool.now.evaluator) pool.now.graph) (length pool.now.graph) r) v.items) }
{
    thread::scope(
        thread::scope_env(),
        rt,
        |scope| -> Result<Vec<Answer<E::Value, E::Fault>>, AllocError>
            requires { All (λ s. IsSeatOf pool.now.board s.place) seats.items }
            ensures { IfOk result (λ v. All (λ r. IsAnswer E.see E.see_fault (outcome (E.means pool.entry.now.evaluator) pool.entry.now.graph) (length pool.entry.now.graph) r) v.items) }
        {
            let workers = started(scope, rt, alloc, pool, seats, watch)?;
            joined(rt, alloc, pool, workers)
        },
    )
}

/// Starts a thread for each seat for which there is one.
fn started<'s, X, R: Threads + Wait + Sync, E: Evaluate, W: Watch>(
    scope: &Scope<'s, X>,
    rt: &'s R,
    alloc: Global,
    pool: &'s WorkerPool<E>,
    seats: Vec<WorkerSeat<E>>,
    watch: &'s W,
) -> Result<Vec<PromisedHandle<Answer<E::Value, E::Fault>, Base<E>>>, AllocError>
    requires seats { All (λ s. IsSeatOf pool.now.board s.place) seats.items }
    ensures { IfOk result (λ hs. All (λ h. (h.promise.evaluator.value ≡ pool.now.evaluator) × (h.promise.graph.value ≡ pool.now.graph)) hs.items) }
{
    let mut workers = Vec::new(alloc);
    for seat in seats {
        match start(scope, rt, alloc, pool, seat, watch) {
            Some(worker) => workers.push(worker)?,
            None => {}
        }
    }
    Ok(workers)
}

/// Starts a thread for a seat, if there is one.
fn start<'s, X, R: Threads + Wait + Sync, E: Evaluate, W: Watch>(
    scope: &Scope<'s, X>,
    rt: &'s R,
    alloc: Global,
    pool: &'s WorkerPool<E>,
    seat: WorkerSeat<E>,
    watch: &'s W,
) -> Option<PromisedHandle<Answer<E::Value, E::Fault>, Base<E>>>
    requires seat { IsSeatOf pool.now.board seat.place }
    ensures { IfSome result (λ h. (h.promise.evaluator.value ≡ pool.now.evaluator) × (h.promise.graph.value ≡ pool.now.graph)) }
{
    let work = move || -> Answer<E::Value, E::Fault>
        requires { IsSeatOf pool.now.board seat.place }
        ensures { IsAnswer E.see E.see_fault (outcome (E.means pool.entry.now.evaluator) pool.entry.now.graph) (length pool.entry.now.graph) result }
    {
        let mut seat = seat;
        pool.work(rt, alloc, &mut seat, watch)
    };
    let base = Base::of(&pool.evaluator, &pool.graph);
    match Stack::new()
        .stack_size(EVALUATION_STACK)
        .spawn_scoped_with(scope, base, work)
    {
        Ok(worker) => Some(worker),
        Err(_) => None,
    }
}

/// Returns what the threads bring: an answer of each of them.
fn joined<R: Threads, E: Evaluate>(
    rt: &R,
    alloc: Global,
    pool: &WorkerPool<E>,
    workers: Vec<PromisedHandle<Answer<E::Value, E::Fault>, Base<E>>>,
) -> Result<Vec<Answer<E::Value, E::Fault>>, AllocError>
    requires promises { All (λ h. (h.promise.evaluator.value ≡ pool.now.evaluator) × (h.promise.graph.value ≡ pool.now.graph)) workers.items }
    ensures count { IfOk result (λ v. length v.items ≡ length workers.items) }
    ensures answers { IfOk result (λ v. All (λ r. IsAnswer E.see E.see_fault (outcome (E.means pool.now.evaluator) pool.now.graph) (length pool.now.graph) r) v.items) }
{
    let mut answers = Vec::new(alloc);
    for worker in workers {
        answers.push(worker.join(rt))?;
    }
    Ok(answers)
}
