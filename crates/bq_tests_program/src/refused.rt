//! Workers of which one is refused memory.
ghost use Rattle.std.specs.Prelude.{◌<◌, ◌≤◌, All, IfOk, Ok};
ghost use Rattle.bq_board.specs.Seats.{IsSeatOf};

use bq_board::{Graph, PlanErr};
use bq_load_order::{Evaluate, Unwatched, Watch};
use bq_load_workers::{MAX_WORKERS, WorkerPool, WorkerSeat, outcomes_by_workers};
use std::alloc::{AllocError, Global};
use std::sync::atomic::{AtomicBool, AtomicU64, Ordering};
use std::sync::{Arc, Wait};
use std::thread;
use std::thread::Threads;

/// How many values there were, and how many of them were dropped.
#[derive(Drop)]
struct Counts {
    made: AtomicU64,
    dropped: AtomicU64,
}

impl Counts {
    /// Whether there were any, and all were dropped.
    fn are_same(&self) -> bool {
        let made = self.made.load(Ordering::SeqCst);
        made > 0 && made == self.dropped.load(Ordering::SeqCst)
    }
}

fn new_counts(alloc: Global) -> Result<Arc<Counts, Global>, AllocError> {
    let none = Counts {
        made: AtomicU64::new(0),
        dropped: AtomicU64::new(0),
    };
    Ok(Arc::new(alloc, none)?)
}

/// A value that counts when it is dropped.
struct Noted {
    counts: Arc<Counts, Global>,
}

impl Drop for Noted {
    fn drop(self) {
        let Noted { counts } = self;
        counts.dropped.fetch_add(1, Ordering::SeqCst);
    }
}

/// Is refused memory when it evaluates one module, the first time alone.
#[derive(Drop)]
struct Refusing {
    refused: AtomicBool,
    counts: Arc<Counts, Global>,
}

impl Evaluate for Refusing {
    type Value = Noted;

    type Fault = u32;

    ghost Meaning = { Unit {0} };

    ghost Reason = { Unit {0} };

    ghost see = { λ _. tt };

    ghost see_fault = { λ _. tt };

    ghost means = { λ _ _ _. Ok tt };

    fn evaluate<W: Watch>(
        &self,
        _alloc: Global,
        m: u32,
        _imports: &[Arc<Noted, Global>],
        _watch: &W,
    ) -> Result<Result<Noted, u32>, AllocError> {
        if m == 30 && !self.refused.swap(true, Ordering::SeqCst) {
            return Err(AllocError);
        }
        let counts = Arc::try_clone(&self.counts)?;
        counts.made.fetch_add(1, Ordering::SeqCst);
        Ok(Ok(Noted { counts }))
    }
}

fn new_refusing(counts: &Arc<Counts, Global>) -> Result<Refusing, AllocError> {
    Ok(Refusing {
        refused: AtomicBool::new(false),
        counts: Arc::try_clone(counts)?,
    })
}

/// The loads of 60 modules, of which the last one loads all others.
fn rows(alloc: Global) -> Result<Vec<Vec<u32>>, AllocError> {
    let mut rows = Vec::new(alloc);
    let mut last = Vec::new(alloc);
    for m in 0..59u32 {
        rows.push(Vec::new(alloc))?;
        last.push(m)?;
    }
    rows.push(last)?;
    Ok(rows)
}

/// A pool of so many seats, at one of which memory is refused.
fn open(
    alloc: Global,
    counts: &Arc<Counts, Global>,
    workers: usize,
) -> Result<(WorkerPool<Refusing>, Vec<WorkerSeat<Refusing>>), PlanErr>
    requires { (0 < workers) × (workers ≤ MAX_WORKERS) }
    ensures { IfOk result (λ r. All (λ s. IsSeatOf r.0.board s.place) r.1.items) }
{
    let graph = Graph::new(rows(alloc)?)?;
    Ok(WorkerPool::open(alloc, new_refusing(counts)?, graph, workers)?)
}

/// Whether so many workers, of which one is refused memory, answer so.
fn are_refused<R: Threads + Wait + Sync>(
    rt: &R,
    alloc: Global,
    workers: usize,
) -> Result<bool, PlanErr>
    requires { (0 < workers) × (workers ≤ MAX_WORKERS) }
{
    let (pool, seats) = open(alloc, &new_counts(alloc)?, workers)?;
    let found = outcomes_by_workers(rt, alloc, &pool, seats, &Unwatched);
    Ok(found.is_err())
}

/// They end, and none of them gives a shorter answer.
#[test]
fn workers_are_refused_memory(rt: HostRuntime) -> Result<(), PlanErr> {
    assert!(rt; are_refused(&rt, rt.alloc(), 1)?);
    assert!(rt; are_refused(&rt, rt.alloc(), 2)?);
    assert!(rt; are_refused(&rt, rt.alloc(), 8)?);
    Ok(())
}

/// How many seats were refused memory, and how many were stopped before all modules were finished.
#[derive(Drop)]
struct Ends {
    refused: AtomicU64,
    stopped: AtomicU64,
}

/// Works at a seat, and counts how that ends.
fn work_at<R: Wait>(
    rt: &R,
    alloc: Global,
    pool: &WorkerPool<Refusing>,
    seat: &mut WorkerSeat<Refusing>,
    ends: &Ends,
)
    requires { IsSeatOf pool.now.board seat.old.place }
    ensures { IsSeatOf pool.now.board seat.new.place }
{
    match pool.work(rt, alloc, seat, &Unwatched) {
        Err(_) => {
            ends.refused.fetch_add(1, Ordering::SeqCst);
        }
        Ok(worked) => {
            if !worked.all {
                ends.stopped.fetch_add(1, Ordering::SeqCst);
            }
        }
    }
}

/// Works at all seats, in two threads.
fn work_at_all<R: Threads + Wait + Sync>(
    rt: &R,
    alloc: Global,
    pool: &WorkerPool<Refusing>,
    seats: &mut [WorkerSeat<Refusing>],
    ends: &Ends,
)
    requires { All (λ s. IsSeatOf pool.now.board s.place) seats.old }
    ensures { All (λ s. IsSeatOf pool.now.board s.place) seats.new }
{
    thread::for_each_mut(
        rt,
        seats,
        2,
        &|_, seat| work_at(rt, alloc, pool, seat, ends),
    );
}

/// Works at all seats of a pool, and closes it with what was posted and nobody fetched.
fn work_and_close<R: Threads + Wait + Sync>(
    rt: &R,
    alloc: Global,
    pool: WorkerPool<Refusing>,
    mut seats: Vec<WorkerSeat<Refusing>>,
    ends: &Ends,
)
    requires { All (λ s. IsSeatOf pool.board s.place) seats.items }
{
    work_at_all(rt, alloc, &pool, &mut seats, ends);
    match seats.pop() {
        Some(seat) => pool.close(seat),
        None => {}
    }
}

/// Of two seats in threads of the test's own, the one that is refused memory says so, the other is stopped, and a closed
/// pool keeps nothing.
#[test]
fn one_seat_of_two_is_refused_memory(rt: HostRuntime) -> Result<(), PlanErr> {
    let counts = new_counts(rt.alloc())?;
    let ends = Ends {
        refused: AtomicU64::new(0),
        stopped: AtomicU64::new(0),
    };
    let (pool, seats) = open(rt.alloc(), &counts, 2)?;
    work_and_close(&rt, rt.alloc(), pool, seats, &ends);
    assert!(rt; ends.refused.load(Ordering::SeqCst) == 1);
    assert!(rt; ends.stopped.load(Ordering::SeqCst) == 1);
    assert!(rt; counts.are_same(), "values are left");
    Ok(())
}
