//! Load graphs by several workers, against the same by one thread.
ghost use Rattle.std.specs.Prelude.{◌≡◌, ◌<◌, ◌≤◌};
ghost use Rattle.bq_board.specs.Seats.{IsSeatOf};
ghost use Rattle.bq_tests_program.specs.Mixing.{is_faulty, mixed};

use crate::random::random_rows;
use bq_board::{Graph, PlanErr};
use bq_load_order::{Evaluate, Outcome, SharedOutcome, Unwatched, Watch, outcomes_one_thread};
use bq_load_workers::{MAX_WORKERS, WorkerPool, WorkerSeat, outcomes_by_workers};
use std::alloc::{AllocError, Global};
use std::sync::atomic::{AtomicU64, Ordering};
use std::sync::{Arc, Wait};
use std::thread::Threads;

/// A module's value is made of its number and of the values of its loads, in their order. A few modules have a fault of their own, the
/// sum of those values.
#[derive(Drop)]
struct Mixing {
    calls: AtomicU64,
}

impl Evaluate for Mixing {
    type Value = u64;

    type Fault = u64;

    ghost Meaning = { Unit {0} };

    ghost Reason = { Unit {0} };

    ghost see = { λ _. tt };

    ghost see_fault = { λ _. tt };

    ghost means = { λ _ m _. mixed m };

    fn evaluate<W: Watch>(
        &self,
        _alloc: Global,
        m: u32,
        imports: &[Arc<u64, Global>],
        _watch: &W,
    ) -> Result<Result<u64, u64>, AllocError> {
        self.calls.fetch_add(1, Ordering::SeqCst);
        let value = mix(m, imports);
        if is_faulty(m) {
            return Ok(Err(value));
        }
        Ok(Ok(value))
    }
}

/// Whether this module has a fault of its own.
fn is_faulty(m: u32) -> bool
    ensures { result ≡ is_faulty m }
{
    m % 41 == 17
}

fn mix(m: u32, imports: &[Arc<u64, Global>]) -> u64 {
    let mut value = u64::from(m).wrapping_add(1);
    for import in imports {
        value = value.wrapping_mul(31).wrapping_add(**import);
    }
    value
}

fn is_same(a: &SharedOutcome<u64, u64>, b: &SharedOutcome<u64, u64>) -> bool {
    match (a, b) {
        (Outcome::Loaded(x), Outcome::Loaded(y)) => **x == **y,
        (Outcome::Faulty(x), Outcome::Faulty(y)) => **x == **y,
        (Outcome::Cyclic(x), Outcome::Cyclic(y)) => *x == *y,
        (Outcome::TooDeep(x), Outcome::TooDeep(y)) => *x == *y,
        (Outcome::LoadFailed(x), Outcome::LoadFailed(y)) => *x == *y,
        _ => false,
    }
}

fn are_same(a: &[SharedOutcome<u64, u64>], b: &[SharedOutcome<u64, u64>]) -> bool {
    if a.len() != b.len() {
        return false;
    }
    a.iter().zip(b).all(|(x, y)| is_same(x, y))
}

fn new_mixing() -> Mixing {
    Mixing {
        calls: AtomicU64::new(0),
    }
}

/// Whether so many workers give this, with as many evaluations.
fn workers_give<R: Threads + Wait + Sync>(
    rt: &R,
    alloc: Global,
    graph: Graph,
    workers: usize,
    wanted: &[SharedOutcome<u64, u64>],
    calls: u64,
) -> Result<bool, AllocError>
    requires { (0 < workers) × (workers ≤ MAX_WORKERS) }
{
    let (pool, seats) = WorkerPool::open(alloc, new_mixing(), graph, workers)?;
    let found = outcomes_by_workers(rt, alloc, &pool, seats, &Unwatched)?;
    Ok(are_same(wanted, &found) && pool.evaluator().calls.load(Ordering::SeqCst) == calls)
}

/// Whether so many workers give what one thread gives, with as many evaluations.
fn gives_the_same<R: Threads + Wait + Sync>(
    rt: &R,
    alloc: Global,
    rows: Rows,
    workers: usize,
) -> Result<bool, PlanErr> {
    let graph = Graph::new(rows_of(alloc, rows)?)?;
    let one = new_mixing();
    let wanted = outcomes_one_thread(alloc, &one, &graph, &Unwatched)?;
    let calls = one.calls.load(Ordering::SeqCst);
    let workers = workers.clamp(1, MAX_WORKERS);
    Ok(workers_give(rt, alloc, graph, workers, &wanted, calls)?)
}

/// The loads of modules.
#[derive(Clone, Copy)]
enum Rows {
    /// Random loads of this seed, of so many modules.
    Random(u64, u32),
    /// A hundred modules, each of which loads the one before it, and the first one this.
    Chain(u32),
    Nothing,
}

fn chain(alloc: Global, first: u32) -> Result<Vec<Vec<u32>>, AllocError> {
    let mut rows = Vec::new(alloc);
    for m in 0..100u32 {
        let mut row = Vec::new(alloc);
        row.push(if m == 0 { first } else { m - 1 })?;
        rows.push(row)?;
    }
    Ok(rows)
}

fn rows_of(alloc: Global, rows: Rows) -> Result<Vec<Vec<u32>>, AllocError> {
    match rows {
        Rows::Random(seed, count) => random_rows(alloc, seed, count.max(1)),
        Rows::Chain(first) => chain(alloc, first),
        Rows::Nothing => Ok(Vec::new(alloc)),
    }
}

/// 20 random graphs, each by 1, 2 and 8 workers.
#[test]
fn few_workers_load_as_one_thread(rt: HostRuntime) -> Result<(), PlanErr> {
    for seed in 0..20u64 {
        for workers in [1usize, 2, 8] {
            let rows = Rows::Random(seed, 60);
            assert!(rt;
                gives_the_same(&rt, rt.alloc(), rows, workers)?,
                "seed {seed}, {workers} workers"
            );
        }
    }
    Ok(())
}

/// More workers than modules, and a graph without modules.
#[test]
fn many_workers_load_as_one_thread(rt: HostRuntime) -> Result<(), PlanErr> {
    for count in [1u32, 10, 200] {
        let rows = Rows::Random(7, count);
        assert!(rt;
            gives_the_same(&rt, rt.alloc(), rows, 64)?,
            "{count} modules"
        );
    }
    assert!(rt; gives_the_same(&rt, rt.alloc(), Rows::Nothing, 64)?);
    Ok(())
}

/// A chain after a cycle of one module, in which no two modules can be evaluated side by side, and a cycle of all.
#[test]
fn workers_load_chains_and_cycles(rt: HostRuntime) -> Result<(), PlanErr> {
    for first in [0u32, 99] {
        assert!(rt;
            gives_the_same(&rt, rt.alloc(), Rows::Chain(first), 8)?,
            "to {first}"
        );
    }
    Ok(())
}

/// Whether a seat finishes 60 modules.
fn finishes<R: Wait>(
    rt: &R,
    alloc: Global,
    pool: &WorkerPool<Mixing>,
    seat: &mut WorkerSeat<Mixing>,
) -> Result<bool, AllocError>
    requires { IsSeatOf pool.now.board seat.old.place }
{
    let worked = pool.work(rt, alloc, seat, &Unwatched)?;
    Ok(worked.all && worked.modules.len() == 60)
}

/// Whether one seat of a pool of two, whose other seat never works, finishes all modules of a random graph.
fn one_seat_finishes<R: Wait>(rt: &R, alloc: Global) -> Result<bool, PlanErr> {
    let graph = Graph::new(random_rows(alloc, 3, 60)?)?;
    let (pool, mut seats) = WorkerPool::open(alloc, new_mixing(), graph, 2)?;
    let found = finishes(rt, alloc, &pool, &mut seats[0]);
    drop(seats);
    drop(pool);
    Ok(found?)
}

#[test]
fn one_seat_finishes_a_pool(rt: HostRuntime) -> Result<(), PlanErr> {
    assert!(rt; one_seat_finishes(&rt, rt.alloc())?);
    Ok(())
}
