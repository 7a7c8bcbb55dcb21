//! Pools of the modules of a small workspace, by threads and by single seats. A module is evaluated once all that it
//! loads is there, whatever others are still in evaluation.
ghost use Rattle.std.specs.Prelude.{◌≡◌, ◌<◌, ◌≤◌, All, IfOk, vec_len};
ghost use Rattle.bq_board.specs.Seats.{IsSeatOf};
ghost use Rattle.bq_load_discover.specs.LoadGraph.{IsReadGraph, inputs_of};

use super::by_workers::{Wanted, load_so};
use super::holding::Holding;
use super::workplace::{Returned, work_at_all};
use super::{LIMIT, Property, Tree, text_has};
use bq_board::MAX_SEATS;
use bq_load::{Evaluated, OpenGate, Pool, PoolSeat};
use bq_load_discover::{LoadErr, LoadGraph, discover};
use bq_value_datum::Seed;
use std::sync::{Arc, Wait};
use std::thread::Threads;

const FOUR: &str = r#"
~a.bzl
a = 1
~b.bzl
b = 2
~c.bzl
load(":a.bzl", "a")
~BUILD
load(":b.bzl")
load(":c.bzl")
"#;

/// `BUILD` has a fault of its first load, so it doesn't fetch what `b.bzl` posted.
const UNFETCHED: &str = r#"
~a.bzl
a = 1 // 0
~b.bzl
b = 2
~BUILD
load(":a.bzl", "a")
load(":b.bzl", "b")
"#;

/// Whether `c.bzl` enters while `b.bzl` is held, by two workers.
pub fn workers_meet<R: Threads + Wait + Sync>(rt: &R, tree: Tree<'_>) -> Result<bool, LoadErr> {
    let gate = Holding::new();
    let is_whole = load_so(rt, tree, 2, &gate, Wanted::Modules(4))?;
    Ok(gate.both_met() && is_whole)
}

#[test]
fn nobody_waits_for_what_it_does_not_load(rt: HostRuntime) -> Result<(), LoadErr> {
    assert!(rt; text_has(&rt, rt.alloc(), FOUR, Property::WorkersMeet)?);
    Ok(())
}

/// Opens a pool of the tree's load graph.
fn open<'a>(
    tree: Tree<'a>,
    graph: &'a LoadGraph,
    seats: usize,
) -> Result<(Pool<'a>, Vec<PoolSeat<'a>>), LoadErr>
    requires graph { IsReadGraph (inputs_of tree.workspace.now tree.schema.now) graph.now }
    requires seats { (0 < seats) × (seats ≤ MAX_SEATS) }
    ensures count { IfOk result (λ r. vec_len r.1 ≡ seats) }
    ensures seats { IfOk result (λ r. All (λ s. IsSeatOf r.0.shared.board s.place) r.1.items) }
{
    Ok(Pool::open(
        tree.alloc,
        tree.workspace,
        tree.schema,
        LIMIT,
        Seed::fixed(),
        graph,
        seats,
    )?)
}

/// Whether `c.bzl` enters while `b.bzl` is held, by two threads in one pool, and they return all modules, each once.
pub fn threads_meet<R: Threads + Wait + Sync>(rt: &R, tree: Tree<'_>) -> Result<bool, LoadErr> {
    let gate = Holding::new();
    let returned = Returned::new(tree.alloc, 4)?;
    let graph = discover(tree.alloc, tree.workspace, tree.schema)?;
    let (pool, mut seats) = open(tree, &graph, 2)?;
    work_at_all(rt, tree.alloc, &pool, &mut seats, &gate, &returned);
    Ok(gate.both_met() && returned.is_whole(2))
}

#[test]
fn two_threads_share_a_pool(rt: HostRuntime) -> Result<(), LoadErr> {
    assert!(rt; text_has(&rt, rt.alloc(), FOUR, Property::ThreadsMeet)?);
    Ok(())
}

/// How many own what `b.bzl` evaluated to.
fn owners(modules: &[Evaluated]) -> usize {
    let mut owners = 0;
    for one in modules {
        if one.outcome.label.name().as_slice() != b"b.bzl".as_slice() {
            continue;
        }
        match &one.outcome.result {
            Ok(loaded) => owners = Arc::strong_count(loaded),
            Err(_) => {}
        }
    }
    owners
}

/// What one seat of a pool returned, while the others never worked, and how many owned what `b.bzl` evaluated to.
#[derive(Clone, Copy)]
struct Seen {
    all: bool,
    modules: usize,
    before_close: usize,
    after_close: usize,
}

/// Works at one of so many seats, and closes the pool.
fn work_alone<R: Wait>(rt: &R, tree: Tree<'_>, seats: usize) -> Result<Seen, LoadErr>
    requires { (0 < seats) × (seats ≤ MAX_SEATS) }
{
    let graph = discover(tree.alloc, tree.workspace, tree.schema)?;
    let (pool, mut seats) = open(tree, &graph, seats)?;
    let mut seat = seats.pop().unwrap();
    let worked = pool.work(rt, tree.alloc, &mut seat, &OpenGate)?;
    let before_close = owners(worked.modules.as_slice());
    pool.close(seat);
    Ok(Seen {
        all: worked.all,
        modules: worked.modules.len(),
        before_close,
        after_close: owners(worked.modules.as_slice()),
    })
}

/// Whether one of so many seats returns all modules.
pub fn one_returns_all<R: Wait>(rt: &R, tree: Tree<'_>, seats: usize) -> Result<bool, LoadErr>
    requires { (0 < seats) × (seats ≤ MAX_SEATS) }
{
    let found = work_alone(rt, tree, seats)?;
    Ok(found.all && found.modules == 4)
}

#[test]
fn one_seat_returns_all(rt: HostRuntime) -> Result<(), LoadErr> {
    assert!(rt; text_has(&rt, rt.alloc(), FOUR, Property::OneOfOne)?);
    assert!(rt; text_has(&rt, rt.alloc(), FOUR, Property::OneOfTwo)?);
    assert!(rt; text_has(&rt, rt.alloc(), FOUR, Property::OneOfMost)?);
    Ok(())
}

/// Whether a pool lets go of what nobody fetched when it is closed, and not before.
pub fn lets_go<R: Wait>(rt: &R, tree: Tree<'_>) -> Result<bool, LoadErr> {
    let found = work_alone(rt, tree, 1)?;
    Ok(found.before_close == 2 && found.after_close == 1)
}

#[test]
fn a_closed_pool_lets_go_of_what_nobody_fetched(rt: HostRuntime) -> Result<(), LoadErr> {
    assert!(rt; text_has(&rt, rt.alloc(), UNFETCHED, Property::LetsGo)?);
    Ok(())
}
