//! Runs by several workers. What a run writes doesn't depend on how many there are, and it calls no device while files
//! are evaluated. So the threads of this process are counted meanwhile.

use crate::runs::{Case, Given, UNFAILING, gives};
use std::alloc::{AllocError, Global};
use std::random::RandomSource;
use std::sync::Wait;
use std::sync::atomic::{AtomicBool, Ordering};
use std::thread::{Threads, join};
use std::{fs, io, thread};

/// Five files that load nothing, whose evaluation takes long. There are too few for threads that read them.
const LONG: &str = r#"=== a.bzl
[i for i in range(2000000) if False]
=== b.bzl
[i for i in range(2000000) if False]
=== c.bzl
[i for i in range(2000000) if False]
=== d.bzl
[i for i in range(2000000) if False]
=== e.bzl
[i for i in range(2000000) if False]
=== BUILD
load(":a.bzl")
load(":b.bzl")
load(":c.bzl")
load(":d.bzl")
load(":e.bzl")
"#;

/// How many threads this process has.
fn threads(rt: &HostRuntime) -> io::Result<u64> {
    let mut count = 0u64;
    for thread in fs::read_dir(rt, "/proc/self/task")? {
        let _thread = thread?;
        count = count.wrapping_add(1);
    }
    Ok(count)
}

/// How many threads are wanted at once, whether they were seen, and whether the run is over.
#[derive(Drop)]
struct Watched {
    wanted: u64,
    seen: AtomicBool,
    over: AtomicBool,
}

/// Counts the threads until they are as many as wanted, or the run is over.
fn watch(rt: &HostRuntime, watched: &Watched) {
    for _ in 0..1_000_000_000u64 {
        if watched.over.load(Ordering::SeqCst) {
            return;
        }
        match threads(rt) {
            Ok(count) if count >= watched.wanted => {
                watched.seen.store(true, Ordering::SeqCst);
                return;
            }
            _ => thread::yield_now(),
        }
    }
}

/// Whether a run by so many workers gives the answer. Says when it is over.
fn watched_run<R: Threads + Wait + RandomSource + Sync>(
    rt: &R,
    alloc: Global,
    jobs: u32,
    watched: &Watched,
) -> Result<bool, AllocError> {
    let case = Case {
        bundle: LONG.as_bytes(),
        query: b"//:BUILD",
        jobs,
        steps: 100_000_000,
    };
    let wanted = Given {
        faults: b"",
        answer: b"//:BUILD\n",
        line: b"",
        status: 0,
        failures: 0,
    };
    let found = gives(rt, alloc, case, UNFAILING, wanted);
    watched.over.store(true, Ordering::SeqCst);
    found
}

/// Whether a run by so many workers evaluates in as many threads at once, beside the one that calls it and the one that
/// watches.
fn are_at_work<R: Threads + Wait + RandomSource + Sync>(
    rt: &HostRuntime,
    threads: &R,
    jobs: u32,
) -> Result<bool, AllocError> {
    let watched = Watched {
        wanted: u64::from(jobs).saturating_add(2),
        seen: AtomicBool::new(false),
        over: AtomicBool::new(false),
    };
    let alloc = rt.alloc();
    let (_, found) = join(
        threads,
        || watch(rt, &watched),
        || watched_run(threads, alloc, jobs, &watched),
    );
    Ok(found? && watched.seen.load(Ordering::SeqCst))
}

#[test]
fn evaluate_at_once(rt: HostRuntime) -> Result<(), AllocError> {
    for jobs in [2u32, 5] {
        assert!(rt; are_at_work(&rt, &rt, jobs)?, "{jobs} jobs");
    }
    Ok(())
}
