//! The same workspaces by several workers, against one thread.
ghost use Rattle.std.specs.Prelude.{◌<◌, ◌≤◌};

use super::counts::Counts;
use super::meeting::Meeting;
use super::{LIMIT, Property, Tree, files_have, large, text_has};
use bq_load::{Gate, Loaded, OpenGate, load_one_thread, load_with};
use bq_load_discover::LoadErr;
use bq_load_workers::MAX_WORKERS;
use bq_value_datum::Seed;
use std::alloc::{AllocError, Global};
use std::sync::Wait;
use std::thread::Threads;

/// How many targets the packages have.
fn targets(loaded: &Loaded) -> usize {
    let mut count = 0usize;
    for package in loaded.packages.as_slice() {
        count = count.wrapping_add(package.len());
    }
    count
}

/// Whether both have the same lines, and as many modules and targets.
fn are_same(alloc: Global, a: &Loaded, b: &Loaded) -> Result<bool, AllocError> {
    if a.prints.to_vec(alloc)? != b.prints.to_vec(alloc)? {
        return Ok(false);
    }
    if a.faults.text(alloc)? != b.faults.text(alloc)? {
        return Ok(false);
    }
    Ok(a.modules.len() == b.modules.len() && targets(a) == targets(b))
}

/// What is wanted of what a workspace loads to.
#[derive(Clone, Copy)]
pub enum Wanted<'a> {
    /// The same lines, and as many modules and targets; each module that is evaluated entered once, and no other did.
    Same(&'a Loaded, &'a Counts),
    /// These prints.
    Prints(&'a [u8]),
    /// So many modules, and no faults.
    Modules(usize),
}

fn is_wanted(alloc: Global, loaded: &Loaded, wanted: Wanted<'_>) -> Result<bool, AllocError> {
    match wanted {
        Wanted::Same(other, counts) => {
            if !counts.are_right(loaded) {
                return Ok(false);
            }
            are_same(alloc, other, loaded)
        }
        Wanted::Prints(text) => {
            let prints = loaded.prints.to_vec(alloc)?;
            Ok(prints.as_slice() == text)
        }
        Wanted::Modules(count) => Ok(loaded.modules.len() == count && loaded.faults.is_empty()),
    }
}

/// Whether so many workers load what is wanted.
pub fn load_so<R: Threads + Wait + Sync, G: Gate>(
    rt: &R,
    tree: Tree<'_>,
    workers: usize,
    gate: &G,
    wanted: Wanted<'_>,
) -> Result<bool, LoadErr>
    requires { (0 < workers) × (workers ≤ MAX_WORKERS) }
{
    let loaded = load_with(
        rt,
        tree.alloc,
        tree.workspace,
        tree.schema,
        LIMIT,
        Seed::fixed(),
        workers,
        gate,
    )?;
    let found = is_wanted(tree.alloc, &loaded, wanted);
    drop(loaded);
    Ok(found?)
}

/// Whether so many workers give what one thread gives.
fn gives_the_same<R: Threads + Wait + Sync>(
    rt: &R,
    tree: Tree<'_>,
    wanted: &Loaded,
    workers: usize,
) -> Result<bool, LoadErr>
    requires { (0 < workers) × (workers ≤ MAX_WORKERS) }
{
    let gate = Counts::new(tree.alloc)?;
    load_so(rt, tree, workers, &gate, Wanted::Same(wanted, &gate))
}

fn all_give_the_same<R: Threads + Wait + Sync>(
    rt: &R,
    tree: Tree<'_>,
    wanted: &Loaded,
) -> Result<bool, LoadErr> {
    let one = gives_the_same(rt, tree, wanted, 1)?;
    let two = gives_the_same(rt, tree, wanted, 2)?;
    let eight = gives_the_same(rt, tree, wanted, 8)?;
    let many = gives_the_same(rt, tree, wanted, 64)?;
    Ok(one && two && eight && many)
}

/// Whether a workspace is loaded alike by any number of workers.
pub fn is_loaded_alike<R: Threads + Wait + Sync>(rt: &R, tree: Tree<'_>) -> Result<bool, LoadErr> {
    let wanted = load_one_thread(
        tree.alloc,
        tree.workspace,
        tree.schema,
        LIMIT,
        Seed::fixed(),
    )?;
    if wanted.modules.len() != 401 || wanted.faults.is_empty() {
        return Ok(false);
    }
    all_give_the_same(rt, tree, &wanted)
}

#[test]
fn workers_load_as_one_thread(rt: HostRuntime) -> Result<(), LoadErr> {
    for seed in [1u64, 2] {
        let files = large::files(rt.alloc(), seed)?;
        assert!(rt;
            files_have(&rt, rt.alloc(), files, Property::LoadsAlike)?,
            "seed {seed}"
        );
    }
    Ok(())
}

const TWO: &str = r#"
~x.bzl
a = 1
~y.bzl
b = 2
~BUILD
load(":x.bzl", "a")
load(":y.bzl", "b")
print(a + b)
"#;

const PRINTED: &[u8] = b"//:BUILD: 3\n";

/// Whether the two files are in evaluation at once, and each module enters once.
pub fn two_meet<R: Threads + Wait + Sync>(rt: &R, tree: Tree<'_>) -> Result<bool, LoadErr> {
    let gate = Meeting::new();
    let is_whole = load_so(rt, tree, 2, &gate, Wanted::Prints(PRINTED))?;
    Ok(gate.both_met() && gate.entered_once() && is_whole)
}

/// Whether 64 workers print the same.
pub fn many_print<R: Threads + Wait + Sync>(rt: &R, tree: Tree<'_>) -> Result<bool, LoadErr> {
    load_so(rt, tree, 64, &OpenGate, Wanted::Prints(PRINTED))
}

/// Two workers evaluate two files at once.
#[test]
fn two_workers_meet(rt: HostRuntime) -> Result<(), LoadErr> {
    assert!(rt; text_has(&rt, rt.alloc(), TWO, Property::TwoMeet)?);
    assert!(rt; text_has(&rt, rt.alloc(), TWO, Property::ManyPrint)?);
    Ok(())
}
