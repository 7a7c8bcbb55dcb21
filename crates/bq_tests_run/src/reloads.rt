//! How many modules a session evaluates. No clause of the program says it.

use crate::devices::{make_drip, make_sip};
use crate::options::options;
use bq_label::{Label, Workspace};
use bq_load::Gate;
use bq_run::read_bundle;
use bq_run_session::{SessionOptions, SessionRun, run_queries_watched};
use std::alloc::{AllocError, Global};
use std::random::RandomSource;
use std::sync::Wait;
use std::sync::atomic::{AtomicU64, Ordering};
use std::thread::Threads;

/// Counts the modules that enter.
#[derive(Drop)]
struct Entered {
    count: AtomicU64,
}

impl Gate for Entered {
    fn enter(&self, module: &Label) {
        let _ = module;
        self.count.fetch_add(1, Ordering::SeqCst);
    }
}

/// How many modules a session evaluates; none if the session fails.
fn evaluated<R: Threads + Wait + RandomSource + Sync>(
    rt: &R,
    alloc: Global,
    workspace: Workspace,
    lines: &[u8],
) -> Result<Option<u64>, AllocError> {
    let asked = options(alloc, b"", 1, 1_000_000)?;
    let gate = Entered {
        count: AtomicU64::new(0),
    };
    let mut queries = make_drip(lines, 0);
    let mut writer = make_sip(alloc, 0, false);
    let mut faults = make_sip(alloc, 0, false);
    let by = SessionOptions {
        version: b"1.9.4",
        options: &asked,
    };
    let run = SessionRun { workspace, by };
    let ended = run_queries_watched(
        rt,
        alloc,
        run,
        &mut queries,
        &mut writer,
        &mut faults,
        &gate,
    );
    match ended {
        Ok(_) => Ok(Some(gate.count.load(Ordering::SeqCst))),
        Err(_) => Ok(None),
    }
}

/// The same of the workspace of a bundle.
fn evaluated_in<R: Threads + Wait + RandomSource + Sync>(
    rt: &R,
    alloc: Global,
    lines: &[u8],
) -> Result<Option<u64>, AllocError> {
    match read_bundle(alloc, &mut make_drip(BUNDLE, 0)) {
        Ok(workspace) => evaluated(rt, alloc, workspace, lines),
        Err(_) => Ok(None),
    }
}

/// Six modules: a.bzl is loaded by b.bzl and c/BUILD, b.bzl by the root's BUILD, and the others load nothing.
const BUNDLE: &[u8] = b"=== a.bzl
A = 1
=== b.bzl
load(\"//:a.bzl\", \"A\")
B = A
=== BUILD
load(\"//:b.bzl\", \"B\")
=== c/BUILD
load(\"//:a.bzl\", \"A\")
=== d/BUILD
filegroup(name = \"d\", srcs = glob([\"**/*.cc\"], allow_empty = True))
=== d/x.cc
=== d/e/BUILD
filegroup(name = \"e\")
";

/// Edits and reloads of a session, and how many modules it evaluates: the six of the bundle at first, and then these.
const EDITS: &[(&[u8], u64)] = &[
    (b"=== reload\n", 6),
    // what is there already
    (
        b"=== put 4 a.bzl\nA = \n=== put 6 a.bzl\nA = 1\n\n=== reload\n",
        6,
    ),
    // a BUILD file
    (b"=== put 0 d/e/BUILD\n\n=== reload\n", 7),
    // a .bzl file that one loads, and one that three do
    (b"=== put 5 b.bzl\nB = 2\n=== reload\n", 8),
    (b"=== put 5 a.bzl\nA = 2\n=== reload\n", 10),
    // one that has a fault now, and that has none again
    (b"=== put 1 a.bzl\n)\n=== reload\n", 6),
    (
        b"=== put 1 a.bzl\n)\n=== reload\n=== put 5 a.bzl\nA = 2\n=== reload\n",
        10,
    ),
    // a source file that changes, one that comes, one that goes, one of another package, and two of one package
    (b"=== put 1 d/x.cc\nx\n=== reload\n", 6),
    (b"=== put 0 d/f/y.cc\n\n=== reload\n", 7),
    (b"=== remove d/x.cc\n=== reload\n", 7),
    (b"=== put 0 d/e/y.cc\n\n=== reload\n", 7),
    (b"=== put 0 d/w.cc\n\n=== put 0 d/y.cc\n\n=== reload\n", 7),
    // one that comes beside a BUILD file that changes
    (
        b"=== put 0 c/x.cc\n\n=== put 0 d/e/BUILD\n\n=== reload\n",
        8,
    ),
    // what changes everything: a package, and a .bzl file
    (b"=== put 0 f/BUILD\n\n=== reload\n", 13),
    (b"=== put 0 z.bzl\n\n=== reload\n", 12),
    // a reload that is refused, and the next one
    (b"=== put 0 d\n\n=== reload\n=== remove d\n=== reload\n", 6),
];

/// A reload evaluates what changed.
#[test]
fn evaluate_what_changed(rt: HostRuntime) -> Result<(), AllocError> {
    for (lines, wanted) in EDITS {
        let found = evaluated_in(&rt, rt.alloc(), lines)?;
        assert!(rt; found == Some(*wanted), "{wanted}");
    }
    Ok(())
}
