//! Sessions of queries and facts, over devices that fail, and sessions that answer in turn. What they write when no device fails is in the
//! rows in `tests/rows`.

ghost use Rattle.std.specs.Prelude.{◌≡◌};

use crate::devices::{make_drip, make_sip};
use crate::options::options;
use bq_label::Workspace;
use bq_run::{Counted, Metered, RunErr, WorkspaceRun, read_bundle, status_code};
use bq_run_facts::run_facts;
use bq_run_session::{SessionOptions, SessionRun, SessionStatus, run_queries, session_code};
use std::alloc::{AllocError, Global};
use std::cell::Cell;
use std::io;
use std::io::{Read, Write};
use std::random::RandomSource;
use std::sync::Wait;
use std::thread::Threads;

/// What is said of a workspace that has no faults. A function that starts threads is no method of a trait, so this stands for subjects.
#[derive(Clone, Copy)]
pub enum Property {
    /// Of these lines of queries, over a reader and a writer that fail at these calls, this is written.
    Session(&'static [u8], u64, u64, &'static [u8]),
    /// Of its facts, over a writer that fails at this call, this is written.
    Facts(u64, &'static [u8]),
    /// When each line of a session is asked for, and then the end, so much is written.
    Turns(&'static [u8], &'static [usize]),
}

fn code_of(ended: Result<SessionStatus, RunErr>) -> u8 {
    match ended {
        Ok(status) => session_code(status),
        Err(error) => status_code(&Err(error)),
    }
}

/// Whether a session in which one call fails writes this.
fn is_session<R: Threads + Wait + RandomSource + Sync>(
    rt: &R,
    alloc: Global,
    workspace: Workspace,
    (lines, reader, writer): (&[u8], u64, u64),
    wanted: &[u8],
) -> Result<bool, AllocError> {
    let asked = options(alloc, b"", 4, 1_000_000)?;
    let mut queries = make_drip(lines, reader);
    let mut writer = make_sip(alloc, writer, false);
    let mut faults = make_sip(alloc, 0, false);
    let by = SessionOptions {
        version: b"1.9.4",
        options: &asked,
    };
    let run = SessionRun { workspace, by };
    let ended = run_queries(rt, alloc, run, &mut queries, &mut writer, &mut faults);
    let failures = queries.failures().wrapping_add(writer.failures());
    let is_written = faults.device.held.is_empty() && writer.device.held.as_slice() == wanted;
    Ok(code_of(ended) == 5 && failures == 1 && is_written)
}

/// Whether of the facts this is written by a writer of which one call fails.
fn are_facts<R: Threads + Wait + RandomSource + Sync>(
    rt: &R,
    alloc: Global,
    workspace: &Workspace,
    writer: u64,
    wanted: &[u8],
) -> Result<bool, AllocError> {
    let asked = options(alloc, b"", 4, 1_000_000)?;
    let mut writer = make_sip(alloc, writer, false);
    let mut faults = make_sip(alloc, 0, false);
    let over = WorkspaceRun {
        workspace,
        options: &asked,
    };
    let ended = run_facts(rt, alloc, b"1.9.4", &over, None, &mut writer, &mut faults);
    let is_written = faults.device.held.is_empty() && writer.device.held.as_slice() == wanted;
    Ok(status_code(&ended) == 5 && writer.failures() == 1 && is_written)
}

/// A reader of lines, one byte a call. Where a line begins it notes how much was written by then.
#[derive(Drop)]
struct Asking<'a> {
    left: &'a [u8],
    is_inside: bool,
    written: &'a Cell<usize>,
    seen: Vec<usize>,
}

impl Read for Asking<'_> {
    fn read(&mut self, buf: &mut [u8]) -> io::Result<usize> {
        if !self.is_inside {
            self.seen.push(self.written.get())?;
        }
        let Some((first, rest)) = self.left.split_first() else {
            return Ok(0);
        };
        if buf.is_empty() {
            return Ok(0);
        }
        buf[0] = *first;
        self.left = rest;
        self.is_inside = *first != b'\n';
        Ok(1)
    }
}

/// A writer that counts what it gets.
#[derive(Drop)]
struct Counting<'a> {
    written: &'a Cell<usize>,
}

impl Write for Counting<'_> {
    fn write(&mut self, buf: &[u8]) -> io::Result<usize> {
        self.written.set(self.written.get().wrapping_add(buf.len()));
        Ok(buf.len())
    }

    fn flush(&mut self) -> io::Result<()> {
        Ok(())
    }
}

fn make_asking<'a>(alloc: Global, left: &'a [u8], written: &'a Cell<usize>) -> Metered<Asking<'a>>
    ensures { result.failures ≡ 0 }
{
    Metered::new(Asking {
        left,
        is_inside: false,
        written,
        seen: Vec::new(alloc),
    })
}

fn make_counting(written: &Cell<usize>) -> Metered<Counting<'_>>
    ensures { result.failures ≡ 0 }
{
    Metered::new(Counting { written })
}

/// Whether so much is written when each line, and then the end, is asked for.
fn are_turns<R: Threads + Wait + RandomSource + Sync>(
    rt: &R,
    alloc: Global,
    workspace: Workspace,
    lines: &[u8],
    wanted: &[usize],
) -> Result<bool, AllocError> {
    let written = Cell::new(0);
    let asked = options(alloc, b"", 1, 1_000_000)?;
    let mut queries = make_asking(alloc, lines, &written);
    let mut writer = make_counting(&written);
    let mut faults = make_sip(alloc, 0, false);
    let by = SessionOptions {
        version: b"1.9.4",
        options: &asked,
    };
    let run = SessionRun { workspace, by };
    let _ = run_queries(rt, alloc, run, &mut queries, &mut writer, &mut faults);
    Ok(queries.device.seen.as_slice() == wanted)
}

fn holds<R: Threads + Wait + RandomSource + Sync>(
    rt: &R,
    alloc: Global,
    workspace: Workspace,
    property: Property,
) -> Result<bool, AllocError> {
    match property {
        Property::Session(lines, reader, writer, wanted) => {
            is_session(rt, alloc, workspace, (lines, reader, writer), wanted)
        }
        Property::Facts(writer, wanted) => are_facts(rt, alloc, &workspace, writer, wanted),
        Property::Turns(lines, wanted) => are_turns(rt, alloc, workspace, lines, wanted),
    }
}

/// Whether this holds of the workspace of a bundle.
pub fn has<R: Threads + Wait + RandomSource + Sync>(
    rt: &R,
    alloc: Global,
    bundle: &[u8],
    property: Property,
) -> Result<bool, AllocError> {
    match read_bundle(alloc, &mut make_drip(bundle, 0)) {
        Ok(workspace) => holds(rt, alloc, workspace, property),
        Err(_) => Ok(false),
    }
}

/// Lines with a file that is put and a reload.
const EDITS: &[u8] = b"=== put 4 b\nabc\n\n=== reload\n//a:x\n";

const BUNDLE: &[u8] = b"=== a/BUILD\nfilegroup(name = \"x\")\n";

/// A session ends where the reader of queries or the writer of blocks fails.
#[test]
fn answer_each_query(rt: HostRuntime) -> Result<(), AllocError> {
    for (lines, reader, writer, wanted) in SESSIONS {
        let property = Property::Session(*lines, *reader, *writer, *wanted);
        assert!(rt;
            has(&rt, rt.alloc(), BUNDLE, property)?,
            "calls {reader} and {writer}"
        );
    }
    Ok(())
}

/// The lines of queries, the calls at which the reader and the writer fail, and what is written.
const SESSIONS: &[(&[u8], u64, u64, &[u8])] = &[
    (b"//a:x\n//a:x\n", 7, 0, b"=== 0 1 //a:x\n//a:x\n"),
    (b"//a:x\n//a:x\n", 0, 5, b"=== "),
    // within a file that is put
    (
        b"//a:x\n=== put 3 b\nabc\n",
        20,
        0,
        b"=== 0 1 //a:x\n//a:x\n",
    ),
    (b"=== put 0 b\n\n=== reload\n", 0, 5, b"=== "),
];

#[test]
fn write_facts(rt: HostRuntime) -> Result<(), AllocError> {
    let property = Property::Facts(5, b"{\"fa");
    assert!(rt; has(&rt, rt.alloc(), b"=== a/BUILD\n", property)?);
    Ok(())
}

/// Each block is written before the next query is asked for.
#[test]
fn answer_in_turn(rt: HostRuntime) -> Result<(), AllocError> {
    let property = Property::Turns(b"//a:x\n//a:y\n//a:x\n", &[0, 20, 60, 80]);
    assert!(rt; has(&rt, rt.alloc(), BUNDLE, property)?);
    let edits = Property::Turns(EDITS, &[0, 0, 0, 0, 19, 39]);
    assert!(rt; has(&rt, rt.alloc(), BUNDLE, edits)?);
    Ok(())
}
