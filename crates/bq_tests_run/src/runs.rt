//! Whole runs over devices that give one byte a call, and over devices that fail.

use crate::devices::{make_drip, make_sip};
use crate::options::options;
use crate::statuses::is_ended;
use bq_run::{Counted, run};
use std::alloc::{AllocError, Global};
use std::random::RandomSource;
use std::sync::Wait;
use std::thread::Threads;

/// A bundle, a query, the number of workers and the most steps.
#[derive(Clone, Copy)]
pub struct Case<'a> {
    pub bundle: &'a [u8],
    pub query: &'a [u8],
    pub jobs: u32,
    pub steps: u64,
}

/// The calls at which the devices of a run fail, 0 for none.
#[derive(Clone, Copy)]
pub struct Failing {
    reader: u64,
    writer: u64,
    faults_writer: u64,
    /// A writer fails by taking nothing, without an error.
    quietly: bool,
}

pub const UNFAILING: Failing = Failing {
    reader: 0,
    writer: 0,
    faults_writer: 0,
    quietly: false,
};

/// What a run gives: the text of the faults, the answer, the line that names the error, the status and how many calls failed.
#[derive(Clone, Copy)]
pub struct Given<'a> {
    pub faults: &'a [u8],
    pub answer: &'a [u8],
    pub line: &'a [u8],
    pub status: u8,
    pub failures: u64,
}

/// Whether a run over devices of one byte a call gives this.
pub fn gives<R: Threads + Wait + RandomSource + Sync>(
    rt: &R,
    alloc: Global,
    case: Case<'_>,
    failing: Failing,
    wanted: Given<'_>,
) -> Result<bool, AllocError> {
    let asked = options(alloc, case.query, case.jobs, case.steps)?;
    let mut reader = make_drip(case.bundle, failing.reader);
    let mut writer = make_sip(alloc, failing.writer, failing.quietly);
    let mut faults = make_sip(alloc, failing.faults_writer, failing.quietly);
    let ended = run(rt, alloc, &mut reader, &mut writer, &mut faults, &asked);
    let failures = reader
        .failures()
        .wrapping_add(writer.failures())
        .wrapping_add(faults.failures());
    let is_written = faults.device.held.as_slice() == wanted.faults
        && writer.device.held.as_slice() == wanted.answer
        && failures == wanted.failures;
    drop(asked);
    drop(writer);
    drop(faults);
    Ok(is_written && is_ended(alloc, ended, wanted.status, wanted.line)?)
}

/// Two packages, of which one is faulty. The bundle has 71 bytes.
const BUNDLE: &[u8] =
    b"=== a/BUILD\nfilegroup(name = \"x\", srcs = [\"s.txt\"])\n=== b/BUILD\nnone()\n";

const FAULT: &[u8] = b"//b:BUILD:1: F20 UnknownName none\n";

const READ: &[u8] = b"bq: E2 Read\n";

const WRITE: &[u8] = b"bq: E3 Write\n";

const NO_TARGET: &[u8] = b"bq: Q5 NoSuchTarget //a:none\n";

fn make_given<'a>(
    faults: &'a [u8],
    answer: &'a [u8],
    line: &'a [u8],
    status: u8,
    failures: u64,
) -> Given<'a> {
    Given {
        faults,
        answer,
        line,
        status,
        failures,
    }
}

fn query_on<'a>(bundle: &'a [u8], query: &'a [u8], jobs: u32) -> Case<'a> {
    Case {
        bundle,
        query,
        jobs,
        steps: 1_000_000,
    }
}

/// A failed write of the answer ends the run: the writer holds a beginning of the answer, and the faults are whole.
/// Where the query names no target, the faults are written and the writer gets nothing.
#[test]
fn fails_with_its_writer(rt: HostRuntime) -> Result<(), AllocError> {
    for (
        query,
        writer,
        faults_writer,
        quietly,
        faults,
        answer,
        line,
        status,
        failures,
    ) in FAILING_WRITERS {
        let failing = Failing {
            reader: 0,
            writer: *writer,
            faults_writer: *faults_writer,
            quietly: *quietly,
        };
        let wanted = make_given(faults, answer, line, *status, *failures);
        let found = gives(&rt, rt.alloc(), query_on(BUNDLE, query, 4), failing, wanted)?;
        assert!(rt; found, "call {writer} or {faults_writer}");
    }
    Ok(())
}

/// A query, the call at which the writer fails, the one at which the writer of the faults does, whether quietly, and what is given.
const FAILING_WRITERS: &[(&[u8], u64, u64, bool, &[u8], &[u8], &[u8], u8, u64)] = &[
    (b"//a:x", 1, 0, false, FAULT, b"", WRITE, 5, 1),
    (b"//a:x", 6, 0, false, FAULT, b"//a:x", WRITE, 5, 1),
    (b"//a:x", 3, 0, true, FAULT, b"//", WRITE, 5, 1),
    (b"//a:none", 1, 0, false, FAULT, b"", NO_TARGET, 2, 0),
    (b"//a:none", 0, 3, false, b"//", b"", WRITE, 5, 1),
];

/// A failed read ends the run, and nothing is written; the read at the end of the bundle is one too.
#[test]
fn fails_with_its_reader(rt: HostRuntime) -> Result<(), AllocError> {
    for (first, last, faults, answer, line, status, failures) in FAILING_READER {
        let wanted = make_given(faults, answer, line, *status, *failures);
        for reader in *first..*last {
            let failing = Failing {
                reader,
                ..UNFAILING
            };
            let found = gives(
                &rt,
                rt.alloc(),
                query_on(BUNDLE, b"//a:x", 4),
                failing,
                wanted,
            )?;
            assert!(rt; found, "call {reader}");
        }
    }
    Ok(())
}

/// The first call at which the reader fails, the one after the last, and what is given at each.
const FAILING_READER: &[(u64, u64, &[u8], &[u8], &[u8], u8, u64)] = &[
    (1, 73, b"", b"", READ, 5, 1),
    (73, 74, FAULT, b"//a:x\n", b"", 3, 0),
];

/// A writer of a run.
#[derive(Clone, Copy)]
enum Writer {
    Faults,
    Answer,
}

impl Writer {
    /// Fails at this call of this writer.
    fn failing(self, call: u64, quietly: bool) -> Failing {
        match self {
            Writer::Faults => Failing {
                faults_writer: call,
                quietly,
                ..UNFAILING
            },
            Writer::Answer => Failing {
                writer: call,
                quietly,
                ..UNFAILING
            },
        }
    }

    /// How many bytes this writer gets, one a call.
    fn calls(self, whole: Given<'_>) -> usize {
        match self {
            Writer::Faults => whole.faults.len(),
            Writer::Answer => whole.answer.len(),
        }
    }
}

/// The first bytes of a text.
fn beginning(text: &[u8], len: usize) -> &[u8] {
    match text.split_at_checked(len) {
        Some((begun, _)) => begun,
        None => text,
    }
}

/// What a run gives where a writer fails after so many bytes: it holds these, and the writer of the answer has got nothing before the
/// faults are whole.
fn given_after<'a>(whole: Given<'a>, writer: Writer, len: usize) -> Given<'a> {
    let failed = Given {
        line: WRITE,
        status: 5,
        failures: 1,
        ..whole
    };
    match writer {
        Writer::Faults => Given {
            faults: beginning(whole.faults, len),
            answer: b"",
            ..failed
        },
        Writer::Answer => Given {
            answer: beginning(whole.answer, len),
            ..failed
        },
    }
}

/// Whether a run whose writer fails after so many bytes, with an error or by taking nothing, gives this.
fn gives_after<R: Threads + Wait + RandomSource + Sync>(
    rt: &R,
    alloc: Global,
    case: Case<'_>,
    writer: Writer,
    len: usize,
    wanted: Given<'_>,
) -> Result<bool, AllocError> {
    let call = (len as u64).saturating_add(1);
    let loud = gives(rt, alloc, case, writer.failing(call, false), wanted)?;
    let quiet = gives(rt, alloc, case, writer.failing(call, true), wanted)?;
    Ok(loud && quiet)
}

/// Whether a run gives this, wherever a writer fails; there is no call after so many.
fn fails_at_each<R: Threads + Wait + RandomSource + Sync>(
    rt: &R,
    alloc: Global,
    case: Case<'_>,
    writer: Writer,
    calls: usize,
    whole: Given<'_>,
) -> Result<bool, AllocError> {
    for len in 0..calls {
        if !gives_after(
            rt,
            alloc,
            case,
            writer,
            len,
            given_after(whole, writer, len),
        )? {
            return Ok(false);
        }
    }
    gives_after(rt, alloc, case, writer, calls, whole)
}

/// A text of these parts.
fn joined(alloc: Global, parts: &[&[u8]]) -> Result<Vec<u8>, AllocError> {
    let mut whole = Vec::new(alloc);
    for part in parts {
        whole.extend_from_slice(part)?;
    }
    Ok(whole)
}

/// Where a writer fails, at whatever call, each writer holds a beginning of its text, and the writer of the answer
/// nothing before the faults are whole.
#[test]
fn fails_at_each_write(rt: HostRuntime) -> Result<(), AllocError> {
    for (bundle, query, writer, calls, faults, answer, line, status) in FAILING_AT_EACH {
        let faults = joined(rt.alloc(), faults)?;
        let whole = make_given(&faults, answer, line, *status, 0);
        let counted = writer.calls(whole) == *calls;
        let found = fails_at_each(
            &rt,
            rt.alloc(),
            query_on(bundle, query, 1),
            *writer,
            *calls,
            whole,
        );
        drop(faults);
        assert!(rt; counted && found?, "{calls} calls");
    }
    Ok(())
}

const ONE: &[u8] = b"=== a/BUILD\nfilegroup(name = \"x\")\n=== b/BUILD\nnone()\n";

const TWO: &[u8] =
    b"=== a/BUILD\nfilegroup(name = \"x\", srcs = [\"s\"])\nfilegroup(name = \"y\", srcs = [\":x\"])\n";

const LONG: &[u8] = b"=== b/BUILD\nprint(\"p\" * 1024)\nfail(\"f\")\n";

const PRINTED: &[u8] = &[b'p'; 1024];

/// A bundle, a query, the writer that fails, at how many calls it may, and what is given by a run that doesn't fail, the faults in parts.
/// With a query that names no target the faults are written too; a long text is written in parts.
const FAILING_AT_EACH: &[(&[u8], &[u8], Writer, usize, &[&[u8]], &[u8], &[u8], u8)] = &[
    (
        ONE,
        b"//a:x",
        Writer::Answer,
        6,
        &[FAULT],
        b"//a:x\n",
        b"",
        3,
    ),
    (
        ONE,
        b"//a:x",
        Writer::Faults,
        34,
        &[FAULT],
        b"//a:x\n",
        b"",
        3,
    ),
    (
        ONE,
        b"//a:none",
        Writer::Answer,
        0,
        &[FAULT],
        b"",
        NO_TARGET,
        2,
    ),
    (
        ONE,
        b"//a:none",
        Writer::Faults,
        34,
        &[FAULT],
        b"",
        NO_TARGET,
        2,
    ),
    (
        TWO,
        b"deps(//a:y)",
        Writer::Answer,
        18,
        &[],
        b"//a:s\n//a:x\n//a:y\n",
        b"",
        0,
    ),
    (
        LONG,
        b"//...",
        Writer::Faults,
        1062,
        &[b"//b:BUILD: ", PRINTED, b"\n//b:BUILD:2: F56 Fail \"f\"\n"],
        b"",
        b"",
        3,
    ),
];
