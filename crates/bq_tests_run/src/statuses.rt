//! The exit status and the error line of each ending.

use crate::devices::make_sip;
use bq_base::Bytes;
use bq_run::{QueryErr, RunErr, Status, status_code, status_of, write_status_line};
use std::alloc::{AllocError, Global};

/// An ending of a run, an error by the number that users see.
#[derive(Clone, Copy)]
enum Ending {
    Ended(Status),
    Run(u64),
    Query(u64, &'static [u8]),
}

/// The error of a query with a detail.
fn query_error(number: u64, detail: Bytes) -> QueryErr {
    match number {
        2 => QueryErr::UnknownFunction(detail),
        3 => QueryErr::LeftOut(detail),
        5 => QueryErr::NoSuchTarget(detail),
        6 => QueryErr::NoSuchPackage(detail),
        _ => QueryErr::UnboundVariable(detail),
    }
}

/// The error of a run, or of a query without a detail.
fn run_error(number: u64, of_query: bool) -> RunErr {
    match (number, of_query) {
        (1, false) => RunErr::Memory,
        (2, false) => RunErr::Read,
        (3, false) => RunErr::Write,
        (4, false) => RunErr::Bundle,
        (6, false) => RunErr::Schema(4294967295),
        (_, false) => RunErr::TooManyModules,
        (1, true) => RunErr::Query(QueryErr::Syntax),
        (4, true) => RunErr::Query(QueryErr::BadRegex),
        (_, true) => RunErr::Query(QueryErr::Arguments),
    }
}

fn ended_by(alloc: Global, ending: Ending) -> Result<Result<Status, RunErr>, AllocError> {
    match ending {
        Ending::Ended(status) => Ok(Ok(status)),
        Ending::Run(number) => Ok(Err(run_error(number, false))),
        Ending::Query(number, b"") => Ok(Err(run_error(number, true))),
        Ending::Query(number, detail) => match Bytes::from_slice(alloc, detail) {
            Ok(detail) => Ok(Err(RunErr::Query(query_error(number, detail)))),
            Err(error) => Err(error),
        },
    }
}

/// Whether a run ended with this status and this line.
pub fn is_ended(
    alloc: Global,
    ended: Result<Status, RunErr>,
    wanted: u8,
    line: &[u8],
) -> Result<bool, AllocError> {
    let code = status_code(&ended);
    let found = status_of(alloc, &ended);
    drop(ended);
    let (status, text) = found?;
    Ok(status == wanted && code == wanted && text.as_slice() == line)
}

/// Whether this is the line in pieces to a writer.
fn is_line(alloc: Global, ended: &Result<Status, RunErr>, line: &[u8]) -> bool {
    let mut writer = make_sip(alloc, 0, false);
    let written = write_status_line(&mut writer, ended);
    written.is_ok() && writer.device.held.as_slice() == line
}

#[test]
fn names_each_ending(rt: HostRuntime) -> Result<(), AllocError> {
    for (ending, status, line) in ENDINGS {
        let ended = ended_by(rt.alloc(), *ending)?;
        let in_pieces = is_line(rt.alloc(), &ended, line);
        let at_once = is_ended(rt.alloc(), ended, *status, line)?;
        assert!(rt; in_pieces && at_once, "{}", line.escape_ascii());
    }
    Ok(())
}

const ENDINGS: &[(Ending, u8, &[u8])] = &[
    (Ending::Ended(Status::Answered), 0, b""),
    (Ending::Ended(Status::WithFaults), 3, b""),
    (Ending::Run(1), 4, b"bq: E1 Memory\n"),
    (Ending::Run(2), 5, b"bq: E2 Read\n"),
    (Ending::Run(3), 5, b"bq: E3 Write\n"),
    (Ending::Run(4), 2, b"bq: E4 Bundle\n"),
    (Ending::Query(1, b""), 2, b"bq: Q1 Syntax\n"),
    (Ending::Query(2, b"foo"), 2, b"bq: Q2 UnknownFunction foo\n"),
    (
        Ending::Query(3, b"somepath"),
        2,
        b"bq: Q3 LeftOut somepath\n",
    ),
    (Ending::Query(4, b""), 2, b"bq: Q4 BadRegex\n"),
    (
        Ending::Query(5, b"//a:none"),
        2,
        b"bq: Q5 NoSuchTarget //a:none\n",
    ),
    (
        Ending::Query(6, b"@r//b:x"),
        2,
        b"bq: Q6 NoSuchPackage @r//b:x\n",
    ),
    (Ending::Query(7, b"v"), 2, b"bq: Q7 UnboundVariable v\n"),
    (Ending::Query(8, b""), 2, b"bq: Q8 Arguments\n"),
    (Ending::Run(6), 2, b"bq: E6 Schema 4294967295\n"),
    (Ending::Run(7), 2, b"bq: E7 TooManyModules\n"),
];
