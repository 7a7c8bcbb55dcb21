//! Shares of bytes, and the texts of faults and errors: what of them no program shows.
//!
//! What owns bytes or an error is one function for a row of a table, and drops it before anything else can fail: the prover follows each
//! way out with all that a function owns.

use bq_base::{Bytes, Fault, FaultKind};
use bq_query_lex::QueryErr;
use std::alloc::{AllocError, Global};

#[test]
fn numbers_and_names(rt: HostRuntime) {
    for (kind, number, name) in KINDS {
        assert!(rt; kind.number() == *number && kind.name() == *name);
    }
}

const KINDS: &[(FaultKind, u32, &str)] = &[
    (FaultKind::BadByte, 1, "BadByte"),
    (FaultKind::LeftOut, 12, "LeftOut"),
    (FaultKind::WrongType, 40, "Type"),
    (FaultKind::DoubleTarget, 74, "DoubleTarget"),
    (FaultKind::Schema, 80, "Schema"),
];

/// F35 with this detail.
fn fault(alloc: Global, detail: &[u8]) -> Result<Fault<FaultKind>, AllocError> {
    Ok(Fault {
        kind: FaultKind::CycleReached,
        line: 1,
        detail: Bytes::from_slice(alloc, detail)?,
    })
}

/// Whether it is shown so.
fn is_shown(alloc: Global, detail: &[u8], wanted: &str) -> Result<bool, AllocError> {
    let fault = fault(alloc, detail)?;
    let found = format!(in alloc; "{fault}");
    drop(fault);
    Ok(found?.as_str() == wanted)
}

#[test]
fn shows_faults(rt: HostRuntime) -> Result<(), AllocError> {
    let alloc = rt.alloc();
    assert!(rt; is_shown(alloc, b"//:b.bzl", "line 1: F35 CycleReached //:b.bzl")?);
    assert!(rt; is_shown(alloc, b"", "line 1: F35 CycleReached")?);
    Ok(())
}

/// Bytes with room for a thousand.
fn roomy(alloc: Global, bytes: &[u8]) -> Result<Bytes, AllocError> {
    let mut held = Vec::with_capacity(alloc, 1000)?;
    held.extend_from_slice(bytes)?;
    Bytes::from_vec(alloc, held)
}

/// The room that an owner gets, if there was no lack of memory before.
fn room(alloc: Global, bytes: Result<Bytes, AllocError>) -> Result<usize, AllocError> {
    Ok(bytes?.into_vec(alloc)?.capacity())
}

/// Whether a share's copy has the room that was asked for, as wanted, and then what the last owner gets back.
fn have_room(alloc: Global, bytes: &[u8], copy: bool, own: bool) -> Result<bool, AllocError> {
    let bytes = roomy(alloc, bytes)?;
    let copied = room(alloc, bytes.share());
    let kept = room(alloc, Ok(bytes));
    Ok((copied? >= 1000) == copy && (kept? >= 1000) == own)
}

const TEXT: &[u8] = b"a text that is too long to lie in place\n";

/// Another owner takes a copy; the only owner gets the bytes themselves back. Few bytes lie in place and are copied always.
#[test]
fn shares_one_copy(rt: HostRuntime) -> Result<(), AllocError> {
    let alloc = rt.alloc();
    assert!(rt; have_room(alloc, TEXT, false, true)?);
    assert!(rt; have_room(alloc, b"\n", false, false)?);
    Ok(())
}

fn has_text(alloc: Global, bytes: &Bytes, wanted: &str) -> Result<bool, AllocError> {
    let found = format!(in alloc; "{bytes:?}")?;
    Ok(found.as_str() == wanted)
}

/// Whether a share of bytes has this length and this text.
fn share_shows(alloc: Global, bytes: Bytes, len: usize, wanted: &str) -> Result<bool, AllocError> {
    let share = bytes.share();
    let found = match &share {
        Ok(share) if share.len() == len && share.is_empty() == (len == 0) => {
            has_text(alloc, share, wanted)
        }
        _ => Ok(false),
    };
    drop(share);
    drop(bytes);
    found
}

#[test]
fn shows_bytes(rt: HostRuntime) -> Result<(), AllocError> {
    let alloc = rt.alloc();
    let shown = r"a text that is too long to lie in place\n";
    assert!(rt; share_shows(alloc, roomy(alloc, TEXT)?, 40, shown)?);
    assert!(rt; share_shows(alloc, roomy(alloc, b"\n")?, 1, r"\n")?);
    assert!(rt; share_shows(alloc, Bytes::empty(), 0, "")?);
    Ok(())
}

/// An error without detail, by the number that users see.
fn error_of(number: u64) -> QueryErr {
    match number {
        1 => QueryErr::Syntax,
        4 => QueryErr::BadRegex,
        8 => QueryErr::Arguments,
        _ => QueryErr::Memory,
    }
}

fn is_titled(number: u64, wanted: &str) -> bool {
    let error = error_of(number);
    let found = error.title() == wanted && error.detail().is_empty();
    drop(error);
    found
}

#[test]
fn titles_of_query_errors(rt: HostRuntime) {
    for (number, title) in TITLES {
        assert!(rt; is_titled(*number, title));
    }
}

const TITLES: &[(u64, &str)] = &[
    (1, "Q1 Syntax"),
    (4, "Q4 BadRegex"),
    (8, "Q8 Arguments"),
    (9, "Q9 Memory"),
];
