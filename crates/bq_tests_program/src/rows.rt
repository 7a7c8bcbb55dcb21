//! Tables as texts, each row of which is asserted.
//!
//! A row is a line, its cells stand between bars, and the answer that is wanted in the last cell.
//!
//! The blanks around a cell are not part of it. In a cell `\n`, `\r`, `\t`, `\\` and `\xNN` stand for bytes as in Rust; so a bar
//! is `\x7c` there, and a blank at its end `\x20`. Empty lines are skipped, and so are lines that begin with `#`.

use std::alloc::{AllocError, Global};
use std::process::Abort;

/// The cells of a row but for the last.
#[derive(Clone, Copy)]
pub struct Row<'a> {
    cells: &'a [u8],
}

/// A call with its arguments in the cells of a row.
pub trait Subject {
    /// The answer for this row, whose first cell stands for this text.
    fn answer(&self, alloc: Global, text: &[u8], row: Row) -> Result<Vec<u8>, AllocError>;
}

impl<'a> Row<'a> {
    /// The bytes that this cell stands for, from 0. None where the row has none.
    pub fn bytes(self, alloc: Global, index: usize) -> Result<Vec<u8>, AllocError> {
        match self.cells.split(|byte| *byte == b'|').nth(index) {
            Some(cell) => bytes_of(alloc, cell.trim_ascii()),
            None => Ok(Vec::new(alloc)),
        }
    }
}

fn byte_at(text: &[u8], at: usize) -> u8 {
    match text.get(at) {
        Some(byte) => *byte,
        None => 0,
    }
}

fn hexadecimal(digit: u8) -> u8 {
    match digit {
        b'0'..=b'9' => digit - b'0',
        b'a'..=b'f' => digit - b'a' + 10,
        _ => 0,
    }
}

fn escaped(letter: u8) -> u8 {
    match letter {
        b'n' => b'\n',
        b'r' => b'\r',
        b't' => b'\t',
        _ => letter,
    }
}

/// The first byte that a text stands for, and how much of the text it takes.
fn first_byte(text: &[u8]) -> (u8, usize) {
    if byte_at(text, 0) != b'\\' {
        return (byte_at(text, 0), 1);
    }
    match byte_at(text, 1) {
        b'x' => {
            let high = hexadecimal(byte_at(text, 2));
            let low = hexadecimal(byte_at(text, 3));
            (high.wrapping_mul(16).wrapping_add(low), 4)
        }
        letter => (escaped(letter), 2),
    }
}

/// The bytes that a text stands for.
fn bytes_of(alloc: Global, text: &[u8]) -> Result<Vec<u8>, AllocError> {
    let mut bytes = Vec::new(alloc);
    let mut next = 0;
    for at in 0..text.len() {
        if at == next {
            let (byte, len) = first_byte(&text[at..]);
            bytes.push(byte)?;
            next = at.saturating_add(len);
        }
    }
    Ok(bytes)
}

/// A row's cells but for the last, and the last one.
fn split_row(line: &[u8]) -> (Row<'_>, &[u8]) {
    match line.iter().rposition(|byte| *byte == b'|') {
        Some(bar) => {
            let (cells, last) = line.split_at(bar);
            (Row { cells }, last[1..].trim_ascii())
        }
        None => (Row { cells: line }, b""),
    }
}

/// The answer to the row of a line, where it isn't the one that is wanted.
fn wrong_answer(
    alloc: Global,
    line: &[u8],
    subject: &impl Subject,
) -> Result<Option<Vec<u8>>, AllocError> {
    let (row, wanted) = split_row(line);
    let text = row.bytes(alloc, 0)?;
    let found = subject.answer(alloc, &text, row);
    drop(text);
    let wanted = bytes_of(alloc, wanted)?;
    let found = found?;
    if found == wanted {
        return Ok(None);
    }
    Ok(Some(found))
}

/// Goes through a table: each row has the answer that is wanted.
pub fn check_rows(
    rt: &impl Abort,
    alloc: Global,
    table: &str,
    subject: &impl Subject,
) -> Result<(), AllocError> {
    for line in table.as_bytes().split(|byte| *byte == b'\n') {
        if matches!(line, [] | [b'#', ..]) {
            continue;
        }
        match wrong_answer(alloc, line, subject)? {
            None => {}
            Some(found) => panic!(rt; "{}: {}", line.escape_ascii(), found.escape_ascii()),
        }
    }
    Ok(())
}
