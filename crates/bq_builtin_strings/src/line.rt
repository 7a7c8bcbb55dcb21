//! The lines of a text.

ghost use Rattle.std.specs.Prelude.{◌≡◌, ◌≤◌, ◌<◌, IfOk, length, map};
ghost use Rattle.bq_builtin_strings.specs.Line.{line_len, line_ends, bare, part, lines};

use bq_base::Bytes;
use std::alloc::{AllocError, Global};

/// Returns whether a line ends with `byte`, where `after` is what comes after it: at a newline, and at a carriage
/// return that no newline comes after.
fn line_ends(byte: u8, after: &[u8]) -> bool
    ensures { result ≡ line_ends byte after.now }
{
    byte == b'\n' || (byte == b'\r' && !after.starts_with(b"\n"))
}

/// Returns the length of the first line, with its end.
fn line_len(text: &[u8]) -> usize
    ensures len { result ≡ line_len text.now }
    ensures within { result ≤ length text.now }
    ensures some { 0 < length text.now → 0 < result }
{
    for at in 0..text.len() {
        if line_ends(text[at], &text[at + 1..]) {
            return at + 1;
        }
    }
    text.len()
}

/// Returns a line without its end.
#[tactic(auto, unfolding(crate::specs::Line::bare))]
fn bare(line: &[u8]) -> &[u8]
    ensures { result.now ≡ bare line.now }
{
    if line.ends_with(b"\r\n") {
        return &line[..line.len() - 2];
    }
    if line.ends_with(b"\n") || line.ends_with(b"\r") {
        return &line[..line.len() - 1];
    }
    line
}

/// Returns a line with its end or without.
fn part(line: &[u8], keep_end: bool) -> &[u8]
    ensures { result.now ≡ part keep_end line.now }
{
    if keep_end { line } else { bare(line) }
}

/// Returns the lines of the text, with their ends or without.
pub fn lines(alloc: Global, text: &[u8], keep_ends: bool) -> Result<Vec<Bytes>, AllocError>
    ensures { IfOk result (λ parts. parts.items ≡ map (part keep_ends) (lines text.now)) }
{
    let mut parts = Vec::new(alloc);
    let mut rest = text;
    while !rest.is_empty() {
        let (line, after) = rest.split_at(line_len(rest));
        parts.push(Bytes::from_slice(alloc, part(line, keep_ends))?)?;
        rest = after;
    }
    Ok(parts)
}
